//! Files that are loaded, and words that are not taken.

use crate::running::{Given, ended, over, run_vata};

const ALL: &[u8] =
    b"Ops a:0 f:2\nAutomaton all\nStates q\nFinal States q\nTransitions\na -> q\nf(q,q) -> q\n";

#[test]
fn load_answers_each_file(rt: HostRuntime) {
    let alloc = rt.alloc();
    for (name, file, status, out, diag) in [
        ("a plain file", ALL, 0, ALL, b"".as_slice()),
        (
            "rules in another order",
            b"Ops a:0 f:2\nAutomaton all\nStates q\nFinal States q\nTransitions\nf(q,q) -> q\na -> q\n".as_slice(),
            0,
            ALL,
            b"".as_slice(),
        ),
        (
            "no symbol, state or rule",
            b"Ops\nAutomaton e\nStates\nFinal States\nTransitions\n".as_slice(),
            0,
            b"Ops\nAutomaton e\nStates\nFinal States\nTransitions\n".as_slice(),
            b"".as_slice(),
        ),
        (
            "rules by parent, then symbol, then children",
            b"Ops nil:0 cons:2 zero:0 succ:1\nAutomaton lists\nStates q0 q1 q2\nFinal States q2 q0\nTransitions\nnil -> q2\nzero -> q0\nsucc(q0) -> q1\nsucc(q1) -> q0\ncons(q0,q2) -> q2\n".as_slice(),
            0,
            b"Ops nil:0 cons:2 zero:0 succ:1\nAutomaton lists\nStates q0 q1 q2\nFinal States q0 q2\nTransitions\nzero -> q0\nsucc(q1) -> q0\nsucc(q0) -> q1\nnil -> q2\ncons(q0,q2) -> q2\n".as_slice(),
            b"".as_slice(),
        ),
        (
            "one name under two ranks",
            b"Ops a:0 a:2\nAutomaton two\nStates q\nFinal States q\nTransitions\na(q,q) -> q\na -> q\n".as_slice(),
            0,
            b"Ops a:0 a:2\nAutomaton two\nStates q\nFinal States q\nTransitions\na -> q\na(q,q) -> q\n".as_slice(),
            b"".as_slice(),
        ),
        (
            "no symbol, state or rule, on one line",
            b"Ops Automaton e States Final States Transitions".as_slice(),
            0,
            b"Ops\nAutomaton e\nStates\nFinal States\nTransitions\n".as_slice(),
            b"".as_slice(),
        ),
        (
            "a leaf with brackets, digits behind a state, a rule twice",
            b"Ops Automaton x States Final States q0 Transitions a()->q0 a -> q0:0".as_slice(),
            0,
            b"Ops a:0\nAutomaton x\nStates q0\nFinal States q0\nTransitions\na -> q0\n".as_slice(),
            b"".as_slice(),
        ),
        (
            "one name under two ranks, on one line",
            b"Ops a:0 a:2 Automaton two States q Final States q Transitions a(q,q) -> q a -> q".as_slice(),
            0,
            b"Ops a:0 a:2\nAutomaton two\nStates q\nFinal States q\nTransitions\na -> q\na(q,q) -> q\n".as_slice(),
            b"".as_slice(),
        ),
        (
            "a file as users write it",
            b"Ops nil:0 cons:2 zero:0 succ:1\n\nAutomaton lists\nStates q0:0 q1:0 q2:0\nFinal States q2\nTransitions\nnil() -> q2\nzero() -> q0\nsucc(q0) -> q1\nsucc(q1) -> q0\ncons(q0,q2) -> q2\n".as_slice(),
            0,
            b"Ops nil:0 cons:2 zero:0 succ:1\nAutomaton lists\nStates q0 q1 q2\nFinal States q2\nTransitions\nzero -> q0\nsucc(q1) -> q0\nsucc(q0) -> q1\nnil -> q2\ncons(q0,q2) -> q2\n".as_slice(),
            b"".as_slice(),
        ),
        (
            "a name that ends in a dash before an arrow",
            b"Ops Automaton d States Final States q Transitions a-->q".as_slice(),
            0,
            b"Ops a-:0\nAutomaton d\nStates q\nFinal States q\nTransitions\na- -> q\n".as_slice(),
            b"".as_slice(),
        ),
        (
            "leading zeros, a number past 64 bits, other blanks",
            b"Ops f:002 f:2\tAutomaton 7\r\nStates 0:99999999999999999999 0 Final States 0 0 Transitions f ( 0 , p:1 ) -> p".as_slice(),
            0,
            b"Ops f:2\nAutomaton 7\nStates 0 p\nFinal States 0\nTransitions\nf(0,p) -> p\n".as_slice(),
            b"".as_slice(),
        ),
        (
            "no name",
            b"Ops Automaton States Final States Transitions".as_slice(),
            0,
            b"Ops\nAutomaton anonymous\nStates\nFinal States\nTransitions\n".as_slice(),
            b"".as_slice(),
        ),
        (
            "a rule cut off",
            b"Ops a:0 f:2\nAutomaton all\nStates q\nFinal States q\nTransitions\na -> q\nf(q,".as_slice(),
            4,
            b"".as_slice(),
            b"syntax: file 1 at 73\n".as_slice(),
        ),
        (
            "a rank of 33",
            b"Ops a:33 Automaton x States Final States Transitions".as_slice(),
            5,
            b"".as_slice(),
            b"limit: file 1 rank at 6\n".as_slice(),
        ),
        (
            "a rank of 33 before a bad place",
            b"Ops a:33 )".as_slice(),
            5,
            b"".as_slice(),
            b"limit: file 1 rank at 6\n".as_slice(),
        ),
        (
            "a rank of 33 behind a bad place",
            b"Ops ) a:33".as_slice(),
            4,
            b"".as_slice(),
            b"syntax: file 1 at 4\n".as_slice(),
        ),
        (
            "a rank past 128 bits",
            b"Ops a:0340282366920938463463374607431768211456".as_slice(),
            5,
            b"".as_slice(),
            b"limit: file 1 rank at 6\n".as_slice(),
        ),
        (
            "a rule of 33 children",
            b"Ops Automaton x States Final States Transitions f(a,a,a,a,a,a,a,a,a,a,a,a,a,a,a,a,a,a,a,a,a,a,a,a,a,a,a,a,a,a,a,a,b)->a".as_slice(),
            5,
            b"".as_slice(),
            b"limit: file 1 rank at 114\n".as_slice(),
        ),
        (
            "no rank",
            b"Ops a:b".as_slice(),
            4,
            b"".as_slice(),
            b"syntax: file 1 at 6\n".as_slice(),
        ),
        (
            "a section left out",
            b"  Ops Final".as_slice(),
            4,
            b"".as_slice(),
            b"syntax: file 1 at 6\n".as_slice(),
        ),
        (
            "no byte",
            b"".as_slice(),
            4,
            b"".as_slice(),
            b"syntax: file 1 at 0\n".as_slice(),
        ),
        (
            "a byte past ASCII",
            b"\x80".as_slice(),
            4,
            b"".as_slice(),
            b"syntax: file 1 at 0\n".as_slice(),
        ),
    ] {
        for piece in [1, 3, 1_000] {
            let given = Given {
                a: file,
                b: b"",
                c: b"",
                piece,
                unread: 0,
                unwritten: 0,
            };
            let ran = run_vata(&rt, alloc, "load a", given);
            ended(&rt, name, &ran, status, out, diag);
        }
    }
}

#[test]
fn words_that_are_not_taken(rt: HostRuntime) {
    let alloc = rt.alloc();
    for (words, line) in [
        ("", b"usage: no command\n".as_slice()),
        ("load -r", b"usage: missing value 2\n".as_slice()),
        ("lod a", b"usage: unknown word 1\n".as_slice()),
        ("-p sim a", b"usage: not for this command 1\n".as_slice()),
        ("incl a", b"usage: wrong number of files 1\n".as_slice()),
        ("incl -o budget=0 a a", b"usage: bad setting 3\n".as_slice()),
        ("-p -p load a", b"usage: repeated 2\n".as_slice()),
        ("bench 0", b"usage: bad setting 2\n".as_slice()),
        ("load -r bdd a", b"usage: not built yet\n".as_slice()),
        ("sim -r bdd a", b"usage: not built yet\n".as_slice()),
        ("incl -o dir=down a a", b"usage: not built yet\n".as_slice()),
    ] {
        let ran = run_vata(&rt, alloc, words, over(ALL, ALL, b""));
        ended(&rt, words, &ran, 2, b"", line);
    }
}

/// The third call of the files reads the end of the first one.
#[test]
fn faults_are_told(rt: HostRuntime) {
    let alloc = rt.alloc();
    for (words, unread, unwritten, status, out, diag) in [
        (
            "load other",
            0,
            0,
            6,
            b"".as_slice(),
            b"read fault: file 1\n".as_slice(),
        ),
        (
            "load a",
            3,
            0,
            6,
            b"".as_slice(),
            b"read fault: file 1\n".as_slice(),
        ),
        (
            "load a",
            0,
            2,
            7,
            b"Ops a:0".as_slice(),
            b"write fault\n".as_slice(),
        ),
    ] {
        let given = Given {
            a: ALL,
            b: b"",
            c: b"",
            piece: 1_000,
            unread,
            unwritten,
        };
        let ran = run_vata(&rt, alloc, words, given);
        ended(&rt, words, &ran, status, out, diag);
    }
}
