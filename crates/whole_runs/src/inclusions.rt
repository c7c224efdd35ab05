//! What `incl` answers, each answer judged by the checker.

use crate::running::{ended, over, run_check, run_vata};
use std::alloc::Global;
use std::process::Abort;

const ALL: &[u8] =
    b"Ops a:0 f:2\nAutomaton all\nStates q\nFinal States q\nTransitions\na -> q\nf(q,q) -> q\n";

const ONLY: &[u8] = b"Ops a:0\nAutomaton only\nStates r\nFinal States r\nTransitions\na -> r\n";

const EMPTY: &[u8] = b"Ops Automaton e States Final States Transitions";

const AB: &[u8] =
    b"Ops a:0 b:0\nAutomaton ab\nStates p r\nFinal States p r\nTransitions\na -> p\nb -> r\n";

const X1: &[u8] =
    b"Ops a:0 b:0\nAutomaton x1\nStates x\nFinal States x\nTransitions\na -> x\nb -> x\n";

/// Two states that the same leaf reaches, of which one is final.
const FINAL: &[u8] = b"Ops a:0 Automaton fin States q r Final States r Transitions a -> q a -> r";

const LISTS: &[u8] =
    b"Ops nil:0 cons:2 zero:0 succ:1\n\nAutomaton lists\nStates q0:0 q1:0 q2:0\nFinal States q2\nTransitions\nnil() -> q2\nzero() -> q0\nsucc(q0) -> q1\nsucc(q1) -> q0\ncons(q0,q2) -> q2\n";

const NATS: &[u8] =
    b"Ops nil:0 cons:2 zero:0 succ:1 Automaton nats States n l Final States l Transitions zero -> n succ(n) -> n nil -> l cons(n,l) -> l";

#[test]
fn inclusions_are_decided(rt: HostRuntime) {
    let alloc = rt.alloc();
    for (words, a, b, status, out, judged) in [
        (
            "incl a b",
            ONLY,
            ALL,
            0,
            b"included\ncertificate 1 up\nleft identity\nright identity\npairs 1\nr : q\n".as_slice(),
            b"accepted: included\n".as_slice(),
        ),
        (
            "incl a b",
            ALL,
            ONLY,
            1,
            b"not included\ncertificate 1 tree\nnodes 2\n1 a\n2 f(1,1)\n".as_slice(),
            b"accepted: not included\n".as_slice(),
        ),
        (
            "incl a b",
            EMPTY,
            ALL,
            0,
            b"included\ncertificate 1 up\nleft identity\nright identity\npairs 0\n".as_slice(),
            b"accepted: included\n".as_slice(),
        ),
        (
            "incl -o budget=1 a b",
            ALL,
            ALL,
            0,
            b"included\ncertificate 1 up\nleft identity\nright identity\npairs 1\nq : q\n".as_slice(),
            b"accepted: included\n".as_slice(),
        ),
        (
            "incl -o budget=1 a b",
            AB,
            X1,
            3,
            b"undecided\ncertificate 1 up-trail\nleft identity\nright identity\nbudget 1\nentries 2\np : x : a\nr : x : b\n".as_slice(),
            b"accepted: undecided\n".as_slice(),
        ),
        (
            "incl a b",
            LISTS,
            NATS,
            0,
            b"included\ncertificate 1 up\nleft identity\nright identity\npairs 3\nq0 : n\nq1 : n\nq2 : l\n".as_slice(),
            b"accepted: included\n".as_slice(),
        ),
        // The state that is below the other one has no pair of its own.
        (
            "incl -o sim=yes a b",
            FINAL,
            ALL,
            0,
            b"included\ncertificate 1 up\nleft rows\nc\n4\nright identity\npairs 1\nr : q\n".as_slice(),
            b"accepted: included\n".as_slice(),
        ),
        (
            "incl -o sim=yes,dir=up a b",
            ALL,
            ONLY,
            1,
            b"not included\ncertificate 1 tree\nnodes 2\n1 a\n2 f(1,1)\n".as_slice(),
            b"accepted: not included\n".as_slice(),
        ),
    ] {
        let ran = run_vata(&rt, alloc, words, over(a, b, b""));
        ended(&rt, words, &ran, status, out, b"");
        let checked = run_check(&rt, alloc, "a b c", over(a, b, ran.out.bytes()));
        ended(&rt, words, &checked, 0, judged, b"");
    }
}

/// `a -> s0`, `f(si,si) -> s(i+1)` for i below 40, and s40 final.
fn chain(rt: &impl Abort, alloc: Global) -> String {
    let mut text = String::from_str(
        alloc,
        "Ops Automaton chain States Final States s40 Transitions a -> s0",
    )
    .expect(rt, "memory");
    for i in 0..40u32 {
        let rule = format!(in alloc; " f(s{i},s{i}) -> s{}", i + 1).expect(rt, "memory");
        text.push_str(rule.as_str()).expect(rt, "memory");
    }
    text
}

/// Each of these trees is the only one, and has one node for each state.
#[test]
fn a_tree_is_told_by_shared_nodes(rt: HostRuntime) {
    let alloc = rt.alloc();
    let left = chain(&rt, alloc);
    let mut expected = String::from_str(
        alloc,
        "not included\ncertificate 1 tree\nnodes 41\n1 a\n",
    ).expect(&rt, "memory");
    for k in 1..41u32 {
        let node = format!(in alloc; "{} f({k},{k})\n", k + 1).expect(&rt, "memory");
        expected.push_str(node.as_str()).expect(&rt, "memory");
    }
    let ran = run_vata(&rt, alloc, "incl a b", over(left.as_bytes(), EMPTY, b""));
    ended(&rt, "a chain", &ran, 1, expected.as_bytes(), b"");
    let checked = run_check(
        &rt,
        alloc,
        "a b c",
        over(left.as_bytes(), EMPTY, ran.out.bytes()),
    );
    ended(
        &rt,
        "a chain",
        &checked,
        0,
        b"accepted: not included\n",
        b"",
    );
}

/// `a -> p` and `gi(p) -> p` for i below 40.
fn one_state(rt: &impl Abort, alloc: Global) -> String {
    let mut text = String::from_str(
        alloc,
        "Ops Automaton one States Final States p Transitions a -> p",
    )
    .expect(rt, "memory");
    for i in 0..40u32 {
        let rule = format!(in alloc; " g{i}(p) -> p").expect(rt, "memory");
        text.push_str(rule.as_str()).expect(rt, "memory");
    }
    text
}

/// `a -> x`, and `gi(x) -> x`, `gi(x) -> yi` and `gi(yj) -> yj` for i and j below 40.
fn many_states(rt: &impl Abort, alloc: Global) -> String {
    let mut text = String::from_str(
        alloc,
        "Ops Automaton many States Final States x Transitions a -> x",
    )
    .expect(rt, "memory");
    for i in 0..40u32 {
        let rule = format!(in alloc; " g{i}(x) -> x g{i}(x) -> y{i}").expect(rt, "memory");
        text.push_str(rule.as_str()).expect(rt, "memory");
        for k in 0..40u32 {
            let rule = format!(in alloc; " g{i}(y{k}) -> y{k}").expect(rt, "memory");
            text.push_str(rule.as_str()).expect(rt, "memory");
        }
    }
    text
}

/// One pair covers all that it leads to, so that the search ends within a budget of one.
#[test]
fn covered_pairs_are_dropped(rt: HostRuntime) {
    let alloc = rt.alloc();
    let left = one_state(&rt, alloc);
    let right = many_states(&rt, alloc);
    let given = over(left.as_bytes(), right.as_bytes(), b"");
    let ran = run_vata(&rt, alloc, "incl -o budget=1 a b", given);
    ended(
        &rt,
        "many sets",
        &ran,
        0,
        b"included\ncertificate 1 up\nleft identity\nright identity\npairs 1\np : x\n",
        b"",
    );
}

/// A relation of more than 20,000 states is not made.
#[test]
fn relations_are_limited(rt: HostRuntime) {
    let alloc = rt.alloc();
    let mut text = String::from_str(alloc, "Ops Automaton large States").expect(&rt, "memory");
    for i in 0..20_001u32 {
        let name = format!(in alloc; " q{i}").expect(&rt, "memory");
        text.push_str(name.as_str()).expect(&rt, "memory");
    }
    text.push_str(" Final States Transitions")
        .expect(&rt, "memory");
    let ran = run_vata(&rt, alloc, "incl a b", over(ALL, text.as_bytes(), b""));
    ended(&rt, "a large relation", &ran, 5, b"", b"limit: relation\n");
}
