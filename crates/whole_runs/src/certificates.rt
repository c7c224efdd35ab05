//! Evidence for inclusion, worked out by hand.

use crate::running::{ended, over, run_check};

const ALL: &[u8] =
    b"Ops a:0 f:2\nAutomaton all\nStates q\nFinal States q\nTransitions\na -> q\nf(q,q) -> q\n";

const ALL2: &[u8] =
    b"Ops a:0 f:2\nAutomaton all\nStates q u\nFinal States q\nTransitions\na -> q\nf(q,q) -> q\n";

const ONLY: &[u8] = b"Ops a:0\nAutomaton only\nStates r\nFinal States r\nTransitions\na -> r\n";

const AB: &[u8] =
    b"Ops a:0 b:0\nAutomaton ab\nStates p r\nFinal States p r\nTransitions\na -> p\nb -> r\n";

const X1: &[u8] =
    b"Ops a:0 b:0\nAutomaton x1\nStates x\nFinal States x\nTransitions\na -> x\nb -> x\n";

/// Two states that the same leaf reaches, of which one is final.
const FINAL: &[u8] = b"Ops a:0 Automaton fin States q r Final States r Transitions a -> q a -> r";

#[test]
fn upward_certificates_are_judged(rt: HostRuntime) {
    let alloc = rt.alloc();
    for (name, a, b, certificate, status, out, diag) in [
        (
            "one pair",
            ONLY,
            ALL,
            b"included\ncertificate 1 up\nleft identity\nright identity\npairs 1\nr : q\n".as_slice(),
            0,
            b"accepted: included\n".as_slice(),
            b"".as_slice(),
        ),
        (
            "a relation that is none",
            FINAL,
            ALL,
            b"included\ncertificate 1 up\nleft rows\n0\n8\nright identity\npairs 0\n".as_slice(),
            1,
            b"refused: condition 1 place 1\n".as_slice(),
            b"".as_slice(),
        ),
        (
            "a pair that rejects",
            ALL,
            ONLY,
            b"included\ncertificate 1 up\nleft identity\nright identity\npairs 1\nq :\n".as_slice(),
            1,
            b"refused: condition 2 place 1\n".as_slice(),
            b"".as_slice(),
        ),
        (
            "no pair for the leaf",
            ONLY,
            ALL2,
            b"included\ncertificate 1 up\nleft identity\nright identity\npairs 0\n".as_slice(),
            1,
            b"refused: condition 3 place 1\n".as_slice(),
            b"".as_slice(),
        ),
        (
            "a step to no state",
            ALL,
            ONLY,
            b"included\ncertificate 1 up\nleft identity\nright identity\npairs 1\nq : r\n".as_slice(),
            1,
            b"refused: condition 4 place 2\n".as_slice(),
            b"".as_slice(),
        ),
        (
            "a pair that another one covers",
            ONLY,
            ALL2,
            b"included\ncertificate 1 up\nleft identity\nright identity\npairs 2\nr : q\nr : q u\n".as_slice(),
            1,
            b"refused: condition 5 place 2\n".as_slice(),
            b"".as_slice(),
        ),
        (
            "no state of the second",
            ONLY,
            ALL,
            b"included\ncertificate 1 up\nleft identity\nright identity\npairs 1\nr : z\n".as_slice(),
            4,
            b"".as_slice(),
            b"name: file 3 at 67\n".as_slice(),
        ),
        (
            "no state of the first",
            ONLY,
            ALL,
            b"included\ncertificate 1 up\nleft identity\nright identity\npairs 1\nq : q\n".as_slice(),
            4,
            b"".as_slice(),
            b"name: file 3 at 63\n".as_slice(),
        ),
        (
            "a pair twice",
            ONLY,
            ALL,
            b"included\ncertificate 1 up\nleft identity\nright identity\npairs 2\nr : q\nr : q\n".as_slice(),
            4,
            b"".as_slice(),
            b"syntax: file 3 at 69\n".as_slice(),
        ),
        (
            "no last line feed",
            ONLY,
            ALL,
            b"included\ncertificate 1 up\nleft identity\nright identity\npairs 1\nr : q".as_slice(),
            4,
            b"".as_slice(),
            b"syntax: file 3 at 63\n".as_slice(),
        ),
        (
            "a byte more",
            ONLY,
            ALL,
            b"included\ncertificate 1 up\nleft identity\nright identity\npairs 1\nr : q\n\n".as_slice(),
            4,
            b"".as_slice(),
            b"syntax: file 3 at 69\n".as_slice(),
        ),
        (
            "a leading zero",
            ONLY,
            ALL,
            b"included\ncertificate 1 up\nleft identity\nright identity\npairs 01\nr : q\n".as_slice(),
            4,
            b"".as_slice(),
            b"syntax: file 3 at 55\n".as_slice(),
        ),
        (
            "rows that spell the identity",
            ONLY,
            ALL,
            b"included\ncertificate 1 up\nleft rows\n8\nright identity\npairs 1\nr : q\n".as_slice(),
            4,
            b"".as_slice(),
            b"syntax: file 3 at 26\n".as_slice(),
        ),
        (
            "a kind of another answer",
            ONLY,
            ALL,
            b"included\ncertificate 1 tree\n".as_slice(),
            4,
            b"".as_slice(),
            b"syntax: file 3 at 9\n".as_slice(),
        ),
    ] {
        let ran = run_check(&rt, alloc, "a b c", over(a, b, certificate));
        ended(&rt, name, &ran, status, out, diag);
    }
}

#[test]
fn downward_certificates_are_judged(rt: HostRuntime) {
    let alloc = rt.alloc();
    for (name, a, b, certificate, status, out, diag) in [
        (
            "by the relation alone",
            ONLY,
            ALL,
            b"included\ncertificate 1 down\nboth rows\nc\n4\npairs 0\n".as_slice(),
            0,
            b"accepted: included\n".as_slice(),
            b"".as_slice(),
        ),
        (
            "by a pair",
            ONLY,
            ALL,
            b"included\ncertificate 1 down\nboth identity\npairs 1\nr : q\n".as_slice(),
            0,
            b"accepted: included\n".as_slice(),
            b"".as_slice(),
        ),
        (
            "a relation that is none",
            ONLY,
            ALL,
            b"included\ncertificate 1 down\nboth rows\nc\nc\npairs 0\n".as_slice(),
            1,
            b"refused: condition 1 place 1\n".as_slice(),
            b"".as_slice(),
        ),
        (
            "no pair for the final state",
            ONLY,
            ALL,
            b"included\ncertificate 1 down\nboth identity\npairs 0\n".as_slice(),
            1,
            b"refused: condition 2 place 1\n".as_slice(),
            b"".as_slice(),
        ),
        (
            "a choice that leaves all children uncovered",
            ALL,
            ONLY,
            b"included\ncertificate 1 down\nboth identity\npairs 1\nq : r\n".as_slice(),
            1,
            b"refused: condition 3 place 1\n".as_slice(),
            b"".as_slice(),
        ),
        (
            "a pair that another one covers",
            ONLY,
            ALL2,
            b"included\ncertificate 1 down\nboth identity\npairs 2\nr : q\nr : q u\n".as_slice(),
            1,
            b"refused: condition 5 place 2\n".as_slice(),
            b"".as_slice(),
        ),
        (
            "no state of the second",
            ONLY,
            ALL,
            b"included\ncertificate 1 down\nboth identity\npairs 1\nr : r\n".as_slice(),
            4,
            b"".as_slice(),
            b"name: file 3 at 54\n".as_slice(),
        ),
        (
            "a relation of one automaton",
            ONLY,
            ALL,
            b"included\ncertificate 1 down\nleft identity\npairs 0\n".as_slice(),
            4,
            b"".as_slice(),
            b"syntax: file 3 at 28\n".as_slice(),
        ),
    ] {
        let ran = run_check(&rt, alloc, "a b c", over(a, b, certificate));
        ended(&rt, name, &ran, status, out, diag);
    }
}

#[test]
fn upward_trails_are_judged(rt: HostRuntime) {
    let alloc = rt.alloc();
    for (name, a, b, certificate, status, out, diag) in [
        (
            "two leaves",
            AB,
            X1,
            b"undecided\ncertificate 1 up-trail\nleft identity\nright identity\nbudget 1\nentries 2\np : x : a\nr : x : b\n".as_slice(),
            0,
            b"accepted: undecided\n".as_slice(),
            b"".as_slice(),
        ),
        (
            "the other order",
            AB,
            X1,
            b"undecided\ncertificate 1 up-trail\nleft identity\nright identity\nbudget 1\nentries 2\nr : x : b\np : x : a\n".as_slice(),
            0,
            b"accepted: undecided\n".as_slice(),
            b"".as_slice(),
        ),
        (
            "a relation of the first that is none",
            FINAL,
            X1,
            b"undecided\ncertificate 1 up-trail\nleft rows\n0\n8\nright identity\nbudget 1\nentries 2\nq : x : a\nr : x : a\n".as_slice(),
            1,
            b"refused: condition 1 place 1\n".as_slice(),
            b"".as_slice(),
        ),
        (
            "a relation of the second that is none",
            ONLY,
            FINAL,
            b"undecided\ncertificate 1 up-trail\nleft identity\nright rows\n0\n8\nbudget 1\nentries 2\nr : q r : a\nr : q r : a\n".as_slice(),
            1,
            b"refused: condition 1 place 2\n".as_slice(),
            b"".as_slice(),
        ),
        (
            "no rule to the state",
            AB,
            X1,
            b"undecided\ncertificate 1 up-trail\nleft identity\nright identity\nbudget 1\nentries 2\np : x : b\nr : x : b\n".as_slice(),
            1,
            b"refused: condition 8 place 1\n".as_slice(),
            b"".as_slice(),
        ),
        (
            "not all states of the step",
            AB,
            X1,
            b"undecided\ncertificate 1 up-trail\nleft identity\nright identity\nbudget 1\nentries 2\np : x : a\nr : : b\n".as_slice(),
            1,
            b"refused: condition 8 place 2\n".as_slice(),
            b"".as_slice(),
        ),
        (
            "a pair that rejects",
            AB,
            ONLY,
            b"undecided\ncertificate 1 up-trail\nleft identity\nright identity\nbudget 1\nentries 2\np : r : a\nr : : b\n".as_slice(),
            1,
            b"refused: condition 9 place 2\n".as_slice(),
            b"".as_slice(),
        ),
        (
            "an entry twice",
            AB,
            X1,
            b"undecided\ncertificate 1 up-trail\nleft identity\nright identity\nbudget 1\nentries 2\np : x : a\np : x : a\n".as_slice(),
            1,
            b"refused: condition 10 place 2\n".as_slice(),
            b"".as_slice(),
        ),
        (
            "three entries for a budget of 1",
            AB,
            X1,
            b"undecided\ncertificate 1 up-trail\nleft identity\nright identity\nbudget 1\nentries 3\np : x : a\nr : x : b\n".as_slice(),
            4,
            b"".as_slice(),
            b"syntax: file 3 at 71\n".as_slice(),
        ),
        (
            "an unknown symbol",
            AB,
            X1,
            b"undecided\ncertificate 1 up-trail\nleft identity\nright identity\nbudget 1\nentries 2\np : x : c\nr : x : b\n".as_slice(),
            4,
            b"".as_slice(),
            b"name: file 3 at 89\n".as_slice(),
        ),
        (
            "a trail of another kind",
            AB,
            X1,
            b"undecided\ncertificate 1 up\n".as_slice(),
            4,
            b"".as_slice(),
            b"syntax: file 3 at 10\n".as_slice(),
        ),
    ] {
        let ran = run_check(&rt, alloc, "a b c", over(a, b, certificate));
        ended(&rt, name, &ran, status, out, diag);
    }
}

/// A leaf below one unary symbol.
const LEAF: &[u8] =
    b"Ops a:0 g:1 Automaton leaf States p q Final States p Transitions a -> q g(q) -> p";

const LEAF2: &[u8] =
    b"Ops a:0 g:1 Automaton leaf States x y Final States x Transitions a -> y g(y) -> x";

#[test]
fn downward_trails_are_judged(rt: HostRuntime) {
    let alloc = rt.alloc();
    for (name, a, b, certificate, status, out, diag) in [
        (
            "a pair, a split and a child",
            ALL,
            ALL,
            b"undecided\ncertificate 1 down-trail\nboth identity\nbudget 2\nentries 3\npair q : q : root\nsplit 1 : f(q,q) : 1\npair q : : child 2 2\n".as_slice(),
            0,
            b"accepted: undecided\n".as_slice(),
            b"".as_slice(),
        ),
        (
            "a relation that is none",
            ALL,
            ONLY,
            b"undecided\ncertificate 1 down-trail\nboth rows\nc\n4\nbudget 1\nentries 2\npair q : r : root\nsplit 1 : f(q,q) :\n".as_slice(),
            1,
            b"refused: condition 1 place 1\n".as_slice(),
            b"".as_slice(),
        ),
        (
            "a root without the final states",
            ALL,
            ALL,
            b"undecided\ncertificate 1 down-trail\nboth identity\nbudget 1\nentries 2\npair q : : root\nsplit 1 : f(q,q) :\n".as_slice(),
            1,
            b"refused: condition 8 place 1\n".as_slice(),
            b"".as_slice(),
        ),
        (
            "no place for the tuple",
            ALL,
            ALL,
            b"undecided\ncertificate 1 down-trail\nboth identity\nbudget 1\nentries 2\npair q : q : root\nsplit 1 : f(q,q) :\n".as_slice(),
            1,
            b"refused: condition 8 place 2\n".as_slice(),
            b"".as_slice(),
        ),
        (
            "a child with members that were sent elsewhere",
            ALL,
            ALL,
            b"undecided\ncertificate 1 down-trail\nboth identity\nbudget 2\nentries 3\npair q : q : root\nsplit 1 : f(q,q) : 1\npair q : : child 2 1\n".as_slice(),
            1,
            b"refused: condition 8 place 3\n".as_slice(),
            b"".as_slice(),
        ),
        (
            "a pair that the relation covers",
            ALL,
            ALL,
            b"undecided\ncertificate 1 down-trail\nboth rows\nc\n4\nbudget 1\nentries 2\npair q : q : root\nsplit 1 : f(q,q) : 1\n".as_slice(),
            1,
            b"refused: condition 9 place 1\n".as_slice(),
            b"".as_slice(),
        ),
        (
            "a place that the relation covers",
            LEAF,
            LEAF2,
            b"undecided\ncertificate 1 down-trail\nboth rows\n8\n5\n2\n1\nbudget 1\nentries 2\npair p : x : root\nsplit 1 : g(q) : 1\n".as_slice(),
            1,
            b"refused: condition 9 place 2\n".as_slice(),
            b"".as_slice(),
        ),
        (
            "a child that was the pair of the split",
            ALL,
            ALL,
            b"undecided\ncertificate 1 down-trail\nboth identity\nbudget 2\nentries 3\npair q : q : root\nsplit 1 : f(q,q) : 1\npair q : q : child 2 1\n".as_slice(),
            1,
            b"refused: condition 10 place 3\n".as_slice(),
            b"".as_slice(),
        ),
        (
            "a child of a pair",
            ALL,
            ALL,
            b"undecided\ncertificate 1 down-trail\nboth identity\nbudget 1\nentries 2\npair q : q : root\npair q : q : child 1 1\n".as_slice(),
            4,
            b"".as_slice(),
            b"syntax: file 3 at 86\n".as_slice(),
        ),
        (
            "a rule to another state",
            AB,
            X1,
            b"undecided\ncertificate 1 down-trail\nboth identity\nbudget 1\nentries 2\npair p : x : root\nsplit 1 : b :\n".as_slice(),
            4,
            b"".as_slice(),
            b"syntax: file 3 at 86\n".as_slice(),
        ),
        (
            "an unknown symbol",
            ALL,
            ALL,
            b"undecided\ncertificate 1 down-trail\nboth identity\nbudget 1\nentries 2\npair q : q : root\nsplit 1 : g(q,q) : 1\n".as_slice(),
            4,
            b"".as_slice(),
            b"name: file 3 at 96\n".as_slice(),
        ),
    ] {
        let ran = run_check(&rt, alloc, "a b c", over(a, b, certificate));
        ended(&rt, name, &ran, status, out, diag);
    }
}
