//! What the commands on one automaton and on two answer.

use crate::running::{Given, ended, run_vata};

const ALL: &[u8] =
    b"Ops a:0 f:2\nAutomaton all\nStates q\nFinal States q\nTransitions\na -> q\nf(q,q) -> q\n";

const ONLY: &[u8] = b"Ops a:0\nAutomaton only\nStates r\nFinal States r\nTransitions\na -> r\n";

const EMPTY: &[u8] = b"Ops\nAutomaton e\nStates\nFinal States\nTransitions\n";

const ALL2: &[u8] =
    b"Ops a:0 f:2\nAutomaton all\nStates q u\nFinal States q\nTransitions\na -> q\nf(q,q) -> q\n";

/// A file whose state u no tree reaches, and whose state w leads to a final one with u as its sibling alone.
const SIBLING: &[u8] =
    b"Ops a:0 f:2\nAutomaton t\nStates q u w r\nFinal States r\nTransitions\na -> q\na -> w\nf(q,q) -> r\nf(w,u) -> r\n";

const DOUBLE: &[u8] =
    b"Ops a:0 f:2\nAutomaton union\nStates q_1 q_2\nFinal States q_1 q_2\nTransitions\na -> q_1\nf(q_1,q_1) -> q_1\na -> q_2\nf(q_2,q_2) -> q_2\n";

const EVEN: &[u8] =
    b"Ops a:0 g:1\nAutomaton even\nStates e o\nFinal States e\nTransitions\na -> e\ng(o) -> e\ng(e) -> o\n";

const THREE: &[u8] =
    b"Ops a:0 g:1\nAutomaton three\nStates t0 t1 t2\nFinal States t0\nTransitions\na -> t0\ng(t0) -> t1\ng(t1) -> t2\ng(t2) -> t0\n";

const SIX: &[u8] =
    b"Ops a:0 g:1\nAutomaton isect\nStates p0_0 p0_1 p0_2 p1_0 p1_1 p1_2\nFinal States p0_0\nTransitions\na -> p0_0\ng(p1_2) -> p0_0\ng(p1_0) -> p0_1\ng(p1_1) -> p0_2\ng(p0_2) -> p1_0\ng(p0_0) -> p1_1\ng(p0_1) -> p1_2\n";

/// The product with an automaton that accepts nothing.
const NONE: &[u8] = b"Ops a:0 g:1\nAutomaton isect\nStates\nFinal States\nTransitions\n";

/// Two states that the same leaf reaches, of which one is final.
const FINAL: &[u8] = b"Ops a:0 Automaton fin States q r Final States r Transitions a -> q a -> r";

/// Two states of which each is below the other.
const DOUBLED: &[u8] =
    b"Ops a:0 g:1 Automaton dup States q r s Final States s Transitions a -> q a -> r g(q) -> s g(r) -> s";

const MERGED: &[u8] =
    b"Ops a:0 g:1\nAutomaton dup\nStates q s\nFinal States s\nTransitions\na -> q\ng(q) -> s\n";

/// x is below y, so p is below s, but not the other way round; e has no rule and is below all.
const LEAVES: &[u8] =
    b"Ops a:0 b:0 f:2 Automaton t States x y p s e Final States Transitions a -> x a -> y b -> y f(x,x) -> p f(x,y) -> s";

/// Only s is final. x is below y upward, since p is below s; z is below itself alone, since no rule has it
/// beside another state.
const PLACES: &[u8] =
    b"Ops f:2 Automaton t States x y p s z Final States s Transitions f(x,x) -> p f(x,y) -> s f(y,x) -> s f(y,y) -> s f(z,z) -> p";

/// q is below r, but r isn't below q. No tree reaches p.
const BELOW: &[u8] =
    b"Ops a:0 b:0 Automaton below States p q r Final States p q r Transitions a -> q a -> r b -> r";

const BELOW_ALONE: &[u8] =
    b"Ops a:0 b:0\nAutomaton below\nStates q r\nFinal States q r\nTransitions\na -> q\na -> r\nb -> r\n";

/// Of the one class only the second member is final.
const SECOND: &[u8] =
    b"Ops a:0 g:1 Automaton final States q r Final States r Transitions a -> q a -> r g(q) -> q g(q) -> r";

const SECOND_MERGED: &[u8] =
    b"Ops a:0 g:1\nAutomaton final\nStates q\nFinal States q\nTransitions\na -> q\ng(q) -> q\n";

#[test]
fn requests_are_answered(rt: HostRuntime) {
    let alloc = rt.alloc();
    for (words, a, b, unread, status, out, diag) in [
        (
            "load -p a",
            SIBLING,
            ALL,
            0,
            0,
            b"Ops a:0 f:2\nAutomaton t\nStates q r\nFinal States r\nTransitions\na -> q\nf(q,q) -> r\n".as_slice(),
            b"".as_slice(),
        ),
        ("union a a", ALL, ALL, 0, 0, DOUBLE, b"".as_slice()),
        ("union -p a b", ALL, ALL2, 0, 0, DOUBLE, b"".as_slice()),
        (
            "union a b",
            ONLY,
            b"Ops".as_slice(),
            0,
            4,
            b"".as_slice(),
            b"syntax: file 2 at 3\n".as_slice(),
        ),
        ("isect a b", EVEN, THREE, 0, 0, SIX, b"".as_slice()),
        ("isect -p a b", EVEN, EMPTY, 0, 0, NONE, b"".as_slice()),
        (
            "sim -o dir=up a",
            FINAL,
            ALL,
            0,
            0,
            b"simulation up 2\nq 11\nr 01\n".as_slice(),
            b"".as_slice(),
        ),
        (
            "sim a",
            FINAL,
            ALL,
            0,
            0,
            b"simulation down 2\nq 11\nr 11\n".as_slice(),
            b"".as_slice(),
        ),
        (
            "sim a",
            LEAVES,
            ALL,
            0,
            0,
            b"simulation down 5\nx 11000\ny 01000\np 00110\ns 00010\ne 11111\n".as_slice(),
            b"".as_slice(),
        ),
        (
            "sim -o dir=up a",
            PLACES,
            ALL,
            0,
            0,
            b"simulation up 5\nx 11000\ny 01000\np 11111\ns 00010\nz 00001\n".as_slice(),
            b"".as_slice(),
        ),
        ("red a", DOUBLED, ALL, 0, 0, MERGED, b"".as_slice()),
        ("red a", BELOW, ALL, 0, 0, BELOW_ALONE, b"".as_slice()),
        ("red a", SECOND, ALL, 0, 0, SECOND_MERGED, b"".as_slice()),
        // The fifth call reads the second file.
        (
            "union a b",
            ALL,
            ALL2,
            5,
            6,
            b"".as_slice(),
            b"read fault: file 2\n".as_slice(),
        ),
        (
            "union d b",
            ALL,
            ALL2,
            0,
            6,
            b"".as_slice(),
            b"read fault: file 1\n".as_slice(),
        ),
    ] {
        let given = Given {
            a,
            b,
            c: b"",
            piece: 1_000,
            unread,
            unwritten: 0,
        };
        let ran = run_vata(&rt, alloc, words, given);
        ended(&rt, words, &ran, status, out, diag);
    }
}
