//! Trees as evidence, and faults of a check.

use crate::running::{Given, ended, over, run_check};
use std::alloc::Global;
use std::process::Abort;

const ALL: &[u8] =
    b"Ops a:0 f:2\nAutomaton all\nStates q\nFinal States q\nTransitions\na -> q\nf(q,q) -> q\n";

const ONLY: &[u8] = b"Ops a:0\nAutomaton only\nStates r\nFinal States r\nTransitions\na -> r\n";

const EMPTY: &[u8] = b"Ops\nAutomaton e\nStates\nFinal States\nTransitions\n";

/// The tree f(a,a), whose child is shared.
const SHARED: &[u8] = b"not included\ncertificate 1 tree\nnodes 2\n1 a\n2 f(1,1)\n";

/// The height of a tree whose shared nodes are few.
const HEIGHT: u32 = 40;

fn put(rt: &impl Abort, text: &mut String, piece: &str) {
    text.push_str(piece).expect(rt, "memory");
}

fn put_number(rt: &impl Abort, alloc: Global, text: &mut String, number: u32) {
    let digits = number.to_string(alloc).expect(rt, "memory");
    put(rt, text, &digits);
}

/// The automaton that accepts the full binary tree of that height alone.
fn full_tree(rt: &impl Abort, alloc: Global) -> String {
    let mut text = String::from_str(alloc, "Ops a:0 f:2\nAutomaton full\nStates").expect(
        rt, "memory",
    );
    for i in 0..HEIGHT + 1 {
        put(rt, &mut text, " s");
        put_number(rt, alloc, &mut text, i);
    }
    put(rt, &mut text, "\nFinal States s");
    put_number(rt, alloc, &mut text, HEIGHT);
    put(rt, &mut text, "\nTransitions\na -> s0\n");
    for i in 0..HEIGHT {
        put(rt, &mut text, "f(s");
        put_number(rt, alloc, &mut text, i);
        put(rt, &mut text, ",s");
        put_number(rt, alloc, &mut text, i);
        put(rt, &mut text, ") -> s");
        put_number(rt, alloc, &mut text, i + 1);
        put(rt, &mut text, "\n");
    }
    text
}

/// The certificate of the full binary tree of that height, each node twice the child of the next.
fn shared_tree(rt: &impl Abort, alloc: Global) -> String {
    let mut text = String::from_str(alloc, "not included\ncertificate 1 tree\nnodes ").expect(
        rt, "memory",
    );
    put_number(rt, alloc, &mut text, HEIGHT + 1);
    put(rt, &mut text, "\n1 a\n");
    for k in 1..HEIGHT + 1 {
        put_number(rt, alloc, &mut text, k + 1);
        put(rt, &mut text, " f(");
        put_number(rt, alloc, &mut text, k);
        put(rt, &mut text, ",");
        put_number(rt, alloc, &mut text, k);
        put(rt, &mut text, ")\n");
    }
    text
}

#[test]
fn trees_are_judged(rt: HostRuntime) {
    let alloc = rt.alloc();
    for (name, a, b, certificate, status, out, diag) in [
        (
            "a tree of the first alone",
            ALL,
            ONLY,
            SHARED,
            0,
            b"accepted: not included\n".as_slice(),
            b"".as_slice(),
        ),
        (
            "a tree of the second alone",
            ONLY,
            ALL,
            SHARED,
            1,
            b"refused: condition 6 place 2\n".as_slice(),
            b"".as_slice(),
        ),
        (
            "a tree of both",
            ALL,
            ALL,
            SHARED,
            1,
            b"refused: condition 7 place 2\n".as_slice(),
            b"".as_slice(),
        ),
        (
            "a later child",
            ONLY,
            ALL,
            b"not included\ncertificate 1 tree\nnodes 2\n1 f(2,2)\n2 a\n".as_slice(),
            4,
            b"".as_slice(),
            b"syntax: file 3 at 40\n".as_slice(),
        ),
        (
            "an unknown symbol",
            ONLY,
            ALL,
            b"not included\ncertificate 1 tree\nnodes 1\n1 g\n".as_slice(),
            4,
            b"".as_slice(),
            b"name: file 3 at 42\n".as_slice(),
        ),
        (
            "no certificate",
            ONLY,
            ALL,
            b"".as_slice(),
            4,
            b"".as_slice(),
            b"syntax: file 3 at 0\n".as_slice(),
        ),
        (
            "no second automaton",
            ONLY,
            b"".as_slice(),
            b"".as_slice(),
            4,
            b"".as_slice(),
            b"syntax: file 2 at 0\n".as_slice(),
        ),
        (
            "no first automaton",
            b"".as_slice(),
            b"".as_slice(),
            b"".as_slice(),
            4,
            b"".as_slice(),
            b"syntax: file 1 at 0\n".as_slice(),
        ),
    ] {
        let ran = run_check(&rt, alloc, "a b c", over(a, b, certificate));
        ended(&rt, name, &ran, status, out, diag);
    }
}

#[test]
fn shared_nodes_stand_for_a_large_tree(rt: HostRuntime) {
    let alloc = rt.alloc();
    let a = full_tree(&rt, alloc);
    let certificate = shared_tree(&rt, alloc);
    let given = over(a.as_bytes(), EMPTY, certificate.as_bytes());
    let ran = run_check(&rt, alloc, "a b c", given);
    ended(
        &rt,
        "a full tree",
        &ran,
        0,
        b"accepted: not included\n",
        b"",
    );
}

#[test]
fn faults_of_a_check_are_told(rt: HostRuntime) {
    let alloc = rt.alloc();
    for (words, unread, unwritten, status, out, diag) in [
        (
            "a b",
            0,
            0,
            2,
            b"".as_slice(),
            b"usage: wrong number of files 2\n".as_slice(),
        ),
        (
            "a -b c",
            0,
            0,
            2,
            b"".as_slice(),
            b"usage: unknown word 2\n".as_slice(),
        ),
        (
            "a b d",
            0,
            0,
            6,
            b"".as_slice(),
            b"read fault: file 3\n".as_slice(),
        ),
        // The fifth call reads the second file, the eighth the third.
        (
            "a b c",
            5,
            0,
            6,
            b"".as_slice(),
            b"read fault: file 2\n".as_slice(),
        ),
        (
            "a b c",
            8,
            0,
            6,
            b"".as_slice(),
            b"read fault: file 3\n".as_slice(),
        ),
        (
            "a b c",
            0,
            2,
            7,
            b"accepte".as_slice(),
            b"write fault\n".as_slice(),
        ),
    ] {
        let given = Given {
            a: ALL,
            b: ONLY,
            c: SHARED,
            piece: 1_000,
            unread,
            unwritten,
        };
        let ran = run_check(&rt, alloc, words, given);
        ended(&rt, words, &ran, status, out, diag);
    }
}
