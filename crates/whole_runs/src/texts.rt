//! Texts of certificates that are refused at their byte, worked out by hand.

use crate::running::{ended, over, run_check};
use std::alloc::Global;
use std::process::Abort;

/// What stands before the lines that are tried, and the two files.
#[derive(Clone, Copy)]
struct Frame<'a> {
    before: &'a [u8],
    a: &'a [u8],
    b: &'a [u8],
}

/// The two states p and q, and no rules.
const P_Q: &[u8] = b"Ops Automaton A States p q Final States Transitions";

/// The three states x, y and z, and no rules.
const X_Y_Z: &[u8] = b"Ops Automaton B States x y z Final States Transitions";

/// A leaf and a symbol of rank 2, two states, and no rules.
const FORK: &[u8] = b"Ops a:0 f:2 Automaton A States p q Final States Transitions";

/// The same with two rules, of which the first leads to the final state.
const FORK_RULES: &[u8] =
    b"Ops a:0 f:2 Automaton A States p q Final States p Transitions a -> p f(p,q) -> q";

/// The two states x and y, and no rules.
const X_Y: &[u8] = b"Ops Automaton B States x y Final States Transitions";

const EMPTY: &[u8] = b"Ops Automaton e States Final States Transitions";

/// A check of these lines in their frame, which are refused by this line or accepted or refused by
/// their conditions.
fn judged(
    rt: &impl Abort,
    alloc: Global,
    frame: Frame<'_>,
    text: &[u8],
    status: u8,
    out: &[u8],
    diag: &[u8],
) {
    let mut certificate = Vec::new(alloc);
    certificate
        .extend_from_slice(frame.before)
        .expect(rt, "memory");
    certificate.extend_from_slice(text).expect(rt, "memory");
    let ran = run_check(rt, alloc, "a b c", over(frame.a, frame.b, &certificate));
    ended(rt, "a text", &ran, status, out, diag);
}

/// The lines in their frame are refused for this, at this byte of the whole text.
fn refused(rt: &impl Abort, alloc: Global, frame: Frame<'_>, text: &[u8], fault: &str, place: u32) {
    let mut line = String::from_str(alloc, fault).expect(rt, "memory");
    line.push_str(": file 3 at ").expect(rt, "memory");
    let digits = place.to_string(alloc).expect(rt, "memory");
    line.push_str(&digits).expect(rt, "memory");
    line.push_str("\n").expect(rt, "memory");
    judged(rt, alloc, frame, text, 4, b"", line.as_bytes());
}

/// The pair of p and no state covers the second one.
#[test]
fn pairs_are_read(rt: HostRuntime) {
    let alloc = rt.alloc();
    let frame = Frame {
        before: b"included\ncertificate 1 up\nleft identity\nright identity\n",
        a: P_Q,
        b: X_Y_Z,
    };
    judged(
        &rt,
        alloc,
        frame,
        b"pairs 0\n",
        0,
        b"accepted: included\n",
        b"",
    );
    judged(
        &rt,
        alloc,
        frame,
        b"pairs 4\np :\np : x\np : x z\nq : y\n",
        1,
        b"refused: condition 5 place 2\n",
        b"",
    );
    for (text, fault, place) in [
        (b"pairs 2\np : x\np : x\n".as_slice(), "syntax", 69),
        (b"pairs 2\nq : y\np :\n", "syntax", 69),
        (b"pairs 1\np :", "syntax", 63),
        (b"pairs 1\np :\n\n", "syntax", 67),
        (b"pairs 2\np :\n", "syntax", 67),
        (b"pairs 01\np :\n", "syntax", 55),
        (b"pairs 4294967295\n", "syntax", 55),
        (b"pairs 1", "syntax", 55),
        (b"", "syntax", 55),
        (b"pairs 1\np : \n", "syntax", 63),
        (b"pairs 1\np:\n", "syntax", 63),
        (b"pairs 1\np : z x\n", "syntax", 63),
        (b"pairs 1\np : x x\n", "syntax", 63),
        (b"pairs 1\nr : x,\n", "syntax", 63),
        (b"pairs 1\nr :\n", "name", 63),
        (b"pairs 1\np : x p\n", "name", 69),
        (b"pairs 1\nx : p\n", "name", 63),
        (b"pairs 2\np : x\np : w x\n", "name", 73),
    ] {
        refused(&rt, alloc, frame, text, fault, place);
    }
}

#[test]
fn relations_are_read(rt: HostRuntime) {
    let alloc = rt.alloc();
    let frame = Frame {
        before: b"included\ncertificate 1 up\n",
        a: P_Q,
        b: X_Y_Z,
    };
    judged(
        &rt,
        alloc,
        frame,
        b"left rows\nc\n4\nright identity\npairs 0\n",
        0,
        b"accepted: included\n",
        b"",
    );
    for (text, fault, place) in [
        (b"left rows\n8\n4\n".as_slice(), "syntax", 26),
        (b"left rows\nc\n5\n", "syntax", 38),
        (b"left rows\nC\n4\n", "syntax", 36),
        (b"left rows\nc0\n4\n", "syntax", 36),
        (b"left rows\n\n4\n", "syntax", 36),
        (b"left rows\nc\n4", "syntax", 38),
        (b"left rows\nc\n", "syntax", 38),
        (b"right identity\n", "syntax", 26),
        (b"left identity", "syntax", 26),
    ] {
        refused(&rt, alloc, frame, text, fault, place);
    }
}

#[test]
fn a_relation_of_no_states_is_the_identity(rt: HostRuntime) {
    let alloc = rt.alloc();
    let frame = Frame {
        before: b"included\ncertificate 1 up\n",
        a: EMPTY,
        b: X_Y_Z,
    };
    let text = b"left identity\nright identity\npairs 0\n";
    judged(&rt, alloc, frame, text, 0, b"accepted: included\n", b"");
    refused(&rt, alloc, frame, b"left rows\n", "syntax", 26);
}

/// No rule leads to the state of the first entry.
#[test]
fn entries_of_upward_trails_are_read(rt: HostRuntime) {
    let alloc = rt.alloc();
    let frame = Frame {
        before: b"undecided\ncertificate 1 up-trail\nleft identity\nright identity\n",
        a: FORK,
        b: X_Y,
    };
    judged(
        &rt,
        alloc,
        frame,
        b"budget 2\nentries 3\np : y : a\nq : : a\np : x y : f(1,2)\n",
        1,
        b"refused: condition 8 place 1\n",
        b"",
    );
    for (text, fault, place) in [
        (b"budget 0\nentries 1\np : x : a\n".as_slice(), "syntax", 62),
        (b"budget 1000001\nentries 1000002\n", "syntax", 62),
        (b"budget 01\nentries 2\n", "syntax", 62),
        (b"budget 1\nentries 1\np : x : a\n", "syntax", 71),
        (b"budget 1\nentries 2\np : x : a\n", "syntax", 91),
        (
            b"budget 1\nentries 2\np : x : a\nq : : f(1,2)\n",
            "syntax",
            91,
        ),
        (
            b"budget 1\nentries 2\np : x : a\nq : : f(1,0)\n",
            "syntax",
            91,
        ),
        (
            b"budget 1\nentries 2\np : x : a\nq : : f(1,01)\n",
            "syntax",
            91,
        ),
        (
            b"budget 1\nentries 2\np : x : a\nq : y x : a\n",
            "syntax",
            91,
        ),
        (b"budget 1\nentries 2\np : x : a\nr : a\n", "syntax", 91),
        (b"budget 1\nentries 2\np : x : a\nr : : b,\n", "syntax", 91),
        (b"budget 1\nentries 2\np : x : a\nq : : a", "syntax", 91),
        (b"budget 1\nentries 2\np : x : a\nq : : a\n\n", "syntax", 99),
        (b"budget 1\nentries 2\nr : z : b\n", "name", 81),
        (b"budget 1\nentries 2\np : z : b\n", "name", 85),
        (b"budget 1\nentries 2\np : x : f\n", "name", 89),
        (b"budget 1\nentries 2\np : : f(7)\n", "name", 87),
    ] {
        refused(&rt, alloc, frame, text, fault, place);
    }
}

/// The state q of the first entry isn't final.
#[test]
fn entries_of_downward_trails_are_read(rt: HostRuntime) {
    let alloc = rt.alloc();
    let frame = Frame {
        before: b"undecided\ncertificate 1 down-trail\nboth identity\n",
        a: FORK_RULES,
        b: X_Y,
    };
    judged(
        &rt,
        alloc,
        frame,
        b"budget 2\nentries 3\npair q : x y : root\nsplit 1 : f(p,q) : 2 1\npair p : y : child 2 1\n",
        1,
        b"refused: condition 8 place 1\n",
        b"",
    );
    for (text, fault, place) in [
        (
            b"budget 1\nentries 2\npair q : : root\nsplit 01 : f(p,q) :\n".as_slice(),
            "syntax",
            84,
        ),
        (
            b"budget 1\nentries 2\npair q : : root\nsplit 1 : f(p,q)\n",
            "syntax",
            84,
        ),
        (
            b"budget 1\nentries 2\npair q : : root\nsplit 1 : f(z,q :\n",
            "syntax",
            84,
        ),
        (
            b"budget 1\nentries 2\npair z :  : root\nsplit 1 : f(p,q) :\n",
            "syntax",
            68,
        ),
        (
            b"budget 1\nentries 2\npair q : : roots\nsplit 1 : f(p,q) :\n",
            "syntax",
            68,
        ),
        (
            b"budget 1\nentries 2\npair q : y x : root\nsplit 1 : f(p,q) :\n",
            "syntax",
            68,
        ),
        (
            b"budget 1\nentries 2\nsplit 1 : f(p,q) :\npair q : : root\n",
            "syntax",
            68,
        ),
        (
            b"budget 1\nentries 2\npair q : : root\nsplit 1 : a :\n",
            "syntax",
            84,
        ),
        (
            b"budget 1\nentries 2\npair q : : root\nsplit 1 : f(p,q) : 3\n",
            "syntax",
            84,
        ),
        (
            b"budget 1\nentries 2\npair q : : root\npair p : : child 1 1\n",
            "syntax",
            84,
        ),
        (
            b"budget 2\nentries 3\npair q : : root\nsplit 1 : f(p,q) :\npair p : : child 2 3\n",
            "syntax",
            103,
        ),
        (
            b"budget 2\nentries 3\npair q : : root\nsplit 1 : f(p,q) :\n",
            "syntax",
            103,
        ),
        (
            b"budget 1\nentries 2\npair q : : root\nsplit 1 : f(p,q) :\n\n",
            "syntax",
            103,
        ),
        (b"budget 1\nentries 2\npair z : w : child 9 0\n", "name", 73),
        (b"budget 1\nentries 2\npair q : x w : root\n", "name", 79),
        (
            b"budget 1\nentries 2\npair q : : root\nsplit 9 : f(z) : 7\n",
            "name",
            94,
        ),
        (
            b"budget 1\nentries 2\npair q : : root\nsplit 9 : f(p,z) : 7\n",
            "name",
            98,
        ),
    ] {
        refused(&rt, alloc, frame, text, fault, place);
    }
}

/// No rule leads from the states of the children.
#[test]
fn nodes_of_trees_are_read(rt: HostRuntime) {
    let alloc = rt.alloc();
    let frame = Frame {
        before: b"not included\ncertificate 1 tree\n",
        a: FORK_RULES,
        b: X_Y,
    };
    judged(
        &rt,
        alloc,
        frame,
        b"nodes 2\n1 a\n2 f(1,1)\n",
        1,
        b"refused: condition 6 place 2\n",
        b"",
    );
    for (text, fault, place) in [
        (b"".as_slice(), "syntax", 32),
        (b"nodes 0\n", "syntax", 32),
        (b"nodes 2\n1 f(2,2)\n2 a\n", "syntax", 40),
        (b"nodes 1\n2 a\n", "syntax", 40),
        (b"nodes 1\n01 a\n", "syntax", 40),
        (b"nodes 1\n1 a()\n", "syntax", 40),
        (b"nodes 1\n1 a", "syntax", 40),
        (b"nodes 1\n7 a(9)\n", "name", 42),
        (b"nodes 2\n1 a\n", "syntax", 44),
        (b"nodes 1\n1 a\n1 a\n", "syntax", 44),
        (b"nodes 99999999999999999999\n1 a\n", "syntax", 63),
    ] {
        refused(&rt, alloc, frame, text, fault, place);
    }
}
