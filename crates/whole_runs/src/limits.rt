//! Files at a limit and one past it.

use crate::running::{ended, over, run_vata};
use std::alloc::Global;
use std::process::Abort;

const EMPTY: &[u8] = b"Ops\nAutomaton e\nStates\nFinal States\nTransitions\n";

/// One symbol that none of the numbered files has.
const OTHER: &[u8] = b"Ops other:0 Automaton States Final States Transitions";

/// The file that spells the empty automaton and is as long as that.
fn padded(rt: &impl Abort, alloc: Global, spaces: usize) -> Vec<u8> {
    let mut file = Vec::from_elem(alloc, b' ', spaces).expect(rt, "memory");
    file.extend_from_slice(b"Ops Automaton e States Final States Transitions")
        .expect(rt, "memory");
    file
}

#[test]
fn a_file_as_long_as_may_be_and_one_byte_longer(rt: HostRuntime) {
    let alloc = rt.alloc();
    let file = padded(&rt, alloc, 33_554_432 - 47);
    let longest = run_vata(&rt, alloc, "load a", over(&file, b"", b""));
    ended(&rt, "33,554,432 bytes", &longest, 0, EMPTY, b"");
    let file = padded(&rt, alloc, 33_554_433 - 47);
    let longer = run_vata(&rt, alloc, "load a", over(&file, b"", b""));
    ended(&rt, "one more", &longer, 5, b"", b"limit: file 1 bytes\n");
}

/// A file whose one state has a name of so many bytes.
fn with_long_name(rt: &impl Abort, alloc: Global, bytes: usize) -> Vec<u8> {
    let mut file = Vec::new(alloc);
    file.extend_from_slice(b"Ops Automaton x States ")
        .expect(rt, "memory");
    for _ in 0..bytes {
        file.push(b'q').expect(rt, "memory");
    }
    file.extend_from_slice(b" Final States Transitions")
        .expect(rt, "memory");
    file
}

#[test]
fn a_name_as_long_as_may_be_and_one_byte_longer(rt: HostRuntime) {
    let alloc = rt.alloc();
    let file = with_long_name(&rt, alloc, 1_000);
    let longest = run_vata(&rt, alloc, "load -p a", over(&file, b"", b""));
    let none = b"Ops\nAutomaton x\nStates\nFinal States\nTransitions\n";
    ended(&rt, "1,000 bytes", &longest, 0, none, b"");
    let file = with_long_name(&rt, alloc, 1_001);
    let longer = run_vata(&rt, alloc, "load -p a", over(&file, b"", b""));
    let line = b"limit: file 1 names at 23\n";
    ended(&rt, "one more", &longer, 5, b"", line);
}

/// A file with the symbols `00000:0`, `00001:0` and so on, of which the first stands twice.
fn with_symbols(rt: &impl Abort, alloc: Global, count: u32) -> Vec<u8> {
    let mut file = Vec::new(alloc);
    file.extend_from_slice(b"Ops").expect(rt, "memory");
    for number in 0..count {
        file.push(b' ').expect(rt, "memory");
        for unit in [10000, 1000, 100, 10, 1] {
            file.push(b'0' + (number / unit % 10) as u8)
                .expect(rt, "memory");
        }
        file.extend_from_slice(b":0").expect(rt, "memory");
    }
    file.extend_from_slice(b" 00000:0 Automaton States Final States Transitions")
        .expect(rt, "memory");
    file
}

// Each symbol takes 8 bytes, so the digits of the one after 65,535 others stand at 3 + 8 * 65,535 + 7.
#[test]
fn as_many_symbols_as_may_be_and_one_more(rt: HostRuntime) {
    let alloc = rt.alloc();
    let most = with_symbols(&rt, alloc, 65_535);
    let more = with_symbols(&rt, alloc, 65_536);
    for (words, a, b, status, out, diag) in [
        (
            "sim a",
            most.as_slice(),
            OTHER,
            0,
            b"simulation down 0\n".as_slice(),
            b"".as_slice(),
        ),
        (
            "sim a",
            more.as_slice(),
            OTHER,
            5,
            b"".as_slice(),
            b"limit: file 1 symbols at 524290\n".as_slice(),
        ),
        (
            "incl a b",
            most.as_slice(),
            most.as_slice(),
            0,
            b"included\ncertificate 1 up\nleft identity\nright identity\npairs 0\n".as_slice(),
            b"".as_slice(),
        ),
        (
            "union a b",
            most.as_slice(),
            OTHER,
            5,
            b"".as_slice(),
            b"limit: symbols\n".as_slice(),
        ),
        (
            "isect a b",
            OTHER,
            most.as_slice(),
            5,
            b"".as_slice(),
            b"limit: symbols\n".as_slice(),
        ),
        (
            "incl a b",
            OTHER,
            most.as_slice(),
            5,
            b"".as_slice(),
            b"limit: symbols\n".as_slice(),
        ),
    ] {
        let ran = run_vata(&rt, alloc, words, over(a, b, b""));
        ended(&rt, words, &ran, status, out, diag);
    }
}
