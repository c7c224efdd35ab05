//! Runs over three files, named `a`, `b` and `c`.

use std::alloc::Global;
use std::process::Abort;
use vata_core::{Status, check_run, run};
use vata_outside::{MemFiles, MemSink};

/// What a run left.
#[derive(Drop)]
pub struct Ran {
    pub status: Status,
    pub out: MemSink,
    pub diag: MemSink,
}

/// What a run is given, beside its words.
#[derive(Clone, Copy)]
pub struct Given<'a> {
    pub a: &'a [u8],
    pub b: &'a [u8],
    pub c: &'a [u8],
    /// How many bytes a read gives at most, which is not 0.
    pub piece: usize,
    /// The number of the call of the files that fails, or 0.
    pub unread: u64,
    /// The number of the write to `out` that fails, or 0.
    pub unwritten: u64,
}

fn words_of(rt: &impl Abort, alloc: Global, words: &str) -> Vec<String> {
    let mut given = Vec::new(alloc);
    for word in words.split_whitespace() {
        let word = String::from_str(alloc, word).expect(rt, "memory");
        given.push(word).expect(rt, "memory");
    }
    given
}

fn files_of(rt: &impl Abort, alloc: Global, given: Given<'_>) -> MemFiles {
    let failing = vec![in alloc; given.unread].expect(rt, "memory");
    assert!(rt; given.piece > 0);
    let mut files = MemFiles::new(alloc, given.piece, failing);
    files.add("a", given.a).expect(rt, "memory");
    files.add("b", given.b).expect(rt, "memory");
    files.add("c", given.c).expect(rt, "memory");
    files
}

/// A sink that takes 7 bytes at a time.
fn out_of(rt: &impl Abort, alloc: Global, given: Given<'_>) -> MemSink {
    let failing = vec![in alloc; given.unwritten].expect(rt, "memory");
    MemSink::new(alloc, 2_000, 7, failing).expect(rt, "memory")
}

fn diag_of(rt: &impl Abort, alloc: Global) -> MemSink {
    MemSink::new(alloc, 1_000, 1_000, Vec::new(alloc)).expect(rt, "memory")
}

/// A run of `vata`.
pub fn run_vata(rt: &impl Abort, alloc: Global, words: &str, given: Given<'_>) -> Ran {
    let words = words_of(rt, alloc, words);
    let mut files = files_of(rt, alloc, given);
    let mut out = out_of(rt, alloc, given);
    let mut diag = diag_of(rt, alloc);
    let status = run(alloc, &words, &mut files, &mut out, &mut diag);
    Ran { status, out, diag }
}

/// A run of `vata_check`.
pub fn run_check(rt: &impl Abort, alloc: Global, words: &str, given: Given<'_>) -> Ran {
    let words = words_of(rt, alloc, words);
    let mut files = files_of(rt, alloc, given);
    let mut out = out_of(rt, alloc, given);
    let mut diag = diag_of(rt, alloc);
    let status = check_run(alloc, &words, &mut files, &mut out, &mut diag);
    Ran { status, out, diag }
}

/// The run ended like this.
pub fn ended(rt: &impl Abort, name: &str, ran: &Ran, status: u8, out: &[u8], diag: &[u8]) {
    assert_eq!(rt; ran.status.number(), status, "{name}");
    assert_eq!(rt; ran.out.bytes(), out, "{name}");
    assert_eq!(rt; ran.diag.bytes(), diag, "{name}");
}

/// Three files, and no fault.
pub fn over<'a>(a: &'a [u8], b: &'a [u8], c: &'a [u8]) -> Given<'a> {
    Given {
        a,
        b,
        c,
        piece: 1_000,
        unread: 0,
        unwritten: 0,
    }
}
