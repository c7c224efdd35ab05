//! The lines that tell why a run has no answer. Making them takes no memory.

ghost use Rattle.std.specs.Prelude.{◌≡◌, ◌≤◌, ◌++◌, IsTrue, IsFalse};
ghost use Rattle.std.specs.Fmt.{decimal};
ghost use Rattle.std.specs.Io.KnownBytes.{Appends};
ghost use Rattle.vata_outside.specs.Outside.{AppendsPrefix, Rose};
ghost use Rattle.timbuk_text.specs.Taking.{limit_of};
ghost use Rattle.vata_core.specs.Lines.{Tells, bytes_line, limit_line, limit_words, memory_line, name_line, read_line, measure_line, syntax_line, write_line};
ghost use Rattle.vata_core.specs.Refusals.{halt_line, reason_line, refusal_line, untaken_line};
ghost use Rattle.vata_core.specs.Usage.{fault_line, not_built_line};

use crate::halting::Halt;
use crate::judging::Unjudged;
use crate::loading::Refusal;
use crate::measure::Measure;
use crate::words::Untaken;
use itoa::Buffer;
use timbuk_text::Counted;
use vata_outside::{Sink, write_all_of};
use vata_words::WordFault;

/// Writes a piece of a line, and answers whether it was written whole.
fn put<E: Sink>(diag: &mut E, piece: &[u8]) -> bool
    ensures whole { IsTrue result → Appends (E.written diag.old) (E.written diag.new) piece.now }
    ensures cut { IsFalse result → AppendsPrefix (E.written diag.old) (E.written diag.new) piece.now
        × Rose (E.faults diag.old) (E.faults diag.new) }
    ensures later { E.faults diag.old ≤ E.faults diag.new }
{
    write_all_of(diag, piece).is_ok()
}

/// Writes a text and a number, and answers whether both were written whole.
fn put_number<E: Sink>(diag: &mut E, front: &[u8], number: u64) -> bool
    ensures whole { IsTrue result → Appends (E.written diag.old) (E.written diag.new) (front.now ++ decimal number) }
    ensures cut { IsFalse result → AppendsPrefix (E.written diag.old) (E.written diag.new) (front.now ++ decimal number)
        × Rose (E.faults diag.old) (E.faults diag.new) }
    ensures later { E.faults diag.old ≤ E.faults diag.new }
{
    if !put(diag, front) {
        return false;
    }
    let mut digits = Buffer::new();
    put(diag, digits.format(number).as_bytes())
}

/// Writes a line, as far as it goes.
fn tell<E: Sink>(diag: &mut E, line: &[u8])
    ensures { Tells (E.written diag.old) (E.written diag.new) (E.faults diag.old) (E.faults diag.new) line.now }
{
    let _ = write_all_of(diag, line);
}

/// Writes a line that has a number between two texts, as far as it goes.
fn tell_number<E: Sink>(diag: &mut E, front: &[u8], number: u64, back: &[u8])
    ensures { Tells (E.written diag.old) (E.written diag.new) (E.faults diag.old) (E.faults diag.new) (front.now ++ decimal number ++ back.now) }
{
    if put_number(diag, front, number) {
        tell(diag, back);
    }
}

/// Writes a line that ends in a place of a file, as far as it goes.
fn tell_place<E: Sink>(diag: &mut E, front: &[u8], number: u64, middle: &[u8], at: u64, back: &[u8])
    ensures { Tells (E.written diag.old) (E.written diag.new) (E.faults diag.old) (E.faults diag.new)
        (front.now ++ decimal number ++ middle.now ++ decimal at ++ back.now) }
{
    if !put_number(diag, front, number) {
        return;
    }
    tell_number(diag, middle, at, back);
}

#[tactic(auto, unfolding(crate::specs::Usage::not_built_line))]
fn not_built() -> &'static [u8]
    ensures { result.now ≡ not_built_line }
{
    b"usage: not built yet\n".as_slice()
}

#[tactic(auto, unfolding(crate::specs::Lines::write_line))]
fn write_fault() -> &'static [u8]
    ensures { result.now ≡ write_line }
{
    b"write fault\n".as_slice()
}

#[tactic(auto, unfolding(crate::specs::Lines::memory_line))]
fn memory() -> &'static [u8]
    ensures { result.now ≡ memory_line }
{
    b"memory\n".as_slice()
}

/// Tells that memory ran out.
pub fn tell_memory<E: Sink>(diag: &mut E)
    ensures { Tells (E.written diag.old) (E.written diag.new) (E.faults diag.old) (E.faults diag.new) memory_line }
{
    tell(diag, memory());
}

/// What stands between a file's number and the place where it passes the limit.
#[tactic(auto, unfolding(crate::specs::Lines::limit_words))]
fn words_of(what: Counted) -> &'static [u8]
    ensures { result.now ≡ limit_words (limit_of what) }
{
    match what {
        Counted::Names => b" names at ".as_slice(),
        Counted::Rank => b" rank at ".as_slice(),
        Counted::Symbols => b" symbols at ".as_slice(),
        Counted::States => b" states at ".as_slice(),
        Counted::Rules => b" rules at ".as_slice(),
    }
}

/// Tells what is wrong with the words.
pub fn tell_fault<E: Sink>(diag: &mut E, fault: WordFault)
    ensures { Tells (E.written diag.old) (E.written diag.new) (E.faults diag.old) (E.faults diag.new) (fault_line fault) }
{
    match fault {
        WordFault::NoCommand => tell(diag, b"usage: no command\n"),
        WordFault::UnknownWord { at } => tell_number(
            diag,
            b"usage: unknown word ",
            at as u64,
            b"\n",
        ),
        WordFault::Repeated { at } => tell_number(diag, b"usage: repeated ", at as u64, b"\n"),
        WordFault::MissingValue { at } => tell_number(
            diag,
            b"usage: missing value ",
            at as u64,
            b"\n",
        ),
        WordFault::BadSetting { at } => tell_number(diag, b"usage: bad setting ", at as u64, b"\n"),
        WordFault::NotForThis { at } => tell_number(
            diag,
            b"usage: not for this command ",
            at as u64,
            b"\n",
        ),
        WordFault::FileCount { found } => tell_number(
            diag,
            b"usage: wrong number of files ",
            found as u64,
            b"\n",
        ),
    }
}

/// Tells why the words are not taken.
pub fn tell_untaken<E: Sink>(diag: &mut E, untaken: Untaken)
    ensures { Tells (E.written diag.old) (E.written diag.new) (E.faults diag.old) (E.faults diag.new) (untaken_line untaken) }
{
    match untaken {
        Untaken::NotBuilt => tell(diag, not_built()),
        Untaken::Fault(fault) => tell_fault(diag, fault),
    }
}

pub fn tell_write_fault<E: Sink>(diag: &mut E)
    ensures { Tells (E.written diag.old) (E.written diag.new) (E.faults diag.old) (E.faults diag.new) write_line }
{
    tell(diag, write_fault());
}

/// Tells that the file at a place, which counts from 0, can't be read.
fn tell_read_fault<E: Sink>(diag: &mut E, place: u8)
    ensures { Tells (E.written diag.old) (E.written diag.new) (E.faults diag.old) (E.faults diag.new) (read_line place) }
{
    tell_number(diag, b"read fault: file ", u64::from(place) + 1, b"\n");
}

/// Tells that the file at a place is too long.
#[tactic(auto, unfolding(crate::specs::Lines::bytes_line))]
fn tell_too_long<E: Sink>(diag: &mut E, place: u8)
    ensures { Tells (E.written diag.old) (E.written diag.new) (E.faults diag.old) (E.faults diag.new) (bytes_line place) }
{
    tell_number(diag, b"limit: file ", u64::from(place) + 1, b" bytes\n");
}

/// Tells where the file at a place isn't as it has to be.
fn tell_syntax<E: Sink>(diag: &mut E, place: u8, at: u64)
    ensures { Tells (E.written diag.old) (E.written diag.new) (E.faults diag.old) (E.faults diag.new) (syntax_line place at) }
{
    tell_place(
        diag,
        b"syntax: file ",
        u64::from(place) + 1,
        b" at ",
        at,
        b"\n",
    );
}

/// Tells where the file at a place passes a limit.
fn tell_limit<E: Sink>(diag: &mut E, place: u8, what: Counted, at: u64)
    ensures { Tells (E.written diag.old) (E.written diag.new) (E.faults diag.old) (E.faults diag.new) (limit_line place (limit_of what) at) }
{
    tell_place(
        diag,
        b"limit: file ",
        u64::from(place) + 1,
        words_of(what),
        at,
        b"\n",
    );
}

/// Tells why the file at a place, which counts from 0, gives no automaton.
fn tell_refusal<E: Sink>(diag: &mut E, place: u8, refusal: Refusal)
    ensures { Tells (E.written diag.old) (E.written diag.new) (E.faults diag.old) (E.faults diag.new) (refusal_line refusal place) }
{
    match refusal {
        Refusal::ReadFault => tell_read_fault(diag, place),
        Refusal::TooLong => tell_too_long(diag, place),
        Refusal::Syntax { at } => tell_syntax(diag, place, at),
        Refusal::Limit { what, at } => tell_limit(diag, place, what, at),
        Refusal::Memory => tell_memory(diag),
    }
}

#[tactic(auto, unfolding(crate::specs::Lines::name_line))]
fn tell_name<E: Sink>(diag: &mut E, at: u64)
    ensures { Tells (E.written diag.old) (E.written diag.new) (E.faults diag.old) (E.faults diag.new) (name_line at) }
{
    tell_number(diag, b"name: file 3 at ", at, b"\n");
}

#[tactic(auto, unfolding(crate::specs::Lines::measure_line))]
fn past(what: Measure) -> &'static [u8]
    ensures { result.now ≡ measure_line what }
{
    match what {
        Measure::Symbols => b"limit: symbols\n".as_slice(),
        Measure::Pairs => b"limit: pairs\n".as_slice(),
        Measure::Rules => b"limit: rules\n".as_slice(),
        Measure::Relation => b"limit: relation\n".as_slice(),
    }
}

/// Tells why a run has no answer.
pub fn tell_halt<E: Sink>(diag: &mut E, halt: Halt)
    ensures { Tells (E.written diag.old) (E.written diag.new) (E.faults diag.old) (E.faults diag.new) (halt_line halt) }
{
    match halt {
        Halt::File { place, refusal } => tell_refusal(diag, place, refusal),
        Halt::Past { what } => tell(diag, past(what)),
        Halt::Memory => tell_memory(diag),
    }
}

/// Tells why there is nothing to judge.
pub fn tell_reason<E: Sink>(diag: &mut E, reason: Unjudged)
    ensures { Tells (E.written diag.old) (E.written diag.new) (E.faults diag.old) (E.faults diag.new) (reason_line reason) }
{
    match reason {
        Unjudged::File { place, refusal } => tell_refusal(diag, place, refusal),
        Unjudged::BadText { at } => tell_syntax(diag, 2, at),
        Unjudged::UnknownName { at } => tell_name(diag, at),
        Unjudged::Memory => tell_memory(diag),
    }
}
