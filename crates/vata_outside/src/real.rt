//! The system's files and writers. What they hand on is what the file or the writer below says of its bytes.

ghost use Rattle.std.specs.Prelude.{◌≡◌, ◌⊎◌, ◌<◌, ◌≤◌, [], length, IfOk, OnErr, OnOk, None, Some, Ok, false, is_ok};
ghost use Rattle.std.specs.Io.{ReadsAtMost};
ghost use Rattle.std.specs.Io.KnownBytes.{IsAtEnd, ReadConsumes, WriteAppends};
ghost use Rattle.vata_outside.specs.Outside.{HasCause, IsMissing, IsNoneAtEnd, Rose, Selects, count_after};

use crate::faults::fault;
use crate::outside::{Failed, Files, Sink};
use std::fs::File;
use std::io::{Read, Write};
use std::marker::Model;
use std::rt::Files as SystemFiles;

/// The system's files, of which at most one is open. With none selected a read gives 0.
pub struct RealFiles<'a, R: SystemFiles> {
    rt: &'a R,
    selected: Option<R::File>,
    faults: u64,
}

impl<'a, R: SystemFiles> Model for RealFiles<'a, R> {
    ghost use Rattle.std.specs.Prelude.{is_some};
    ghost use Rattle.vata_outside.specs.Real.{RealState, left_of};

    ghost Value = { RealState };

    ghost view = { λ s. record {
      faults = s.faults;
      is_selected = is_some s.selected;
      left = left_of R.File.remaining s.selected;
    } };
}

impl<'a, R: SystemFiles> RealFiles<'a, R> {
    /// No file selected, and no fault so far.
    pub fn new(rt: &'a R) -> RealFiles<'a, R>
        ensures { result ≡ record { faults = 0; is_selected = false; left = Some [] } }
    {
        RealFiles {
            rt,
            selected: None,
            faults: 0,
        }
    }
}

impl<'a, R: SystemFiles> Drop for RealFiles<'a, R> {
    fn drop(self) {
        let RealFiles {
            rt: _,
            selected: _,
            faults: _,
        } = self;
    }
}

impl<'a, R: SystemFiles> Files for RealFiles<'a, R> {
    ghost files = { λ _. None };

    ghost left = { λ _. None };

    ghost faults = { λ s. s.faults };

    fn select(&mut self, name: &str) -> Result<(), Failed>
        ensures ok { OnOk result (Selects None name.now None) }
        ensures err { OnErr result (IsAtEnd None) }
        ensures later { self.old.faults ≤ self.new.faults }
        ensures cause { OnErr result (Rose self.old.faults self.new.faults ⊎ IsMissing None name.now) }
        // A fault is counted exactly where the call fails, and then no file is selected.
        ensures count { self.new.faults ≡ count_after result self.old.faults }
        ensures selected { self.new.is_selected ≡ is_ok result }
        ensures none { OnErr result (self.new.left ≡ Some []) }
    {
        self.selected = None;
        match File::open(self.rt, name) {
            Ok(file) => {
                self.selected = Some(file);
                Ok(())
            }
            Err(_) => Err(fault(&mut self.faults)),
        }
    }

    fn read(&mut self, buf: &mut [u8]) -> Result<usize, Failed>
        ensures bound { ReadsAtMost result buf.new }
        ensures bytes { ReadConsumes None None result buf.new }
        ensures end { IfOk result (IsNoneAtEnd None) }
        ensures cause { HasCause self.old.faults self.new.faults result }
        // A fault is counted exactly where the call fails, and with no file a read gives 0.
        ensures count { self.new.faults ≡ count_after result self.old.faults }
        ensures selected { self.new.is_selected ≡ self.old.is_selected }
        ensures none { self.old.is_selected ≡ false → result ≡ Ok 0 }
        // What is read are the next bytes of the file, where it tells them, and none only at its end.
        ensures taken { ReadConsumes self.old.left self.new.left result buf.new }
    {
        match &mut self.selected {
            None => Ok(0),
            Some(file) => read_counted(file, &mut self.faults, buf),
        }
    }
}

/// Standard output, or another writer.
#[derive(Drop)]
pub struct RealOut<W: Write> {
    out: W,
    faults: u64,
}

/// Standard error, or another writer.
#[derive(Drop)]
pub struct RealErr<W: Write> {
    err: W,
    faults: u64,
}

impl<W: Write> Model for RealOut<W> {
    ghost use Rattle.vata_outside.specs.Real.{RealWriter};

    ghost Value = { RealWriter };

    ghost view = { λ s. record { faults = s.faults; contents = W.contents s.out } };
}

impl<W: Write> Model for RealErr<W> {
    ghost use Rattle.vata_outside.specs.Real.{RealWriter};

    ghost Value = { RealWriter };

    ghost view = { λ s. record { faults = s.faults; contents = W.contents s.err } };
}

impl<W: Write> RealOut<W> {
    /// No fault so far.
    pub fn new(out: W) -> RealOut<W>
        ensures { result ≡ record { faults = 0; contents = W.contents out } }
    {
        RealOut { out, faults: 0 }
    }
}

impl<W: Write> RealErr<W> {
    /// No fault so far.
    pub fn new(err: W) -> RealErr<W>
        ensures { result ≡ record { faults = 0; contents = W.contents err } }
    {
        RealErr { err, faults: 0 }
    }
}

impl<W: Write> Sink for RealOut<W> {
    ghost written = { λ _. None };

    ghost faults = { λ s. s.faults };

    fn write(&mut self, piece: &[u8]) -> Result<usize, Failed>
        ensures some { IfOk result (λ n. 0 < n) }
        ensures bound { IfOk result (λ n. n ≤ length piece.now) }
        ensures cause { HasCause self.old.faults self.new.faults result }
        ensures count { self.new.faults ≡ count_after result self.old.faults }
        // As many bytes as are told reached the writer, where it tells what it holds, and on a fault none.
        ensures reached { WriteAppends self.old.contents self.new.contents result piece.now }
    {
        write_counted(&mut self.out, &mut self.faults, piece)
    }
}

impl<W: Write> Sink for RealErr<W> {
    ghost written = { λ _. None };

    ghost faults = { λ s. s.faults };

    fn write(&mut self, piece: &[u8]) -> Result<usize, Failed>
        ensures some { IfOk result (λ n. 0 < n) }
        ensures bound { IfOk result (λ n. n ≤ length piece.now) }
        ensures cause { HasCause self.old.faults self.new.faults result }
        ensures count { self.new.faults ≡ count_after result self.old.faults }
        // As many bytes as are told reached the writer, where it tells what it holds, and on a fault none.
        ensures reached { WriteAppends self.old.contents self.new.contents result piece.now }
    {
        write_counted(&mut self.err, &mut self.faults, piece)
    }
}

/// One read. An error counts as a fault.
fn read_counted<R: Read>(from: &mut R, faults: &mut u64, buf: &mut [u8]) -> Result<usize, Failed>
    ensures bound { ReadsAtMost result buf.new }
    ensures bytes { ReadConsumes (R.remaining from.old) (R.remaining from.new) result buf.new }
    ensures cause { HasCause faults.old faults.new result }
    ensures count { faults.new ≡ count_after result faults.old }
{
    match from.read(buf) {
        Ok(count) => Ok(count),
        Err(_) => Err(fault(faults)),
    }
}

/// One write. An error counts as a fault, and so does a write that takes nothing.
fn write_counted<W: Write>(to: &mut W, faults: &mut u64, piece: &[u8]) -> Result<usize, Failed>
    ensures some { IfOk result (λ n. 0 < n) }
    ensures bound { IfOk result (λ n. n ≤ length piece.now) }
    ensures bytes { WriteAppends (W.contents to.old) (W.contents to.new) result piece.now }
    ensures cause { HasCause faults.old faults.new result }
    ensures count { faults.new ≡ count_after result faults.old }
{
    match to.write(piece) {
        Ok(count) if count > 0 => Ok(count),
        _ => Err(fault(faults)),
    }
}
