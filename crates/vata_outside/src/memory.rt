//! Files and a sink in memory, which fail at the calls that they are told.

ghost use Rattle.std.specs.Prelude.{◌≡◌, ◌⊎◌, ◌<◌, ◌≤◌, ◌↔◌, ◌++◌, ◌∷◌, [], List, ℕ, length, Some, None, IfOk, OnErr, OnOk, IsErr, IsTrue, is_err};
ghost use Rattle.std.specs.Io.{ReadsAtMost};
ghost use Rattle.std.specs.Io.KnownBytes.{IsAtEnd, ReadConsumes, WriteAppends};
ghost use Rattle.vata_outside.specs.Outside.{HasCause, IsMissing, IsNoneAtEnd, Rose, Selects, bytes_of};
ghost use Rattle.vata_outside.specs.Memory.{after_call, after_write, is_failing, new_files, new_sink, read_count, write_count};

use crate::faults::{fails_next, fault};
use crate::held::{Held, place_of, rest_of};
use crate::outside::{Failed, Files, Sink};
use std::alloc::{AllocError, Global};
use std::marker::Model;

/// Files in memory. Calls of `select` and `read` are numbered together from 1, and fail where their
/// number is among those given, or where a name to select isn't there.
#[derive(Drop)]
pub struct MemFiles {
    alloc: Global,
    held: Vec<Held>,
    selected: Option<usize>,
    at: usize,
    chunk: usize,
    failing: Vec<u64>,
    calls: u64,
    faults: u64,
}

impl Model for MemFiles {
    ghost use Rattle.std.specs.Prelude.{◌<◌, length, map};
    ghost use Rattle.vata_outside.specs.Memory.{MemoryFiles};
    ghost use Rattle.vata_outside.specs.Held.{IsHeldPlace, file_of, left_from, selected_of};

    ghost Value = { MemoryFiles };

    ghost view = { λ s. record {
      files = map file_of s.held.items;
      left = left_from s.at (selected_of s.held.items s.selected);
      chunk = s.chunk;
      failing = s.failing.items;
      calls = s.calls;
      faults = s.faults;
    } };

    ghost invariant = { λ s. (0 < s.chunk) × IsHeldPlace s.held.items s.selected };
}

impl MemFiles {
    /// No files. One read gives at most `chunk` bytes. Takes no memory.
    pub fn new(alloc: Global, chunk: usize, failing: Vec<u64>) -> MemFiles
        requires { 0 < chunk }
        ensures { result ≡ new_files chunk failing.items }
    {
        MemFiles {
            alloc,
            held: Vec::new(alloc),
            selected: None,
            at: 0,
            chunk,
            failing,
            calls: 0,
            faults: 0,
        }
    }

    /// Adds a file of a new name.
    pub fn add(&mut self, name: &str, bytes: &[u8]) -> Result<(), AllocError>
        requires { bytes_of name.now self.old.files ≡ None }
        ensures ok { OnOk result
            (self.new ≡ record self.old { files = self.old.files ++ (name.now, bytes.now) ∷ [] }) }
        ensures err { OnErr result (self.new ≡ self.old) }
    {
        let name = String::from_str(self.alloc, name)?;
        let bytes = Vec::from_slice(self.alloc, bytes)?;
        self.held.push(Held { name, bytes })?;
        Ok(())
    }
}

/// A sink in memory. Its calls are numbered from 1, and fail where their number is among those given,
/// and where no room is left.
#[derive(Drop)]
pub struct MemSink {
    written: Vec<u8>,
    room: usize,
    chunk: usize,
    failing: Vec<u64>,
    calls: u64,
    faults: u64,
}

impl Model for MemSink {
    ghost use Rattle.std.specs.Prelude.{◌<◌, ◌≤◌, vec_len, vec_capacity};
    ghost use Rattle.vata_outside.specs.Memory.{MemorySink};

    ghost Value = { MemorySink };

    ghost view = { λ s. record {
      written = s.written.items;
      room = s.room;
      chunk = s.chunk;
      failing = s.failing.items;
      calls = s.calls;
      faults = s.faults;
    } };

    ghost invariant = { λ s. (0 < s.chunk) × (vec_len s.written ≤ s.room) × (s.room ≤ vec_capacity s.written) };
}

impl MemSink {
    /// An empty sink that holds at most `room` bytes, of which one write takes at most `chunk`. Takes all
    /// its memory at once.
    pub fn new(
        alloc: Global,
        room: usize,
        chunk: usize,
        failing: Vec<u64>,
    ) -> Result<MemSink, AllocError>
        requires { 0 < chunk }
        ensures { IfOk result (λ s. s ≡ new_sink room chunk failing.items) }
    {
        Ok(MemSink {
            written: Vec::with_capacity(alloc, room)?,
            room,
            chunk,
            failing,
            calls: 0,
            faults: 0,
        })
    }

    /// What was written.
    pub fn bytes(&self) -> &[u8]
        ensures value { result.now ≡ self.now.written }
        ensures fits { length result.now ≤ self.now.room }
    {
        self.written.as_slice()
    }
}

impl Files for MemFiles {
    ghost files = { λ s. Some s.files };

    ghost left = { λ s. Some s.left };

    ghost faults = { λ s. s.faults };

    fn select(&mut self, name: &str) -> Result<(), Failed>
        ensures same { Some self.new.files ≡ Some self.old.files }
        ensures ok { OnOk result (Selects (Some self.old.files) name.now (Some self.new.left)) }
        ensures err { OnErr result (self.new.left ≡ []) }
        ensures later { self.old.faults ≤ self.new.faults }
        ensures cause { OnErr result (Rose self.old.faults self.new.faults
            ⊎ IsMissing (Some self.old.files) name.now) }
        // Which calls fail, and what else a call changes.
        ensures fails { IsErr result ↔ (IsTrue (is_failing self.old.failing self.old.calls)
            ⊎ (bytes_of name.now self.old.files ≡ None)) }
        ensures rest { self.new ≡ after_call self.old self.new.left }
    {
        let fails = fails_next(&mut self.calls, &self.failing);
        self.selected = None;
        if fails {
            return Err(fault(&mut self.faults));
        }
        let Some(place) = place_of(&self.held, name) else {
            return Err(Failed);
        };
        self.selected = Some(place);
        self.at = 0;
        Ok(())
    }

    fn read(&mut self, buf: &mut [u8]) -> Result<usize, Failed>
        requires { 0 < length buf.old }
        ensures same { Some self.new.files ≡ Some self.old.files }
        ensures bound { ReadsAtMost result buf.new }
        ensures bytes { ReadConsumes (Some self.old.left) (Some self.new.left) result buf.new }
        ensures end { IfOk result (IsNoneAtEnd (Some self.old.left)) }
        ensures cause { HasCause self.old.faults self.new.faults result }
        // Which calls fail, how much the others read, and what else a call changes.
        ensures fails { IsErr result ↔ IsTrue (is_failing self.old.failing self.old.calls) }
        ensures amount { IfOk result (λ n. n ≡ read_count self.old (length buf.old)) }
        ensures rest { self.new ≡ after_call self.old self.new.left }
    {
        if fails_next(&mut self.calls, &self.failing) {
            return Err(fault(&mut self.faults));
        }
        let left = rest_of(&self.held, self.selected, self.at);
        let count = left.len().min(buf.len()).min(self.chunk);
        let (front, _) = left.split_at(count);
        buf[..count].copy_from_slice(front);
        self.at += count;
        Ok(count)
    }
}

impl Sink for MemSink {
    ghost written = { λ s. Some s.written };

    ghost faults = { λ s. s.faults };

    fn write(&mut self, piece: &[u8]) -> Result<usize, Failed>
        requires { 0 < length piece.now }
        ensures some { IfOk result (λ n. 0 < n) }
        ensures bound { IfOk result (λ n. n ≤ length piece.now) }
        ensures bytes { WriteAppends (Some self.old.written) (Some self.new.written) result piece.now }
        ensures cause { HasCause self.old.faults self.new.faults result }
        // Which calls fail, how much the others take, and what else a call changes.
        ensures fails { IsErr result ↔ (IsTrue (is_failing self.old.failing self.old.calls)
            ⊎ (self.old.room ≤ length self.old.written)) }
        ensures amount { IfOk result (λ n. n ≡ write_count self.old (length piece.now)) }
        ensures rest { self.new ≡ after_write self.old (is_err result) self.new.written }
    {
        let fails = fails_next(&mut self.calls, &self.failing);
        let count = piece
            .len()
            .min(self.chunk)
            .min(self.room - self.written.len());
        if fails || count == 0 {
            return Err(fault(&mut self.faults));
        }
        let (front, _) = piece.split_at(count);
        // There is room, so this takes no memory and can't fail.
        if self.written.extend_from_slice(front).is_err() {
            return Err(fault(&mut self.faults));
        }
        Ok(count)
    }
}
