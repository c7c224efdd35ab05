//! What a program asks of files and of places to write to.

ghost use Rattle.std.specs.Prelude.{◌≡◌, ◌⊎◌, ◌<◌, ◌≤◌, List, ℕ, length, IfOk, OnErr, OnOk, is_some};
ghost use Rattle.std.specs.declared.option.Option.{Option};
ghost use Rattle.std.specs.Io.{ReadsAtMost};
ghost use Rattle.std.specs.Io.KnownBytes.{Appends, IsAtEnd, ReadConsumes, WriteAppends};
ghost use Rattle.vata_outside.specs.Outside.{AppendsPrefix, File, HasCause, IsMissing, IsNoneAtEnd, Rose, Selects};

/// A call of the outside failed.
#[derive(Clone, Copy, Debug, PartialEq, Eq)]
pub struct Failed;

/// Files by name, one of which is selected and read from its front.
pub trait Files {
    /// Each file's name and bytes, where these are told.
    ghost files: { Self → Option (List File) };

    /// The bytes left of the selected file, where these are told: none before the first select.
    ghost left: { Self → Option (List ℕ) };

    /// The count of faults.
    ghost faults: { Self → ℕ };

    /// Selects the file of that name. Failed leaves no file selected.
    fn select(&mut self, name: &str) -> Result<(), Failed>
        ensures same { files self.new ≡ files self.old }
        ensures told { is_some (left self.new) ≡ is_some (left self.old) }
        ensures ok { OnOk result (Selects (files self.old) name.now (left self.new)) }
        ensures err { OnErr result (IsAtEnd (left self.new)) }
        ensures later { faults self.old ≤ faults self.new }
        ensures cause { OnErr result (Rose (faults self.old) (faults self.new)
            ⊎ IsMissing (files self.old) name.now) };

    /// Reads the next bytes into the front of `buf`, and returns how many: 0 exactly where none are left.
    fn read(&mut self, buf: &mut [u8]) -> Result<usize, Failed>
        requires { 0 < length buf.old }
        ensures same { files self.new ≡ files self.old }
        ensures told { is_some (left self.new) ≡ is_some (left self.old) }
        ensures bound { ReadsAtMost result buf.new }
        ensures bytes { ReadConsumes (left self.old) (left self.new) result buf.new }
        ensures end { IfOk result (IsNoneAtEnd (left self.old)) }
        ensures cause { HasCause (faults self.old) (faults self.new) result };
}

/// A place that bytes are written to.
pub trait Sink {
    /// The bytes written so far, where these are told.
    ghost written: { Self → Option (List ℕ) };

    /// The count of faults.
    ghost faults: { Self → ℕ };

    /// Writes the first bytes of `piece`, and returns how many: at least 1.
    fn write(&mut self, piece: &[u8]) -> Result<usize, Failed>
        requires { 0 < length piece.now }
        ensures some { IfOk result (λ n. 0 < n) }
        ensures bound { IfOk result (λ n. n ≤ length piece.now) }
        ensures told { is_some (written self.new) ≡ is_some (written self.old) }
        ensures bytes { WriteAppends (written self.old) (written self.new) result piece.now }
        ensures cause { HasCause (faults self.old) (faults self.new) result };
}

/// Appends all of the bytes, or on a fault a prefix of them. Takes no memory of its own.
pub fn write_all_of<K: Sink>(sink: &mut K, bytes: &[u8]) -> Result<(), Failed>
    ensures ok { OnOk result (Appends (K.written sink.old) (K.written sink.new) bytes.now) }
    ensures err { OnErr result (AppendsPrefix (K.written sink.old) (K.written sink.new) bytes.now) }
    ensures told { is_some (K.written sink.new) ≡ is_some (K.written sink.old) }
    ensures cause { HasCause (K.faults sink.old) (K.faults sink.new) result }
{
    let mut rest = bytes;
    while !rest.is_empty() {
        let count = sink.write(rest)?;
        let (_, after) = rest.split_at(count);
        rest = after;
    }
    Ok(())
}
