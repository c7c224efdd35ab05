//! How a run ended.

ghost use Rattle.std.specs.Prelude.{◌≡◌};

/// How a run ended. `number` is the exit status of the program.
#[derive(Clone, Copy, Debug, PartialEq, Eq)]
pub enum Status {
    /// The answer was written whole.
    Done,
    /// The answer was written whole, and it is "not included".
    No,
    /// The words ask for nothing that can be done.
    Usage,
    /// The answer was written whole, and it is "undecided".
    Undecided,
    /// A file is no automaton's text.
    Syntax,
    /// A count passes its limit.
    Limit,
    /// A file can't be read.
    ReadFault,
    /// The answer can't be written. A prefix of it may have been.
    WriteFault,
    Memory,
}

impl Status {
    ghost use Rattle.vata_core.specs.Numbers.{number_of};

    /// 0 to 8, in the order of the variants.
    pub fn number(&self) -> u8
        ensures { result ≡ number_of self.now }
    {
        *self as u8
    }
}
