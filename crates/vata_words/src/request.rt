//! What a command line asks for.

/// How an automaton's rules are kept.
#[derive(Clone, Copy, Debug, Drop, PartialEq, Eq)]
pub enum Encoding {
    Expl,
    Bdd,
}

/// Upward or downward.
#[derive(Clone, Copy, Debug, Drop, PartialEq, Eq)]
pub enum Dir {
    Up,
    Down,
}

/// What a line asks for. A file is named by its word's place, counted from 0.
#[derive(Clone, Copy, Debug, Drop, PartialEq, Eq)]
pub enum Request {
    Load {
        encoding: Encoding,
        trim: bool,
        file: usize,
    },
    Union {
        encoding: Encoding,
        trim: bool,
        first: usize,
        second: usize,
    },
    Isect {
        encoding: Encoding,
        trim: bool,
        first: usize,
        second: usize,
    },
    Sim {
        encoding: Encoding,
        dir: Dir,
        file: usize,
    },
    Red {
        encoding: Encoding,
        file: usize,
    },
    /// `budget` is from 1 to 1,000,000.
    Incl {
        encoding: Encoding,
        dir: Dir,
        sim: bool,
        budget: u64,
        first: usize,
        second: usize,
    },
    /// `n` is from 1 to 10,000.
    Bench {
        encoding: Encoding,
        n: u32,
    },
}

/// The three files of a check. A file is named by its word's place, counted from 0.
#[derive(Clone, Copy, Debug, Drop, PartialEq, Eq)]
pub struct CheckRequest {
    pub first: usize,
    pub second: usize,
    pub certificate: usize,
}

/// What is wrong with a line. `at` is the word's place, counted from 1.
#[derive(Clone, Copy, Debug, Drop, PartialEq, Eq)]
pub enum WordFault {
    NoCommand,
    /// A word with a dash that is no flag, or a first plain word that is no command.
    UnknownWord { at: usize },
    /// A flag that stood before.
    Repeated { at: usize },
    /// A flag whose value is missing.
    MissingValue { at: usize },
    /// A value that can't be had.
    BadSetting { at: usize },
    /// A flag that isn't for the command.
    NotForThis { at: usize },
    /// Another number of arguments than the command takes.
    FileCount { found: usize },
}
