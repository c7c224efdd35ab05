//! The seven commands, and what each takes.

ghost use Rattle.std.specs.Prelude.{◌≡◌};
ghost use Rattle.vata_words.specs.Commands.{command_of, arguments_of, takes_trim, takes_settings};

use crate::settings::Settings;

#[derive(Clone, Copy, Drop)]
pub(crate) enum Command {
    Load,
    Union,
    Isect,
    Sim,
    Red,
    Incl,
    Bench,
}

/// The command that a word names.
pub(crate) fn command_of(word: &str) -> Option<Command>
    ensures { result ≡ command_of word.now }
{
    if word == "load" {
        Some(Command::Load)
    } else if word == "union" {
        Some(Command::Union)
    } else if word == "isect" {
        Some(Command::Isect)
    } else if word == "sim" {
        Some(Command::Sim)
    } else if word == "red" {
        Some(Command::Red)
    } else if word == "incl" {
        Some(Command::Incl)
    } else if word == "bench" {
        Some(Command::Bench)
    } else {
        None
    }
}

impl Command {
    /// How many arguments it takes.
    pub fn arguments(self) -> usize
        ensures { result ≡ arguments_of self }
    {
        match self {
            Command::Load | Command::Sim | Command::Red | Command::Bench => 1,
            Command::Union | Command::Isect | Command::Incl => 2,
        }
    }

    pub fn takes_trim(self) -> bool
        ensures { result ≡ takes_trim self }
    {
        match self {
            Command::Load | Command::Union | Command::Isect => true,
            Command::Sim | Command::Red | Command::Incl | Command::Bench => false,
        }
    }

    pub fn takes_settings(self, settings: Settings) -> bool
        ensures { result ≡ takes_settings self settings }
    {
        match self {
            Command::Sim => settings.sim.is_none() && settings.budget.is_none(),
            Command::Incl => true,
            Command::Load | Command::Union | Command::Isect | Command::Red | Command::Bench =>
                false,
        }
    }
}
