//! What the words read so far have given.

ghost use Rattle.std.specs.Prelude.{◌≡◌, ◌+◌, ◌≤◌, ◌<◌, IfOk};
ghost use Rattle.vata_words.specs.Settings.{settings_of};
ghost use Rattle.vata_words.specs.Parts.{flag_of};
ghost use Rattle.vata_words.specs.Reading.{nothing_given, stood, encoding_of, with_encoding, with_settings, with_flag, with_other, with_argument, IsWithin};

use crate::command::{Command, command_of};
use crate::number::{begins_with, number_up_to};
use crate::request::{Encoding, WordFault};
use crate::settings::{Settings, settings_of};

#[derive(Clone, Copy, Drop)]
pub(crate) enum Flag {
    Trim,
    Encoding,
    Settings,
}

/// What the words read so far have given.
#[derive(Clone, Copy, Drop)]
pub(crate) struct Given {
    /// The place of `-p`, counted from 1.
    pub trim: Option<usize>,
    pub encoding: Option<Encoding>,
    /// The place of `-o`, counted from 1, and its settings.
    pub settings: Option<(usize, Settings)>,
    pub command: Option<Command>,
    /// How many arguments there are.
    pub arguments: usize,
    /// The places of the first two arguments, counted from 0.
    pub first: usize,
    pub second: usize,
    /// The number from 1 to 10,000 that the first argument spells.
    pub number: Option<u32>,
}

/// The flag that a word is.
pub(crate) fn flag_of(word: &str) -> Option<Flag>
    ensures { result ≡ flag_of word.now }
{
    if word == "-p" {
        Some(Flag::Trim)
    } else if word == "-r" {
        Some(Flag::Encoding)
    } else if word == "-o" {
        Some(Flag::Settings)
    } else {
        None
    }
}

fn encoding_of(word: &str) -> Option<Encoding>
    ensures { result ≡ encoding_of word.now }
{
    if word == "expl" {
        Some(Encoding::Expl)
    } else if word == "bdd" {
        Some(Encoding::Bdd)
    } else {
        None
    }
}

impl Given {
    pub fn nothing() -> Given
        ensures { result ≡ nothing_given }
    {
        Given {
            trim: None,
            encoding: None,
            settings: None,
            command: None,
            arguments: 0,
            first: 0,
            second: 0,
            number: None,
        }
    }

    /// The flag stood before.
    pub fn stood(self, flag: Flag) -> bool
        ensures { result ≡ stood self flag }
    {
        match flag {
            Flag::Trim => self.trim.is_some(),
            Flag::Encoding => self.encoding.is_some(),
            Flag::Settings => self.settings.is_some(),
        }
    }

    /// With the trim flag at the place `at`, counted from 0.
    pub fn with_trim(self, at: usize) -> Given
        requires { at < usize.MAX }
        ensures { result ≡ record self { trim = Some (at + 1) } }
    {
        Given {
            trim: Some(at + 1),
            ..self
        }
    }

    fn with_encoding(self, at: usize, value: &str) -> Result<Given, WordFault>
        requires room { at + 1 < usize.MAX }
        requires within { IsWithin self at }
        ensures within { IfOk result (λ now. IsWithin now at) }
        ensures value { result ≡ with_encoding self at (encoding_of value.now) }
    {
        match encoding_of(value) {
            Some(encoding) => Ok(Given {
                encoding: Some(encoding),
                ..self
            }),
            None => Err(WordFault::BadSetting { at: at + 2 }),
        }
    }

    fn with_settings(self, at: usize, value: &str) -> Result<Given, WordFault>
        requires room { at + 1 < usize.MAX }
        requires within { IsWithin self at }
        ensures within { IfOk result (λ now. IsWithin now at) }
        ensures value { result ≡ with_settings self at (settings_of value.now) }
    {
        match settings_of(value) {
            Some(settings) => Ok(Given {
                settings: Some((at + 1, settings)),
                ..self
            }),
            None => Err(WordFault::BadSetting { at: at + 2 }),
        }
    }

    /// With a flag at the place `at`, counted from 0, and the value after it.
    pub fn with_value(self, flag: Flag, at: usize, value: &str) -> Result<Given, WordFault>
        requires room { at + 1 < usize.MAX }
        requires within { IsWithin self at }
        ensures value { result ≡ with_flag self at flag (Some value.now) }
        ensures within { IfOk result (λ now. IsWithin now at) }
    {
        match flag {
            Flag::Trim => Ok(self.with_trim(at)),
            Flag::Encoding => self.with_encoding(at, value),
            Flag::Settings => self.with_settings(at, value),
        }
    }

    fn with_argument(self, at: usize, word: &str) -> Given
        requires room { at < usize.MAX }
        requires within { IsWithin self at }
        ensures value { result ≡ with_argument self at word.now }
        ensures within { IsWithin result (at + 1) }
    {
        let arguments = self.arguments + 1;
        if self.arguments == 0 {
            let number = number_up_to(10_000, word.as_bytes());
            Given {
                arguments,
                first: at,
                number,
                ..self
            }
        } else if self.arguments == 1 {
            Given {
                arguments,
                second: at,
                ..self
            }
        } else {
            Given { arguments, ..self }
        }
    }

    /// With a word at the place `at`, counted from 0, that is no flag and no value.
    pub fn with_other(self, at: usize, word: &str) -> Result<Given, WordFault>
        requires room { at < usize.MAX }
        requires within { IsWithin self at }
        ensures value { result ≡ with_other self at word.now }
        ensures within { IfOk result (λ now. IsWithin now (at + 1)) }
    {
        if begins_with(b'-', word.as_bytes()) {
            return Err(WordFault::UnknownWord { at: at + 1 });
        }
        if self.command.is_some() {
            return Ok(self.with_argument(at, word));
        }
        match command_of(word) {
            Some(command) => Ok(Given {
                command: Some(command),
                ..self
            }),
            None => Err(WordFault::UnknownWord { at: at + 1 }),
        }
    }
}
