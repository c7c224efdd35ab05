//! What the words of a whole line ask for, by what they give.

ghost use Rattle.std.specs.Prelude.{◌≡◌, ◌<◌, ◌≤◌};
ghost use Rattle.vata_words.specs.Requests.{misplaced, misplaced_trim, misplaced_settings, least, encoding_in, dir_in, sim_in, budget_in, bench_of, asked, asked_unless, asked_by};

use crate::command::Command;
use crate::given::Given;
use crate::request::{Dir, Encoding, Request, WordFault};
use crate::settings::Settings;

fn least(first: Option<usize>, second: Option<usize>) -> Option<usize>
    ensures { result ≡ least first second }
{
    match (first, second) {
        (Some(first), Some(second)) => Some(if second < first { second } else { first }),
        (Some(first), None) => Some(first),
        (None, second) => second,
    }
}

impl Command {
    fn misplaced_trim(self, trim: Option<usize>) -> Option<usize>
        ensures { result ≡ misplaced_trim self trim }
    {
        if self.takes_trim() { None } else { trim }
    }

    fn misplaced_settings(self, settings: Option<(usize, Settings)>) -> Option<usize>
        ensures { result ≡ misplaced_settings self settings }
    {
        match settings {
            None => None,
            Some((at, settings)) => if self.takes_settings(settings) {
                None
            } else {
                Some(at)
            },
        }
    }

    /// The least place of a flag that isn't for the command, counted from 1.
    fn misplaced(self, given: Given) -> Option<usize>
        ensures { result ≡ misplaced self given }
    {
        least(
            self.misplaced_trim(given.trim),
            self.misplaced_settings(given.settings),
        )
    }
}

impl Given {
    fn encoding(self) -> Encoding
        ensures { result ≡ encoding_in self }
    {
        self.encoding.unwrap_or(Encoding::Expl)
    }

    fn dir(self, usual: Dir) -> Dir
        ensures { result ≡ dir_in usual self.settings }
    {
        match self.settings {
            Some((_, settings)) => settings.dir.unwrap_or(usual),
            None => usual,
        }
    }

    fn sim(self) -> bool
        ensures { result ≡ sim_in self.settings }
    {
        match self.settings {
            Some((_, settings)) => settings.sim.unwrap_or(false),
            None => false,
        }
    }

    fn budget(self) -> u32
        ensures { result ≡ budget_in self.settings }
    {
        match self.settings {
            Some((_, settings)) => settings.budget.unwrap_or(100_000),
            None => 100_000,
        }
    }

    fn bench(self) -> Result<Request, WordFault>
        requires { self.first < usize.MAX }
        ensures { result ≡ bench_of self self.number }
    {
        match self.number {
            Some(n) => Ok(Request::Bench {
                encoding: self.encoding(),
                n,
            }),
            None => Err(WordFault::BadSetting { at: self.first + 1 }),
        }
    }

    /// What the command asks for, with its flags and as many arguments as it takes.
    fn asked(self, command: Command) -> Result<Request, WordFault>
        requires { self.first < usize.MAX }
        ensures { result ≡ asked command self }
    {
        let (encoding, trim, first, second) = (
            self.encoding(),
            self.trim.is_some(),
            self.first,
            self.second,
        );
        match command {
            Command::Load => Ok(Request::Load {
                encoding,
                trim,
                file: first,
            }),
            Command::Union => Ok(Request::Union {
                encoding,
                trim,
                first,
                second,
            }),
            Command::Isect => Ok(Request::Isect {
                encoding,
                trim,
                first,
                second,
            }),
            Command::Sim => Ok(Request::Sim {
                encoding,
                dir: self.dir(Dir::Down),
                file: first,
            }),
            Command::Red => Ok(Request::Red {
                encoding,
                file: first,
            }),
            Command::Incl => Ok(Request::Incl {
                encoding,
                dir: self.dir(Dir::Up),
                sim: self.sim(),
                budget: self.budget() as u64,
                first,
                second,
            }),
            Command::Bench => self.bench(),
        }
    }
}

/// The request, by what the words of a whole line give.
pub(crate) fn asked_by(given: Given) -> Result<Request, WordFault>
    requires { given.first < usize.MAX }
    ensures { result ≡ asked_by given.command given }
{
    let Some(command) = given.command else {
        return Err(WordFault::NoCommand);
    };
    if let Some(at) = command.misplaced(given) {
        return Err(WordFault::NotForThis { at });
    }
    if given.arguments != command.arguments() {
        return Err(WordFault::FileCount {
            found: given.arguments,
        });
    }
    given.asked(command)
}
