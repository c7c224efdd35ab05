//! The list of settings after `-o`.

ghost use Rattle.std.specs.Prelude.{◌≡◌, ◌∷◌, option_copied, IfSome};
ghost use Rattle.std.specs.List.{slice_split};
ghost use Rattle.vata_words.specs.Settings.{no_settings, setting_of, with_setting, with_text, settings_of, budget_of, is_comma, pieces_left, IsGood};
ghost use Rattle.vata_words.specs.Numbers.{IsFrom1To};

use crate::number::number_up_to;
use crate::request::Dir;

/// One setting.
#[derive(Clone, Copy, Drop)]
pub(crate) enum Setting {
    Direction(Dir),
    Simulation(bool),
    Budget(u32),
}

/// The settings of a list, each at most once.
#[derive(Clone, Copy, Drop)]
pub(crate) struct Settings {
    pub dir: Option<Dir>,
    pub sim: Option<bool>,
    pub budget: Option<u32>,
}

fn budget_of(text: &str) -> Option<Setting>
    ensures value { result ≡ budget_of text.now }
    ensures good { IfSome result IsGood }
{
    let digits = text.as_bytes().strip_prefix(b"budget=")?;
    Some(Setting::Budget(number_up_to(1_000_000, digits)?))
}

fn setting_of(text: &str) -> Option<Setting>
    ensures value { result ≡ setting_of text.now }
    ensures good { IfSome result IsGood }
{
    if text == "dir=up" {
        Some(Setting::Direction(Dir::Up))
    } else if text == "dir=down" {
        Some(Setting::Direction(Dir::Down))
    } else if text == "sim=yes" {
        Some(Setting::Simulation(true))
    } else if text == "sim=no" {
        Some(Setting::Simulation(false))
    } else {
        budget_of(text)
    }
}

impl Settings {
    fn none() -> Settings
        ensures { result ≡ no_settings }
    {
        Settings {
            dir: None,
            sim: None,
            budget: None,
        }
    }

    fn with_setting(self, setting: Setting) -> Option<Settings>
        requires before { IsFrom1To 1000000 self.budget }
        requires good { IsGood setting }
        ensures value { result ≡ with_setting self setting }
        ensures good { IfSome result (λ now. IsFrom1To 1000000 now.budget) }
    {
        match setting {
            Setting::Direction(dir) if self.dir.is_none() => Some(Settings {
                dir: Some(dir),
                ..self
            }),
            Setting::Simulation(sim) if self.sim.is_none() => Some(Settings {
                sim: Some(sim),
                ..self
            }),
            Setting::Budget(budget) if self.budget.is_none() => Some(Settings {
                budget: Some(budget),
                ..self
            }),
            _ => None,
        }
    }

    fn with_text(self, text: &str) -> Option<Settings>
        requires { IsFrom1To 1000000 self.budget }
        ensures value { result ≡ with_text self text.now }
        ensures good { IfSome result (λ now. IsFrom1To 1000000 now.budget) }
    {
        self.with_setting(setting_of(text)?)
    }
}

/// The text before the first comma, and what stands after that comma.
fn cut_at_comma(text: &str) -> (&str, Option<&str>)
    ensures { slice_split is_comma text.now ≡ result.0.now ∷ pieces_left (option_copied result.1) }
{
    match text.split_once(',') {
        Some((piece, rest)) => (piece, Some(rest)),
        None => (text, None),
    }
}

/// The settings that a word parts by commas.
pub(crate) fn settings_of(word: &str) -> Option<Settings>
    ensures value { result ≡ settings_of word.now }
    ensures good { IfSome result (λ settings. IsFrom1To 1000000 settings.budget) }
{
    let mut settings = Settings::none();
    let mut left = Some(word);
    while let Some(text) = left {
        let (piece, rest) = cut_at_comma(text);
        settings = settings.with_text(piece)?;
        left = rest;
    }
    Some(settings)
}
