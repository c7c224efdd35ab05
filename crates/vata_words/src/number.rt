//! A number in decimal digits.

ghost use Rattle.std.specs.Prelude.{◌≡◌, ◌+◌, ◌*◌, ◌^◌, ◌<◌};
ghost use Rattle.vata_words.specs.Numbers.{begins_with, is_digit, number_up_to, IsFrom1To};

pub(crate) fn begins_with(byte: u8, word: &[u8]) -> bool
    ensures { result ≡ begins_with byte word.now }
{
    match word {
        [first, ..] => *first == byte,
        [] => false,
    }
}

fn is_digit(byte: u8) -> bool
    ensures { result ≡ is_digit byte }
{
    b'0' <= byte && byte <= b'9'
}

/// The number from 1 to `limit` that digits without a leading zero spell.
#[tactic(auto, using(crate::proofs::Numbers::within_past))]
pub(crate) fn number_up_to(limit: u32, word: &[u8]) -> Option<u32>
    requires { limit * 10 + 9 < 2 ^ 32 }
    ensures value { result ≡ number_up_to limit word.now }
    ensures bounds { IsFrom1To limit result }
{
    if begins_with(b'0', word) {
        return None;
    }
    let mut number = 0;
    let mut left = word;
    while let Some((&byte, rest)) = left.split_first() {
        if !is_digit(byte) {
            return None;
        }
        number = number * 10 + (byte - b'0') as u32;
        if limit < number {
            return None;
        }
        left = rest;
    }
    if number == 0 { None } else { Some(number) }
}
