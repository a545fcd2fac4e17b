//! How bytes are cut into parts.
ghost use Rattle.std.specs.Prelude.{◌≡◌, false, option_map};
ghost use Rattle.std.specs.Str.{bytes_eq};
ghost use Rattle.acc_report_reader.specs.Gives.{Gives};
ghost use Rattle.acc_report_reader.specs.Fields.{parts_at, behind_word, piece_at};

use crate::refusal::Refusal;
use memchr::memchr;

/// What stands before the first such byte, and what after it.
pub(crate) fn parts(bytes: &[u8], at: u8) -> Option<(&[u8], &[u8])>
    ensures { option_map (λ p. (p.0.now, p.1.now)) result ≡ parts_at at bytes.now }
{
    for (place, byte) in bytes.iter().enumerate() {
        if *byte == at {
            return Some((&bytes[..place], &bytes[place + 1..]));
        }
    }
    None
}

/// What stands before the first line feed, and what after it.
pub(crate) fn first_line(bytes: &[u8]) -> Option<(&[u8], &[u8])>
    ensures { option_map (λ p. (p.0.now, p.1.now)) result ≡ parts_at 10 bytes.now }
{
    match memchr(b'\n', bytes) {
        Some(place) => Some((&bytes[..place], &bytes[place + 1..])),
        None => None,
    }
}

/// The parts before and after a byte that has to be there.
pub(crate) fn both_parts(bytes: &[u8], at: u8) -> Result<(&[u8], &[u8]), Refusal>
    ensures { Gives (λ p. (p.0.now, p.1.now)) result (parts_at at bytes.now) }
{
    match parts(bytes, at) {
        Some(parts) => Ok(parts),
        None => Err(Refusal::Form),
    }
}

/// What stands before the first comma outside of quotes, and what after it.
pub(crate) fn piece(bytes: &[u8]) -> Option<(&[u8], &[u8])>
    ensures { option_map (λ p. (p.0.now, p.1.now)) result ≡ piece_at false bytes.now }
{
    let mut inside = false;
    for (place, byte) in bytes.iter().enumerate() {
        if (*byte == b',') & !inside {
            return Some((&bytes[..place], &bytes[place + 1..]));
        }
        inside = inside ^ (*byte == b'\'');
    }
    None
}

pub(crate) fn is_word(bytes: &[u8], word: &[u8]) -> bool
    ensures { result ≡ bytes_eq bytes.now word.now }
{
    bytes == word
}

/// What stands after a word that has to be there, and a space.
#[tactic(auto, unfolding(crate::specs::Fields::behind_word))]
pub(crate) fn rest_behind<'a>(bytes: &'a [u8], word: &[u8]) -> Result<&'a [u8], Refusal>
    ensures { Gives (λ rest. rest.now) result (behind_word word.now bytes.now) }
{
    let (first, rest) = both_parts(bytes, b' ')?;
    if is_word(first, word) {
        Ok(rest)
    } else {
        Err(Refusal::Form)
    }
}
