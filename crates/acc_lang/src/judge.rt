//! What is wrong with a token, by how it suits the place where it stands.
ghost use Rattle.std.specs.Prelude.{◌≡◌, ◌&&◌, true, false, is_some};
ghost use Rattle.acc_token.specs.Tokens.{content};
ghost use Rattle.acc_token.specs.Lexemes.{token_shown};
ghost use Rattle.acc_lang.specs.Answer.{Judges};
ghost use Rattle.acc_lang.specs.Faults.{fault_of as fault_of_token, fault_behind_minus, fault_behind_end, greatest_fault, is_long as is_long_token, has_form, is_broken as is_broken_token, is_large as is_large_token, exceeds as exceeds_limit};
ghost use Rattle.acc_lang.specs.Reading.{standing_of as standing};

use crate::error::LangKind;
use crate::fault::{Fault, ReadError, Standing};
use acc_token::{Lexeme, QuotedText, Shown};

/// The greatest length of a word in bytes.
pub const LONGEST_WORD: usize = 32;

/// The greatest length of a key's text in bytes.
const LONGEST_TEXT: usize = 64;

/// The greatest length of a text value in bytes.
const LONGEST_VALUE: usize = 255;

/// The greatest number without a sign.
const LARGEST: u64 = 9223372036854775807;

/// The greatest number after a minus sign.
const LARGEST_NEGATIVE: u64 = 9223372036854775808;

/// How a token stands that is allowed or not, that is one too many or not, and that suits or not.
#[tactic(auto, unfolding(crate::specs::Reading::standing_of))]
pub fn standing_of(allowed: bool, extra: bool, suits: bool) -> Standing
    ensures { result ≡ standing allowed extra suits }
{
    if !allowed {
        Standing::Misplaced
    } else if extra {
        Standing::Extra
    } else if suits {
        Standing::Fits
    } else {
        Standing::Unfit
    }
}

/// Whether a token that is needed may stand there. `as_key` tells whether a text in quotes is measured as that of a key.
pub fn check(shown: &Shown<'_>, as_key: bool, standing: Standing) -> Result<(), ReadError>
    ensures { Judges result (fault_of_token as_key standing (token_shown shown.now.lexeme)) shown.now.left }
{
    judged(fault_of(as_key, standing, &shown.lexeme), shown.left)
}

/// Whether a token is a number that may stand after a minus sign.
pub fn check_behind_minus(shown: &Shown<'_>, as_key: bool) -> Result<(), ReadError>
    ensures { Judges result (fault_behind_minus as_key (token_shown shown.now.lexeme)) shown.now.left }
{
    judged(negative_fault(as_key, &shown.lexeme), shown.left)
}

/// Whether nothing follows.
pub fn check_behind_end(shown: &Shown<'_>) -> Result<(), ReadError>
    ensures { Judges result (fault_behind_end (token_shown shown.now.lexeme)) shown.now.left }
{
    judged(trailing_fault(&shown.lexeme), shown.left)
}

fn judged(found: Option<LangKind>, left: usize) -> Result<(), ReadError>
    ensures { Judges result found left }
{
    match found {
        None => Ok(()),
        Some(kind) => Err(ReadError::At(Fault { kind, left })),
    }
}

#[tactic(auto, unfolding(crate::specs::Faults::fault_of))]
fn fault_of(as_key: bool, standing: Standing, lexeme: &Lexeme<'_>) -> Option<LangKind>
    ensures { result ≡ fault_of_token as_key standing (token_shown lexeme.now) }
{
    match lexeme {
        Lexeme::Strange => Some(LangKind::Char),
        Lexeme::End => Some(LangKind::Missing),
        _ => greatest(as_key, standing, lexeme),
    }
}

#[tactic(auto, unfolding(crate::specs::Faults::fault_behind_minus))]
fn negative_fault(as_key: bool, lexeme: &Lexeme<'_>) -> Option<LangKind>
    ensures { result ≡ fault_behind_minus as_key (token_shown lexeme.now) }
{
    match lexeme {
        Lexeme::Number(number) => exceeds(LARGEST_NEGATIVE, *number).then_some(LangKind::Number),
        Lexeme::Strange => Some(LangKind::Char),
        Lexeme::End => Some(LangKind::Missing),
        _ => greatest(as_key, Standing::Misplaced, lexeme),
    }
}

#[tactic(auto, unfolding(crate::specs::Faults::fault_behind_end))]
fn trailing_fault(lexeme: &Lexeme<'_>) -> Option<LangKind>
    ensures { result ≡ fault_behind_end (token_shown lexeme.now) }
{
    match lexeme {
        Lexeme::Strange => Some(LangKind::Char),
        Lexeme::End => None,
        _ => Some(LangKind::Trailing),
    }
}

fn greatest(as_key: bool, standing: Standing, lexeme: &Lexeme<'_>) -> Option<LangKind>
    ensures { result ≡ greatest_fault as_key standing (token_shown lexeme.now) }
{
    if matches!(standing, Standing::Extra) {
        Some(LangKind::Size)
    } else if matches!(standing, Standing::Unfit) || is_long(lexeme) {
        Some(LangKind::Name)
    } else if is_broken(as_key, lexeme) {
        Some(LangKind::Text)
    } else if is_large(lexeme) {
        Some(LangKind::Number)
    } else if matches!(standing, Standing::Misplaced) {
        Some(LangKind::Word)
    } else {
        None
    }
}

fn is_long(lexeme: &Lexeme<'_>) -> bool
    ensures { result ≡ is_long_token (token_shown lexeme.now) }
{
    match lexeme {
        Lexeme::Word(word) => word.len() > LONGEST_WORD,
        _ => false,
    }
}

fn is_broken(as_key: bool, lexeme: &Lexeme<'_>) -> bool
    ensures { result ≡ is_broken_token as_key (token_shown lexeme.now) }
{
    match lexeme {
        Lexeme::Quoted(text) if as_key => !is_whole_key(text),
        Lexeme::Quoted(text) => !is_whole_value(text),
        _ => false,
    }
}

fn is_whole_key(text: &QuotedText<'_>) -> bool
    ensures { result ≡ (is_some text.now.len && has_form true (content false text.now.behind_quote.now)) }
{
    text.len.is_some_and(|len| len >= 1 && len <= LONGEST_TEXT)
}

fn is_whole_value(text: &QuotedText<'_>) -> bool
    ensures { result ≡ (is_some text.now.len && has_form false (content false text.now.behind_quote.now)) }
{
    text.len.is_some_and(|len| len <= LONGEST_VALUE) && text.plain
}

fn is_large(lexeme: &Lexeme<'_>) -> bool
    ensures { result ≡ is_large_token (token_shown lexeme.now) }
{
    match lexeme {
        Lexeme::Number(number) => exceeds(LARGEST, *number),
        _ => false,
    }
}

fn exceeds(limit: u64, number: Option<u64>) -> bool
    ensures { result ≡ exceeds_limit limit number }
{
    match number {
        Some(number) => number > limit,
        None => true,
    }
}
