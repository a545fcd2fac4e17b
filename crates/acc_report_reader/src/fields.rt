//! The names and words of a line, as they are read.
ghost use Rattle.std.specs.Prelude.{◌≡◌, false};
ghost use Rattle.std.specs.List.{list_all};
ghost use Rattle.acc_report_line.specs.Forms.{is_name as has_form_of_name, is_name_byte as has_form_of_byte};
ghost use Rattle.acc_report_reader.specs.Gives.{Gives};
ghost use Rattle.acc_report_reader.specs.Fields.{name_in, list_in, names_in, path_in};

use crate::parts::{is_word, piece};
use crate::placed::PlacedNames;
use crate::refusal::Refusal;
use acc_message::Path;

/// The name of a transaction.
#[tactic(auto, unfolding(crate::specs::Fields::name_in))]
pub(crate) fn name(bytes: &[u8]) -> Result<&[u8], Refusal>
    ensures { Gives (λ name. name.now) result (name_in bytes.now) }
{
    if is_name(bytes) {
        Ok(bytes)
    } else {
        Err(Refusal::Form)
    }
}

fn is_name(bytes: &[u8]) -> bool
    ensures { result ≡ has_form_of_name bytes.now }
{
    match bytes.split_first() {
        Some((first, others)) => {
            first.is_ascii_lowercase() && others.len() <= 15 && are_name_bytes(others)
        }
        None => false,
    }
}

fn are_name_bytes(bytes: &[u8]) -> bool
    ensures { result ≡ list_all has_form_of_byte bytes.now }
{
    bytes.iter().all(|byte| is_name_byte(*byte))
}

fn is_name_byte(byte: u8) -> bool
    ensures { result ≡ has_form_of_byte byte }
{
    byte.is_ascii_lowercase() || byte.is_ascii_digit()
}

/// The names of transactions, or a hyphen for none.
#[tactic(auto, unfolding(crate::specs::Fields::names_in))]
pub(crate) fn names(bytes: &[u8]) -> Result<PlacedNames<'_>, Refusal>
    ensures { Gives (λ names. names) result (names_in bytes.now) }
{
    if is_word(bytes, b"-") {
        Ok(PlacedNames::none())
    } else {
        some_names(bytes)
    }
}

/// Names with commas between them.
fn some_names(bytes: &[u8]) -> Result<PlacedNames<'_>, Refusal>
    ensures { Gives (λ names. names) result (list_in name_in bytes.now) }
{
    let mut rest = bytes;
    while let Some((first, others)) = piece(rest) {
        let _name = name(first)?;
        rest = others;
    }
    let _name = name(rest)?;
    Ok(PlacedNames::of(bytes))
}

/// How a decision was made.
#[tactic(auto, unfolding(crate::specs::Fields::path_in))]
pub(crate) fn path(bytes: &[u8]) -> Result<Path, Refusal>
    ensures { Gives (λ path. path) result (path_in bytes.now) }
{
    if is_word(bytes, b"fast") {
        Ok(Path::Fast)
    } else if is_word(bytes, b"slow") {
        Ok(Path::Slow)
    } else if is_word(bytes, b"recovered") {
        Ok(Path::Recovered)
    } else if is_word(bytes, b"adopted") {
        Ok(Path::Adopted)
    } else {
        Err(Refusal::Form)
    }
}
