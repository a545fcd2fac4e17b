//! What a token is, and what it says.
ghost use Rattle.std.specs.Prelude.{◌≡◌, ◌==◌, map, not, zip, IfOk};
ghost use Rattle.std.specs.List.{list_any, list_all};
ghost use Rattle.std.specs.Char.{is_ascii_uppercase, to_ascii_lowercase};
ghost use Rattle.std.specs.Str.{bytes_eq};
ghost use Rattle.acc_token.specs.Lexemes.{token_shown};
ghost use Rattle.acc_txn.specs.Words.{is_reserved as is_reserved_word};
ghost use Rattle.acc_token.specs.Tokens.{says_word, says_mark};
ghost use Rattle.acc_lang.specs.Reading.{is_number as is_number_of, is_quoted as is_quoted_of, is_free as is_free_of, is_sign as is_sign_of, begins_update as begins_update_of, word_of, number_of as number_of_token, text_of as text_of_token};

use acc_base::{InlineText, OutOfMemory, Sequence, Text};
use acc_token::Lexeme;
use std::alloc::Global;

/// Whether letters of either case spell a word in small letters.
pub fn spells(letters: &[u8], word: &[u8]) -> bool
    ensures { result ≡ bytes_eq (map to_ascii_lowercase letters.now) word.now }
{
    letters.len() == word.len() && begins_alike(letters, word)
}

// Whether each letter is that of the word at its place, up to where one of the two ends.
fn begins_alike(letters: &[u8], word: &[u8]) -> bool
    ensures { result ≡ list_all (λ pair. to_ascii_lowercase pair.0 == pair.1) (zip letters.now word.now) }
{
    letters
        .iter()
        .zip(word)
        .all(|(letter, small)| letter.to_ascii_lowercase() == *small)
}

/// Whether the token is this word, which is given in small letters.
pub fn is_word(lexeme: &Lexeme<'_>, word: &str) -> bool
    ensures { result ≡ says_word word.now (token_shown lexeme.now) }
{
    match lexeme {
        Lexeme::Word(letters) => spells(letters, word.as_bytes()),
        _ => false,
    }
}

/// Whether the token is this mark.
pub fn is_mark(lexeme: &Lexeme<'_>, mark: &str) -> bool
    ensures { result ≡ says_mark mark.now (token_shown lexeme.now) }
{
    match lexeme {
        Lexeme::Mark(bytes) => *bytes == mark.as_bytes(),
        _ => false,
    }
}

/// Whether the token is a number.
pub fn is_number(lexeme: &Lexeme<'_>) -> bool
    ensures { result ≡ is_number_of (token_shown lexeme.now) }
{
    matches!(lexeme, Lexeme::Number(_))
}

/// Whether the token is a text in quotes.
pub fn is_quoted(lexeme: &Lexeme<'_>) -> bool
    ensures { result ≡ is_quoted_of (token_shown lexeme.now) }
{
    matches!(lexeme, Lexeme::Quoted(_))
}

/// Whether the token is a word that may name a LET or a table.
pub fn is_free(lexeme: &Lexeme<'_>) -> bool
    ensures { result ≡ is_free_of (token_shown lexeme.now) }
{
    match lexeme {
        Lexeme::Word(letters) => !is_reserved(letters),
        _ => false,
    }
}

// Whether a word names no LET and no table, since it belongs to the language.
fn is_reserved(letters: &[u8]) -> bool
    ensures { result ≡ is_reserved_word (map to_ascii_lowercase letters.now) }
{
    match letters.len() {
        2 => is_any(letters, &["if", "is"]),
        3 => is_any(letters, &["let", "end", "set", "and", "not"]),
        4 => is_any(letters, &["from", "then", "null"]),
        5 => is_any(letters, &["begin", "where"]),
        6 => is_any(letters, &["select", "update", "delete", "commit"]),
        11 => is_any(letters, &["transaction"]),
        _ => false,
    }
}

fn is_any(letters: &[u8], words: &[&str]) -> bool
    ensures { result ≡ list_any (λ word. bytes_eq (map to_ascii_lowercase letters.now) word.now) words.now }
{
    words.iter().any(|word| spells(letters, word.as_bytes()))
}

/// Whether the token is a plus or a minus.
pub fn is_sign(lexeme: &Lexeme<'_>) -> bool
    ensures { result ≡ is_sign_of (token_shown lexeme.now) }
{
    is_mark(lexeme, "+") || is_mark(lexeme, "-")
}

/// Whether an update begins with the token.
pub fn begins_update(lexeme: &Lexeme<'_>) -> bool
    ensures { result ≡ begins_update_of (token_shown lexeme.now) }
{
    is_word(lexeme, "update") || is_word(lexeme, "delete")
}

/// The letters of a word, of either case, and none of another token.
pub fn letters_of<'a>(lexeme: &Lexeme<'a>) -> &'a [u8]
    ensures { map to_ascii_lowercase result.now ≡ word_of (token_shown lexeme.now) }
{
    match lexeme {
        Lexeme::Word(letters) => letters,
        _ => &[],
    }
}

/// The number of a number token that fits 64 bits, and 0 of another token.
pub fn number_of(lexeme: &Lexeme<'_>) -> u64
    ensures { result ≡ number_of_token (token_shown lexeme.now) }
{
    match lexeme {
        Lexeme::Number(number) => number.unwrap_or(0),
        _ => 0,
    }
}

/// A word in small letters.
pub fn folded(alloc: Global, letters: &[u8]) -> Result<Text, OutOfMemory>
    ensures { IfOk result (λ word. word ≡ map to_ascii_lowercase letters.now) }
{
    let word = letters
        .iter()
        .map(|letter| letter.to_ascii_lowercase())
        .collect(alloc)?;
    Ok(Sequence::from_vec(word))
}

/// A word in small letters, in place if it is short.
#[tactic(auto, using(crate::proofs::Spelling::small_stay))]
pub fn folded_inline(alloc: Global, letters: &[u8]) -> Result<InlineText, OutOfMemory>
    ensures { IfOk result (λ word. word ≡ map to_ascii_lowercase letters.now) }
{
    if are_small(letters) {
        InlineText::from_slice(alloc, letters)
    } else {
        InlineText::from_slice(alloc, folded(alloc, letters)?.as_slice())
    }
}

fn are_small(letters: &[u8]) -> bool
    ensures { result ≡ list_all (λ letter. not (is_ascii_uppercase letter)) letters.now }
{
    letters.iter().all(|letter| !letter.is_ascii_uppercase())
}

/// What a text in quotes says, in place if it is short, and nothing for another token.
pub fn text_inline(alloc: Global, lexeme: &Lexeme<'_>) -> Result<InlineText, OutOfMemory>
    ensures { IfOk result (λ text. text ≡ text_of_token (token_shown lexeme.now)) }
{
    match lexeme {
        Lexeme::Quoted(text) => text.says_inline(alloc),
        _ => InlineText::from_slice(alloc, &[]),
    }
}

/// What a text in quotes says, and nothing for another token.
pub fn text_of(alloc: Global, lexeme: &Lexeme<'_>) -> Result<Text, OutOfMemory>
    ensures { IfOk result (λ text. text ≡ text_of_token (token_shown lexeme.now)) }
{
    match lexeme {
        Lexeme::Quoted(text) => text.says(alloc),
        _ => Ok(Sequence::new(alloc)),
    }
}
