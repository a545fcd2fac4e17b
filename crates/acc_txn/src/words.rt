//! The words of the transaction language, and the texts of keys.
ghost use Rattle.std.specs.Prelude.{◌≡◌};
ghost use Rattle.std.specs.List.{list_any, list_all};
ghost use Rattle.std.specs.Str.{bytes_eq, is_utf8};
ghost use Rattle.acc_txn.specs.Words.{is_name, begins_word, continues_word, is_lower_word, is_key_text, is_key, is_printed, is_text_value};

use acc_value::Key;

/// The words that name no LET and no table, since they belong to the language.
pub const RESERVED: [&str; 17] = [
    "begin",
    "transaction",
    "let",
    "select",
    "from",
    "where",
    "if",
    "then",
    "end",
    "update",
    "set",
    "delete",
    "commit",
    "and",
    "is",
    "not",
    "null",
];

/// The greatest length of a word in bytes.
const LONGEST_WORD: usize = 32;

/// The greatest length of a key's text in bytes.
const LONGEST_KEY: usize = 64;

/// How many bytes a text in a cell may have.
const LONGEST_TEXT: usize = 255;

/// Whether a text is a word of the language in lower case that may name a LET or a table.
pub fn is_free_word(word: &[u8]) -> bool
    ensures { result ≡ is_name word.now }
{
    word.len() <= LONGEST_WORD && has_word_form(word) && !contains_text(&RESERVED, word)
}

fn contains_text(texts: &[&str], word: &[u8]) -> bool
    ensures { result ≡ list_any (λ text. bytes_eq word.now text.now) texts.now }
{
    texts.iter().any(|text| word == text.as_bytes())
}

fn has_word_form(word: &[u8]) -> bool
    ensures { result ≡ is_lower_word word.now }
{
    match word.split_first() {
        Some((first, others)) => begins(*first) && all_continue(others),
        None => false,
    }
}

fn all_continue(bytes: &[u8]) -> bool
    ensures { result ≡ list_all continues_word bytes.now }
{
    bytes
        .iter()
        .all(|byte| begins(*byte) || byte.is_ascii_digit())
}

fn begins(byte: u8) -> bool
    ensures { result ≡ begins_word byte }
{
    byte.is_ascii_lowercase() || byte == b'_'
}

/// Whether a text has the form of a key's: 1 to 64 bytes of UTF-8.
pub fn is_free_key_text(text: &[u8]) -> bool
    ensures { result ≡ is_key_text text.now }
{
    !text.is_empty() && text.len() <= LONGEST_KEY && is_text(text)
}

/// Whether a cell may hold the text: UTF-8 of at most 255 bytes, none below 32 and none equal to 127.
pub fn is_free_text_value(text: &[u8]) -> bool
    ensures { result ≡ is_text_value text.now }
{
    text.len() <= LONGEST_TEXT && has_no_control(text) && is_text(text)
}

fn has_no_control(bytes: &[u8]) -> bool
    ensures { result ≡ list_all is_printed bytes.now }
{
    bytes.iter().all(|byte| *byte >= 32 && *byte != 127)
}

fn is_text(bytes: &[u8]) -> bool
    ensures { result ≡ is_utf8 bytes.now }
{
    std::str::from_utf8(bytes).is_ok()
}

/// Whether the table of a key and its text have their forms.
pub fn is_well_formed(key: &Key) -> bool
    ensures { result ≡ is_key key.now }
{
    is_free_word(key.table.as_slice()) && is_free_key_text(key.key.as_slice())
}
