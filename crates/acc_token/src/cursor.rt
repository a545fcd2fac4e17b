//! The place between two tokens of a text.
ghost use Rattle.std.specs.Prelude.{◌≡◌, ◌≤◌, ◌+◌, false, length, drop, if◌then◌else◌};
ghost use Rattle.acc_token.specs.Tokens.{Quoted, token_at, left_at, behind as behind_of, token_of, token_len, content, is_closed, quoted_len, mark_of, mark_len, after_blanks, says_word, says_mark};
ghost use Rattle.acc_token.specs.Lexemes.{token_shown};

use crate::lexeme::{Lexeme, QuotedText};
use crate::scan::{
    Extent, begins_word, blanks, digits_len, is_mark, is_word, mark_len, number_of, quoted_extent,
    without_front, word_len,
};

/// A place between two tokens of a text.
#[derive(Clone, Copy, Debug)]
pub struct Cursor<'a> {
    /// What follows the place.
    pub rest: &'a [u8],
}

/// A token, and where it stands.
#[derive(Clone, Copy, Debug)]
pub struct Shown<'a> {
    /// The token.
    pub lexeme: Lexeme<'a>,
    /// How many bytes of the text are left from its first byte on.
    pub left: usize,
}

impl<'a> Cursor<'a> {
    /// The place in front of a text.
    pub fn new(text: &'a [u8]) -> Cursor<'a>
        ensures { result.rest.now ≡ text.now }
    {
        Cursor { rest: text }
    }

    /// Goes behind the next token. At the end, and in front of a byte that begins no token, it stays.
    #[tactic(auto, unfolding(crate::specs::Tokens::token_at, crate::specs::Tokens::left_at, crate::specs::Tokens::behind))]
    #[inline(never)]
    pub fn next(&mut self) -> Shown<'a>
        ensures token { token_shown result.lexeme ≡ token_at self.old.rest.now }
        ensures left { result.left ≡ left_at self.old.rest.now }
        ensures behind { self.new.rest.now ≡ behind_of self.old.rest.now }
    {
        let text = begun(self.rest);
        let (lexeme, len) = first(text);
        self.rest = without_front(text, len);
        Shown {
            lexeme,
            left: text.len(),
        }
    }

    /// Whether the next token is this word, which is given in small letters.
    #[tactic(auto, unfolding(crate::specs::Tokens::token_at))]
    #[inline(always)]
    pub fn is_word(&self, word: &[u8]) -> bool
        ensures { result ≡ says_word word.now (token_at self.now.rest.now) }
    {
        is_word(begun(self.rest), word)
    }

    /// Whether the next token is this mark.
    #[tactic(auto, unfolding(crate::specs::Tokens::token_at))]
    #[inline(always)]
    pub fn is_mark(&self, mark: &[u8]) -> bool
        ensures { result ≡ says_mark mark.now (token_at self.now.rest.now) }
    {
        is_mark(begun(self.rest), mark)
    }

    /// Goes behind the next token where it is this word, which is given in small letters, and tells whether it is.
    #[tactic(auto, using(crate::proofs::Words::len_of_word, crate::proofs::Words::word_within), unfolding(crate::specs::Tokens::token_at, crate::specs::Tokens::behind))]
    #[inline(always)]
    pub fn skip_word(&mut self, word: &[u8]) -> bool
        ensures word { result ≡ says_word word.now (token_at self.old.rest.now) }
        ensures behind { self.new.rest.now ≡ (if result then behind_of self.old.rest.now else self.old.rest.now) }
    {
        let text = begun(self.rest);
        let is_next = is_word(text, word);
        if is_next {
            self.rest = without_front(text, word.len());
        }
        is_next
    }

    /// Goes behind the next token where it is this mark, and tells whether it is.
    #[tactic(auto, using(crate::proofs::Words::len_of_mark, crate::proofs::Words::mark_fits), unfolding(crate::specs::Tokens::token_at, crate::specs::Tokens::behind))]
    #[inline(always)]
    pub fn skip_mark(&mut self, mark: &[u8]) -> bool
        ensures mark { result ≡ says_mark mark.now (token_at self.old.rest.now) }
        ensures behind { self.new.rest.now ≡ (if result then behind_of self.old.rest.now else self.old.rest.now) }
    {
        let text = begun(self.rest);
        let is_next = is_mark(text, mark);
        if is_next {
            self.rest = without_front(text, mark.len());
        }
        is_next
    }
}

// The text from its first token on.
#[tactic(auto, unfolding(crate::specs::Tokens::after_blanks))]
#[inline(always)]
fn begun(text: &[u8]) -> &[u8]
    ensures { result.now ≡ after_blanks text.now }
{
    without_front(text, blanks(text))
}

// The token that a text without blanks in front begins with, and how many bytes it has.
#[tactic(auto, unfolding(crate::specs::Tokens::token_of, crate::specs::Tokens::token_len))]
#[inline(always)]
fn first(text: &[u8]) -> (Lexeme<'_>, usize)
    ensures token { token_shown result.0 ≡ token_of text.now }
    ensures len { result.1 ≡ token_len text.now }
    ensures within { result.1 ≤ length text.now }
{
    let Some(byte) = text.first() else {
        return (Lexeme::End, 0);
    };
    if begins_word(*byte) {
        let len = word_len(text);
        (Lexeme::Word(&text[..len]), len)
    } else if byte.is_ascii_digit() {
        let len = digits_len(text);
        (Lexeme::Number(number_of(&text[..len])), len)
    } else if *byte == b'\'' {
        quoted(&text[1..])
    } else {
        mark(text)
    }
}

fn quoted(behind_quote: &[u8]) -> (Lexeme<'_>, usize)
    ensures token { token_shown result.0 ≡ Quoted (content false behind_quote.now) (is_closed false behind_quote.now) }
    ensures len { result.1 ≡ 1 + quoted_len false behind_quote.now }
    ensures within { result.1 ≤ 1 + length behind_quote.now }
{
    let Extent {
        reach,
        len,
        plain,
        closed,
    } = quoted_extent(behind_quote);
    let text = QuotedText {
        behind_quote,
        len: closed.then_some(len),
        plain,
    };
    (Lexeme::Quoted(text), 1 + reach)
}

fn mark(text: &[u8]) -> (Lexeme<'_>, usize)
    ensures token { token_shown result.0 ≡ mark_of (mark_len text.now) text.now }
    ensures len { result.1 ≡ mark_len text.now }
    ensures within { result.1 ≤ length text.now }
{
    match mark_len(text) {
        0 => (Lexeme::Strange, 0),
        len => (Lexeme::Mark(&text[..len]), len),
    }
}
