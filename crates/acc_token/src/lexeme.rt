//! A token as it stands in the text.
ghost use Rattle.std.specs.Prelude.{◌≡◌, ◌==◌, false, IfOk, IfSome, not};
ghost use Rattle.std.specs.List.{list_all};
ghost use Rattle.acc_token.specs.Tokens.{content, content_len, says_plain};

use acc_base::{InlineText, OutOfMemory, Text};
use std::alloc::Global;

/// A token as it stands in the text, which it borrows.
#[derive(Clone, Copy, Debug)]
pub enum Lexeme<'a> {
    /// A word, in letters of either case.
    Word(&'a [u8]),
    /// A mark of one or two bytes.
    Mark(&'a [u8]),
    /// A number without a sign. There is none where it is 2^64 or more.
    Number(Option<u64>),
    /// A text in quotes.
    Quoted(QuotedText<'a>),
    /// A byte that begins no token.
    Strange,
    /// The end of the text.
    End,
}

/// A text in quotes.
#[derive(Clone, Copy, Debug)]
pub struct QuotedText<'a> {
    /// All that stands behind the opening quote, up to the end of the whole text.
    pub behind_quote: &'a [u8],
    /// How many bytes the quoted text says, with one for two quotes. There is none where the closing quote is missing.
    pub len: Option<usize>,
    /// Whether it says no control character of ASCII.
    pub plain: bool,
    ghost plain_is: { plain ≡ says_plain behind_quote.now },
    ghost counts: { len ≡ content_len behind_quote.now },
}

impl QuotedText<'_> {
    /// What the quoted text says, in place if it is short.
    pub fn says_inline(&self, alloc: Global) -> Result<InlineText, OutOfMemory>
        ensures { IfOk result (λ text. text ≡ content false self.now.behind_quote.now) }
    {
        match self.as_written() {
            Some(text) => InlineText::from_slice(alloc, text),
            None => InlineText::from_slice(alloc, self.says(alloc)?.as_slice()),
        }
    }

    // What it says, where that stands in the text as it is, since no quote is doubled.
    fn as_written(&self) -> Option<&[u8]>
        ensures { IfSome result (λ text. text.now ≡ content false self.now.behind_quote.now) }
    {
        let front = &self.behind_quote[..self.len?];
        if has_no_quote(front) {
            Some(front)
        } else {
            None
        }
    }

    /// What the quoted text says.
    pub fn says(&self, alloc: Global) -> Result<Text, OutOfMemory>
        ensures { IfOk result (λ text. text ≡ content false self.now.behind_quote.now) }
    {
        let mut text = Text::from_vec(Vec::with_capacity(alloc, self.len.unwrap_or(0))?);
        let mut waits = false;
        for byte in self.behind_quote {
            let quote = *byte == b'\'';
            if waits && !quote {
                return Ok(text);
            }
            if waits || !quote {
                text.push(*byte)?;
            }
            waits = quote && !waits;
        }
        Ok(text)
    }
}

fn has_no_quote(text: &[u8]) -> bool
    ensures { result ≡ list_all (λ c. not (c == 39)) text.now }
{
    text.iter().all(|byte| *byte != b'\'')
}
