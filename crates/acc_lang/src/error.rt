//! Why a text is no transaction.
use acc_base::OutOfMemory;
use std::error::Error;
use std::fmt;

/// What is wrong with the first token at fault. If several things are, it is the one with the greatest number.
#[derive(Clone, Copy, Debug, PartialEq, Eq)]
pub enum LangKind {
    /// No token has this byte as its first.
    Char = 1,
    /// The grammar takes no such token in this place.
    Word = 2,
    /// A number that with its sign doesn't fit 64 bits.
    Number = 3,
    /// No quote closes the text, or it says what it mustn't. Where the grammar wants a key that is nothing or more than 64
    /// bytes. Everywhere else it is the same in version 1, and in version 2 more than 255 bytes or a control character of ASCII.
    Text = 4,
    /// Nothing follows, though the grammar wants a token.
    Missing = 5,
    /// The word is longer than 32 bytes, a second LET binds the name, or no LET binds the name that is used.
    Name = 6,
    /// There are sixteen LETs, items of the select, conditions, updates, terms of the sum or different keys, and here one more
    /// begins. Or the text has come to its COMMIT without a key.
    Size = 7,
    /// The transaction is complete, and a further token follows.
    Trailing = 8,
}

/// Why a text is no transaction.
#[derive(Clone, Copy, Debug, PartialEq, Eq)]
pub enum LangError {
    /// The first fault from the left.
    At {
        /// How many bytes stand before the token that is wrong, or before the end of the text if that comes too early.
        at: u64,
        /// What is wrong with it.
        kind: LangKind,
    },
    /// Memory was refused, whatever the text is.
    OutOfMemory,
}

impl fmt::Display for LangKind {
    fn fmt<W: fmt::Write>(&self, f: &mut fmt::Formatter<W>) -> fmt::Result {
        let text = match self {
            LangKind::Char => "a byte that begins no token",
            LangKind::Word => "a token that isn't allowed here",
            LangKind::Number => "a number that doesn't fit 64 bits",
            LangKind::Text =>
                "a text in quotes without its closing quote, or of another length or other bytes than it may have",
            LangKind::Missing => "the text ends too early",
            LangKind::Name => "a name that is too long, bound twice or not bound",
            LangKind::Size => "more than 16 of a kind, or no key",
            LangKind::Trailing => "a token behind the end",
        };
        write!(f, "{text}")
    }
}

impl fmt::Display for LangError {
    fn fmt<W: fmt::Write>(&self, f: &mut fmt::Formatter<W>) -> fmt::Result {
        match self {
            LangError::At { at, kind } => write!(f, "at byte {at}: {kind}"),
            LangError::OutOfMemory => write!(f, "{OutOfMemory}"),
        }
    }
}

impl Error for LangError {}
