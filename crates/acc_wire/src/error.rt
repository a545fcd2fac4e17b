//! Why bytes could not be read.

use std::error::Error;
use std::fmt;

/// What is wrong with a field.
#[derive(Clone, Copy, Debug, PartialEq, Eq, PartialOrd, Ord)]
pub enum WireKind {
    /// The bytes end inside the field.
    Short = 1,
    /// The field holds what its format doesn't allow. Decoders answer it; reading a number or a text never does.
    Range = 2,
    /// Bytes stand behind the last field.
    Trailing = 3,
}

/// The first fault of some bytes, and the place of the byte at which the field at fault begins, counted from 0.
#[derive(Clone, Copy, Debug, PartialEq, Eq, PartialOrd, Ord)]
pub struct WireError {
    pub kind: WireKind,
    pub place: u64,
}

impl fmt::Display for WireKind {
    fn fmt<W: fmt::Write>(&self, f: &mut fmt::Formatter<W>) -> fmt::Result {
        match self {
            WireKind::Short => write!(f, "the bytes end inside a field"),
            WireKind::Range => write!(f, "a field holds what its format does not allow"),
            WireKind::Trailing => write!(f, "bytes stand behind the last field"),
        }
    }
}

impl fmt::Display for WireError {
    fn fmt<W: fmt::Write>(&self, f: &mut fmt::Formatter<W>) -> fmt::Result {
        let kind = self.kind;
        let place = self.place;
        write!(f, "{kind}, at byte {place}")
    }
}

impl Error for WireError {}
