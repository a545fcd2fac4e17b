//! Why a run is not made.
use acc_base::OutOfMemory;
use std::error::Error;
use std::fmt;

/// A quantity that a run counts.
#[derive(Clone, Copy, Debug, PartialEq, Eq)]
pub enum Which {
    /// The bytes of the document.
    Document,
    /// The items.
    Items,
    /// The bytes of the encoded messages.
    Bytes,
}

/// Why a run is not made.
#[derive(Clone, Copy, Debug, PartialEq, Eq)]
pub enum RunError {
    /// The quantity would pass this number.
    Limit { which: Which, number: u64 },
    /// Memory was refused, whatever the run is.
    OutOfMemory,
}

impl fmt::Display for Which {
    fn fmt<W: fmt::Write>(&self, f: &mut fmt::Formatter<W>) -> fmt::Result {
        let text = match self {
            Which::Document => "document",
            Which::Items => "items",
            Which::Bytes => "bytes",
        };
        write!(f, "{text}")
    }
}

impl fmt::Display for RunError {
    fn fmt<W: fmt::Write>(&self, f: &mut fmt::Formatter<W>) -> fmt::Result {
        match self {
            RunError::Limit { which, number } => write!(f, "more {which} than {number}"),
            RunError::OutOfMemory => write!(f, "out of memory"),
        }
    }
}

impl Error for RunError {}

impl From<OutOfMemory> for RunError {
    ghost use Rattle.std.specs.Prelude.{◌≡◌};
    ghost use Rattle.acc_message.specs.declared.error.RunError.{RunError};

    ghost from_gives = { λ _ error. error ≡ RunError.OutOfMemory };

    fn from(_error: OutOfMemory) -> RunError {
        RunError::OutOfMemory
    }
}
