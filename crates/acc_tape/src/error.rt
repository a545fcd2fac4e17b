//! Why a call on a tape is refused.
use acc_base::OutOfMemory;
use acc_message::Which;
use std::error::Error;
use std::fmt;

/// Why nothing is reserved.
#[derive(Clone, Copy, Debug, PartialEq, Eq)]
pub enum TapeError {
    /// The items or the bytes that are entered or reserved would pass this number.
    Full { which: Which, number: u64 },
    /// Memory was refused, or the items, or the messages with the items and bytes that are reserved, would be 2^32 or more.
    OutOfMemory,
}

/// Why nothing is told of an item.
#[derive(Clone, Copy, Debug, PartialEq, Eq)]
pub enum PlaceError {
    /// The list has no such place.
    NoPlace,
}

impl fmt::Display for TapeError {
    fn fmt<W: fmt::Write>(&self, f: &mut fmt::Formatter<W>) -> fmt::Result {
        match self {
            TapeError::Full { which, number } => write!(f, "more {which} than {number}"),
            TapeError::OutOfMemory => write!(f, "out of memory"),
        }
    }
}

impl fmt::Display for PlaceError {
    fn fmt<W: fmt::Write>(&self, f: &mut fmt::Formatter<W>) -> fmt::Result {
        match self {
            PlaceError::NoPlace => write!(f, "no item has this place"),
        }
    }
}

impl Error for TapeError {}

impl Error for PlaceError {}

impl From<OutOfMemory> for TapeError {
    ghost use Rattle.std.specs.Prelude.{◌≡◌};
    ghost use Rattle.acc_tape.specs.declared.error.TapeError.{TapeError};

    ghost from_gives = { λ _ error. error ≡ TapeError.OutOfMemory };

    fn from(_error: OutOfMemory) -> TapeError {
        TapeError::OutOfMemory
    }
}
