//! Why a coordinator doesn't give the fast path up.
use acc_base::OutOfMemory;
use std::error::Error;
use std::fmt;

/// Why a coordinator doesn't give the fast path up.
#[derive(Clone, Copy, Debug, PartialEq, Eq)]
pub enum SlowError {
    /// In some shard no majority has answered.
    NoQuorum = 1,
    /// Memory was refused.
    OutOfMemory = 2,
}

impl fmt::Display for SlowError {
    fn fmt<W: fmt::Write>(&self, f: &mut fmt::Formatter<W>) -> fmt::Result {
        let text = match self {
            SlowError::NoQuorum => "no majority of some shard has answered",
            SlowError::OutOfMemory => "out of memory",
        };
        write!(f, "{text}")
    }
}

impl Error for SlowError {}

impl From<OutOfMemory> for SlowError {
    ghost use Rattle.std.specs.Prelude.{◌≡◌};
    ghost use Rattle.acc_coord.specs.declared.error.SlowError.{SlowError};

    ghost from_gives = { λ _ error. error ≡ SlowError.OutOfMemory };

    fn from(_error: OutOfMemory) -> SlowError {
        SlowError::OutOfMemory
    }
}
