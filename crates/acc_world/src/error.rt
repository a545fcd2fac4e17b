//! Why a world doesn't step.
use acc_base::OutOfMemory;
use acc_message::Skip;
use std::error::Error;
use std::fmt;

/// Why a world doesn't step.
#[derive(Clone, Copy, Debug, PartialEq, Eq)]
pub enum WorldError {
    /// The step is passed over.
    Skip(Skip),
    /// Memory was refused.
    OutOfMemory,
}

impl fmt::Display for WorldError {
    fn fmt<W: fmt::Write>(&self, f: &mut fmt::Formatter<W>) -> fmt::Result {
        let text = match self {
            WorldError::Skip(_) => "the step is passed over",
            WorldError::OutOfMemory => "out of memory",
        };
        write!(f, "{text}")
    }
}

impl Error for WorldError {}

impl From<OutOfMemory> for WorldError {
    ghost use Rattle.std.specs.Prelude.{◌≡◌};
    ghost use Rattle.acc_world.specs.declared.error.WorldError.{WorldError};

    ghost from_gives = { λ _ error. error ≡ WorldError.OutOfMemory };

    fn from(_error: OutOfMemory) -> WorldError {
        WorldError::OutOfMemory
    }
}
