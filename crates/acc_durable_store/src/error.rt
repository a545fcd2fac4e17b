//! Why a step of a durable store didn't go out.
use acc_base::OutOfMemory;
use acc_message::Messages;
use std::error::Error;
use std::fmt;

/// Why a store didn't take a message.
#[derive(Debug, Drop)]
pub enum StepError {
    /// A call of the disk failed. The store is broken, and its message stands on the disk or doesn't.
    DiskFault {
        /// What the step would have given.
        unsent: Messages,
    },
    /// Memory was refused. Where it was refused to the disk, the store is broken.
    OutOfMemory,
}

impl fmt::Display for StepError {
    fn fmt<W: fmt::Write>(&self, f: &mut fmt::Formatter<W>) -> fmt::Result {
        match self {
            StepError::DiskFault { .. } => write!(f, "the disk failed"),
            StepError::OutOfMemory => write!(f, "out of memory"),
        }
    }
}

impl Error for StepError {}

impl From<OutOfMemory> for StepError {
    ghost use Rattle.std.specs.Prelude.{◌≡◌};
    ghost use Rattle.acc_durable_store.specs.declared.error.StepError.{StepError};

    ghost from_gives = { λ _ error. error ≡ StepError.OutOfMemory };

    fn from(_error: OutOfMemory) -> StepError {
        StepError::OutOfMemory
    }
}
