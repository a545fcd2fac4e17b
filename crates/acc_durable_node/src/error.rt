//! Why a step of a durable node didn't go out.
use acc_base::OutOfMemory;
use acc_message::Emitted;
use std::error::Error;
use std::fmt;

/// Why a node didn't begin or recover.
#[derive(Debug, Drop)]
pub enum DurableError {
    /// The transaction was begun before.
    Begun,
    /// A call of the disk failed. The node is broken, and its draw stands on the disk or doesn't.
    DiskFault {
        /// What the step would have given.
        unsent: Emitted,
    },
    /// Memory was refused. Where it was refused to the disk, the node is broken.
    OutOfMemory,
}

impl fmt::Display for DurableError {
    fn fmt<W: fmt::Write>(&self, f: &mut fmt::Formatter<W>) -> fmt::Result {
        match self {
            DurableError::Begun => write!(f, "the transaction was begun before"),
            DurableError::DiskFault { .. } => write!(f, "the disk failed"),
            DurableError::OutOfMemory => write!(f, "out of memory"),
        }
    }
}

impl Error for DurableError {}

impl From<OutOfMemory> for DurableError {
    ghost use Rattle.std.specs.Prelude.{◌≡◌};
    ghost use Rattle.acc_durable_node.specs.declared.error.DurableError.{DurableError};

    ghost from_gives = { λ _ error. error ≡ DurableError.OutOfMemory };

    fn from(_error: OutOfMemory) -> DurableError {
        DurableError::OutOfMemory
    }
}
