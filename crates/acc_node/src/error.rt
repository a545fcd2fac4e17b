//! Why a node refuses an event.
use acc_base::OutOfMemory;
use std::error::Error;
use std::fmt;

/// Why a node refuses an event.
#[derive(Clone, Copy, Debug, PartialEq, Eq)]
pub enum NodeError {
    /// The transaction was begun before.
    Begun = 1,
    /// There is no first attempt at the transaction that waits for votes.
    Unknown = 2,
    /// In some shard no majority has answered.
    NoQuorum = 3,
    /// Memory was refused.
    OutOfMemory = 4,
}

impl fmt::Display for NodeError {
    fn fmt<W: fmt::Write>(&self, f: &mut fmt::Formatter<W>) -> fmt::Result {
        let text = match self {
            NodeError::Begun => "the transaction was begun before",
            NodeError::Unknown => "there is no first attempt that waits for votes",
            NodeError::NoQuorum => "no majority of some shard has answered",
            NodeError::OutOfMemory => "out of memory",
        };
        write!(f, "{text}")
    }
}

impl Error for NodeError {}

impl From<OutOfMemory> for NodeError {
    ghost use Rattle.std.specs.Prelude.{◌≡◌};
    ghost use Rattle.acc_node.specs.declared.error.NodeError.{NodeError};

    ghost from_gives = { λ _ error. error ≡ NodeError.OutOfMemory };

    fn from(_error: OutOfMemory) -> NodeError {
        NodeError::OutOfMemory
    }
}
