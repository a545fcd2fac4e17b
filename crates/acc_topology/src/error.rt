//! Why nodes and shards make no topology.
ghost use Rattle.std.specs.Prelude.{◌≡◌};
ghost use Rattle.acc_topology.specs.declared.error.TopologyError.TheVariants.{OutOfMemory};

use std::alloc::{AllocError, AllocFailed};
use std::error::Error;
use std::fmt;

/// Which rule the nodes and shards break.
#[derive(Clone, Copy, Debug, PartialEq, Eq, PartialOrd, Ord)]
pub enum TopologyKind {
    /// There is no node.
    NoNode = 1,
    /// There is no shard.
    NoShard = 2,
    /// The ends don't rise from shard to shard, or it isn't the last shard alone that has none.
    Order = 3,
    /// A shard has a number of replicas other than 1, 3, 5 and 7.
    Replicas = 4,
    /// A node stands for the second time, among the nodes or among the replicas of a shard.
    Twice = 5,
    /// A replica is no node.
    UnknownNode = 6,
    /// An electorate has fewer nodes than a majority of the replicas, a node twice, or a node that is no replica.
    Electorate = 7,
}

/// Why there is no topology.
#[derive(Clone, Copy, Debug, PartialEq, Eq, PartialOrd, Ord)]
pub enum TopologyError {
    /// The first rule that is broken. Shards and items are counted from 0: `shard` is the shard at fault and `item` the
    /// replica at fault, and each is 0 where there is none. For a node that stands twice, `item` is its place among the
    /// nodes.
    Wrong {
        kind: TopologyKind,
        shard: u32,
        item: u32,
    },
    OutOfMemory,
}

impl fmt::Display for TopologyKind {
    fn fmt<W: fmt::Write>(&self, f: &mut fmt::Formatter<W>) -> fmt::Result {
        match self {
            TopologyKind::NoNode => write!(f, "there is no node"),
            TopologyKind::NoShard => write!(f, "there is no shard"),
            TopologyKind::Order => write!(f, "the ends of the shards do not rise"),
            TopologyKind::Replicas => write!(f, "there are not 1, 3, 5 or 7 replicas"),
            TopologyKind::Twice => write!(f, "a node stands twice"),
            TopologyKind::UnknownNode => write!(f, "a replica is no node"),
            TopologyKind::Electorate => write!(f, "an electorate is no large part of the replicas"),
        }
    }
}

impl fmt::Display for TopologyError {
    fn fmt<W: fmt::Write>(&self, f: &mut fmt::Formatter<W>) -> fmt::Result {
        match self {
            TopologyError::Wrong { kind, shard, item } => {
                write!(f, "{kind}, at shard {shard} and item {item}")
            }
            TopologyError::OutOfMemory => write!(f, "out of memory"),
        }
    }
}

impl Error for TopologyError {}

impl From<acc_base::OutOfMemory> for TopologyError {
    ghost from_gives = { λ _ e. e ≡ OutOfMemory };

    fn from(_error: acc_base::OutOfMemory) -> TopologyError {
        TopologyError::OutOfMemory
    }
}

impl From<AllocError> for TopologyError {
    ghost from_gives = { λ _ e. e ≡ OutOfMemory };

    fn from(_error: AllocError) -> TopologyError {
        TopologyError::OutOfMemory
    }
}

impl<T: Drop> From<AllocFailed<T>> for TopologyError {
    ghost from_gives = { λ _ e. e ≡ OutOfMemory };

    fn from(_error: AllocFailed<T>) -> TopologyError {
        TopologyError::OutOfMemory
    }
}
