//! The nodes and shards of a cluster, and the counts of nodes that decide.
#![tactic(auto)]

mod checks;
mod error;
mod given;
pub mod laws;
pub mod sets;
mod shard;
mod topology;

pub use error::{TopologyError, TopologyKind};
pub use given::{NodeList, NodeSpec, ShardSpec};
pub use sets::{NodeSet, ShardSet};
pub use topology::Topology;
