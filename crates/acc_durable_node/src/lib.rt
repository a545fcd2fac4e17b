//! Nodes over their disks: a node whose disk keeps its draws, and that node up, or down since its disk failed.
//!
//! A durable node is the replay of its journal: each draw is on the disk, synced, before anything that depends on it goes out. The actor around
//! it stays where it is when its disk fails, and a restart, which crashes the disk, opens it again. What a fault stopped is kept, since the
//! journal may turn out to hold it.
#![tactic(auto)]

mod actor;
mod error;
pub mod laws;
mod name;
mod node;
mod state;
mod weigh;
mod weighing;

pub use actor::NodeActor;
pub use error::DurableError;
pub use name::NodeName;
pub use node::DurableNode;
