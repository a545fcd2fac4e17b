//! Stores over their disks: a store whose disk keeps the messages that it took, and that store up, or down since its disk failed.
//!
//! A durable store is the replay of its journal: each message that it takes is on the disk, synced, before any answer to it goes out. The actor
//! around it stays where it is when its disk fails, and a restart, which crashes the disk, opens it again. What a fault stopped is kept,
//! since the journal may turn out to hold it.
#![tactic(auto)]

mod actor;
mod error;
mod name;
mod replay;
mod staging;
mod store;
mod taken;
mod weighing;

pub use actor::StoreActor;
pub use error::StepError;
pub use name::StoreName;
pub use store::DurableStore;
