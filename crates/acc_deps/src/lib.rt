//! The dependencies of a transaction, and the records that stores keep and reveal of it. The terms are those of CEP-15, after
//! the paper by Elliott Smith, Zhang, Eggleston and Andreas.
#![tactic(auto)]

mod content;
mod deps;
mod ids;
pub mod laws;
mod parts;
mod records;
mod shards;

pub use deps::Deps;
pub use ids::merged_ids;
pub use records::{Accepted, Choice, Settled, SharedAccepted, SharedView, View};
pub use shards::ShardDeps;
