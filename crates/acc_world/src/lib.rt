//! A cluster as values: its layout, the starts of its nodes, and the homes and bodies of its transactions. `World` takes steps of it one by
//! one; the laws hold of every run.
#![tactic(auto)]

pub mod attempt_laws;
mod error;
mod held;
mod keeping;
pub mod laws;
mod rebuilding;
mod setup;
mod shared;
pub mod step_laws;
mod world;

pub use error::WorldError;
pub use shared::SharedEntry;
pub use world::World;
