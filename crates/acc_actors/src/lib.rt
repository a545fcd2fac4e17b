//! The actors of a plan, each over its disk in the slot that is kept for it, and what it is asked for there.
//!
//! A slot stands for a situation if its actor does, by the items and the steps that its disk stopped. What an actor then gives is what the
//! schedule enters for it, and other actors' items leave it alone.
#![tactic(auto)]

mod fresh;
mod slot;
mod staging;
mod weighing;

pub use fresh::name_of;
pub use slot::Slot;
