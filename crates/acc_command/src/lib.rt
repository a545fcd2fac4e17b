//! The commands of the program: the top call, and `free`, the command that asks for threads.
#![tactic(auto)]

mod command;
mod free;
pub mod laws;

pub use command::accord;
