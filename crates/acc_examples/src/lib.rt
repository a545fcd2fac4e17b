//! Worked examples of the definitions, by computation: whole runs, one store or one node, and promises of a run.
#![tactic(auto)]

pub mod actors;
pub mod promises;
pub mod rows;
