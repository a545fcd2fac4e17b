//! What a plan promises: its cluster is valid, so each run of its schedule is safe, and a calm one answers all that it begins.
#![tactic(auto)]

pub mod laws;
