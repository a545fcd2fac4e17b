//! The safety of every run: the facts of stores and attempts, agreement, coverage and serial outcomes.
#![tactic(auto)]

pub mod agreement;
pub mod attempt_facts;
pub mod coverage;
pub mod every_run;
pub mod roots;
pub mod serial;
pub mod store_facts;
