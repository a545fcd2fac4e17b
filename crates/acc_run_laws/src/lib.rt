//! Laws of the runs of a valid cluster: what may be asked, bounds, receivers, and that numbers stay numbers.
#![tactic(auto)]

mod ask;
pub mod bounds;
pub mod numbers_alone;
pub mod receivers;
pub mod safe_runs;

pub use ask::Ask;
