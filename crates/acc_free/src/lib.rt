//! The actors of a plan side by side: desks in the hands of worker threads, and what they leave undone is done one after another.
#![tactic(auto)]

mod closing;
mod dealing;
mod opening;
mod owned;
mod running;
mod workers;

pub use running::run_free;
