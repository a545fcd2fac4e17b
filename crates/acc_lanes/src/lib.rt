//! Scans of stamps that stand in two columns of one length, one of their `h` and one of their origins. A stamp is a pair of
//! both here, ordered by `h`, and of equal `h` by origin. Whole chunks of eight are looked at by `std::simd`, and what is left
//! over one by one. No scan takes memory, and none refuses.
#![tactic(auto)]

mod chosen;
mod scans;
mod vectors;

pub use chosen::greatest;
pub use scans::{below, has};
