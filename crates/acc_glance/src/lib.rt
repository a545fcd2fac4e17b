//! Looks at single keys while a schedule is taken: each shows its key's cell without beginning a transaction.
#![tactic(auto)]

mod answers;
mod begun;
pub mod laws;
mod looking;
mod looks;
mod nodes;
mod plan;
mod seen;
mod serial;
mod sights;
mod stages;
mod stores;
mod texts;
mod visits;

pub use looking::glance;
pub use looks::{Look, Looks, read_looks};
pub use plan::glance_plan;
pub use seen::{Seen, Seens, Sight};
pub use texts::looks_text;
