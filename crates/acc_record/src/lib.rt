//! What a store keeps: of each transaction a record, the index of known conflicts, the cells, and who waits for whom.
#![tactic(auto)]

mod cells;
mod change;
pub mod laws;
mod learn;
mod plan;
mod record;
mod refusals;
mod share;
mod shelf;
mod vote;

pub use cells::Cells;
pub use change::Change;
pub use learn::{NotedStamp, fresh, note_of};
pub use plan::{QuietParts, QuietPlan};
pub use record::{KeptRecord, Record, Records};
pub use refusals::{answering, refusal};
pub use shelf::{Shelf, Waits, Watch};
pub use vote::{Vote, drawn};
