//! Keys, cells and footprints: the values of a store, and which of them a transaction reads and writes.
#![tactic(auto)]

mod cells;
mod footprint;
mod key;
mod map;
mod room;
mod search;
mod shared_pairs;
mod value;

pub use acc_base::{Bytes, Duplicate, OutOfMemory, Sequence, Text};
pub use cells::{CellList, Cells};
pub use footprint::{Footprint, conflicts};
pub use key::Key;
pub use map::CellMap;
pub use value::Value;
