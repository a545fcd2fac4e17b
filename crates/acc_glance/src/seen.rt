//! What looks have seen.
use acc_base::Sequence;
use acc_value::Value;

/// What a look has seen.
#[derive(Debug, Drop)]
pub struct Seen {
    /// How many items there were when it began.
    pub from: u64,
    /// What it saw, and nothing where it stays open.
    pub end: Option<Sight>,
}

/// The cell that a look has read.
#[derive(Debug, Drop)]
pub struct Sight {
    /// The least number of items, not below those at its begin, at which the serial order had this cell.
    pub at: u64,
    /// How many items there were when it ended.
    pub to: u64,
    pub cell: Option<Value>,
}

/// What each look has seen, in their order.
pub type Seens = Sequence<Seen>;
