//! What stands in the slot of a tape, as contracts see it.
use std::collections::LinkedList;

/// How many items and bytes a tape may hold.
#[derive(Clone, Copy, Debug, PartialEq, Eq)]
pub struct Limits {
    pub items: u64,
    pub weight: u64,
}

/// The items, the numbers of reserved items and bytes, the limits, and the actor for which a seat is split next. No value of it
/// is made.
pub struct Content<E> {
    pub items: LinkedList<E>,
    pub reserved: u64,
    pub reserved_weight: u64,
    pub limits: Limits,
    pub named: u32,
}
