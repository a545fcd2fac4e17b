//! Messages, as the index sees them.

/// A message. Its number, counted from 0, is its place among all messages.
#[derive(Clone, Copy, Debug, PartialEq, Eq)]
pub struct Posting {
    /// The place of the item that sent it.
    pub place: u32,
    /// Its place among the messages of that item.
    pub index: u32,
    /// The actor to which it goes.
    pub to: u32,
    /// Whether it is still to be taken.
    pub is_open: bool,
}

/// Where a message stands: its number, the place of the item that sent it, and its place among the messages of that item.
#[derive(Clone, Copy, Debug, PartialEq, Eq)]
pub struct Post {
    pub number: u64,
    pub place: u64,
    pub index: u64,
}
