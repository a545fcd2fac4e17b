//! What a desk holds reserved at its tape.

/// So many items, and so many bytes of messages.
#[derive(Clone, Copy, Debug, PartialEq, Eq)]
pub struct Hold {
    pub items: u64,
    pub weight: u64,
}
