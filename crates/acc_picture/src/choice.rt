//! What of a run is drawn.
use acc_base::{OutOfMemory, Sequence, Text};
use std::alloc::AllocError;

/// How many items a picture has at most.
pub const MOST: u64 = 2000;

/// Which items of a run are drawn.
#[derive(Debug, Drop)]
pub struct Choice {
    /// The first item, counted from 0.
    pub from: u64,
    /// The last item.
    pub to: u64,
    /// The names of the transactions that are drawn, or nothing for all of them. Items that are of no transaction are
    /// drawn in any case.
    pub only: Sequence<Text>,
}

/// Why there is no picture.
#[derive(Clone, Copy, Debug, PartialEq, Eq)]
pub enum PictureError {
    /// More than `MOST` items would be drawn.
    TooMany,
    /// There was no memory.
    OutOfMemory,
}

impl From<OutOfMemory> for PictureError {
    fn from(_error: OutOfMemory) -> PictureError {
        PictureError::OutOfMemory
    }
}

impl From<AllocError> for PictureError {
    fn from(_error: AllocError) -> PictureError {
        PictureError::OutOfMemory
    }
}

impl Choice {
    /// Whether an item at this place is drawn, which is of a transaction with this name, or of none.
    pub(crate) fn has(&self, place: u64, name: Option<&[u8]>) -> bool {
        if place < self.from || place > self.to {
            return false;
        }
        match name {
            Some(name) => self.only.is_empty() || self.names(name),
            None => true,
        }
    }

    // Whether a name is one of those that are drawn.
    fn names(&self, name: &[u8]) -> bool {
        for only in self.only.as_slice() {
            if only.as_slice() == name {
                return true;
            }
        }
        false
    }
}
