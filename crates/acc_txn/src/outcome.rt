//! What a body comes to on cells: its reply and its writes.
ghost use Rattle.std.specs.Prelude.{◌≡◌, IfOk};

use acc_base::{Duplicate, OutOfMemory};
use acc_value::{CellList, Cells};

/// Whether a body's updates are made.
#[derive(Clone, Copy, Debug, PartialEq, Eq)]
pub enum Verdict {
    /// They are.
    Ok = 1,
    /// They aren't, since a condition doesn't hold.
    Skipped = 2,
    /// They aren't, since a sum that was needed doesn't fit 64 bits.
    Overflow = 3,
}

/// What the client is told.
#[derive(Debug, Drop, PartialEq, Eq)]
pub struct Reply {
    /// Whether the updates are made.
    pub verdict: Verdict,
    /// The cells that were selected, in their order. There are none with an overflow.
    pub values: Cells,
}

/// A reply with the writes that go with it.
#[derive(Debug, Drop, PartialEq, Eq)]
pub struct Outcome {
    /// What the client is told.
    pub reply: Reply,
    /// The new cells of the keys that are written. Null removes a cell.
    pub writes: CellList,
}

impl Reply {
    /// An equal reply, which shares its content with this one and takes no memory of its own.
    pub fn copy(&self) -> Result<Reply, OutOfMemory>
        ensures { IfOk result (λ copy. copy ≡ self.now) }
    {
        Ok(Reply {
            verdict: self.verdict,
            values: self.values.copy()?,
        })
    }
}

impl Duplicate for Reply {
    fn copy(&self) -> Result<Reply, OutOfMemory> {
        Reply::copy(self)
    }
}

impl Outcome {
    /// An equal outcome, which shares its content with this one and takes no memory of its own.
    pub fn copy(&self) -> Result<Outcome, OutOfMemory>
        ensures { IfOk result (λ copy. copy ≡ self.now) }
    {
        Ok(Outcome {
            reply: self.reply.copy()?,
            writes: self.writes.copy()?,
        })
    }
}

impl Duplicate for Outcome {
    fn copy(&self) -> Result<Outcome, OutOfMemory> {
        Outcome::copy(self)
    }
}
