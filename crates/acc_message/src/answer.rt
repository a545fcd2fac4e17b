//! What a store answers to a Stable.
ghost use Rattle.std.specs.Prelude.{◌≡◌, IfOk};

use acc_base::{Duplicate, OutOfMemory};
use acc_txn::Outcome;
use acc_value::CellList;

/// What a store answers to a Stable: the cells that the transaction reads there, or the outcome that it has already.
#[derive(Debug, PartialEq, Eq, Drop)]
pub enum ReadAnswer {
    Values(CellList),
    Known(Outcome),
}

impl ReadAnswer {
    /// An equal answer, which shares its content with this one and takes no memory of its own.
    pub fn copy(&self) -> Result<ReadAnswer, OutOfMemory>
        ensures { IfOk result (λ copy. copy ≡ self.now) }
    {
        match self {
            ReadAnswer::Values(cells) => Ok(ReadAnswer::Values(cells.copy()?)),
            ReadAnswer::Known(outcome) => Ok(ReadAnswer::Known(outcome.copy()?)),
        }
    }
}

impl Duplicate for ReadAnswer {
    fn copy(&self) -> Result<ReadAnswer, OutOfMemory> {
        ReadAnswer::copy(self)
    }
}
