//! What is kept of the lines before a line.
ghost use Rattle.std.specs.Prelude.{◌≡◌, List, [], false, replicate, IfOk};
ghost use Rattle.acc_txn.specs.declared.parts.BodyParts.{BodyParts};
ghost use Rattle.acc_audit.specs.Kept.{Holds};

use crate::decisions::Decisions;
use crate::outcomes::Outcomes;
use acc_base::OutOfMemory;
use acc_document_fields::NameTable;
use std::alloc::Global;

/// What is kept of the lines before a line, by the numbers of transactions.
#[derive(Drop)]
pub(crate) struct Front {
    /// The number of the last line that names the transaction as one that comes before, counted from 1.
    pub(crate) marks: Vec<u64>,
    /// Whether the transaction is begun.
    pub(crate) begun: Vec<bool>,
    pub(crate) decisions: Decisions,
    pub(crate) outcomes: Outcomes,
}

impl Front {
    /// What is kept of no lines.
    pub(crate) fn new(alloc: Global, numbers: &NameTable) -> Result<Front, OutOfMemory>
        ensures { IfOk result (λ front. (bodies : List BodyParts) → Holds numbers.now bodies [] 0 front) }
    {
        let count = numbers.len();
        Ok(Front {
            marks: no_marks(alloc, count)?,
            begun: none_begun(alloc, count)?,
            decisions: Decisions::new(alloc, count)?,
            outcomes: Outcomes::new(alloc, count)?,
        })
    }
}

fn no_marks(alloc: Global, count: usize) -> Result<Vec<u64>, OutOfMemory>
    ensures { IfOk result (λ marks. marks.items ≡ replicate count 0) }
{
    Ok(vec![in alloc; 0; count]?)
}

fn none_begun(alloc: Global, count: usize) -> Result<Vec<bool>, OutOfMemory>
    ensures { IfOk result (λ begun. begun.items ≡ replicate count false) }
{
    Ok(vec![in alloc; false; count]?)
}
