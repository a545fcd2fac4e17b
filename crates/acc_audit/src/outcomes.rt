//! The outcomes of the lines so far.
ghost use Rattle.std.specs.Prelude.{◌≡◌, ◌<◌, ℕ, length, replicate, slice_index_or, slice_set, unwrap_or, is_some, Some, None, IsTrue, IfOk, if◌then◌else◌};
ghost use Rattle.std.specs.Option.{option_copied};
ghost use Rattle.acc_base.specs.Faults.{or_else};
ghost use Rattle.acc_value.specs.declared.key.Key.{Key};
ghost use Rattle.acc_value.specs.Cells.{cells_of};
ghost use Rattle.acc_txn.specs.Meaning.{outcome_of};
ghost use Rattle.acc_txn.specs.Serial.{map_after};
ghost use Rattle.acc_audit.specs.Said.{same_reply as is_same_reply};

use crate::answers::answer;
use crate::replies::same_reply;
use acc_base::OutOfMemory;
use acc_txn::{Body, Reply};
use acc_value::CellMap;
use std::alloc::Global;

/// The first outcome of each transaction, and the cells that these have left.
#[derive(Drop)]
pub(crate) struct Outcomes {
    first: Vec<Option<Reply>>,
    cells: CellMap,
}

impl Outcomes {
    /// No outcomes of so many transactions.
    pub(crate) fn new(alloc: Global, count: usize) -> Result<Outcomes, OutOfMemory>
        ensures first { IfOk result (λ o. o.first.items ≡ replicate count None) }
        ensures cells { IfOk result (λ o. (key : Key) → cells_of o.cells key ≡ None) }
    {
        let mut first = Vec::with_capacity(alloc, count)?;
        for _ in 0..count {
            first.push(None)?;
        }
        Ok(Outcomes {
            first,
            cells: CellMap::new(alloc),
        })
    }

    /// The first outcome of the transaction.
    pub(crate) fn first(&self, number: usize) -> Option<&Reply>
        requires { number < length self.now.first.items }
        ensures { option_copied result ≡ slice_index_or self.now.first.items number None }
    {
        self.first[number].as_ref()
    }

    /// Takes an outcome, and answers whether it is right: the first outcome of its transaction again, or, where there is none
    /// yet, what the body answers. If so, it is noted.
    pub(crate) fn take(
        &mut self,
        number: usize,
        body: &Body,
        reply: &Reply,
    ) -> Result<bool, OutOfMemory>
        requires { number < length self.old.first.items }
        ensures right { IfOk result (λ right. right
            ≡ is_same_reply (unwrap_or (slice_index_or self.old.first.items number None) (outcome_of body.now (cells_of self.old.cells)).reply) reply.now) }
        ensures first { IfOk result (λ right. IsTrue right → self.new.first.items
            ≡ slice_set self.old.first.items number (or_else (slice_index_or self.old.first.items number None) (Some reply.now))) }
        ensures cells { IfOk result (λ right. IsTrue right → (key : Key) → cells_of self.new.cells key
            ≡ (if is_some (slice_index_or self.old.first.items number None) then cells_of self.old.cells key else map_after (cells_of self.old.cells) body.now key)) }
    {
        if let Some(first) = self.first(number) {
            return Ok(same_reply(first, reply));
        }
        self.take_first(number, body, reply)
    }

    // The same where the transaction has no outcome yet.
    fn take_first(&mut self, number: usize, body: &Body, reply: &Reply) -> Result<bool, OutOfMemory>
        requires { number < length self.old.first.items }
        ensures right { IfOk result (λ right. right ≡ is_same_reply (outcome_of body.now (cells_of self.old.cells)).reply reply.now) }
        ensures first { IfOk result (λ right. IsTrue right → self.new.first.items ≡ slice_set self.old.first.items number (Some reply.now)) }
        ensures cells { IfOk result (λ right. IsTrue right → (key : Key) → cells_of self.new.cells key ≡ map_after (cells_of self.old.cells) body.now key) }
    {
        let outcome = answer(body, &self.cells)?;
        if !same_reply(&outcome.reply, reply) {
            return Ok(false);
        }
        self.cells.apply(&outcome.writes)?;
        self.first[number] = Some(reply.copy()?);
        Ok(true)
    }
}
