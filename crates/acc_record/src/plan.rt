//! Steps that open nothing, planned and then taken.
ghost use Rattle.std.specs.Prelude.{◌≡◌, ◌∷◌, [], cond, None, IfOk, IfSome, OnOk, OnErr};
ghost use Rattle.std.specs.Option.{option_copied, option_map};
ghost use Rattle.acc_stamp.specs.declared.stamps.TxnId.{TxnId};
ghost use Rattle.acc_stamp.specs.Stamp.{id_eq};
ghost use Rattle.acc_record.specs.Shelf.{IsSame, record_at};
ghost use Rattle.acc_record.specs.Changes.{changed};
ghost use Rattle.acc_record.specs.Planned.{made_for, IsNewIn, IsChangedBy};

use crate::change::Change;
use crate::learn::{NotedStamp, add, enter, fresh};
use crate::record::{KeptRecord, Record, Records};
use crate::shelf::Shelf;
use acc_base::OutOfMemory;
use acc_message::{Message, Messages};
use acc_stamp::TxnId;
use acc_txn::Body;
use std::marker::Model;

/// A step that opens nothing and is planned. Nothing is changed yet. Its parts have a place of their own, since it is handed on
/// from layer to layer, and contracts see them.
#[derive(Debug, Drop)]
pub struct QuietPlan {
    parts: Box<QuietParts>,
}

/// The parts of a planned step that opens nothing.
#[derive(Debug, Drop)]
pub struct QuietParts {
    /// Its transaction.
    id: TxnId,
    /// The record of the transaction, where it wasn't known.
    made: Option<KeptRecord>,
    /// What it notes of the transaction, if anything.
    note: Option<NotedStamp>,
    /// The greatest `h` that it tells or draws.
    top: u64,
    /// What it makes of the record.
    change: Change,
    /// What it sends.
    sent: Messages,
}

impl Model for QuietPlan {
    ghost use Rattle.acc_record.specs.declared.plan.QuietParts.{QuietParts as Parts};

    ghost Value = { Parts };

    ghost view = { λ p. p.parts.value };
}

impl QuietPlan {
    /// Plans a step on a transaction that has this record, if any, and gets this body otherwise: what it notes, the greatest `h`
    /// that it tells or draws, what it makes of the record, and the one message that it sends.
    pub fn new(
        there: Option<&Record>,
        id: TxnId,
        body: &Body,
        note: Option<NotedStamp>,
        top: u64,
        change: Change,
        answer: Message,
    ) -> Result<QuietPlan, OutOfMemory>
        ensures { IfOk result (λ plan. plan ≡ record { id = id; made = made_for (option_copied there.entry) id body.now; note = note; top = top; change = change; sent = answer ∷ [] }) }
    {
        let alloc = body.parts().lets.allocator();
        let made = made_for(there, id, body)?;
        let mut sent = Vec::with_capacity(alloc, 1)?;
        sent.push_reserved(answer);
        let parts = QuietParts {
            id,
            made,
            note,
            top,
            change,
            sent: Messages::from_vec(sent),
        };
        let parts = Box::new(alloc, parts)?;
        Ok(QuietPlan { parts })
    }

    /// What the step sends.
    pub fn sent(&self) -> &Messages
        ensures { result.now ≡ self.now.sent }
    {
        &self.parts.sent
    }
}

// The record of a transaction that isn't known.
fn made_for(
    there: Option<&Record>,
    id: TxnId,
    body: &Body,
) -> Result<Option<KeptRecord>, OutOfMemory>
    ensures { IfOk result (λ made. made ≡ made_for (option_copied there.entry) id body.now) }
{
    match there {
        Some(_) => Ok(None),
        None => Ok(Some(fresh(id, body)?)),
    }
}

impl Shelf {
    /// Takes a step as it was planned for this shelf: what it sends. Without memory for it the shelf is as before.
    pub fn take_quiet(&mut self, plan: QuietPlan) -> Result<Messages, OutOfMemory>
        requires { IsNewIn self.old plan }
        ensures sent { IfOk result (λ sent. sent ≡ plan.sent) }
        ensures ok { OnOk result (IsChangedBy self.old self.new plan) }
        ensures err { OnErr result (IsSame self.old self.new) }
    {
        let QuietParts {
            id,
            made,
            note,
            top,
            change,
            sent,
        } = Box::into_inner(plan.parts);
        match made {
            Some(made) => {
                let mut made = made;
                change.make(made.get_mut());
                add(&mut self.records, &mut self.index, made, &note)?;
            }
            None => {
                enter(&mut self.index, id, &note)?;
                change_at(&mut self.records, id, change);
            }
        }
        self.greatest = self.greatest.max(top);
        Ok(sent)
    }
}

// Changes the record of a transaction, where it is known.
fn change_at(records: &mut Records, id: TxnId, change: Change)
    ensures { (y : TxnId) → record_at records.new y ≡ cond (id_eq id y) (option_map (changed change) (record_at records.old id)) (record_at records.old y) }
{
    match records.get_mut(&id) {
        Some(there) => change.make(there.get_mut()),
        None => {}
    }
}
