//! The Applys among messages.
ghost use Rattle.std.specs.Prelude.{◌≡◌, ◌≤◌, [], ◌∷◌, ◌++◌, map, length, Some, None, IsTrue, IfOk, OnOk};
ghost use Rattle.acc_heal.specs.Applies.{applied_by, apply_at, marked, KeepsMarks};

use crate::numbers::Numbers;
use acc_base::OutOfMemory;
use acc_message::Message;
use acc_stamp::TxnId;
use std::alloc::Global;
use std::marker::Model;

/// Which of some messages are Applys, and of which transactions, by the messages' numbers. Each message takes the memory of a small number,
/// and the Applys of one transaction that follow one another that of its id beside.
#[derive(Debug, Drop)]
pub(crate) struct Applies {
    // For each message one more than the place of its id, or 0 where it is no Apply.
    marks: Numbers,
    // The ids of the Applys, once for those that follow one another.
    ids: Vec<TxnId>,
}

impl Model for Applies {
    ghost use Rattle.std.specs.Prelude.{◌≤◌, List, Option, length, map};
    ghost use Rattle.std.specs.List.{AllByRecursion};
    ghost use Rattle.acc_stamp.specs.declared.stamps.TxnId.{TxnId};
    ghost use Rattle.acc_heal.specs.Applies.{marked};

    ghost Value = { List (Option TxnId) };

    ghost view = { λ a. map (marked a.ids.items) a.marks };

    ghost invariant = { λ a. AllByRecursion (λ mark. mark ≤ length a.ids.items) a.marks };
}

// More Applys than 32 bits count are more than memory holds.
fn mark_of(applies: usize) -> Result<u32, OutOfMemory>
    ensures { IfOk result (λ mark. mark ≡ applies) }
{
    if applies > u32::MAX as usize {
        return Err(OutOfMemory);
    }
    Ok(applies as u32)
}

// Whether the last of the ids is this one.
fn is_last(ids: &[TxnId], id: TxnId) -> bool
    ensures { IsTrue result → marked ids.now (length ids.now) ≡ Some id }
{
    match ids.last() {
        Some(last) => *last == id,
        None => false,
    }
}

// Puts an id at the end, where it isn't the last one, and gives the mark that points to it. Marks point to what they pointed to.
fn mark_last(ids: &mut Vec<TxnId>, id: TxnId) -> Result<u32, OutOfMemory>
    ensures kept { KeepsMarks ids.old.items ids.new.items }
    ensures last { IfOk result (λ mark. mark ≡ length ids.new.items) }
    ensures points { IfOk result (λ mark. marked ids.new.items mark ≡ Some id) }
{
    if !is_last(ids.as_slice(), id) {
        ids.push(id)?;
    }
    mark_of(ids.len())
}

impl Applies {
    /// Those of no messages.
    pub(crate) fn new(alloc: Global) -> Applies
        ensures { result ≡ [] }
    {
        Applies {
            marks: Numbers::new(alloc),
            ids: Vec::new(alloc),
        }
    }

    /// The transaction of the message with this number, if it is an Apply.
    pub(crate) fn get(&self, number: u64) -> Option<TxnId>
        ensures { result ≡ apply_at self.now number }
    {
        let mark = self.marks.get(number as usize)?;
        if mark == 0 {
            return None;
        }
        self.ids.as_slice().get(mark as usize - 1).copied()
    }

    /// Appends these messages. Without memory for them some may be left out.
    pub(crate) fn extend(&mut self, messages: &[Message]) -> Result<(), OutOfMemory>
        ensures { OnOk result (self.new ≡ self.old ++ map applied_by messages.now) }
    {
        for message in messages {
            self.push(message)?;
        }
        Ok(())
    }

    // Appends a message.
    fn push(&mut self, message: &Message) -> Result<(), OutOfMemory>
        ensures { OnOk result (self.new ≡ self.old ++ applied_by message.now ∷ []) }
    {
        if let Message::Apply { id, .. } = message {
            self.push_apply(*id)
        } else {
            self.push_other()
        }
    }

    // Appends an Apply of this transaction.
    fn push_apply(&mut self, id: TxnId) -> Result<(), OutOfMemory>
        ensures { OnOk result (self.new ≡ self.old ++ Some id ∷ []) }
    {
        let mark = mark_last(&mut self.ids, id)?;
        self.marks.push(mark)?;
        Ok(())
    }

    // Appends a message that is no Apply.
    fn push_other(&mut self) -> Result<(), OutOfMemory>
        ensures { OnOk result (self.new ≡ self.old ++ None ∷ []) }
    {
        self.marks.push(0)?;
        Ok(())
    }
}
