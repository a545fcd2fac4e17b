//! The transactions that items begin.
ghost use Rattle.std.specs.Prelude.{◌≡◌, List, if◌then◌else◌, Some, None, OnOk};
ghost use Rattle.std.specs.List.{list_any};
ghost use Rattle.acc_base.specs.Faults.{or_else};
ghost use Rattle.acc_stamp.specs.declared.stamps.TxnId.{TxnId as AnId};
ghost use Rattle.acc_stamp.specs.Stamp.{id_eq};
ghost use Rattle.acc_message.specs.declared.message.Message.{Message};
ghost use Rattle.acc_message.specs.Items.{begins, txn_in};
ghost use Rattle.acc_message.specs.Shown.{with_sent};
ghost use Rattle.acc_report.specs.Known.{number_at};

use acc_base::OutOfMemory;
use acc_message::{Event, Note, Shown};
use acc_stamp::TxnId;
use std::collections::BTreeMap;

/// Enters the transaction that an item begins, if it begins one.
pub(crate) fn enter_begin(
    begun: &mut BTreeMap<TxnId, u32>,
    item: Shown<'_>,
) -> Result<(), OutOfMemory>
    ensures { OnOk result ((out : List Message) (x : AnId) → number_at begun.new.entries x ≡ or_else (number_at begun.old.entries x) (txn_in x (with_sent item.entry out))) }
{
    if let Shown::Step {
        event: Event::Begin { txn },
        notes,
        ..
    } = item
    {
        enter_notes(begun, txn, notes)?;
    }
    Ok(())
}

// Enters a transaction under the ids that these notes begin.
fn enter_notes(
    begun: &mut BTreeMap<TxnId, u32>,
    txn: u32,
    notes: &[Note],
) -> Result<(), OutOfMemory>
    ensures { OnOk result ((x : AnId) →
        number_at begun.new.entries x ≡ or_else (number_at begun.old.entries x) (if list_any (begins x) notes.now then Some txn else None)) }
{
    for note in notes {
        if let Note::Begin { id } = note {
            enter(begun, txn, *id)?;
        }
    }
    Ok(())
}

// Enters a transaction under an id, where none is known by it.
fn enter(begun: &mut BTreeMap<TxnId, u32>, txn: u32, id: TxnId) -> Result<(), OutOfMemory>
    ensures { OnOk result ((x : AnId) →
        number_at begun.new.entries x ≡ or_else (number_at begun.old.entries x) (if id_eq id x then Some txn else None)) }
{
    if !begun.contains_key(&id) {
        begun.insert(id, txn)?;
    }
    Ok(())
}
