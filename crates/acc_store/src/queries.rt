//! What a store knows of transactions and has applied.
ghost use Rattle.std.specs.Prelude.{◌≡◌, IfOk};
ghost use Rattle.std.specs.Option.{option_copied};
ghost use Rattle.acc_stamp.specs.declared.stamps.TxnId.{TxnId as AnId};
ghost use Rattle.acc_stamp.specs.Rising.{IsRising, id_among};
ghost use Rattle.acc_record.specs.Shelf.{record_at};
ghost use Rattle.acc_store.specs.Queries.{applied_in, all_applied_at, body_in, is_unapplied_in, stable_in};

use acc_base::OutOfMemory;
use acc_deps::Settled;
use acc_index::rising;
use acc_record::{Record, Records, Shelf};
use acc_stamp::{Ids, TxnId};
use acc_txn::Body;
use std::alloc::Global;

/// The body that a record has.
pub(crate) fn body_in(there: Option<&Record>) -> Option<&Body>
    ensures { option_copied result ≡ body_in (option_copied there.entry) }
{
    match there {
        Some(there) => Some(&there.body),
        None => None,
    }
}

/// What a record has that is stable.
pub(crate) fn stable_in(there: Option<&Record>) -> Option<&Settled>
    ensures { option_copied result ≡ stable_in (option_copied there.entry) }
{
    match there {
        Some(there) => match &there.stable {
            Some(settled) => Some(settled),
            None => None,
        },
        None => None,
    }
}

/// The transactions that are known here and not applied, rising.
pub(crate) fn unapplied(shelf: &Shelf) -> Result<Ids, OutOfMemory>
    ensures ids { IfOk result (λ ids. (y : AnId) → id_among y ids ≡ is_unapplied_in (record_at shelf.now.records y)) }
    ensures rises { IfOk result IsRising }
{
    let found = unapplied_of(&shelf.records, shelf.cells.pending.allocator())?;
    rising(found)
}

fn unapplied_of(records: &Records, alloc: Global) -> Result<Vec<TxnId>, OutOfMemory>
    ensures { IfOk result (λ found. (y : AnId) → id_among y found.items ≡ is_unapplied_in (record_at records.now y)) }
{
    let mut found = Vec::new(alloc);
    for (id, kept) in records.iter() {
        if !kept.get().applied {
            found.push(*id)?;
        }
    }
    Ok(found)
}

/// Whether each of these transactions is applied here. Takes no memory.
pub(crate) fn are_applied(shelf: &Shelf, ids: &[TxnId]) -> bool
    ensures { result ≡ all_applied_at shelf.now ids.now }
{
    for id in ids {
        if !is_applied(shelf.find(*id)) {
            return false;
        }
    }
    true
}

fn is_applied(there: Option<&Record>) -> bool
    ensures { result ≡ applied_in (option_copied there.entry) }
{
    match there {
        Some(there) => there.applied,
        None => false,
    }
}
