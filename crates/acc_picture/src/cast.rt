//! The transactions of a run, by their ids.
use acc_base::OutOfMemory;
use acc_message::{Event, Items, Note, Shown};
use acc_schedule::Names;
use acc_stamp::TxnId;
use std::alloc::Global;
use std::collections::BTreeMap;

/// The names of transactions by their numbers, and the numbers of those that were begun by their ids.
#[derive(Debug, Drop)]
pub(crate) struct Cast<'a> {
    names: &'a Names,
    known: BTreeMap<TxnId, u32>,
}

impl<'a> Cast<'a> {
    /// The transactions that the items begin.
    pub(crate) fn of(
        alloc: Global,
        names: &'a Names,
        items: &Items,
    ) -> Result<Cast<'a>, OutOfMemory> {
        let mut known = BTreeMap::new(alloc);
        for place in 0..items.len() {
            enter_item(&mut known, items.shown(place))?;
        }
        Ok(Cast { names, known })
    }

    /// The number of a transaction, or nothing where nobody began it.
    pub(crate) fn number(&self, id: TxnId) -> Option<u32> {
        self.known.get(&id).copied()
    }

    /// The name of a transaction.
    pub(crate) fn name(&self, id: TxnId) -> &[u8] {
        match self.number(id) {
            Some(txn) => self.name_of(txn),
            None => b"",
        }
    }

    /// The name of the transaction with this number.
    pub(crate) fn name_of(&self, txn: u32) -> &[u8] {
        match self.names.as_slice().get(txn as usize) {
            Some(name) => name.as_slice(),
            None => b"",
        }
    }
}

fn enter_item(known: &mut BTreeMap<TxnId, u32>, item: Shown<'_>) -> Result<(), OutOfMemory> {
    if let Shown::Step {
        event: Event::Begin { txn },
        notes,
        ..
    } = item
    {
        enter_notes(known, txn, notes)?;
    }
    Ok(())
}

fn enter_notes(
    known: &mut BTreeMap<TxnId, u32>,
    txn: u32,
    notes: &[Note],
) -> Result<(), OutOfMemory> {
    for note in notes {
        if let Note::Begin { id } = note {
            known.insert(*id, txn)?;
        }
    }
    Ok(())
}
