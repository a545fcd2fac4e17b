//! The numbers of the transactions that journals begin, by their ids.
ghost use Rattle.std.specs.Prelude.{◌≡◌, Some, length, nat_lt, slice_set, if◌then◌else◌, IfOk, IfSome};
ghost use Rattle.acc_left.specs.Told.{draw_at, number_begun, recovers_with, AreBegins};
ghost use Rattle.std.proofs.Props.{props};

use crate::drawn::Drawn;
use acc_base::OutOfMemory;
use acc_stamp::{Ballot, TxnId};
use std::alloc::Global;

/// The draws of nodes. The transactions that they begin stand in a table too, each at the place that follows from its
/// id, unless another one took this place. So most look-ups take one step.
#[derive(Drop)]
pub(crate) struct Numbers {
    drawn: Drawn,
    table: Table,
    ghost are_begins: { AreBegins drawn.draws table.entries.items } by { Prim.hlevel props },
}

/// Some transactions that are begun, each at the place that follows from its id.
#[derive(Drop)]
struct Table {
    entries: Vec<Option<(TxnId, u32)>>,
    /// More than the number of any node that begins one, so that ids of neighbouring heights have places of their own.
    stride: u64,
}

impl Numbers {
    /// Those of these draws.
    pub(crate) fn of(alloc: Global, drawn: Drawn) -> Result<Numbers, OutOfMemory>
        ensures { IfOk result (λ numbers. numbers.drawn.draws ≡ drawn.draws) }
    {
        let table = table_of(alloc, &drawn)?;
        Ok(Numbers { drawn, table })
    }

    /// The number of the transaction that was begun with this id.
    #[inline]
    pub(crate) fn begun(&self, id: TxnId) -> Option<u32>
        ensures { result ≡ number_begun self.now.drawn.draws id }
    {
        match self.near(id) {
            Some(txn) => Some(txn),
            None => self.drawn.begun(id),
        }
    }

    // The same, where the table has it.
    #[inline]
    fn near(&self, id: TxnId) -> Option<u32>
        ensures { IfSome result (λ txn. number_begun self.now.drawn.draws id ≡ Some txn) }
    {
        let place = place(id, self.table.stride, self.table.entries.len());
        match self.table.entries.as_slice().get(place) {
            Some(Some(entry)) if entry.0 == id => Some(entry.1),
            _ => None,
        }
    }

    /// Whether this ballot was drawn for a recover of the transaction with this number.
    pub(crate) fn recovers(&self, ballot: Ballot, txn: u32) -> bool
        ensures { result ≡ recovers_with txn (draw_at self.now.drawn.draws ballot.0) }
    {
        self.drawn.recovers(ballot, txn)
    }
}

// The place of an id in a table of this size, which is a power of two.
#[inline]
fn place(id: TxnId, stride: u64, size: usize) -> usize {
    let node = u64::from(id.0.origin / 64);
    let spread = id.0.h.wrapping_mul(stride).wrapping_add(node);
    spread as usize & size.wrapping_sub(1)
}

// More than the number of each node that drew one of the ids.
fn stride(begins: &[(TxnId, u32)]) -> u64 {
    let mut most = 0;
    for begin in begins {
        most = begin.0.0.origin.max(most);
    }
    u64::from(most / 64) + 1
}

// A table with room for twice as many transactions as are begun.
fn table_of(alloc: Global, drawn: &Drawn) -> Result<Table, OutOfMemory>
    ensures { IfOk result (λ table. AreBegins drawn.now.draws table.entries.items) }
{
    let begins = drawn.begins(alloc)?;
    let stride = stride(&begins);
    let size = begins.len().saturating_mul(2).checked_next_power_of_two();
    let mut entries = vec![in alloc; None; size.unwrap_or(0)]?;
    for begin in &begins {
        let place = place(begin.0, stride, entries.len());
        put(&mut entries, place, *begin);
    }
    Ok(Table { entries, stride })
}

// Puts a transaction at a place, where the table has this.
fn put(entries: &mut Vec<Option<(TxnId, u32)>>, place: usize, begin: (TxnId, u32))
    ensures { entries.new.items ≡ (if nat_lt place (length entries.old.items) then slice_set entries.old.items place (Some begin) else entries.old.items) }
{
    if place < entries.len() {
        entries[place] = Some(begin);
    }
}
