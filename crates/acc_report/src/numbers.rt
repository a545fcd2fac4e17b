//! The numbers of transactions, by their ids.
ghost use Rattle.std.specs.Prelude.{◌≡◌, ℕ, if◌then◌else◌, Some, None, IfOk, IfSome, OnOk};
ghost use Rattle.acc_base.specs.Faults.{or_else};
ghost use Rattle.acc_stamp.specs.declared.stamps.TxnId.{TxnId};
ghost use Rattle.acc_stamp.specs.Stamp.{id_eq};
ghost use Rattle.acc_report.specs.Known.{number_at, AreKnown};

use acc_base::OutOfMemory;
use acc_stamp::TxnId;
use std::alloc::Global;
use std::collections::BTreeMap;
use std::marker::Model;

/// The numbers of transactions, by their ids. What was entered before the table was made stands there too, at the place that
/// follows from its id, unless another one took this place. So most look-ups take one step, and none more than the map does.
#[derive(Debug, Drop)]
pub(crate) struct Numbers {
    known: BTreeMap<TxnId, u32>,
    table: Table,
}

impl Model for Numbers {
    ghost use Rattle.acc_report.specs.Known.{AreKnown, Numbers};

    ghost Value = { Numbers };

    ghost view = { λ n. n.known.entries };

    ghost invariant = { λ n. AreKnown n.known.entries n.table.entries.items };
}

/// Some of the numbers, each at the place that follows from its id.
#[derive(Debug, Drop)]
struct Table {
    entries: Vec<Option<(TxnId, u32)>>,
    /// More than the number of any node, so that ids of neighbouring heights have places of their own.
    stride: u64,
}

impl Numbers {
    /// No numbers.
    pub(crate) fn new(alloc: Global) -> Numbers
        ensures { (x : TxnId) → number_at result x ≡ None }
    {
        Numbers {
            known: BTreeMap::new(alloc),
            table: Table {
                entries: Vec::new(alloc),
                stride: 1,
            },
        }
    }

    /// The number under an id.
    pub(crate) fn get(&self, id: TxnId) -> Option<u32>
        ensures { result ≡ number_at self.now id }
    {
        match self.near(id) {
            Some(txn) => Some(txn),
            None => self.known.get(&id).copied(),
        }
    }

    // The number under an id, where the table has it.
    fn near(&self, id: TxnId) -> Option<u32>
        ensures { IfSome result (λ txn. number_at self.now id ≡ Some txn) }
    {
        let place = place(id, self.table.stride, self.table.entries.len());
        match self.table.entries.as_slice().get(place) {
            Some(Some(entry)) if entry.0 == id => Some(entry.1),
            _ => None,
        }
    }

    /// Enters a transaction under an id, where none is known by it.
    pub(crate) fn enter(&mut self, txn: u32, id: TxnId) -> Result<(), OutOfMemory>
        ensures { OnOk result ((x : TxnId) →
            number_at self.new x ≡ or_else (number_at self.old x) (if id_eq id x then Some txn else None)) }
    {
        enter_id(&mut self.known, txn, id)
    }

    /// The same numbers, with a table of all of them.
    pub(crate) fn with_table(self, alloc: Global) -> Result<Numbers, OutOfMemory>
        ensures { IfOk result (λ numbers. numbers ≡ self) }
    {
        let Numbers { known, .. } = self;
        let stride = stride(&known);
        let entries = entries(alloc, &known, stride)?;
        Ok(Numbers {
            known,
            table: Table { entries, stride },
        })
    }
}

// Enters a transaction under an id, where none is known by it. What is known stays.
fn enter_id(known: &mut BTreeMap<TxnId, u32>, txn: u32, id: TxnId) -> Result<(), OutOfMemory>
    ensures entered { OnOk result ((x : TxnId) →
        number_at known.new.entries x ≡ or_else (number_at known.old.entries x) (if id_eq id x then Some txn else None)) }
    ensures stays { (x : TxnId) (n : ℕ) → number_at known.old.entries x ≡ Some n → number_at known.new.entries x ≡ Some n }
{
    if !known.contains_key(&id) {
        known.insert(id, txn)?;
    }
    Ok(())
}

// The place of an id in a table of this size, which is a power of two.
fn place(id: TxnId, stride: u64, size: usize) -> usize {
    let node = u64::from(id.0.origin / 64);
    let spread = id.0.h.wrapping_mul(stride).wrapping_add(node);
    spread as usize & size.wrapping_sub(1)
}

// More than the number of each node that drew one of the ids.
fn stride(known: &BTreeMap<TxnId, u32>) -> u64 {
    let mut most = 0;
    for id in known.keys() {
        most = id.0.origin.max(most);
    }
    u64::from(most / 64) + 1
}

// A table with room for twice as many.
fn entries(
    alloc: Global,
    known: &BTreeMap<TxnId, u32>,
    stride: u64,
) -> Result<Vec<Option<(TxnId, u32)>>, OutOfMemory>
    ensures { IfOk result (λ entries. AreKnown known.now.entries entries.items) }
{
    let size = known.len().saturating_mul(2).checked_next_power_of_two();
    let mut entries = vec![in alloc; None; size.unwrap_or(0)]?;
    for id in known.keys() {
        let place = place(*id, stride, entries.len());
        if let Some(txn) = known.get(id) {
            if place < entries.len() {
                entries[place] = Some((*id, *txn));
            }
        }
    }
    Ok(entries)
}
