//! The names of transactions, by their ids.
ghost use Rattle.std.specs.Prelude.{◌≡◌, ℕ, if◌then◌else◌, List, reverse, [], ◌∷◌, IfOk, OnOk};
ghost use Rattle.std.specs.List.{list_any};
ghost use Rattle.acc_base.specs.Faults.{or_else};
ghost use Rattle.acc_stamp.specs.declared.stamps.TxnId.{TxnId};
ghost use Rattle.acc_stamp.specs.Stamp.{id_eq};
ghost use Rattle.acc_message.specs.Items.{begins, txn_in};
ghost use Rattle.acc_message.specs.declared.message.Message.{Message};
ghost use Rattle.acc_message.specs.declared.item.Item.{Item};
ghost use Rattle.acc_message.specs.Shown.{with_sent};
ghost use Rattle.acc_report.specs.Known.{number_at};
ghost use Rattle.acc_report.specs.Numbers.{name_in, IsOf};
ghost use Rattle.acc_report.specs.Report.{name_at, number_in, number_of};

use crate::numbers::Numbers;
use acc_base::OutOfMemory;
use acc_message::{Event, Item, Items, Note, Roll, Shown};
use acc_report_line::Names;
use acc_stamp::TxnId;
use std::alloc::Global;

/// The names of transactions by their numbers, and their numbers by their ids: what is looked up for each name of a report.
/// It is made once, and grows with the items.
#[derive(Debug, Drop)]
pub struct Directory<'a> {
    pub(crate) names: &'a Names,
    pub(crate) numbers: Numbers,
}

impl<'a> Directory<'a> {
    /// The directory of a roll. Of several numbers for one id the first counts.
    pub fn new(names: &'a Names, roll: &Roll) -> Result<Directory<'a>, OutOfMemory>
        ensures { IfOk result (λ directory. IsOf directory names.now roll.now []) }
    {
        let numbers = numbers_in(names.allocator(), roll)?;
        Ok(Directory { names, numbers })
    }

    /// The directory of a roll and of items.
    pub fn of_items(
        names: &'a Names,
        roll: &Roll,
        items: &Items,
    ) -> Result<Directory<'a>, OutOfMemory>
        ensures { IfOk result (λ directory. IsOf directory names.now roll.now (reverse items.now)) }
    {
        let numbers = numbers_of(names.allocator(), roll, items)?;
        Ok(Directory { names, numbers })
    }

    /// The directory with one more item. An id that was known before keeps its number.
    pub fn with(self, item: &Item) -> Result<Directory<'a>, OutOfMemory>
        ensures { IfOk result (λ directory. (names : List (List ℕ)) (roll : List (TxnId × ℕ)) (items : List Item) →
            IsOf self.entry names roll items → IsOf directory names roll (item.now ∷ items)) }
    {
        let Directory { names, mut numbers } = self;
        enter_item(&mut numbers, Shown::of(item))?;
        Ok(Directory { names, numbers })
    }

    /// The name of the transaction with this id, or nothing where none is known by it or its number has no name.
    #[tactic(auto, unfolding(crate::specs::Numbers::name_in))]
    pub fn name_of(&self, id: TxnId) -> &[u8]
        ensures { result.now ≡ name_in self.now id }
    {
        match self.numbers.get(id) {
            Some(txn) => name_of_number(self.names, txn),
            None => b"",
        }
    }
}

/// The name of the transaction with this number, or nothing where there is none.
pub(crate) fn name_of_number(names: &Names, txn: u32) -> &[u8]
    ensures { result.now ≡ name_at names.now txn }
{
    match names.as_slice().get(txn as usize) {
        Some(name) => name.as_slice(),
        None => b"",
    }
}

/// The numbers of the transactions of a roll, and of those that the items begin. Of several for one id the first counts.
fn numbers_of(alloc: Global, roll: &Roll, items: &Items) -> Result<Numbers, OutOfMemory>
    ensures { IfOk result (λ numbers. (x : TxnId) → number_at numbers x ≡ number_of roll.now (reverse items.now) x) }
{
    let mut numbers = numbers_in(alloc, roll)?;
    for place in 0..items.len() {
        enter_item(&mut numbers, items.shown(place))?;
    }
    numbers.with_table(alloc)
}

/// The numbers of the transactions of a roll.
fn numbers_in(alloc: Global, roll: &Roll) -> Result<Numbers, OutOfMemory>
    ensures { IfOk result (λ numbers. (x : TxnId) → number_at numbers x ≡ number_in roll.now x) }
{
    let mut numbers = Numbers::new(alloc);
    for entry in roll.as_slice() {
        numbers.enter(entry.1, entry.0)?;
    }
    Ok(numbers)
}

/// Enters the transaction that an item begins, if it begins one.
fn enter_item(numbers: &mut Numbers, item: Shown<'_>) -> Result<(), OutOfMemory>
    ensures { OnOk result ((out : List Message) (x : TxnId) → number_at numbers.new x ≡ or_else (number_at numbers.old x) (txn_in x (with_sent item.entry out))) }
{
    if let Shown::Step {
        event: Event::Begin { txn },
        notes,
        ..
    } = item
    {
        enter_notes(numbers, txn, notes)?;
    }
    Ok(())
}

/// Enters a transaction under the ids that these notes begin.
fn enter_notes(numbers: &mut Numbers, txn: u32, notes: &[Note]) -> Result<(), OutOfMemory>
    ensures { OnOk result ((x : TxnId) →
        number_at numbers.new x ≡ or_else (number_at numbers.old x) (if list_any (begins x) notes.now then Some txn else None)) }
{
    for note in notes {
        if let Note::Begin { id } = note {
            numbers.enter(txn, *id)?;
        }
    }
    Ok(())
}
