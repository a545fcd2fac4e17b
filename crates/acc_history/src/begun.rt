//! Which transactions are begun.
ghost use Rattle.std.specs.Prelude.{◌≡◌, ◌==◌, ◌<◌, ◌^◌, ℕ, List, length, slice_get, IfOk, OnOk, OnErr};
ghost use Rattle.acc_message.specs.declared.message.Message.{Message as AMessage};
ghost use Rattle.acc_message.specs.Items.{id_drawn, begins_txn, id_begun};
ghost use Rattle.acc_message.specs.Shown.{with_sent};
ghost use Rattle.acc_history.specs.Begun.{begun_in, begun_after, begun_with, known_as, known_with};

use acc_base::OutOfMemory;
use acc_message::{Event, Note, Shown};
use acc_stamp::TxnId;
use std::alloc::Global;

/// For each transaction, at its number, the id that its begin drew, if it is begun. The numbers are those of a schedule's
/// transactions, so that few are left out.
pub(crate) type Begun = Vec<Option<Option<TxnId>>>;

/// What is known of the transaction with a number.
pub(crate) fn begun_at(begun: &Begun, txn: u32) -> Option<Option<TxnId>>
    ensures { result ≡ begun_in begun.now.items txn }
{
    if txn as usize >= begun.len() {
        return None;
    }
    begun[txn as usize]
}

// Makes room for a transaction.
fn cover(begun: &mut Begun, txn: u32) -> Result<(), OutOfMemory>
    ensures same { (number : ℕ) → begun_in begun.new.items number ≡ begun_in begun.old.items number }
    ensures covered { OnOk result (txn < length begun.new.items) }
{
    if (txn as usize) < begun.len() {
        return Ok(());
    }
    begun.resize(txn as usize + 1, None)?;
    Ok(())
}

// The first id that was drawn, behind a begin that drew this one.
fn first_drawn(before: Option<Option<TxnId>>, id: Option<TxnId>) -> Option<TxnId>
    ensures { result ≡ begun_after id before }
{
    match before {
        Some(Some(first)) => Some(first),
        Some(None) | None => id,
    }
}

// The id that a begin drew.
fn drawn(notes: &[Note]) -> Option<TxnId>
    ensures { result ≡ id_drawn notes.now }
{
    for note in notes {
        if let Note::Begin { id } = note {
            return Some(*id);
        }
    }
    None
}

// Notes that a transaction is begun. The first id that it drew stays.
#[inline(never)]
fn note(begun: &mut Begun, txn: u32, id: Option<TxnId>) -> Result<(), OutOfMemory>
    ensures ok { OnOk result ((number : ℕ) → begun_in begun.new.items number ≡ begun_with (txn == number) id (begun_in begun.old.items number)) }
    ensures err { OnErr result ((number : ℕ) → begun_in begun.new.items number ≡ begun_in begun.old.items number) }
{
    cover(begun, txn)?;
    let first = first_drawn(begun[txn as usize], id);
    begun[txn as usize] = Some(first);
    Ok(())
}

/// Notes what an item begins, whatever it sent. Without memory for it all is as before.
#[inline(always)]
pub(crate) fn note_begin(begun: &mut Begun, shown: Shown<'_>) -> Result<(), OutOfMemory>
    ensures ok { OnOk result ((out : List AMessage) (number : ℕ) → begun_in begun.new.items number ≡ begun_with (begins_txn number (with_sent shown.entry out)) (id_begun number (with_sent shown.entry out)) (begun_in begun.old.items number)) }
    ensures err { OnErr result ((number : ℕ) → begun_in begun.new.items number ≡ begun_in begun.old.items number) }
{
    let Shown::Step { event, notes, .. } = shown else {
        return Ok(());
    };
    let Event::Begin { txn } = event else {
        return Ok(());
    };
    note(begun, txn, drawn(notes))
}

// Notes the id that stands at the number of a transaction, if one stands there.
fn know(begun: &mut Begun, txn: u32, id: Option<TxnId>) -> Result<(), OutOfMemory>
    ensures { OnOk result ((number : ℕ) → begun_in begun.new.items number ≡ known_with (txn == number) id (begun_in begun.old.items number)) }
{
    match id {
        Some(id) => note(begun, txn, Some(id)),
        None => Ok(()),
    }
}

/// What is begun by these ids, each of which stands at the number of its transaction.
pub(crate) fn known(alloc: Global, ids: &[Option<TxnId>]) -> Result<Begun, OutOfMemory>
    requires { length ids.now < 2 ^ 32 }
    ensures { IfOk result (λ begun. (number : ℕ) → begun_in begun.items number ≡ known_as (slice_get ids.now number)) }
{
    let mut begun = Vec::new(alloc);
    for (txn, id) in ids.iter().enumerate() {
        know(&mut begun, txn as u32, *id)?;
    }
    Ok(begun)
}
