//! The lists of who waits for whom, as a plan changes them.
ghost use Rattle.std.specs.Prelude.{◌≡◌, ◌+◌, ◌≤◌, true, false, IsTrue, [], None, Some, OnOk, vec_len, vec_capacity};
ghost use Rattle.std.specs.BTreeMap as tree;
ghost use Rattle.acc_stamp.specs.declared.stamps.TxnId.{TxnId};
ghost use Rattle.acc_stamp.specs.Stamp.{id_cmp};
ghost use Rattle.acc_record.specs.Shelf.{watchers};
ghost use Rattle.acc_opening.specs.declared.touched.Touched.{Touched};
ghost use Rattle.acc_opening.specs.Touched.{is_same, watches_with, watches_now};
ghost use Rattle.acc_execute.specs.Executed.{FitsIn, AllFit};

use acc_base::OutOfMemory;
use acc_opening::{Touched, TouchedWaits};
use acc_record::{Waits, Watch};
use acc_stamp::TxnId;

/// A list with fewer watches grows by no more than it needs.
const SHORT: usize = 4;

/// Makes room for what a plan adds. What waits stays in any case.
pub(crate) fn make_room(waits: &mut Waits, touched: &TouchedWaits) -> Result<(), OutOfMemory>
    ensures same { (y : TxnId) → watchers waits.new y ≡ watchers waits.old y }
    ensures room { OnOk result (AllFit touched.now waits.new) }
{
    for (id, change) in touched {
        make_room_for(waits, *id, change)?;
    }
    Ok(())
}

fn make_room_for(waits: &mut Waits, id: TxnId, change: &Touched) -> Result<(), OutOfMemory>
    ensures same { (y : TxnId) → watchers waits.new y ≡ watchers waits.old y }
    ensures room { OnOk result (FitsIn change.now (tree.get id_cmp waits.new id)) }
    ensures kept { (y : TxnId) (t : Touched) → FitsIn t (tree.get id_cmp waits.old y) → FitsIn t (tree.get id_cmp waits.new y) }
{
    match waits.get_mut(&id) {
        Some(list) => widen(list, change),
        None => add_list(waits, id, change),
    }
}

// Makes room in a list that there is. A short one gets no more than it needs, since most lists stay short.
fn widen(list: &mut Vec<Watch>, change: &Touched) -> Result<(), OutOfMemory>
    ensures same { list.new.items ≡ list.old.items }
    ensures len { vec_len list.new ≡ vec_len list.old }
    ensures capacity { vec_capacity list.old ≤ vec_capacity list.new }
    ensures room { OnOk result (vec_len list.new + vec_len change.now.added ≤ vec_capacity list.new) }
{
    let more = change.added.len();
    if list.len() < SHORT {
        list.reserve_exact(more)?;
    } else {
        list.reserve(more)?;
    }
    Ok(())
}

// Puts a list with the room where there is none.
fn add_list(waits: &mut Waits, id: TxnId, change: &Touched) -> Result<(), OutOfMemory>
    requires { tree.get id_cmp waits.old id ≡ None }
    ensures same { (y : TxnId) → watchers waits.new y ≡ watchers waits.old y }
    ensures room { OnOk result (FitsIn change.now (tree.get id_cmp waits.new id)) }
    ensures kept { (y : TxnId) (t : Touched) → FitsIn t (tree.get id_cmp waits.old y) → FitsIn t (tree.get id_cmp waits.new y) }
{
    let list = Vec::with_capacity(*change.added.allocator(), change.added.len())?;
    waits.insert(id, list)?;
    Ok(())
}

/// Changes the lists as a plan says, in the room that was made.
pub(crate) fn change_lists(waits: &mut Waits, touched: TouchedWaits)
    requires { AllFit touched waits.old }
    ensures { (y : TxnId) → watchers waits.new y ≡ watches_now touched waits.old y }
{
    let mut left = touched;
    while let Some((id, change)) = left.pop_first() {
        change_list_of(waits, id, change);
    }
}

fn change_list_of(waits: &mut Waits, id: TxnId, change: Touched)
    requires { FitsIn change (tree.get id_cmp waits.old id) }
    ensures changed { watchers waits.new id ≡ watches_with (Some change) (watchers waits.old id) }
    ensures others { (y : TxnId) → is_same id y ≡ false → tree.get id_cmp waits.new y ≡ tree.get id_cmp waits.old y }
{
    if is_emptied(&change) {
        remove_list(waits, id);
        return;
    }
    match waits.get_mut(&id) {
        Some(list) => change_list(list, &change),
        None => {}
    }
}

// Whether nothing waits after a change, whatever waited before.
fn is_emptied(change: &Touched) -> bool
    ensures drained { IsTrue result → change.now.drained ≡ true }
    ensures none { IsTrue result → change.now.added.items ≡ [] }
{
    change.drained && change.added.is_empty()
}

// Takes a list away, with its memory.
fn remove_list(waits: &mut Waits, id: TxnId)
    ensures gone { tree.get id_cmp waits.new id ≡ None }
    ensures others { (y : TxnId) → is_same id y ≡ false → tree.get id_cmp waits.new y ≡ tree.get id_cmp waits.old y }
{
    let _ = waits.remove(&id);
}

fn change_list(list: &mut Vec<Watch>, change: &Touched)
    requires { vec_len list.old + vec_len change.now.added ≤ vec_capacity list.old }
    ensures { list.new.items ≡ watches_with (Some change.now) list.old.items }
{
    if change.drained {
        list.clear();
    }
    let _ = list.extend_from_slice(&change.added);
}
