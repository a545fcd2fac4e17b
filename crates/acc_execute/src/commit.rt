//! What a step changes once nothing can fail any more.
ghost use Rattle.std.specs.Prelude.{◌≡◌, cond, IsTrue, is_some};
ghost use Rattle.std.specs.Option.{option_map};
ghost use Rattle.acc_stamp.specs.declared.stamps.TxnId.{TxnId};
ghost use Rattle.acc_stamp.specs.Stamp.{id_eq};
ghost use Rattle.acc_record.specs.Shelf.{record_at};
ghost use Rattle.acc_opening.specs.Turns.{changes_in};
ghost use Rattle.acc_execute.specs.Opened.{executed};
ghost use Rattle.acc_execute.specs.Executed.{after_turn};

use acc_base::ShortList;
use acc_opening::Turn;
use acc_record::{KeptRecord, Record, Records};
use acc_stamp::TxnId;

/// Keeps the own record in place of the one that is kept.
pub(crate) fn keep(records: &mut Records, id: TxnId, own: KeptRecord)
    ensures { (y : TxnId) → record_at records.new y ≡ cond (id_eq id y) (option_map (λ there. own) (record_at records.old id)) (record_at records.old y) }
{
    match records.get_mut(&id) {
        Some(there) => replace(there, own),
        None => {}
    }
}

fn replace(there: &mut KeptRecord, own: KeptRecord)
    ensures { there.new ≡ own }
{
    *there = own;
}

/// Opens and applies the own record as the turns say.
pub(crate) fn take_own_turns(own: &mut KeptRecord, id: TxnId, turns: &[Turn])
    ensures { own.new ≡ executed (changes_in turns.now) id own.old }
{
    for turn in turns {
        take_if_own(own, id, *turn);
    }
}

fn take_if_own(own: &mut KeptRecord, id: TxnId, turn: Turn)
    ensures { own.new ≡ cond (id_eq turn.id id) (after_turn turn own.old) own.old }
{
    if turn.id == id {
        change_kept(own, turn);
    }
}

/// Opens and applies the records of all other transactions as the turns say.
pub(crate) fn take_other_turns(records: &mut Records, id: TxnId, turns: &[Turn])
    ensures { (y : TxnId) → record_at records.new y ≡ cond (id_eq id y) (record_at records.old y) (option_map (executed (changes_in turns.now) y) (record_at records.old y)) }
{
    for turn in turns {
        take_if_other(records, id, *turn);
    }
}

fn take_if_other(records: &mut Records, id: TxnId, turn: Turn)
    ensures { (y : TxnId) → record_at records.new y ≡ cond (id_eq turn.id id) (record_at records.old y) (cond (id_eq turn.id y) (option_map (after_turn turn) (record_at records.old turn.id)) (record_at records.old y)) }
{
    if turn.id != id {
        take_turn(records, turn);
    }
}

fn take_turn(records: &mut Records, turn: Turn)
    ensures { (y : TxnId) → record_at records.new y ≡ cond (id_eq turn.id y) (option_map (after_turn turn) (record_at records.old turn.id)) (record_at records.old y) }
{
    match records.get_mut(&turn.id) {
        Some(there) => change_kept(there, turn),
        None => {}
    }
}

// Such a record is asked for by all that wait for it.
fn change_kept(there: &mut KeptRecord, turn: Turn)
    ensures { there.new ≡ after_turn turn there.old }
{
    change(there.get_mut(), turn);
    there.note_over();
}

fn change(there: &mut Record, turn: Turn)
    ensures { there.new ≡ after_turn turn there.old }
{
    if turn.opens {
        there.opened = true;
        there.waiters = ShortList::new(there.waiters.allocator());
    }
    if turn.applies {
        there.applied = true;
    }
}
