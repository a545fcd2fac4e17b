//! Looking for the begin of a transaction that a desk is to recover.
ghost use Rattle.std.specs.Prelude.{◌≡◌, ◌≤◌, Some, IfSome, IfOk, OnOk, OnErr};
ghost use mathlib.Core.List.{IsPrefix};
ghost use Rattle.acc_message.specs.Items.{id_of_txn, id_begun as begun_by};
ghost use Rattle.acc_message.specs.declared.item.Item.{Item as AnItem};
ghost use Rattle.acc_schedule_runs.specs.Limits.{most_items};
ghost use Rattle.acc_tape.specs.ItemViews.{sign_of_item};
ghost use Rattle.acc_desk.specs.Desks.{newest, IsSoundDesk, IsSoundOrMarked, IsAtSameCommand, BeginsAs};

use crate::desk::Desk;
use crate::rules::{PlanTape, Planned};
use acc_base::OutOfMemory;
use acc_ports::Rig;
use acc_schedule::Plan;
use acc_schedule_runs::limits::MOST_ITEMS;
use acc_stamp::TxnId;
use acc_tape::PlaceError;
use std::sync::Wait;

// The id of the transaction, where an item of which this is told begins it.
fn id_begun(sign: Option<(u32, Option<TxnId>)>, txn: u32) -> Option<TxnId>
    ensures id { (item : AnItem) → sign_of_item item ≡ sign → result ≡ begun_by txn item }
    ensures begins { IfSome result (λ id. (item : AnItem) → sign_of_item item ≡ sign → BeginsAs txn id item) }
{
    let Some((begun, id)) = sign else {
        return None;
    };
    if begun != txn {
        return None;
    }
    id
}

impl<D: Rig + Drop, J: Planned> Desk<D, J> {
    /// The id of a transaction, where it is begun in what the seat sees. The items are looked through from the place up to which
    /// that was done.
    pub(crate) fn look<W: Wait>(
        &mut self,
        rt: &W,
        plan: &Plan,
        tape: &PlanTape<J>,
        txn: u32,
    ) -> Result<Option<TxnId>, OutOfMemory>
        requires plan { plan.now ≡ J.plan }
        requires limits { tape.now.limits.items ≤ most_items }
        requires desk { IsSoundDesk D.Disk J.strict plan.now tape.now self.old }
        ensures same { IsAtSameCommand self.old self.new }
        ensures mark { self.new.unsound ≡ self.old.unsound }
        ensures mine { self.new.seat.mine ≡ self.old.seat.mine }
        ensures seen { IsPrefix self.old.seat.seen self.new.seat.seen }
        ensures ok { OnOk result (IsSoundDesk D.Disk J.strict plan.now tape.now self.new) }
        ensures err { OnErr result (IsSoundOrMarked D.Disk J.strict plan.now tape.now self.new) }
        ensures found { IfOk result (λ found. IfSome found (λ id. id_of_txn (newest self.new.seat) txn ≡ Some id)) }
    {
        for place in self.looked..MOST_ITEMS {
            let sign = match tape.fetch(rt, &mut self.seat, place) {
                Ok(sign) => sign,
                Err(PlaceError::NoPlace) => return Ok(None),
            };
            if let Some(id) = id_begun(sign, txn) {
                return Ok(Some(id));
            }
            self.looked = place + 1;
        }
        Ok(None)
    }
}
