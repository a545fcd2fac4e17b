//! The scan over the dependencies of a transaction.
ghost use Rattle.std.specs.Prelude.{◌≡◌, ℕ, ◌+◌, ◌≤◌, ◌<◌, length, false, IsTrue, MatchOption};
ghost use Rattle.std.specs.List.{slice_get};
ghost use Rattle.acc_stamp.specs.declared.stamps.TxnId.{TxnId};
ghost use Rattle.acc_stamp.specs.Rising.{IsRisingBy};
ghost use Rattle.acc_opening.specs.Plan.{is_past_behind};
ghost use Rattle.acc_opening.specs.Lookup.{lookup};
ghost use Rattle.acc_opening.specs.Turns.{turn_lt, changes_in, HaveTheirTimes};
ghost use Rattle.acc_opening.specs.Scan.{IsLastHeld, AllPastUpTo};

use crate::lookup::{is_kept_over, record_of};
use crate::turns::{Turn, is_applied_at};
use acc_record::{Record, Records};
use acc_stamp::{Stamp, TxnId};

/// Whether a dependency no longer holds back a transaction with this timestamp, after these turns.
pub(crate) fn is_past(records: &Records, own: &Record, turns: &[Turn], t: Stamp, id: TxnId) -> bool
    requires rises { IsRisingBy turn_lt turns.now }
    requires times { HaveTheirTimes (lookup records.now own.now) turns.now }
    ensures { result ≡ is_past_behind (lookup records.now own.now) (changes_in turns.now) t id }
{
    if is_kept_over(records, own, id) {
        return true;
    }
    let Some(record) = record_of(records, own, id) else {
        return false;
    };
    let Some(settled) = &record.stable else {
        return false;
    };
    if settled.t >= t || record.applied {
        return true;
    }
    is_applied_at(turns, settled.t, id)
}

/// The place of the last dependency, up to this one, that holds back a transaction with this timestamp after these turns.
pub(crate) fn last_held(
    records: &Records,
    own: &Record,
    turns: &[Turn],
    t: Stamp,
    ids: &[TxnId],
    last: usize,
) -> Option<usize>
    requires rises { IsRisingBy turn_lt turns.now }
    requires times { HaveTheirTimes (lookup records.now own.now) turns.now }
    ensures { MatchOption result
        (AllPastUpTo (lookup records.now own.now) (changes_in turns.now) t ids.now last)
        (IsLastHeld (lookup records.now own.now) (changes_in turns.now) t ids.now last) }
{
    let mut left = if last < ids.len() {
        last + 1
    } else {
        ids.len()
    };
    while left > 0 {
        let place = left - 1;
        if !is_past(records, own, turns, t, ids[place]) {
            return Some(place);
        }
        left = place;
    }
    None
}
