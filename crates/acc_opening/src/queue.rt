//! The transactions whose turn comes.
ghost use Rattle.acc_stamp.specs.Rising.{IsRisingBy, IsGapFor};
ghost use Rattle.std.specs.Prelude.{OnOk};
ghost use Rattle.acc_opening.specs.Turns.{turn_lt, key_lt, key_of, HasTurn};

use crate::turns::{Turn, place_of};
use acc_base::{OutOfMemory, ShortList};

/// Puts a turn in its place, unless its transaction stands there.
#[inline(always)]
pub(crate) fn insert(queue: &mut ShortList<Turn>, turn: Turn) -> Result<(), OutOfMemory>
    requires { IsRisingBy turn_lt queue.old }
    ensures { OnOk result (HasTurn turn queue.old queue.new) }
{
    match place_of(queue.as_slice(), turn.t, turn.id) {
        Ok(_) => Ok(()),
        Err(place) => put(queue, place, turn),
    }
}

fn put(queue: &mut ShortList<Turn>, place: usize, turn: Turn) -> Result<(), OutOfMemory>
    requires rises { IsRisingBy turn_lt queue.old }
    requires gap { IsGapFor key_lt key_of queue.old (key_of turn) place }
    ensures { OnOk result (HasTurn turn queue.old queue.new) }
{
    queue.insert(place, turn)?;
    Ok(())
}
