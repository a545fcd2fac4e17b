//! A law of tapes, which follows from their public calls alone.
ghost use Rattle.std.specs.Prelude.{◌≡◌, [], IfErr};
ghost use Rattle.acc_tape.specs.Refusals.{Refuses};

use crate::error::TapeError;
use crate::posted::Posted;
use crate::rules::Rules;
use crate::tape::Tape;
use acc_base::Sequence;
use std::alloc::Global;
use std::sync::Wait;

/// Makes a tape that may hold so many items and bytes, and reserves for a seat of it. That is Full only where the reservation alone
/// passes a limit: all that could stand against it is what seats hold and what they entered, which the closing of the tape tells.
pub fn reserve_at_new_tape<W: Wait, E: Posted, R: Rules<E>>(
    rt: &W,
    alloc: Global,
    most_items: u64,
    most_weight: u64,
    items: u64,
    weight: u64,
) -> Result<(), TapeError>
    requires { R.fits [] }
    ensures { IfErr result (Refuses (record { items = most_items; weight = most_weight }) 0 0 items weight) }
{
    let (tape, mut first) = Tape::<E, R>::new(alloc, most_items, most_weight)?;
    let mut seat = tape.split(rt, &mut first, 1)?;
    let refused = match tape.reserve(rt, &mut seat, items, weight) {
        Ok(()) => return Ok(()),
        Err(error) => error,
    };
    let mut others = Sequence::new(alloc);
    others.push(seat)?;
    let _closed = tape.close(first, others);
    Err(refused)
}
