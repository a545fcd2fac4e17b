//! From desks to what their actors left undone, and what they entered.
ghost use Rattle.std.specs.Prelude.{◌≡◌, ◌≤◌, length, map, IfOk};
ghost use Rattle.acc_schedule.specs.Plan.{IsPlan};
ghost use Rattle.acc_schedule_runs.specs.Limits.{most_items, most_bytes};
ghost use Rattle.acc_desk.specs.Desks.{AreSound};
ghost use Rattle.acc_desk.specs.Threads.{AreEnteredBy};
ghost use Rattle.acc_free_ending.specs.Finish.{HaveRested};
ghost use Rattle.acc_free.specs.Opened.{desk_actor};
ghost use Rattle.acc_free.specs.Parts.{seat_in, rest_in};
ghost use Rattle.acc_free_ending.specs.Queues.{rest_actor, AreAllActors};

use crate::opening::First;
use acc_base::OutOfMemory;
use acc_desk::laws::{
    closed_items_are_within, desks_stand_at_the_end, nobody_goes_down, threads_make_one_run,
};
use acc_desk::{Desks, Parts, PlanRules, PlanTape, Planned};
use acc_free_ending::{Rest, Rests};
use acc_free_laws::laws::turns_go_by;
use acc_message::{GrowingItems, Item};
use acc_ports::Rig;
use acc_schedule::Plan;
use acc_tape::Seats;
use std::alloc::Global;

/// Closes the tape of a plan, at which each actor has a desk. What the desks entered there is one run.
pub(crate) fn closed<D: Rig + Drop, J: Planned>(
    alloc: Global,
    plan: &Plan,
    tape: PlanTape<J>,
    first: First<J>,
    desks: Desks<D, J>,
) -> Result<(Rests<D>, GrowingItems), OutOfMemory>
    requires plan { plan.now ≡ J.plan }
    requires is_plan { IsPlan plan.now }
    requires limits { (tape.limits.items ≤ most_items) × (tape.limits.weight ≤ most_bytes) }
    requires first { (first.tape ≡ tape) × (first.actor ≡ 0) }
    requires all { length first.made ≡ length desks.items }
    requires actors { AreAllActors plan.now (map desk_actor desks.items) }
    requires sound { AreSound D.Disk J.strict plan.now tape desks.items }
    ensures actors { IfOk result (λ parts. AreAllActors plan.now (map rest_actor parts.0.items)) }
    ensures entered { IfOk result (λ parts. AreEnteredBy plan.now desks.items parts.1.items) }
    ensures rested { IfOk result (λ parts. HaveRested D.Disk J.strict plan.now parts.0.items parts.1.items) }
{
    desks_stand_at_the_end::<D>();
    nobody_goes_down();
    closed_items_are_within();
    threads_make_one_run::<D, J>();
    turns_go_by();
    let (seats, rests) = apart(alloc, desks)?;
    let Ok(entered) = tape.close(first, seats) else {
        return Err(OutOfMemory);
    };
    Ok((rests, entered))
}

// The seats, and what the actors left undone.
fn apart<D: Rig + Drop, J: Planned>(
    alloc: Global,
    desks: Desks<D, J>,
) -> Result<(Seats<Item, PlanRules<J>>, Rests<D>), OutOfMemory>
    ensures seats { IfOk result (λ parts. parts.0 ≡ map seat_in desks.items) }
    ensures rests { IfOk result (λ parts. parts.1.items ≡ map rest_in desks.items) }
{
    let mut seats = Vec::new(alloc);
    let mut rests = Vec::new(alloc);
    for desk in desks {
        let Parts {
            actor,
            seat,
            slot,
            commands,
            gone,
        } = desk.into_parts();
        seats.push(seat)?;
        rests.push(Rest {
            actor,
            slot,
            commands,
            gone,
        })?;
    }
    Ok((Seats::from_vec(seats), rests))
}
