//! Serving desks.
ghost use Rattle.std.specs.Prelude.{◌≡◌, ◌≤◌, true, false, map, IfOk, OnOk, OnErr};
ghost use Rattle.acc_schedule_runs.specs.Limits.{most_items};
ghost use Rattle.acc_desk.specs.Desks.{AreSound, AreSoundButOne, AreSeated, AreMarkedDown, MarksAtTurns, name_of};
ghost use Rattle.acc_desk.specs.Outcomes.{HaveComeTo};

use crate::desk::Desks;
use crate::floor::Floor;
use crate::rules::{PlanTape, Planned};
use crate::turning::Turned;
use acc_base::OutOfMemory;
use acc_ports::{Gate, Rig};
use acc_schedule::Plan;
use std::sync::Wait;

/// Desks that were served, and whether memory was refused meanwhile.
#[derive(Drop)]
pub struct Served<D: Rig, J: Planned> {
    pub desks: Desks<D, J>,
    pub refused: bool,
}

// Lets others call the worker for what comes to its desks.
fn keep<D: Rig + Drop, J: Planned>(desks: &Desks<D, J>, worker: usize, floor: &Floor) {
    for desk in desks {
        floor.keep(worker, desk.actor);
        if desk.recovers() {
            floor.await_begins(worker);
        }
    }
}

// A turn of each desk. It ends early where the tape is full.
fn round<W: Wait, G: Gate, D: Rig + Drop, J: Planned>(
    rt: &W,
    plan: &Plan,
    desks: &mut Desks<D, J>,
    floor: &Floor,
    tape: &PlanTape<J>,
    gate: &G,
    turns: &mut u64,
) -> Result<Turned, OutOfMemory>
    requires plan { plan.now ≡ J.plan }
    requires limits { tape.now.limits.items ≤ most_items }
    requires desks { AreSound D.Disk J.strict plan.now tape.now desks.old.items }
    ensures same { map name_of desks.new.items ≡ map name_of desks.old.items }
    ensures ok { OnOk result (AreSound D.Disk J.strict plan.now tape.now desks.new.items) }
    ensures err { OnErr result (AreSoundButOne D.Disk J.strict plan.now tape.now desks.new.items) }
    ensures marked { MarksAtTurns result desks.old.items desks.new.items }
    ensures came { IfOk result (λ turned. HaveComeTo plan.now tape.now turned desks.old.items desks.new.items) }
{
    let mut all = Turned::Idle;
    for place in 0..desks.len() {
        match desks[place].turn(rt, plan, floor, tape, gate, *turns)? {
            Turned::Idle => {}
            Turned::Taken => {
                all = Turned::Taken;
                *turns = turns.saturating_add(1);
            }
            Turned::Full => return Ok(Turned::Full),
        }
    }
    Ok(all)
}

// Rounds, until there is nothing to do on the whole floor, or the tape is full.
fn rounds<W: Wait, G: Gate, D: Rig + Drop, J: Planned>(
    rt: &W,
    plan: &Plan,
    desks: &mut Desks<D, J>,
    worker: usize,
    floor: &Floor,
    tape: &PlanTape<J>,
    gate: &G,
) -> Result<(), OutOfMemory>
    requires plan { plan.now ≡ J.plan }
    requires limits { tape.now.limits.items ≤ most_items }
    requires desks { AreSound D.Disk J.strict plan.now tape.now desks.old.items }
    ensures same { map name_of desks.new.items ≡ map name_of desks.old.items }
    ensures ok { OnOk result (AreSound D.Disk J.strict plan.now tape.now desks.new.items) }
    ensures err { OnErr result (AreSoundButOne D.Disk J.strict plan.now tape.now desks.new.items) }
    ensures marked { MarksAtTurns result desks.old.items desks.new.items }
{
    let mut turns = 0;
    for _ in rt.forever() {
        let heard = floor.calls(worker);
        match round(rt, plan, desks, floor, tape, gate, &mut turns)? {
            Turned::Full => break,
            Turned::Taken => {}
            Turned::Idle if floor.has_ended() => break,
            Turned::Idle => floor.rest(rt, worker, heard),
        }
    }
    Ok(())
}

/// Goes round the desks of a worker and gives each a turn, until there is nothing to do on the whole floor or the tape is full. Where
/// memory is refused it ends with `refused`: then each desk still keeps its actor, its commands and its seat, which holds nothing
/// reserved, and all are sound but the one that took its turn then, if that is marked. It waits where the tape is taken, and for calls of
/// other workers while its own desks have nothing to do.
pub fn serve<W: Wait, G: Gate, D: Rig + Drop, J: Planned>(
    rt: &W,
    plan: &Plan,
    desks: Desks<D, J>,
    worker: usize,
    floor: &Floor,
    tape: &PlanTape<J>,
    gate: &G,
) -> Served<D, J>
    requires plan { plan.now ≡ J.plan }
    requires limits { tape.now.limits.items ≤ most_items }
    requires desks { AreSound D.Disk J.strict plan.now tape.now desks.items }
    ensures same { map name_of result.desks.items ≡ map name_of desks.items }
    ensures sound { result.refused ≡ false → AreSound D.Disk J.strict plan.now tape.now result.desks.items }
    ensures refused { result.refused ≡ true → AreSoundButOne D.Disk J.strict plan.now tape.now result.desks.items }
    ensures seated { AreSeated tape.now result.desks.items }
    ensures marked { AreMarkedDown desks.items result.desks.items }
{
    keep(&desks, worker, floor);
    let mut desks = desks;
    let served = rounds(rt, plan, &mut desks, worker, floor, tape, gate);
    floor.clear(worker);
    Served {
        desks,
        refused: served.is_err(),
    }
}
