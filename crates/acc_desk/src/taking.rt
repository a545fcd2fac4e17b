//! Steps of the actor of a desk.
ghost use Rattle.std.specs.Prelude.{◌≡◌, ◌≢◌, ◌≤◌, [], ◌∷◌, drop, Ok, IfOk, OnOk, OnErr};
ghost use Rattle.acc_schedule_runs.specs.Limits.{most_items};
ghost use Rattle.acc_desk.specs.Asks.{event_of, act_of_ask};
ghost use Rattle.acc_desk.specs.Choices.{HasEntered};
ghost use Rattle.acc_desk.specs.Desks.{newest, item_of, IsSoundDesk, IsSoundOrMarked, IsSameDesk, MarksDown, MayStep};
ghost use Rattle.acc_desk.specs.Outcomes.{HasTurned};
ghost use Rattle.acc_desk.specs.declared.turning.Turned.{Turned as Answer};

use crate::ask::{Ask, step, weigh};
use crate::desk::Desk;
use crate::floor::Floor;
use crate::rules::{PlanTape, Planned};
use crate::turning::Turned;
use acc_base::OutOfMemory;
use acc_message::{Emitted, Entry, Event, Item};
use acc_ports::{Gate, Rig};
use acc_schedule::Plan;
use acc_stamp::Actor;
use acc_tape::TapeError;
use std::sync::Wait;

/// What the actor entered, or that it went down.
pub(crate) fn item_for(actor: Actor, event: Event, given: Option<Emitted>) -> Item
    ensures { result ≡ item_of actor event given }
{
    match given {
        Some(emitted) => Item::Step(Entry {
            actor,
            event,
            emitted,
            lost: false,
        }),
        None => Item::Down { actor },
    }
}

// Counts what is sent. Answers the bits of the workers that are to be called once it is entered.
fn count_sent(floor: &Floor, given: &Option<Emitted>) -> u64 {
    match given {
        Some(emitted) => floor.send(emitted.out.as_slice()),
        None => 0,
    }
}

// Calls the workers with these bits, and those that wait for a begin if this was one.
fn call_for(floor: &Floor, ask: Ask, workers: u64) {
    floor.call(workers);
    if let Ask::Begin { .. } = ask {
        floor.call_waiting();
    }
}

impl<D: Rig + Drop, J: Planned> Desk<D, J> {
    /// The actor takes what it is asked for, where the tape has room for it. Then so many commands have gone by, and the workers that have
    /// something to do by it are called.
    pub(crate) fn take<W: Wait, G: Gate>(
        &mut self,
        rt: &W,
        plan: &Plan,
        floor: &Floor,
        tape: &PlanTape<J>,
        gate: &G,
        turn: u64,
        ask: Ask,
        gone: usize,
    ) -> Result<Turned, OutOfMemory>
        requires plan { plan.now ≡ J.plan }
        requires limits { tape.now.limits.items ≤ most_items }
        requires desk { IsSoundDesk D.Disk J.strict plan.now tape.now self.old }
        requires may { MayStep plan.now (newest self.old.seat) self.old.actor (event_of ask) (act_of_ask ask) (drop self.old.gone self.old.commands) (drop gone self.old.commands) }
        ensures same { IsSameDesk self.old self.new }
        ensures ok { OnOk result (IsSoundDesk D.Disk J.strict plan.now tape.now self.new) }
        ensures err { OnErr result (IsSoundOrMarked D.Disk J.strict plan.now tape.now self.new) }
        ensures marked { MarksDown result self.old self.new }
        ensures came { IfOk result (λ turned. HasTurned plan.now tape.now turned self.old self.new) }
        ensures took { result ≡ Ok Answer.Taken → (self.new.gone ≡ gone) × HasEntered self.old.actor (event_of ask.entry ∷ []) self.old.seat self.new.seat }
        ensures told { result ≢ Ok Answer.Idle }
    {
        gate.enter(self.actor.0, turn);
        let weight = weigh(&self.slot, plan, self.actor, ask)?;
        match tape.reserve(rt, &mut self.seat, 1, weight) {
            Ok(()) => {}
            Err(TapeError::Full { .. }) => return Ok(Turned::Full),
            Err(TapeError::OutOfMemory) => return Err(OutOfMemory),
        }
        let Ok(given) = step(&mut self.slot, plan, self.actor, ask) else {
            tape.release(rt, &mut self.seat, 1, weight);
            self.unsound = self.slot.is_down();
            return Err(OutOfMemory);
        };
        let keepers = count_sent(floor, &given);
        let item = item_for(self.actor, ask.event(), given);
        tape.put(rt, &mut self.seat, 1, weight, item);
        call_for(floor, ask, keepers);
        self.gone = gone;
        Ok(Turned::Taken)
    }
}
