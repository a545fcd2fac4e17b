//! Restarts of the actor of a desk.
ghost use Rattle.std.specs.Prelude.{◌≡◌, ◌≢◌, ◌≤◌, ◌+◌, [], ◌∷◌, Contains, Ok, IfOk, OnOk, OnErr};
ghost use Rattle.acc_message.specs.declared.entry.Event.{Event as AnEvent};
ghost use Rattle.acc_message.specs.Coordinator.{silence};
ghost use Rattle.acc_schedule_runs.specs.Limits.{most_items};
ghost use Rattle.acc_schedule.specs.Actors.{actors};
ghost use Rattle.acc_pasts.specs.Stopped.{IsSound as IsEnteringSound};
ghost use Rattle.acc_schedule_runs.specs.Situations.{Situation};
ghost use Rattle.acc_schedule_runs.specs.Schedules.{cluster_of};
ghost use Rattle.acc_schedule_runs.specs.Disks.{Disks};
ghost use Rattle.acc_actors.specs.Slots.{SlotStands, IsStrictSlot};
ghost use Rattle.acc_actors.specs.Asked.{IsFew};
ghost use Rattle.acc_desk.specs.Choices.{HasEntered};
ghost use Rattle.acc_desk.specs.Desks.{IsSoundDesk, IsSoundOrMarked, IsSameDesk, IsToRestart, MarksAtTurn, HasReopened, HasReopenedStrictly};
ghost use Rattle.acc_desk.specs.Outcomes.{HasTurned};
ghost use Rattle.acc_desk.specs.declared.turning.Turned.{Turned as Answer};

use crate::desk::Desk;
use crate::rules::{PlanTape, Planned};
use crate::taking::item_for;
use crate::turning::Turned;
use acc_actors::Slot;
use acc_base::OutOfMemory;
use acc_message::{Emitted, Event, Messages, Notes};
use acc_payloads::Restarted;
use acc_ports::{Gate, Rig};
use acc_schedule::Plan;
use acc_stamp::Actor;
use acc_tape::TapeError;
use std::alloc::Global;
use std::mem;
use std::sync::Wait;

// What a restart emits.
fn silent(alloc: Global) -> Emitted
    ensures { result ≡ silence }
{
    Emitted {
        notes: Notes::new(alloc),
        out: Messages::new(alloc),
    }
}

// The actor opens its disk again in its slot. `None` where the disk failed.
fn reopen<D: Rig + Drop>(
    alloc: Global,
    slot: &mut Slot<D>,
    plan: &Plan,
    actor: Actor,
    choice: u8,
) -> Result<Option<Emitted>, OutOfMemory>
    requires { (s : Situation) × SlotStands D.Disk plan.now s actor slot.old × Contains (actors plan.now.topology) actor }
    ensures ok { IfOk result (λ given. (s : Situation) → IsEnteringSound (cluster_of plan.now) s → IsFew s → SlotStands D.Disk plan.now s actor slot.old
        → HasReopened D.Disk plan.now s actor given slot.new) }
    ensures strict { IfOk result (λ given. (s : Situation) (disks : Disks) → IsEnteringSound (cluster_of plan.now) s → SlotStands D.Disk plan.now s actor slot.old
        → IsStrictSlot D.Disk plan.now s disks actor slot.old
        → HasReopenedStrictly D.Disk plan.now s disks actor given slot.new) }
{
    let (reopened, found) = mem::replace(slot, Slot::Empty).restart(plan, actor, choice);
    *slot = reopened;
    match found? {
        Restarted::Down => Ok(None),
        Restarted::Up { kept } => {
            if !kept.is_empty() {
                return Err(OutOfMemory);
            }
            Ok(Some(silent(alloc)))
        }
    }
}

impl<D: Rig + Drop, J: Planned> Desk<D, J> {
    /// The disk of the actor crashes in the way of the choice, and the actor opens it again.
    pub(crate) fn restart<W: Wait, G: Gate>(
        &mut self,
        rt: &W,
        plan: &Plan,
        tape: &PlanTape<J>,
        gate: &G,
        turn: u64,
        choice: u8,
    ) -> Result<Turned, OutOfMemory>
        requires plan { plan.now ≡ J.plan }
        requires limits { tape.now.limits.items ≤ most_items }
        requires desk { IsSoundDesk D.Disk J.strict plan.now tape.now self.old }
        requires next { IsToRestart self.old }
        ensures same { IsSameDesk self.old self.new }
        ensures ok { OnOk result (IsSoundDesk D.Disk J.strict plan.now tape.now self.new) }
        ensures err { OnErr result (IsSoundOrMarked D.Disk J.strict plan.now tape.now self.new) }
        ensures marked { MarksAtTurn result self.old self.new }
        ensures came { IfOk result (λ turned. HasTurned plan.now tape.now turned self.old self.new) }
        ensures took { result ≡ Ok Answer.Taken → (self.new.gone ≡ self.old.gone + 1) × HasEntered self.old.actor (AnEvent.Restart 0 ∷ []) self.old.seat self.new.seat }
        ensures told { result ≢ Ok Answer.Idle }
    {
        if self.gone >= self.commands.len() {
            return Ok(Turned::Idle);
        }
        gate.enter(self.actor.0, turn);
        match tape.reserve(rt, &mut self.seat, 1, 0) {
            Ok(()) => {}
            Err(TapeError::Full { .. }) => return Ok(Turned::Full),
            Err(TapeError::OutOfMemory) => return Err(OutOfMemory),
        }
        let Ok(given) = reopen(self.alloc, &mut self.slot, plan, self.actor, choice) else {
            tape.release(rt, &mut self.seat, 1, 0);
            self.unsound = true;
            return Err(OutOfMemory);
        };
        let item = item_for(self.actor, Event::Restart { kept: 0 }, given);
        tape.put(rt, &mut self.seat, 1, 0, item);
        self.gone += 1;
        Ok(Turned::Taken)
    }
}
