//! Turns.
ghost use Rattle.std.specs.Prelude.{◌≡◌, ◌≢◌, ◌⊎◌, ◌+◌, ◌≤◌, take, Ok, IfOk, OnOk, OnErr, Some, true, false};
ghost use mathlib.Core.List.{IsPrefix};
ghost use Rattle.std.specs.Option.{option_copied};
ghost use Rattle.acc_stamp.specs.declared.actors.Actor.{Actor as AnActor};
ghost use Rattle.std.specs.List.{slice_get};
ghost use Rattle.acc_message.specs.Run.{is_node, is_down};
ghost use Rattle.acc_schedule.specs.Content.{Content};
ghost use Rattle.acc_schedule.specs.declared.plan.Step.{Step as AStep};
ghost use Rattle.acc_schedule_runs.specs.Situations.{Situation};
ghost use Rattle.acc_schedule_runs.specs.Limits.{most_items};
ghost use Rattle.acc_actors.specs.Slots.{SlotStands};
ghost use Rattle.acc_tape.specs.Seats.{TapeName};
ghost use Rattle.acc_desk.specs.Choices.{NoneAtOnce, HasTakenCommand, HasTakenNext, HasTakenMessages, HasTaken};
ghost use Rattle.acc_desk.specs.Desks.{newest, IsSoundDesk, IsSoundOrMarked, IsUp, IsSameDesk, MarksDown, MarksAtTurn};
ghost use Rattle.acc_desk.specs.Outcomes.{HasTurned, IsTakenAtOnce};
ghost use Rattle.acc_desk.specs.declared.turning.Turned.{Turned as Answer};

use crate::ask::Ask;
use crate::desk::Desk;
use crate::floor::Floor;
use crate::rules::{PlanTape, Planned};
use acc_actors::Slot;
use acc_base::OutOfMemory;
use acc_ports::{Gate, Rig};
use acc_schedule::{Plan, Step};
use acc_topology::sets::contains;
use acc_txn::Body;
use std::sync::Wait;

/// What a turn came to.
#[derive(Clone, Copy, Debug, PartialEq, Eq)]
pub enum Turned {
    /// The desk entered an item or more.
    Taken,
    /// The desk entered nothing, and no command went by.
    Idle,
    /// The desk entered nothing, as the tape has no room.
    Full,
}

// The command at a place.
fn command_at(commands: &[Step], place: usize) -> Option<Step>
    ensures { result ≡ slice_get commands.now place }
{
    commands.get(place).copied()
}

// The node of a transaction.
fn home_of(plan: &Plan, txn: u32) -> Option<u32>
    ensures { result ≡ slice_get plan.now.homes txn }
{
    plan.homes.as_slice().get(txn as usize).copied()
}

// The body of a transaction.
fn body_of(plan: &Plan, txn: u32) -> Option<&Body>
    ensures { option_copied result ≡ slice_get plan.now.bodies txn }
{
    plan.bodies.as_slice().get(txn as usize)
}

// Whether a store stands in the slot.
fn is_store<D: Rig>(slot: &Slot<D>) -> bool
    ensures store { result ≡ true → (plan : Content) (s : Situation) (a : AnActor) → SlotStands D.Disk plan s a slot.now → is_node a ≡ false }
    ensures node { result ≡ false → (plan : Content) (s : Situation) (a : AnActor) → SlotStands D.Disk plan s a slot.now → is_node a ≡ true }
{
    match slot {
        Slot::Store(_) => true,
        Slot::Empty | Slot::Node(_) => false,
    }
}

impl<D: Rig + Drop, J: Planned> Desk<D, J> {
    /// Takes the actor's next command if it can be taken, else its oldest message, and a store up to sixteen. Where memory is refused the
    /// desk keeps its seat, which holds nothing reserved, and stays sound unless its actor's journal broke by it, or it was opening its disk
    /// again: then the desk is marked, and its actor may stand for nothing any more. It waits where the tape is taken.
    pub fn turn<W: Wait, G: Gate>(
        &mut self,
        rt: &W,
        plan: &Plan,
        floor: &Floor,
        tape: &PlanTape<J>,
        gate: &G,
        turn: u64,
    ) -> Result<Turned, OutOfMemory>
        requires plan { plan.now ≡ J.plan }
        requires limits { tape.now.limits.items ≤ most_items }
        requires desk { IsSoundDesk D.Disk J.strict plan.now tape.now self.old }
        ensures same { IsSameDesk self.old self.new }
        ensures ok { OnOk result (IsSoundDesk D.Disk J.strict plan.now tape.now self.new) }
        ensures err { OnErr result (IsSoundOrMarked D.Disk J.strict plan.now tape.now self.new) }
        ensures marked { MarksAtTurn result self.old self.new }
        ensures up { result ≢ Ok Answer.Idle → IsUp self.old }
        ensures came { IfOk result (λ turned. HasTurned plan.now tape.now turned self.old self.new) }
        ensures waits { result ≡ Ok Answer.Idle → IsUp self.old → NoneAtOnce plan.now self.old.commands self.old.gone }
        ensures took { result ≡ Ok Answer.Taken → HasTaken plan.now self.old self.new }
    {
        match self.command(rt, plan, floor, tape, gate, turn)? {
            Turned::Idle => self.message(rt, plan, floor, tape, gate, turn),
            Turned::Taken => Ok(Turned::Taken),
            Turned::Full => Ok(Turned::Full),
        }
    }

    // Whether the actor is down.
    fn is_down(&self) -> bool
        ensures { (plan : Content) (tape : TapeName) → IsSoundDesk D.Disk J.strict plan tape self.now
            → result ≡ is_down self.now.actor (newest self.now.seat) }
    {
        self.slot.is_down()
    }

    // Whether the tape has to be asked for a message.
    pub(crate) fn has_mail(&self, floor: &Floor) -> bool {
        !self.slot.is_down() && floor.sent_to(self.actor) != self.taken
    }

    /// Whether the actor recovers any transaction.
    pub(crate) fn recovers(&self) -> bool {
        for command in self.commands.as_slice() {
            if let Step::Recover { .. } = command {
                return true;
            }
        }
        false
    }

    // The next command, if it can be taken.
    fn command<W: Wait, G: Gate>(
        &mut self,
        rt: &W,
        plan: &Plan,
        floor: &Floor,
        tape: &PlanTape<J>,
        gate: &G,
        turn: u64,
    ) -> Result<Turned, OutOfMemory>
        requires plan { plan.now ≡ J.plan }
        requires limits { tape.now.limits.items ≤ most_items }
        requires desk { IsSoundDesk D.Disk J.strict plan.now tape.now self.old }
        ensures same { IsSameDesk self.old self.new }
        ensures ok { OnOk result (IsSoundDesk D.Disk J.strict plan.now tape.now self.new) }
        ensures err { OnErr result (IsSoundOrMarked D.Disk J.strict plan.now tape.now self.new) }
        ensures marked { MarksAtTurn result self.old self.new }
        ensures came { IfOk result (λ turned. HasTurned plan.now tape.now turned self.old self.new) }
        ensures waits { result ≡ Ok Answer.Idle → IsUp self.old → NoneAtOnce plan.now self.old.commands self.old.gone }
        ensures seen { result ≡ Ok Answer.Idle → IsPrefix self.old.seat.seen self.new.seat.seen }
        ensures up { (result ≢ Ok Answer.Idle) ⊎ IsUp self.new → IsUp self.old }
        ensures took { result ≡ Ok Answer.Taken → HasTakenNext self.old self.new }
    {
        if self.is_down() {
            return Ok(Turned::Idle);
        }
        match command_at(self.commands.as_slice(), self.gone) {
            Some(Step::Begin { txn }) => self.begin(rt, plan, floor, tape, gate, turn, txn),
            Some(Step::Recover { txn, node }) => {
                self.recover(rt, plan, floor, tape, gate, turn, txn, node)
            }
            Some(Step::Restart { actor: _, choice }) => {
                self.restart(rt, plan, tape, gate, turn, choice)
            }
            _ => Ok(Turned::Idle),
        }
    }

    // Begins a transaction.
    fn begin<W: Wait, G: Gate>(
        &mut self,
        rt: &W,
        plan: &Plan,
        floor: &Floor,
        tape: &PlanTape<J>,
        gate: &G,
        turn: u64,
        txn: u32,
    ) -> Result<Turned, OutOfMemory>
        requires plan { plan.now ≡ J.plan }
        requires limits { tape.now.limits.items ≤ most_items }
        requires desk { IsSoundDesk D.Disk J.strict plan.now tape.now self.old }
        requires up { IsUp self.old }
        requires next { slice_get self.old.commands self.old.gone ≡ Some (AStep.Begin txn) }
        ensures same { IsSameDesk self.old self.new }
        ensures ok { OnOk result (IsSoundDesk D.Disk J.strict plan.now tape.now self.new) }
        ensures err { OnErr result (IsSoundOrMarked D.Disk J.strict plan.now tape.now self.new) }
        ensures marked { MarksDown result self.old self.new }
        ensures came { IfOk result (λ turned. HasTurned plan.now tape.now turned self.old self.new) }
        ensures waits { result ≡ Ok Answer.Idle → ¬ IsTakenAtOnce plan.now (take self.old.gone self.old.commands) (AStep.Begin txn) }
        ensures seen { result ≡ Ok Answer.Idle → self.new.seat ≡ self.old.seat }
        ensures took { result ≡ Ok Answer.Taken → HasTakenCommand (AStep.Begin txn) self.old self.new }
    {
        let Some(home) = home_of(plan, txn) else {
            return Ok(Turned::Idle);
        };
        let Some(body) = body_of(plan, txn) else {
            return Ok(Turned::Idle);
        };
        if self.commands.is_begun_before(self.gone, txn) {
            return Ok(Turned::Idle);
        }
        let ask = Ask::Begin { txn, body };
        self.take(rt, plan, floor, tape, gate, turn, ask, self.gone + 1)
    }

    // Takes a transaction over, once it is begun.
    fn recover<W: Wait, G: Gate>(
        &mut self,
        rt: &W,
        plan: &Plan,
        floor: &Floor,
        tape: &PlanTape<J>,
        gate: &G,
        turn: u64,
        txn: u32,
        node: u32,
    ) -> Result<Turned, OutOfMemory>
        requires plan { plan.now ≡ J.plan }
        requires limits { tape.now.limits.items ≤ most_items }
        requires desk { IsSoundDesk D.Disk J.strict plan.now tape.now self.old }
        requires next { slice_get self.old.commands self.old.gone ≡ Some (AStep.Recover txn node) }
        ensures same { IsSameDesk self.old self.new }
        ensures ok { OnOk result (IsSoundDesk D.Disk J.strict plan.now tape.now self.new) }
        ensures err { OnErr result (IsSoundOrMarked D.Disk J.strict plan.now tape.now self.new) }
        ensures marked { MarksDown result self.old self.new }
        ensures came { IfOk result (λ turned. HasTurned plan.now tape.now turned self.old self.new) }
        ensures seen { result ≡ Ok Answer.Idle → IsPrefix self.old.seat.seen self.new.seat.seen }
        ensures took { result ≡ Ok Answer.Taken → HasTakenCommand (AStep.Recover txn node) self.old self.new }
    {
        let Some(body) = body_of(plan, txn) else {
            return Ok(Turned::Idle);
        };
        if !contains(plan.topology.nodes(), node) {
            return Ok(Turned::Idle);
        }
        let Some(id) = self.look(rt, plan, tape, txn)? else {
            return Ok(Turned::Idle);
        };
        if self.is_down() {
            return Ok(Turned::Idle);
        }
        if self.gone >= self.commands.len() {
            return Ok(Turned::Idle);
        }
        self.looked = 0;
        let ask = Ask::Recover { txn, id, body };
        self.take(rt, plan, floor, tape, gate, turn, ask, self.gone + 1)
    }

    // Takes the oldest message to the actor, and a store some more.
    fn message<W: Wait, G: Gate>(
        &mut self,
        rt: &W,
        plan: &Plan,
        floor: &Floor,
        tape: &PlanTape<J>,
        gate: &G,
        turn: u64,
    ) -> Result<Turned, OutOfMemory>
        requires plan { plan.now ≡ J.plan }
        requires limits { tape.now.limits.items ≤ most_items }
        requires desk { IsSoundDesk D.Disk J.strict plan.now tape.now self.old }
        ensures same { IsSameDesk self.old self.new }
        ensures ok { OnOk result (IsSoundDesk D.Disk J.strict plan.now tape.now self.new) }
        ensures err { OnErr result (IsSoundOrMarked D.Disk J.strict plan.now tape.now self.new) }
        ensures marked { MarksDown result self.old self.new }
        ensures up { result ≢ Ok Answer.Idle → IsUp self.old }
        ensures came { IfOk result (λ turned. HasTurned plan.now tape.now turned self.old self.new) }
        ensures took { result ≡ Ok Answer.Taken → HasTakenMessages self.old self.new }
    {
        if self.is_down() {
            return Ok(Turned::Idle);
        }
        if !self.has_mail(floor) {
            return Ok(Turned::Idle);
        }
        if is_store(&self.slot) {
            self.group(rt, plan, floor, tape, gate, turn)
        } else {
            self.one_message(rt, plan, floor, tape, gate, turn)
        }
    }

    // Takes the oldest message to the actor.
    fn one_message<W: Wait, G: Gate>(
        &mut self,
        rt: &W,
        plan: &Plan,
        floor: &Floor,
        tape: &PlanTape<J>,
        gate: &G,
        turn: u64,
    ) -> Result<Turned, OutOfMemory>
        requires plan { plan.now ≡ J.plan }
        requires limits { tape.now.limits.items ≤ most_items }
        requires desk { IsSoundDesk D.Disk J.strict plan.now tape.now self.old }
        ensures same { IsSameDesk self.old self.new }
        ensures ok { OnOk result (IsSoundDesk D.Disk J.strict plan.now tape.now self.new) }
        ensures err { OnErr result (IsSoundOrMarked D.Disk J.strict plan.now tape.now self.new) }
        ensures marked { MarksDown result self.old self.new }
        ensures came { IfOk result (λ turned. HasTurned plan.now tape.now turned self.old self.new) }
        ensures took { result ≡ Ok Answer.Taken → HasTakenMessages self.old self.new }
    {
        let mut found = Vec::with_capacity(self.alloc, 1)?;
        tape.collect(rt, &mut self.seat, self.actor.0, &mut found)?;
        let Some((post, message)) = found.first() else {
            return Ok(Turned::Idle);
        };
        if self.is_down() {
            return Ok(Turned::Idle);
        }
        self.taken = self.taken.wrapping_add(1);
        let number = post.number;
        let ask = Ask::Message { number, message };
        self.take(rt, plan, floor, tape, gate, turn, ask, self.gone)
    }
}
