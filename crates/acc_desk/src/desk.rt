//! Desks.
ghost use Rattle.std.specs.Prelude.{◌≡◌, ◌≢◌, ◌≤◌, true, false, [], Contains};
ghost use Rattle.acc_schedule.specs.Actors.{actors};
ghost use Rattle.acc_schedule_runs.specs.Limits.{most_items};
ghost use Rattle.acc_schedule_runs.specs.Disks.{fresh_disks};
ghost use Rattle.acc_actors.specs.Slots.{SlotStands, IsStrictSlot};
ghost use Rattle.acc_free_laws.specs.Commands.{commands_of};
ghost use Rattle.acc_free_laws.specs.FreeRun.{alone};
ghost use Rattle.acc_free_laws.specs.Serving.{IsServing};
ghost use Rattle.acc_desk.specs.Desks.{IsSoundDesk};

use crate::commands::Commands;
use crate::rules::{PlanRules, PlanTape, Planned};
use acc_actors::Slot;
use acc_base::Sequence;
use acc_message::Item;
use acc_ports::Rig;
use acc_schedule::{Plan, Steps};
use acc_stamp::Actor;
use acc_tape::Seat;
use std::alloc::Global;
use std::sync::Wait;

// So many bytes at least are reserved ahead for each further message of a group.
const USUAL: u64 = 256;

/// An actor of a plan in its slot, with its seat at the plan's tape and its commands: the steps of the plan's schedule that it takes
/// by itself.
#[derive(Drop)]
pub struct Desk<D: Rig, J: Planned> {
    pub(crate) alloc: Global,
    pub(crate) actor: Actor,
    pub(crate) seat: Seat<Item, PlanRules<J>>,
    pub(crate) slot: Slot<D>,
    pub(crate) commands: Commands,
    /// How many commands went by.
    pub(crate) gone: usize,
    /// So many items, of those that the seat has seen, don't begin the transaction that the next command recovers.
    pub(crate) looked: u64,
    /// How many messages the actor took. Nothing is said of it.
    pub(crate) taken: u64,
    /// So many bytes are reserved ahead for each further message of a group: the most that the first message of one took so far, within
    /// bounds. Nothing is said of it.
    pub(crate) usual: u64,
    /// Memory was refused while the actor stepped, and its journal broke or it was opening its disk again: it may stand for nothing any
    /// more.
    pub(crate) unsound: bool,
}

/// Desks in the order of their actors.
pub type Desks<D, J> = Vec<Desk<D, J>>;

/// A desk in its parts.
#[derive(Drop)]
pub struct Parts<D: Rig, J: Planned> {
    pub actor: Actor,
    pub seat: Seat<Item, PlanRules<J>>,
    pub slot: Slot<D>,
    pub commands: Steps,
    /// How many commands went by.
    pub gone: usize,
}

impl<D: Rig + Drop, J: Planned> Desk<D, J> {
    /// The desk of an actor that has done nothing, with all its commands. It takes a turn at the tape, and waits where the tape is taken.
    pub fn new<W: Wait>(
        rt: &W,
        alloc: Global,
        plan: &Plan,
        tape: &PlanTape<J>,
        actor: Actor,
        seat: Seat<Item, PlanRules<J>>,
        slot: Slot<D>,
        commands: Steps,
    ) -> Desk<D, J>
        requires plan { plan.now ≡ J.plan }
        requires limits { tape.now.limits.items ≤ most_items }
        requires known { Contains (actors plan.now.topology) actor }
        requires seat { (seat.tape ≡ tape.now) × (seat.actor ≡ actor.0) × (seat.actor ≢ 0) × (seat.mine ≡ []) × (seat.held_items ≡ 0) × (seat.held_weight ≡ 0) }
        requires serving { IsServing plan.now (alone [] []) }
        requires slot { SlotStands D.Disk plan.now (alone [] []) actor slot }
        requires strict { J.strict ≡ true → IsStrictSlot D.Disk plan.now (alone [] []) fresh_disks actor slot }
        requires commands { commands ≡ commands_of plan.now actor }
        ensures same { (result.actor ≡ actor) × (result.commands ≡ commands) × (result.gone ≡ 0) }
        ensures sound { IsSoundDesk D.Disk J.strict plan.now tape.now result }
        ensures unmarked { result.unsound ≡ false }
    {
        let mut seat = seat;
        let _next = tape.next_for(rt, &mut seat, actor.0);
        Desk {
            alloc,
            actor,
            seat,
            slot,
            commands: Commands::new(commands),
            gone: 0,
            looked: 0,
            taken: 0,
            usual: USUAL,
            unsound: false,
        }
    }

    /// Whether memory was refused while the actor stepped, and its journal broke or it was opening its disk again. Such a desk has only its
    /// seat for certain.
    pub fn is_marked(&self) -> bool
        ensures { result ≡ self.now.unsound }
    {
        self.unsound
    }

    /// Its parts.
    pub fn into_parts(self) -> Parts<D, J>
        ensures { (result.actor ≡ self.actor) × (result.seat ≡ self.seat) × (result.slot ≡ self.slot) × (result.commands ≡ self.commands) × (result.gone ≡ self.gone) }
    {
        let Desk {
            alloc: _,
            actor,
            seat,
            slot,
            commands,
            gone,
            looked: _,
            taken: _,
            usual: _,
            unsound: _,
        } = self;
        Parts {
            actor,
            seat,
            slot,
            commands: commands.into_steps(),
            gone,
        }
    }
}
