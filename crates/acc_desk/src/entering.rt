//! What a store staged is settled, and entered.
ghost use Rattle.std.specs.Prelude.{◌≡◌, ◌≢◌, ◌⊎◌, ◌<◌, ◌≤◌, ℕ, List, [], length, map, vec_capacity, OnOk, OnErr};
ghost use Rattle.acc_message.specs.declared.entry.Event.{Event as AnEvent};
ghost use Rattle.acc_message_code.specs.Weight.{weight_of};
ghost use Rattle.acc_schedule_runs.specs.Limits.{most_items};
ghost use Rattle.acc_actors.specs.declared.slot.Slot.{Slot as ASlot};
ghost use Rattle.acc_tape.specs.ItemViews.{actor_of_item};
ghost use Rattle.acc_tape.specs.Seats.{Turns};
ghost use Rattle.acc_desk.specs.Fits.{fits_plan};
ghost use Rattle.acc_desk.specs.Choices.{HasEntered};
ghost use Rattle.acc_desk.specs.Desks.{run_with, no_hold, IsSeated, IsSoundDesk, IsSoundOrMarked, IsAtSameCommand, ChangesSeat, MarksDown, IsDesk, state_of};
ghost use Rattle.acc_desk.specs.Groups.{Joining, events_of, gathered, Gathers, IsStopping, IsEnteringDesk, item_of_unsent};

use crate::desk::Desk;
use crate::floor::Floor;
use crate::hold::Hold;
use crate::rules::{PlanTape, Planned};
use crate::taking::item_for;
use acc_base::OutOfMemory;
use acc_message::Item;
use acc_payloads::{Unsent, Unsents};
use acc_ports::Rig;
use acc_schedule::Plan;
use std::sync::Wait;

impl<D: Rig + Drop, J: Planned> Desk<D, J> {
    /// Appends what is staged, and enters it on what is reserved, by a list that has room for its items. Where the store finds no memory
    /// nothing is entered, and the desk is marked.
    pub(crate) fn settle<W: Wait>(
        &mut self,
        rt: &W,
        plan: &Plan,
        floor: &Floor,
        tape: &PlanTape<J>,
        hold: Hold,
        items: Vec<Item>,
    ) -> Result<(), OutOfMemory>
        requires plan { plan.now ≡ J.plan }
        requires limits { tape.now.limits.items ≤ most_items }
        requires group { (first : ASlot D) × (joinings : List Joining) × (used : ℕ) × (joinings ≢ [])
            × Gathers D.Disk J.strict plan.now tape.now self.old (gathered first joinings used hold) }
        requires room { (items.items ≡ []) × (16 ≤ vec_capacity items) }
        ensures same { IsAtSameCommand self.old self.new }
        ensures ok { OnOk result (IsSoundDesk D.Disk J.strict plan.now tape.now self.new) }
        ensures err { OnErr result (IsSoundOrMarked D.Disk J.strict plan.now tape.now self.new) }
        ensures marked { MarksDown result self.old self.new }
        ensures longer { OnOk result (length self.old.seat.mine < length self.new.seat.mine) }
        ensures entered { OnOk result ((first : ASlot D) (joinings : List Joining) (used : ℕ) → joinings ≢ [] → Gathers D.Disk J.strict plan.now tape.now self.old (gathered first joinings used hold)
            → HasEntered self.old.actor (events_of joinings) self.old.seat self.new.seat) }
    {
        let Ok(given) = self.slot.settle(plan, self.actor) else {
            self.let_go(rt, plan, tape, hold);
            self.unsound = true;
            return Err(OutOfMemory);
        };
        match given {
            Some(unsent) => {
                self.enter_group(rt, plan, floor, tape, hold, unsent, items);
                Ok(())
            }
            None => {
                self.enter_down(rt, plan, tape, hold);
                Ok(())
            }
        }
    }

    // Enters what was settled, all of it at once, by a list that has room for it. It takes no memory.
    fn enter_group<W: Wait>(
        &mut self,
        rt: &W,
        plan: &Plan,
        floor: &Floor,
        tape: &PlanTape<J>,
        hold: Hold,
        unsent: Unsents,
        items: Vec<Item>,
    )
        requires plan { plan.now ≡ J.plan }
        requires limits { tape.now.limits.items ≤ most_items }
        requires group { (events : List AnEvent)
            × IsEnteringDesk D.Disk (run_with J.strict plan.now tape.now) hold (state_of self.old) events unsent }
        requires room { (items.items ≡ []) × (16 ≤ vec_capacity items) }
        ensures same { IsAtSameCommand self.old self.new }
        ensures mark { self.new.unsound ≡ self.old.unsound }
        ensures sound { IsSoundDesk D.Disk J.strict plan.now tape.now self.new }
        ensures longer { unsent ≢ [] → length self.old.seat.mine < length self.new.seat.mine }
        ensures entered { (events : List AnEvent) → IsEnteringDesk D.Disk (run_with J.strict plan.now tape.now) hold (state_of self.old) events unsent
            → HasEntered self.old.actor events self.old.seat self.new.seat }
    {
        let (items, keepers) = self.items_for(floor, unsent, items);
        tape.put_all(rt, &mut self.seat, hold.items, hold.weight, items);
        floor.call(keepers);
    }

    // Puts the items of what is unsent into a list that has room for them. Counts what is sent, and answers the list and the bits of the
    // workers that are to be called once it is entered.
    fn items_for(&self, floor: &Floor, unsent: Unsents, items: Vec<Item>) -> (Vec<Item>, u64)
        requires { (items.items ≡ []) × (length unsent ≤ vec_capacity items) }
        ensures { result.0.items ≡ map (item_of_unsent self.now.actor) unsent }
    {
        let mut items = items;
        let mut keepers = 0;
        for one in unsent.into_vec() {
            let Unsent { event, emitted } = one;
            keepers |= floor.send(emitted.out.as_slice());
            items.push_reserved(item_for(self.actor, event, Some(emitted)));
        }
        (items, keepers)
    }

    // Enters that the store went down, on what is reserved.
    fn enter_down<W: Wait>(&mut self, rt: &W, plan: &Plan, tape: &PlanTape<J>, hold: Hold)
        requires plan { plan.now ≡ J.plan }
        requires limits { tape.now.limits.items ≤ most_items }
        requires group { (first : ASlot D) × (joinings : List Joining)
            × IsStopping D.Disk (run_with J.strict plan.now tape.now) (state_of self.old) first joinings hold }
        ensures same { IsAtSameCommand self.old self.new }
        ensures mark { self.new.unsound ≡ self.old.unsound }
        ensures sound { IsSoundDesk D.Disk J.strict plan.now tape.now self.new }
        ensures longer { length self.old.seat.mine < length self.new.seat.mine }
        ensures entered { (events : List AnEvent) → HasEntered self.old.actor events self.old.seat self.new.seat }
    {
        let down = Item::Down { actor: self.actor };
        tape.put(rt, &mut self.seat, hold.items, hold.weight, down);
    }

    /// Gives up what is reserved.
    pub(crate) fn let_go<W: Wait>(&mut self, rt: &W, plan: &Plan, tape: &PlanTape<J>, hold: Hold)
        requires plan { plan.now ≡ J.plan }
        requires limits { tape.now.limits.items ≤ most_items }
        requires seated { IsSeated tape.now self.old.actor hold self.old.seat }
        ensures same { ChangesSeat self.old self.new }
        ensures mine { self.new.seat.mine ≡ self.old.seat.mine }
        ensures still { hold ≡ no_hold → self.new.seat ≡ self.old.seat }
        ensures seated { IsSeated tape.now self.new.actor no_hold self.new.seat }
        ensures on { hold ≡ no_hold ⊎ Turns actor_of_item weight_of (fits_plan J.plan) self.old.seat self.new.seat }
        ensures sound { IsDesk D.Disk (run_with J.strict plan.now tape.now) hold (state_of self.old)
            → IsSoundDesk D.Disk J.strict plan.now tape.now self.new }
    {
        if hold.items > 0 || hold.weight > 0 {
            tape.release(rt, &mut self.seat, hold.items, hold.weight);
        }
    }
}
