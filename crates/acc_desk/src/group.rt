//! A store takes its oldest messages as a group, with one append.
ghost use Rattle.std.specs.Prelude.{◌≡◌, ◌≢◌, ℕ, ◌+◌, ◌<◌, ◌≤◌, List, [], ◌∷◌, ◌++◌, length, map, take, drop, vec_capacity, true, false, Ok, Some, IfOk, OnOk, OnErr, MatchOption, sum_by};
ghost use mathlib.Core.List.{IsPrefix};
ghost use Rattle.acc_message.specs.declared.item.Item.{Item as AnItem};
ghost use Rattle.acc_message.specs.declared.error.Which.{Which};
ghost use Rattle.acc_message.specs.Run.{is_node};
ghost use Rattle.acc_message_code.specs.Weight.{weight_of};
ghost use Rattle.acc_schedule_runs.specs.Limits.{most_items};
ghost use Rattle.acc_actors.specs.declared.slot.Slot.{Slot as ASlot};
ghost use Rattle.acc_tape.specs.ItemViews.{actor_of_item};
ghost use Rattle.acc_tape.specs.Seats.{Turns};
ghost use Rattle.acc_tape.specs.Refusals.{Refuses};
ghost use Rattle.acc_tape.specs.declared.error.TapeError.TheVariants.{Full as IsFull};
ghost use Rattle.acc_desk.specs.Fits.{fits_plan};
ghost use Rattle.acc_desk.specs.Choices.{HasEntered, HasTakenMessages};
ghost use Rattle.acc_desk.specs.Desks.{newest, held_of, no_hold, IsSoundDesk, IsSoundOrMarked, IsUp, IsSameDesk, IsAtSameCommand, ChangesSlot, MarksDown};
ghost use Rattle.acc_desk.specs.Groups.{Joining, events_of, joining, CanJoin, CanAllJoin, joining_of, gathered, Gathers, GathersMore};
ghost use Rattle.acc_desk.specs.Outcomes.{HasTurned, HasNoRoom};
ghost use Rattle.acc_desk.specs.declared.group.Ended.{Ended as AnEnd};
ghost use Rattle.acc_desk.specs.declared.turning.Turned.{Turned as Answer};

use crate::desk::Desk;
use crate::floor::Floor;
use crate::hold::Hold;
use crate::rules::{PlanRules, PlanTape, Planned};
use crate::turning::Turned;
use acc_base::OutOfMemory;
use acc_message::{Item, Message};
use acc_ports::{Gate, Rig};
use acc_schedule::Plan;
use acc_tape::{Post, Seat, TapeError};
use std::sync::Wait;

// The most messages of a group.
const MOST: usize = 16;

// So many bytes at most are reserved ahead for each further message of a group.
const MOST_AHEAD: u64 = 4096;

// What a desk holds that has nothing reserved.
const NOTHING: Hold = Hold {
    items: 0,
    weight: 0,
};

// Why a gathering ended: nothing more was found or fits into what is reserved, the tape has no room, or memory was refused.
#[derive(Clone, Copy)]
enum Ended {
    Dry,
    Full,
    Refused,
}

// Reserves an item for each of so many messages, with so many bytes for the first one and the usual ones for each other, or for the first
// alone. `None` where the tape has no room for that either. After an error nothing is reserved.
fn reserve<W: Wait, J: Planned>(
    rt: &W,
    tape: &PlanTape<J>,
    seat: &mut Seat<Item, PlanRules<J>>,
    count: usize,
    weight: u64,
    usual: u64,
) -> Result<Option<Hold>, OutOfMemory>
    requires tape { seat.old.tape ≡ tape.now }
    requires actor { seat.old.actor ≢ 0 }
    requires none { held_of seat.old ≡ no_hold }
    requires some { 0 < count }
    ensures mine { seat.new.mine ≡ seat.old.mine }
    ensures on { Turns actor_of_item weight_of (fits_plan J.plan) seat.old seat.new }
    ensures ok { IfOk result (λ reserved. MatchOption reserved
        ((held_of seat.new ≡ no_hold) × ((which : Which) × (number : ℕ) × Refuses tape.now.limits (length seat.new.seen + seat.new.out_count) (sum_by weight_of seat.new.seen + seat.new.out_weight) 1 weight (IsFull which number)))
        (λ hold. (held_of seat.new ≡ hold) × (0 < hold.items) × (hold.items ≤ count) × (weight ≤ hold.weight))) }
    ensures err { OnErr result (held_of seat.new ≡ no_hold) }
{
    let ahead = (count as u64 - 1).saturating_mul(usual);
    let hold = Hold {
        items: count as u64,
        weight: weight.saturating_add(ahead),
    };
    match tape.reserve(rt, seat, hold.items, hold.weight) {
        Ok(()) => return Ok(Some(hold)),
        Err(TapeError::OutOfMemory) => return Err(OutOfMemory),
        Err(TapeError::Full { .. }) => {}
    }
    let hold = Hold { items: 1, weight };
    match tape.reserve(rt, seat, hold.items, hold.weight) {
        Ok(()) => Ok(Some(hold)),
        Err(TapeError::OutOfMemory) => Err(OutOfMemory),
        Err(TapeError::Full { .. }) => Ok(None),
    }
}

impl<D: Rig + Drop, J: Planned> Desk<D, J> {
    /// Takes the oldest messages to the store, up to sixteen, with one append. Where memory for one more is refused, those that are
    /// staged are settled and entered before it is told. All memory for entering them is taken before they are journalled.
    pub(crate) fn group<W: Wait, G: Gate>(
        &mut self,
        rt: &W,
        plan: &Plan,
        floor: &Floor,
        tape: &PlanTape<J>,
        gate: &G,
        turn: u64,
    ) -> Result<Turned, OutOfMemory>
        requires plan { plan.now ≡ J.plan }
        requires limits { tape.now.limits.items ≤ most_items }
        requires desk { IsSoundDesk D.Disk J.strict plan.now tape.now self.old }
        requires kind { is_node self.old.actor ≡ false }
        requires up { IsUp self.old }
        ensures same { IsSameDesk self.old self.new }
        ensures ok { OnOk result (IsSoundDesk D.Disk J.strict plan.now tape.now self.new) }
        ensures err { OnErr result (IsSoundOrMarked D.Disk J.strict plan.now tape.now self.new) }
        ensures marked { MarksDown result self.old self.new }
        ensures came { IfOk result (λ turned. HasTurned plan.now tape.now turned self.old self.new) }
        ensures took { result ≡ Ok Answer.Taken → HasTakenMessages self.old self.new }
    {
        let mut found = Vec::with_capacity(self.alloc, MOST)?;
        tape.collect(rt, &mut self.seat, self.actor.0, &mut found)?;
        if found.is_empty() {
            return Ok(Turned::Idle);
        }
        let items = Vec::with_capacity(self.alloc, MOST)?;
        gate.enter(self.actor.0, turn);
        let (staged, hold, ended) = self.gather(rt, plan, tape, found.as_slice());
        let turned = self.finish(rt, plan, floor, tape, hold, staged, items)?;
        match ended {
            Ended::Dry => Ok(turned),
            Ended::Full => Ok(Turned::Full),
            Ended::Refused => Err(OutOfMemory),
        }
    }

    // Settles so many staged messages and enters them, however the gathering ended.
    fn finish<W: Wait>(
        &mut self,
        rt: &W,
        plan: &Plan,
        floor: &Floor,
        tape: &PlanTape<J>,
        hold: Hold,
        staged: usize,
        items: Vec<Item>,
    ) -> Result<Turned, OutOfMemory>
        requires plan { plan.now ≡ J.plan }
        requires limits { tape.now.limits.items ≤ most_items }
        requires group { (first : ASlot D) × (joinings : List Joining) × (used : ℕ) × (length joinings ≡ staged)
            × Gathers D.Disk J.strict plan.now tape.now self.old (gathered first joinings used hold) }
        requires room { (items.items ≡ []) × (16 ≤ vec_capacity items) }
        ensures same { IsAtSameCommand self.old self.new }
        ensures ok { OnOk result (IsSoundDesk D.Disk J.strict plan.now tape.now self.new) }
        ensures err { OnErr result (IsSoundOrMarked D.Disk J.strict plan.now tape.now self.new) }
        ensures marked { MarksDown result self.old self.new }
        ensures some { OnOk result (staged ≢ 0 → length self.old.seat.mine < length self.new.seat.mine) }
        ensures took { result ≡ Ok Answer.Taken → (staged ≢ 0) × ((first : ASlot D) (joinings : List Joining) (used : ℕ) → length joinings ≡ staged → Gathers D.Disk J.strict plan.now tape.now self.old (gathered first joinings used hold)
            → HasEntered self.old.actor (events_of joinings) self.old.seat self.new.seat) }
        ensures none { staged ≡ 0 → hold ≡ no_hold → self.new.seat ≡ self.old.seat }
        ensures came { IfOk result (λ turned. HasTurned plan.now tape.now turned self.old self.new) }
    {
        if staged == 0 {
            self.let_go(rt, plan, tape, hold);
            return Ok(Turned::Idle);
        }
        self.settle(rt, plan, floor, tape, hold, items)?;
        self.taken = self.taken.wrapping_add(staged as u64);
        Ok(Turned::Taken)
    }

    // Stages messages that were found, the first of them where the tape has room for what the store sends for it, and the others as long as
    // that fits into what was reserved with it. Answers how many it staged, and what is reserved.
    fn gather<W: Wait>(
        &mut self,
        rt: &W,
        plan: &Plan,
        tape: &PlanTape<J>,
        found: &[(Post, Message)],
    ) -> (usize, Hold, Ended)
        requires plan { plan.now ≡ J.plan }
        requires limits { tape.now.limits.items ≤ most_items }
        requires desk { IsSoundDesk D.Disk J.strict plan.now tape.now self.old }
        requires kind { is_node self.old.actor ≡ false }
        requires up { IsUp self.old }
        requires found { CanAllJoin plan.now (newest self.old.seat) self.old.actor (drop self.old.gone self.old.commands) (map joining_of found.now) }
        ensures same { IsAtSameCommand self.old self.new }
        ensures mark { self.new.unsound ≡ self.old.unsound }
        ensures mine { self.new.seat.mine ≡ self.old.seat.mine }
        ensures seen { result.0 ≢ 0 → IsPrefix self.old.seat.seen self.new.seat.seen }
        ensures full { result.2 ≡ AnEnd.Full → (result.0 ≡ 0) × (result.1 ≡ no_hold) × HasNoRoom plan.now tape.now self.new.actor (drop self.new.gone self.new.commands) self.new.seat }
        ensures gathering { (used : ℕ) × (length (take result.0 (map joining_of found.now)) ≡ result.0)
            × Gathers D.Disk J.strict plan.now tape.now self.new (gathered self.old.slot (take result.0 (map joining_of found.now)) used result.1) }
    {
        let Some((post, message)) = found.first() else {
            return (0, NOTHING, Ended::Dry);
        };
        match self.join_first(rt, plan, tape, found.len(), post.number, message) {
            Ok(Some((used, hold))) => {
                let (staged, ended) = self.join_others(plan, tape, found, used, hold);
                (staged, hold, ended)
            }
            Ok(None) => (0, NOTHING, Ended::Full),
            Err(_) => (0, NOTHING, Ended::Refused),
        }
    }

    // Stages the first message, where the tape has room for what the store sends for it. Answers how much that weighs, and what was
    // reserved for so many messages, or `None` where there is no room. After an error nothing is reserved.
    fn join_first<W: Wait>(
        &mut self,
        rt: &W,
        plan: &Plan,
        tape: &PlanTape<J>,
        count: usize,
        number: u64,
        message: &Message,
    ) -> Result<Option<(u64, Hold)>, OutOfMemory>
        requires plan { plan.now ≡ J.plan }
        requires limits { tape.now.limits.items ≤ most_items }
        requires some { 0 < count }
        requires group { CanJoin plan.now (newest self.old.seat) self.old.actor (drop self.old.gone self.old.commands) (joining number message.now)
            × Gathers D.Disk J.strict plan.now tape.now self.old (gathered self.old.slot [] 0 no_hold) }
        ensures same { IsAtSameCommand self.old self.new }
        ensures mark { self.new.unsound ≡ self.old.unsound }
        ensures mine { self.new.seat.mine ≡ self.old.seat.mine }
        ensures on { OnOk result (Turns actor_of_item weight_of (fits_plan J.plan) self.old.seat self.new.seat) }
        ensures ok { IfOk result (λ joined. MatchOption joined
            (Gathers D.Disk J.strict plan.now tape.now self.new (gathered self.old.slot [] 0 no_hold) × HasNoRoom plan.now tape.now self.new.actor (drop self.new.gone self.new.commands) self.new.seat)
            (λ pair. Gathers D.Disk J.strict plan.now tape.now self.new (gathered self.old.slot (joining number message.now ∷ []) pair.0 pair.1))) }
        ensures err { OnErr result (Gathers D.Disk J.strict plan.now tape.now self.new (gathered self.old.slot [] 0 no_hold)) }
    {
        let (weight, prepared) = self.slot.prepare(plan, self.actor, number, message)?;
        let Some(hold) = reserve(rt, tape, &mut self.seat, count, weight, self.usual)? else {
            return Ok(None);
        };
        let staged = self.slot.stage(plan, self.actor, number, message, prepared);
        if staged.is_err() {
            self.let_go(rt, plan, tape, hold);
            return Err(OutOfMemory);
        }
        Ok(Some((weight, hold)))
    }

    // Stages the messages after the first one that were found, as long as what the store sends for them fits into what is reserved.
    fn join_others(
        &mut self,
        plan: &Plan,
        tape: &PlanTape<J>,
        found: &[(Post, Message)],
        used: u64,
        hold: Hold,
    ) -> (usize, Ended)
        requires plan { plan.now ≡ J.plan }
        requires limits { tape.now.limits.items ≤ most_items }
        requires some { 0 < length found.now }
        requires found { CanAllJoin plan.now (newest self.old.seat) self.old.actor (drop self.old.gone self.old.commands) (map joining_of found.now) }
        requires group { (first : ASlot D) × Gathers D.Disk J.strict plan.now tape.now self.old (gathered first (take 1 (map joining_of found.now)) used hold) }
        ensures same { ChangesSlot self.old self.new }
        ensures ended { result.1 ≢ AnEnd.Full }
        ensures count { (0 < result.0) × (result.0 ≤ length found.now) }
        ensures gathering { (first : ASlot D) → Gathers D.Disk J.strict plan.now tape.now self.old (gathered first (take 1 (map joining_of found.now)) used hold)
            → (now : ℕ) × Gathers D.Disk J.strict plan.now tape.now self.new (gathered first (take result.0 (map joining_of found.now)) now hold) }
    {
        let mut used = used;
        self.usual = self.usual.max(used.min(MOST_AHEAD));
        for place in 1..found.len() {
            if place as u64 >= hold.items {
                return (place, Ended::Dry);
            }
            let (post, message) = &found[place];
            match self.join_next(plan, tape, post.number, message, used, hold) {
                Ok(Some(more)) => used = more,
                Ok(None) => return (place, Ended::Dry),
                Err(_) => return (place, Ended::Refused),
            }
        }
        (found.len(), Ended::Dry)
    }

    // Stages a message after those that are staged, where what the store sends for it fits into what is reserved. Answers how much all
    // weighs then, or `None` where it doesn't fit.
    fn join_next(
        &mut self,
        plan: &Plan,
        tape: &PlanTape<J>,
        number: u64,
        message: &Message,
        used: u64,
        hold: Hold,
    ) -> Result<Option<u64>, OutOfMemory>
        requires plan { plan.now ≡ J.plan }
        requires limits { tape.now.limits.items ≤ most_items }
        requires group { (first : ASlot D) × (joinings : List Joining) × GathersMore D.Disk J.strict plan.now tape.now self.old (gathered first joinings used hold) (joining number message.now) }
        ensures same { ChangesSlot self.old self.new }
        ensures ok { IfOk result (λ joined. (first : ASlot D) (joinings : List Joining) → GathersMore D.Disk J.strict plan.now tape.now self.old (gathered first joinings used hold) (joining number message.now)
            → MatchOption joined (Gathers D.Disk J.strict plan.now tape.now self.new (gathered first joinings used hold))
            (λ more. Gathers D.Disk J.strict plan.now tape.now self.new (gathered first (joinings ++ joining number message.now ∷ []) more hold))) }
        ensures err { OnErr result ((first : ASlot D) (joinings : List Joining) → GathersMore D.Disk J.strict plan.now tape.now self.old (gathered first joinings used hold) (joining number message.now)
            → Gathers D.Disk J.strict plan.now tape.now self.new (gathered first joinings used hold)) }
    {
        let (weight, prepared) = self.slot.prepare(plan, self.actor, number, message)?;
        if weight > hold.weight - used {
            return Ok(None);
        }
        self.slot
            .stage(plan, self.actor, number, message, prepared)?;
        Ok(Some(used + weight))
    }
}
