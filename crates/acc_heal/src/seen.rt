//! What items tell of outcomes that reached stores, and of attempts that were ended.
ghost use Rattle.std.specs.Prelude.{◌≡◌, ◌+◌, ◌&&◌, ◌||◌, List, [], ◌∷◌, reverse, IfOk, OnOk};
ghost use Rattle.std.specs.List.{list_any};
ghost use Rattle.acc_stamp.specs.declared.actors.Actor.{Actor as AnActor};
ghost use Rattle.acc_stamp.specs.declared.stamps.Ballot.{Ballot as ABallot};
ghost use Rattle.acc_stamp.specs.declared.stamps.TxnId.{TxnId as AnId};
ghost use Rattle.acc_stamp.specs.Stamp.{ballot_eq, id_eq};
ghost use Rattle.acc_message.specs.declared.item.Item.{Item as AnItem};
ghost use Rattle.acc_message.specs.declared.message.Message.{Message as AMessage};
ghost use Rattle.acc_message.specs.Items.{noted_in, same_actor, sent_in};
ghost use Rattle.acc_message.specs.Shown.{with_sent};
ghost use Rattle.acc_delivered.specs.Ends.{tells_ended};
ghost use Rattle.acc_heal.specs.Seen.{has_attempt, has_taker, takes_apply, takes_in, Tells, TellsOldest};

use crate::applies::Applies;
use acc_base::OutOfMemory;
use acc_message::{Event, GrowingItems, Message, Note, Shown};
use acc_stamp::{Actor, Ballot, TxnId};
use std::alloc::Global;
use std::collections::BTreeSet;

/// What the first items of a run tell of outcomes that reached stores, and of attempts that were ended. It grows with the items, each of
/// which is gone over once.
#[derive(Debug, Drop)]
pub(crate) struct Seen {
    // How many items they are.
    items: usize,
    // The Applys among the messages that these sent.
    applies: Applies,
    // Who took an Apply of which transaction.
    taken: BTreeSet<(TxnId, Actor)>,
    // The attempts that a note tells to be ended.
    ended: BTreeSet<(TxnId, Ballot)>,
}

impl Seen {
    /// What no items tell.
    pub(crate) fn new(alloc: Global) -> Seen
        ensures { Tells result [] }
    {
        Seen {
            items: 0,
            applies: Applies::new(alloc),
            taken: BTreeSet::new(alloc),
            ended: BTreeSet::new(alloc),
        }
    }

    /// Goes over the items that are new. Without memory for what they tell it tells of some of them.
    pub(crate) fn look(&mut self, items: &GrowingItems) -> Result<(), OutOfMemory>
        ensures { OnOk result (TellsOldest self.old (reverse items.now.items) → Tells self.new (reverse items.now.items)) }
    {
        for place in self.items..items.len() {
            self.enter(items.shown(place), items.sent(place))?;
        }
        Ok(())
    }

    /// Whether the actor took an Apply of the transaction.
    pub(crate) fn took_apply(&self, id: TxnId, actor: Actor) -> bool
        ensures { result ≡ has_taker self.now.taken.keys id actor }
    {
        self.taken.contains(&(id, actor))
    }

    /// Whether a note tells that the attempt was ended.
    pub(crate) fn is_ended(&self, id: TxnId, ballot: Ballot) -> bool
        ensures { result ≡ has_attempt self.now.ended.keys id ballot }
    {
        self.ended.contains(&(id, ballot))
    }

    // Goes over one item more.
    fn enter(&mut self, item: Shown<'_>, out: &[Message]) -> Result<(), OutOfMemory>
        ensures { OnOk result ((earlier : List AnItem) (told : List AMessage) → out.now ≡ sent_in (with_sent item.entry told) →
            Tells self.old earlier → Tells self.new (with_sent item.entry told ∷ earlier)) }
    {
        enter_step(&mut self.taken, &mut self.ended, &self.applies, item)?;
        self.applies.extend(out)?;
        self.items = one_more(self.items)?;
        Ok(())
    }
}

// More items than an address counts are more than memory holds.
fn one_more(items: usize) -> Result<usize, OutOfMemory>
    ensures { IfOk result (λ more. more ≡ items + 1) }
{
    items.checked_add(1).ok_or(OutOfMemory)
}

// Enters what an item tells of an Apply that was taken and of attempts that were ended.
fn enter_step(
    taken: &mut BTreeSet<(TxnId, Actor)>,
    ended: &mut BTreeSet<(TxnId, Ballot)>,
    applies: &Applies,
    item: Shown<'_>,
) -> Result<(), OutOfMemory>
    ensures taken { OnOk result ((told : List AMessage) (x : AnId) (a : AnActor) →
        has_taker taken.new.keys x a ≡ (has_taker taken.old.keys x a || takes_in applies.now (with_sent item.entry told) x a)) }
    ensures ended { OnOk result ((told : List AMessage) (x : AnId) (b : ABallot) →
        has_attempt ended.new.keys x b ≡ (has_attempt ended.old.keys x b || list_any (tells_ended x b) (noted_in (with_sent item.entry told)))) }
{
    if let Shown::Step {
        actor,
        event,
        notes,
        ..
    } = item
    {
        enter_take(taken, applies, actor, event)?;
        enter_notes(ended, notes)?;
    }
    Ok(())
}

// Enters what an actor takes, if it is an Apply.
fn enter_take(
    taken: &mut BTreeSet<(TxnId, Actor)>,
    applies: &Applies,
    actor: Actor,
    event: Event,
) -> Result<(), OutOfMemory>
    ensures { OnOk result ((x : AnId) (a : AnActor) →
        has_taker taken.new.keys x a ≡ (has_taker taken.old.keys x a || takes_apply applies.now actor event x a)) }
{
    if let Event::Message { number } = event {
        if let Some(id) = applies.get(number) {
            insert_taker(taken, id, actor)?;
        }
    }
    Ok(())
}

// Enters the attempts that these notes tell to be ended.
fn enter_notes(ended: &mut BTreeSet<(TxnId, Ballot)>, notes: &[Note]) -> Result<(), OutOfMemory>
    ensures { OnOk result ((x : AnId) (b : ABallot) →
        has_attempt ended.new.keys x b ≡ (has_attempt ended.old.keys x b || list_any (tells_ended x b) notes.now)) }
{
    for note in notes {
        if let Note::Ended { id, ballot, .. } = note {
            insert_attempt(ended, *id, *ballot)?;
        }
    }
    Ok(())
}

// Enters that an actor took an Apply of the transaction.
fn insert_taker(
    taken: &mut BTreeSet<(TxnId, Actor)>,
    id: TxnId,
    actor: Actor,
) -> Result<(), OutOfMemory>
    ensures { OnOk result ((x : AnId) (a : AnActor) →
        has_taker taken.new.keys x a ≡ (has_taker taken.old.keys x a || (same_actor actor a && id_eq id x))) }
{
    taken.insert((id, actor))?;
    Ok(())
}

// Enters that an attempt was ended.
fn insert_attempt(
    ended: &mut BTreeSet<(TxnId, Ballot)>,
    id: TxnId,
    ballot: Ballot,
) -> Result<(), OutOfMemory>
    ensures { OnOk result ((x : AnId) (b : ABallot) →
        has_attempt ended.new.keys x b ≡ (has_attempt ended.old.keys x b || (id_eq id x && ballot_eq ballot b))) }
{
    ended.insert((id, ballot))?;
    Ok(())
}
