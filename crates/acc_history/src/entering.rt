//! What an item changes in what waits.
ghost use Rattle.std.specs.Prelude.{◌≡◌, ◌+◌, ◌^◌, ◌<◌, ◌≤◌, ◌++◌, length, not, ◌&&◌, ◌||◌, OnOk};
ghost use Rattle.acc_stamp.specs.declared.actors.Actor.{Actor as AnActor};
ghost use Rattle.acc_message.specs.Items.{same_actor};
ghost use Rattle.acc_message.specs.Run.{down_after};
ghost use Rattle.acc_message.specs.Shown.{with_sent};
ghost use Rattle.acc_message_index.specs.Standing.{is_down_at};
ghost use Rattle.acc_history.specs.Entering.{IsAsBefore, IsNamed, AreCovered, IsCovered, without_event, without_item, postings_of, postings_in};

use acc_base::OutOfMemory;
use acc_message::{Event, Message, Shown};
use acc_message_index::Waiting;
use acc_stamp::Actor;

// The greatest number of an actor and of those to which messages go.
fn greatest_of(actor: u32, messages: &[Message]) -> u32
    ensures actor { actor ≤ result }
    ensures receivers { AreCovered (result + 1) messages.now }
    ensures named { IsNamed actor messages.now result }
{
    let mut greatest = actor;
    for index in 0..messages.len() {
        greatest = greatest.max(messages[index].to().0);
    }
    greatest
}

// Makes room for who stepped and for the actors to which its messages go.
#[inline(always)]
fn cover_step(waiting: &mut Waiting, actor: Actor, messages: &[Message]) -> Result<(), OutOfMemory>
    ensures same { IsAsBefore waiting.old waiting.new }
    ensures room { waiting.new.room ≡ waiting.old.room }
    ensures actor { OnOk result (actor.0 < length waiting.new.downs) }
    ensures receivers { OnOk result (AreCovered (length waiting.new.downs) messages.now) }
{
    let greatest = greatest_of(actor.0, messages);
    waiting.cover(greatest)
}

/// Makes room for the actors that an item names. In any case nothing else changes.
#[inline(always)]
pub(crate) fn cover_all(
    waiting: &mut Waiting,
    shown: Shown<'_>,
    messages: &[Message],
) -> Result<(), OutOfMemory>
    ensures same { IsAsBefore waiting.old waiting.new }
    ensures room { waiting.new.room ≡ waiting.old.room }
    ensures covered { OnOk result (IsCovered (length waiting.new.downs) (with_sent shown.entry messages.now)) }
{
    match shown {
        Shown::Step { actor, .. } => cover_step(waiting, actor, messages),
        Shown::Skipped { .. } => Ok(()),
        Shown::Down { actor } => waiting.cover(actor.0),
    }
}

// Notes the messages that the item at a place sent.
#[inline(always)]
fn send(waiting: &mut Waiting, messages: &[Message], place: u32, is_lost: bool)
    requires few { length messages.now < 2 ^ 32 }
    requires room { length messages.now ≤ waiting.old.room }
    requires covered { AreCovered (length waiting.old.downs) messages.now }
    ensures sent { waiting.new.sent ≡ waiting.old.sent ++ postings_of place 0 is_lost messages.now }
    ensures downs { waiting.new.downs ≡ waiting.old.downs }
{
    for index in 0..messages.len() {
        waiting.add(messages[index].to().0, place, index as u32, is_lost);
    }
}

// Closes the message that an event takes, if it was sent.
#[inline(always)]
fn take(waiting: &mut Waiting, event: Event)
    ensures sent { waiting.new.sent ≡ without_event event waiting.old.sent }
    ensures rest { (waiting.new.room ≡ waiting.old.room) × (waiting.new.downs ≡ waiting.old.downs) }
{
    let Event::Message { number } = event else {
        return;
    };
    if number < waiting.len() {
        waiting.close(number);
    }
}

// Behind an entry that isn't lost its actor is up.
#[inline(always)]
fn come_up(waiting: &mut Waiting, actor: Actor, is_lost: bool)
    requires { actor.0 < length waiting.old.downs }
    ensures rest { (waiting.new.sent ≡ waiting.old.sent) × (waiting.new.room ≡ waiting.old.room) × (length waiting.new.downs ≡ length waiting.old.downs) }
    ensures downs { (a : AnActor) → is_down_at waiting.new.downs a.0 ≡ (is_down_at waiting.old.downs a.0 && (not (same_actor actor a) || is_lost)) }
{
    if !is_lost && waiting.is_down(actor.0) {
        waiting.set_down(actor.0, false);
    }
}

// An actor goes down.
fn go_down(waiting: &mut Waiting, actor: Actor)
    requires { actor.0 < length waiting.old.downs }
    ensures sent { waiting.new.sent ≡ waiting.old.sent }
    ensures downs { (a : AnActor) → is_down_at waiting.new.downs a.0 ≡ (same_actor actor a || is_down_at waiting.old.downs a.0) }
{
    waiting.set_down(actor.0, true);
}

// Notes what a step took, who is up behind it, and what it sent.
#[inline(always)]
fn step(
    waiting: &mut Waiting,
    actor: Actor,
    event: Event,
    messages: &[Message],
    place: u32,
    is_lost: bool,
)
    requires few { length messages.now < 2 ^ 32 }
    requires room { length messages.now ≤ waiting.old.room }
    requires actor { actor.0 < length waiting.old.downs }
    requires receivers { AreCovered (length waiting.old.downs) messages.now }
    ensures sent { waiting.new.sent ≡ without_event event waiting.old.sent ++ postings_of place 0 is_lost messages.now }
    ensures downs { (a : AnActor) → is_down_at waiting.new.downs a.0 ≡ (is_down_at waiting.old.downs a.0 && (not (same_actor actor a) || is_lost)) }
{
    take(waiting, event);
    come_up(waiting, actor, is_lost);
    send(waiting, messages, place, is_lost);
}

/// Notes what the item at a place took, who goes down or comes up by it, and what it sent.
#[inline(always)]
pub(crate) fn enter(waiting: &mut Waiting, shown: Shown<'_>, messages: &[Message], place: u32)
    requires few { length messages.now < 2 ^ 32 }
    requires room { length messages.now ≤ waiting.old.room }
    requires covered { IsCovered (length waiting.old.downs) (with_sent shown messages.now) }
    ensures sent { waiting.new.sent ≡ without_item (with_sent shown.entry messages.now) waiting.old.sent ++ postings_in place (with_sent shown.entry messages.now) }
    ensures downs { (a : AnActor) → is_down_at waiting.new.downs a.0 ≡ down_after a (with_sent shown.entry messages.now) (is_down_at waiting.old.downs a.0) }
{
    match shown {
        Shown::Step {
            actor,
            lost,
            event,
            notes: _,
        } => step(waiting, actor, event, messages, place, lost),
        Shown::Skipped { .. } => {}
        Shown::Down { actor } => go_down(waiting, actor),
    }
}
