//! The messages of a run by their numbers, and what became of each.
use acc_base::OutOfMemory;
use acc_message::{Event, Items, Message, Shown, Skip};
use acc_schedule::Step;
use std::alloc::Global;

/// How many messages of one item are looked at, which is more than an item can have.
pub(crate) const MANY: usize = 1 << 32;

/// Where a message was sent, and what became of it.
#[derive(Clone, Copy, Debug)]
pub(crate) struct Sent {
    /// The place of the item that sent it.
    pub(crate) place: usize,
    /// Its place among the messages of this item.
    pub(crate) index: usize,
    /// The place of the item that took it first.
    pub(crate) taker: Option<usize>,
    /// Whether an item that is drawn took it.
    pub(crate) drawn: bool,
    /// Whether a step of the schedule dropped it.
    pub(crate) dropped: bool,
}

impl Sent {
    /// The message.
    pub(crate) fn message<'a>(&self, items: &'a Items) -> Option<&'a Message> {
        items.message(self.place, self.index)
    }
}

/// All messages that the items sent, by their numbers. Nothing is known yet of what became of them.
pub(crate) fn all_sent(alloc: Global, items: &Items) -> Result<Vec<Sent>, OutOfMemory> {
    let mut sent = Vec::new(alloc);
    for place in 0..items.len() {
        push_sent(&mut sent, items, place)?;
    }
    Ok(sent)
}

fn push_sent(sent: &mut Vec<Sent>, items: &Items, place: usize) -> Result<(), OutOfMemory> {
    for index in 0..MANY {
        if items.message(place, index).is_none() {
            return Ok(());
        }
        sent.push(Sent {
            place,
            index,
            taker: None,
            drawn: false,
            dropped: false,
        })?;
    }
    Ok(())
}

/// Enters that the item at a place took a message.
pub(crate) fn take(sent: &mut Vec<Sent>, number: u64, place: usize, drawn: bool) {
    let at = number as usize;
    if at < sent.len() {
        if sent[at].taker.is_none() {
            sent[at].taker = Some(place);
        }
        if drawn {
            sent[at].drawn = true;
        }
    }
}

/// The number of the message that an item took.
pub(crate) fn taken_by(item: Shown<'_>) -> Option<u64> {
    match item {
        Shown::Step {
            event: Event::Message { number },
            ..
        } => Some(number),
        _ => None,
    }
}

/// Enters which messages the steps of the schedule dropped, up to those that were passed over.
pub(crate) fn drop_all(
    alloc: Global,
    sent: &mut Vec<Sent>,
    items: &Items,
    steps: &[Step],
) -> Result<(), OutOfMemory> {
    let passed = passed_over(alloc, items, steps.len())?;
    for (step, passed) in steps.iter().zip(passed.as_slice().iter()) {
        if let Step::Drop { number } = step {
            if !*passed {
                drop_one(sent, *number);
            }
        }
    }
    Ok(())
}

fn drop_one(sent: &mut Vec<Sent>, number: u64) {
    let at = number as usize;
    if at < sent.len() {
        sent[at].dropped = true;
    }
}

// For each step of a schedule, whether there was no message for it.
fn passed_over(alloc: Global, items: &Items, count: usize) -> Result<Vec<bool>, OutOfMemory> {
    let mut passed = vec![in alloc; false; count]?;
    for place in 0..items.len() {
        if let Shown::Skipped {
            step,
            cause: Skip::NoMessage { .. },
        } = items.shown(place)
        {
            let at = step as usize;
            if at < passed.len() {
                passed[at] = true;
            }
        }
    }
    Ok(passed)
}
