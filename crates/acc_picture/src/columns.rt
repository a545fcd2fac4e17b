//! The columns of a picture: one for each item that is drawn, as wide as its lines need.
use crate::cast::Cast;
use crate::choice::Choice;
use crate::sent::Sent;
use acc_base::{OutOfMemory, Text};
use acc_message::{Event, Items, Shown, Skip};
use std::alloc::Global;

/// Where the first column stands.
pub(crate) const LEFT: u64 = 96;

/// How many bytes of a line are shown at most.
pub(crate) const SHOWN: usize = 48;

/// Where an item stands, and what is said of it.
#[derive(Clone, Copy, Debug)]
pub(crate) struct Column {
    /// How far right it stands.
    pub(crate) x: u64,
    /// The number of its column among those that are drawn, or of the next one that is.
    pub(crate) at: u64,
    /// Whether it is drawn.
    pub(crate) drawn: bool,
    /// The place of its first line in the report.
    pub(crate) first: usize,
    /// How many lines it has.
    pub(crate) lines: usize,
    /// The number of the first message that it sent, if it sent one.
    pub(crate) sent: u64,
}

/// The columns of all items, those that aren't drawn too.
pub(crate) fn columns_of(
    alloc: Global,
    items: &Items,
    cast: &Cast<'_>,
    sent: &[Sent],
    lines: &[Text],
    choice: &Choice,
) -> Result<Vec<Column>, OutOfMemory> {
    let mut columns = Vec::with_capacity(alloc, items.len())?;
    let mut next = Column {
        x: LEFT,
        at: 0,
        drawn: false,
        first: 0,
        lines: 0,
        sent: 0,
    };
    for place in 0..items.len() {
        let item = items.shown(place);
        next.lines = lines_of(item);
        next.drawn = choice.has(place as u64, name_of(cast, items, sent, item));
        columns.push(next)?;
        next = behind(next, lines, messages_of(items, place));
    }
    Ok(columns)
}

// The column after one, whose item sent so many messages.
fn behind(column: Column, lines: &[Text], messages: u64) -> Column {
    let mut next = column;
    if column.drawn {
        next.x = column.x.saturating_add(width(lines, column));
        next.at = column.at.saturating_add(1);
    }
    next.first = column.first.saturating_add(column.lines);
    next.sent = column.sent.saturating_add(messages);
    next
}

// How many messages an item sent.
fn messages_of(items: &Items, place: usize) -> u64 {
    let mut count: u64 = 0;
    for index in 0..crate::sent::MANY {
        if items.message(place, index).is_none() {
            return count;
        }
        count = count.saturating_add(1);
    }
    count
}

// How wide a column is.
fn width(lines: &[Text], column: Column) -> u64 {
    let mut longest = 4;
    for at in column.first..column.first.saturating_add(column.lines) {
        if let Some(line) = lines.get(at) {
            longest = line.len().min(SHOWN).max(longest);
        }
    }
    (longest as u64).saturating_mul(6).saturating_add(14)
}

/// How many lines of the report an item has.
fn lines_of(item: Shown<'_>) -> usize {
    match item {
        Shown::Step {
            event: Event::Restart { .. },
            notes,
            ..
        } => notes.len().saturating_add(1),
        Shown::Step { notes, .. } => notes.len(),
        Shown::Skipped { .. } | Shown::Down { .. } => 1,
    }
}

/// The number of the transaction that an item is of, if it is of one.
pub(crate) fn txn_of(
    cast: &Cast<'_>,
    items: &Items,
    sent: &[Sent],
    item: Shown<'_>,
) -> Option<u32> {
    match item {
        Shown::Step { event, .. } => txn_of_event(cast, items, sent, event),
        Shown::Skipped { cause, .. } => txn_of_skip(cause),
        Shown::Down { .. } => None,
    }
}

fn txn_of_event(cast: &Cast<'_>, items: &Items, sent: &[Sent], event: Event) -> Option<u32> {
    match event {
        Event::Begin { txn } | Event::Recover { txn } | Event::Slow { txn } => Some(txn),
        Event::Message { number } => {
            let message = sent.get(number as usize)?.message(items)?;
            cast.number(message.id())
        }
        Event::Restart { .. } => None,
    }
}

fn txn_of_skip(cause: Skip) -> Option<u32> {
    match cause {
        Skip::Begun { txn } | Skip::Unknown { txn } | Skip::NoQuorum { txn } => Some(txn),
        Skip::NoMessage { .. } | Skip::Down { .. } => None,
    }
}

// The name of the transaction that an item is of, if it is of one.
fn name_of<'a>(
    cast: &'a Cast<'_>,
    items: &Items,
    sent: &[Sent],
    item: Shown<'_>,
) -> Option<&'a [u8]> {
    match txn_of(cast, items, sent, item) {
        Some(txn) => Some(cast.name_of(txn)),
        None => None,
    }
}
