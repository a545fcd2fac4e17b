//! All that is known of a run before it is drawn.
use crate::cast::Cast;
use crate::choice::{Choice, MOST, PictureError};
use crate::columns::{Column, columns_of, txn_of};
use crate::lanes::{Lane, Stretch, come_back, go_down, lanes_of};
use crate::sent::{Sent, all_sent, drop_all, take, taken_by};
use acc_base::{OutOfMemory, Sequence, Text};
use acc_message::{Event, Items, Shown};
use acc_report::text;
use acc_schedule::{Plan, Print};
use std::alloc::Global;

/// Where the lane of the schedule stands.
const TOP: u64 = 40;

/// A run and where each part of it stands in the picture.
#[derive(Debug, Drop)]
pub(crate) struct Scene<'a> {
    pub(crate) plan: &'a Plan,
    pub(crate) items: &'a Items,
    pub(crate) cast: Cast<'a>,
    /// The lines of the report.
    pub(crate) lines: Vec<Text>,
    pub(crate) sent: Vec<Sent>,
    pub(crate) columns: Vec<Column>,
    pub(crate) lanes: Vec<Lane>,
    /// On which stretches actors are down that came back.
    pub(crate) stretches: Vec<Stretch>,
    /// Where the lane of the schedule stands.
    pub(crate) top: u64,
    /// Where the picture ends on the right.
    pub(crate) right: u64,
    /// How many items are drawn.
    pub(crate) drawn: u64,
}

impl<'a> Scene<'a> {
    /// The scene of the items that a plan's run gave, of which those that are chosen are drawn. `TooMany` comes where these are
    /// more than `MOST`.
    pub(crate) fn of(
        alloc: Global,
        plan: &'a Plan,
        items: &'a Items,
        choice: &Choice,
    ) -> Result<Scene<'a>, PictureError> {
        let cast = Cast::of(alloc, &plan.names, items)?;
        let lines = report_lines(alloc, plan, items)?;
        let mut sent = all_sent(alloc, items)?;
        let columns = columns_of(
            alloc,
            items,
            &cast,
            sent.as_slice(),
            lines.as_slice(),
            choice,
        )?;
        if drawn(columns.as_slice()) > MOST {
            return Err(PictureError::TooMany);
        }
        drop_all(alloc, &mut sent, items, plan.steps.as_slice())?;
        take_all(&mut sent, items, columns.as_slice());
        let mut lanes = lanes_of(alloc, &plan.topology, TOP)?;
        let stretches = stretches(alloc, &mut lanes, items, columns.as_slice())?;
        let drawn = drawn(columns.as_slice());
        let right = right(columns.as_slice());
        Ok(Scene {
            plan,
            items,
            cast,
            lines,
            sent,
            columns,
            lanes,
            stretches,
            top: TOP,
            right,
            drawn,
        })
    }

    /// The number of the transaction that an item is of, if it is of one.
    pub(crate) fn txn(&self, item: Shown<'_>) -> Option<u32> {
        txn_of(&self.cast, self.items, self.sent.as_slice(), item)
    }

    /// How far below the top the picture ends.
    pub(crate) fn bottom(&self) -> u64 {
        match self.lanes.last() {
            Some(lane) => lane.y.saturating_add(36),
            None => self.top.saturating_add(36),
        }
    }
}

// How many columns are drawn.
fn drawn(columns: &[Column]) -> u64 {
    match columns.last() {
        Some(column) if column.drawn => column.at.saturating_add(1),
        Some(column) => column.at,
        None => 0,
    }
}

// Where the picture ends on the right.
fn right(columns: &[Column]) -> u64 {
    match columns.last() {
        Some(column) => column.x.saturating_add(320),
        None => 416,
    }
}

// The lines of the report of items, without their line feeds.
fn report_lines(alloc: Global, plan: &Plan, items: &Items) -> Result<Vec<Text>, OutOfMemory> {
    let report = text(items, &Sequence::new(alloc), &plan.names, Print::Lines)?;
    let mut lines = Vec::new(alloc);
    let mut line = Vec::new(alloc);
    for byte in report.as_slice() {
        if *byte == b'\n' {
            lines.push(Text::from_slice(alloc, line.as_slice())?)?;
            line.clear();
        } else {
            line.push(*byte)?;
        }
    }
    Ok(lines)
}

// Enters which messages the items took.
fn take_all(sent: &mut Vec<Sent>, items: &Items, columns: &[Column]) {
    for place in 0..items.len() {
        if let Some(number) = taken_by(items.shown(place)) {
            if let Some(column) = columns.get(place) {
                take(sent, number, place, column.drawn);
            }
        }
    }
}

// On which stretches actors were down. The lanes of those that stay down keep where it begins.
fn stretches(
    alloc: Global,
    lanes: &mut Vec<Lane>,
    items: &Items,
    columns: &[Column],
) -> Result<Vec<Stretch>, OutOfMemory> {
    let mut stretches = Vec::new(alloc);
    for place in 0..items.len() {
        if let Some(column) = columns.get(place) {
            if let Some(stretch) = passes(lanes, items.shown(place), column.x) {
                stretches.push(stretch)?;
            }
        }
    }
    Ok(stretches)
}

// Enters that an item stops an actor or brings it back, and answers the stretch that ends with it, if one does.
fn passes(lanes: &mut Vec<Lane>, item: Shown<'_>, x: u64) -> Option<Stretch> {
    match item {
        Shown::Down { actor } => {
            go_down(lanes, actor, x);
            None
        }
        Shown::Step {
            actor,
            event: Event::Restart { .. },
            ..
        } => come_back(lanes, actor, x),
        _ => None,
    }
}
