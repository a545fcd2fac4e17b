//! The least moments that show what looks have read.
ghost use Rattle.std.specs.Prelude.{◌≡◌, true, ℕ, ◌+◌, ◌<◌, ◌≤◌, List, None, Some, length, map, max, reverse, IfOk, OnOk};
ghost use Rattle.std.specs.List.{AllByRecursion};
ghost use Rattle.std.specs.Option.{option_eq};
ghost use Rattle.acc_value.specs.declared.key.Key.{Key as AKey};
ghost use Rattle.acc_value.specs.Cells.{cells_of};
ghost use Rattle.acc_value.specs.Value.{value_eq};
ghost use Rattle.acc_message.specs.declared.item.Item.{Item};
ghost use Rattle.acc_message.specs.Run.{Cluster};
ghost use Rattle.acc_schedule_runs.specs.Schedules.{cluster_of};
ghost use Rattle.acc_glance.specs.Seen.{EndsAs};
ghost use Rattle.acc_glance.specs.Stages.{has_ended};
ghost use Rattle.acc_glance.specs.Sights.{AreEnded, HasMoment, IsSettled, SettledBelow, ShowsFrom, StartsAfter};

use crate::looks::Look;
use crate::seen::{Seen, Seens, Sight};
use crate::serial::{Serial, notes_of, tells_outcome};
use crate::stages::Stage;
use crate::visits::Visitor;
use acc_base::{Duplicate, OutOfMemory};
use acc_glance_laws::laws::oldest_items_stay;
use acc_message::{GrowingItems, Note};
use acc_schedule::Plan;
use acc_value::{Key, Value};
use std::alloc::Global;

/// A look after all moments.
#[derive(Drop)]
pub(crate) struct Finding {
    pub(crate) look: Look,
    pub(crate) stage: Stage,
    /// The least moment that shows the cell that it read, once that is found.
    pub(crate) at: Option<u64>,
}

/// Looks after all moments, whose cells are not looked for yet.
pub(crate) fn findings(alloc: Global, visitors: Vec<Visitor>) -> Result<Vec<Finding>, OutOfMemory>
    ensures looks { IfOk result (λ findings. map (λ f. f.look) findings.items ≡ map (λ v. v.look) visitors.items) }
    ensures stages { IfOk result (λ findings. map (λ f. f.stage) findings.items ≡ map (λ v. v.stage) visitors.items) }
    ensures unsettled { IfOk result (λ findings. (cluster : Cluster) (items : List Item) → AllByRecursion (IsSettled cluster items 0) findings.items) }
{
    let mut findings = Vec::new(alloc);
    for visitor in visitors {
        findings.push(unsettled(visitor))?;
    }
    Ok(findings)
}

// A look whose cell is not looked for yet.
fn unsettled(visitor: Visitor) -> Finding
    ensures look { result.look ≡ visitor.look }
    ensures stage { result.stage ≡ visitor.stage }
    ensures at { result.at ≡ None }
{
    Finding {
        look: visitor.look,
        stage: visitor.stage,
        at: None,
    }
}

/// Finds the least moment of each look that has read a cell, in one pass over the items: between two items with outcomes no cell changes.
pub(crate) fn find_moments(
    alloc: Global,
    plan: &Plan,
    items: &GrowingItems,
    findings: &mut Vec<Finding>,
) -> Result<(), OutOfMemory>
    ensures looks { OnOk result (map (λ f. f.look) findings.new.items ≡ map (λ f. f.look) findings.old.items) }
    ensures stages { OnOk result (map (λ f. f.stage) findings.new.items ≡ map (λ f. f.stage) findings.old.items) }
    ensures settled { OnOk result (AllByRecursion (IsSettled (cluster_of plan.now) (reverse items.now.items) 0) findings.old.items
        → AllByRecursion (IsSettled (cluster_of plan.now) (reverse items.now.items) (length items.now.items + 1)) findings.new.items) }
{
    oldest_items_stay();
    let mut serial = Serial::new(alloc);
    let mut start: u64 = 0;
    let count = items.len();
    for place in 0..count {
        let item = items.shown(place);
        settle_before(&serial, notes_of(item), place, &mut start, findings);
        serial.enter(plan, item)?;
    }
    settle(&serial, start, count as u64, findings);
    Ok(())
}

// Settles the looks up to an item whose notes may tell outcomes; what comes after it starts anew then.
fn settle_before(
    serial: &Serial,
    notes: &[Note],
    place: usize,
    start: &mut u64,
    findings: &mut Vec<Finding>,
)
    requires { place < 18446744073709551615 }
    ensures looks { map (λ f. f.look) findings.new.items ≡ map (λ f. f.look) findings.old.items }
    ensures stages { map (λ f. f.stage) findings.new.items ≡ map (λ f. f.stage) findings.old.items }
    ensures start { StartsAfter notes.now place start.old start.new }
    ensures settled { (cluster : Cluster) (items : List Item) → start.old ≤ place → ShowsFrom cluster items start.old place (cells_of serial.now.cells)
        → AllByRecursion (IsSettled cluster items start.old) findings.old.items → AllByRecursion (IsSettled cluster items start.new) findings.new.items }
{
    if !tells_outcome(notes) {
        return;
    }
    settle(serial, *start, place as u64, findings);
    *start = place as u64 + 1;
}

// Settles the looks whose cell is the serial one at the moments from the first to the last of these, at which it is the same.
fn settle(serial: &Serial, first: u64, last: u64, findings: &mut Vec<Finding>)
    ensures looks { map (λ f. f.look) findings.new.items ≡ map (λ f. f.look) findings.old.items }
    ensures stages { map (λ f. f.stage) findings.new.items ≡ map (λ f. f.stage) findings.old.items }
    ensures settled { (cluster : Cluster) (items : List Item) → first ≤ last → ShowsFrom cluster items first last (cells_of serial.now.cells)
        → AllByRecursion (IsSettled cluster items first) findings.old.items → AllByRecursion (IsSettled cluster items (last + 1)) findings.new.items }
{
    for place in 0..findings.len() {
        settle_one(serial, first, last, &mut findings[place]);
    }
}

fn settle_one(serial: &Serial, first: u64, last: u64, finding: &mut Finding)
    ensures look { finding.new.look ≡ finding.old.look }
    ensures stage { finding.new.stage ≡ finding.old.stage }
    ensures settled { (cluster : Cluster) (items : List Item) → first ≤ last → ShowsFrom cluster items first last (cells_of serial.now.cells)
        → IsSettled cluster items first finding.old → IsSettled cluster items (last + 1) finding.new }
{
    if finding.at.is_some() {
        return;
    }
    let found = moment_in(serial, first, last, &finding.look.key, &finding.stage);
    finding.at = found;
}

// The least moment of a look among these, where no earlier one is its own.
fn moment_in(serial: &Serial, first: u64, last: u64, key: &Key, stage: &Stage) -> Option<u64>
    ensures { (cluster : Cluster) (items : List Item) → first ≤ last → ShowsFrom cluster items first last (cells_of serial.now.cells)
        → SettledBelow cluster items first key.now stage.now None → SettledBelow cluster items (last + 1) key.now stage.now result }
{
    match stage {
        Stage::Read { from, cell, .. } => moment_of(serial, first, last, key, *from, cell),
        Stage::Waiting => None,
        Stage::Visiting(_) => None,
        Stage::Open { .. } => None,
    }
}

// That of a look that began at this number of items and has read this cell.
fn moment_of(
    serial: &Serial,
    first: u64,
    last: u64,
    key: &Key,
    from: u64,
    cell: &Option<Value>,
) -> Option<u64>
    ensures { (cluster : Cluster) (items : List Item) (to : ℕ) → first ≤ last → ShowsFrom cluster items first last (cells_of serial.now.cells)
        → SettledBelow cluster items first key.now (Stage.Read from to cell.now) None
        → SettledBelow cluster items (last + 1) key.now (Stage.Read from to cell.now) result }
{
    if from > last {
        return None;
    }
    let shown = shows(serial, key, cell);
    if shown {
        return Some(greater(from, first));
    }
    None
}

// Whether it is the cell of the key.
fn shows(serial: &Serial, key: &Key, cell: &Option<Value>) -> bool
    ensures { result ≡ option_eq value_eq (cells_of serial.now.cells key.now) cell.now }
{
    match (serial.cell(key), cell) {
        (Some(one), Some(other)) => *one == *other,
        (None, None) => true,
        _ => false,
    }
}

fn greater(one: u64, other: u64) -> u64
    ensures { result ≡ max one other }
{
    if one < other { other } else { one }
}

/// What each look has seen. Each has ended.
pub(crate) fn seens(alloc: Global, findings: &[Finding]) -> Result<Seens, OutOfMemory>
    requires moments { AllByRecursion HasMoment findings.now }
    requires ended { AllByRecursion (λ finding. has_ended finding.stage ≡ true) findings.now }
    ensures { IfOk result (λ seens. (cluster : Cluster) (items : List Item) (next : ℕ) → AllByRecursion (IsSettled cluster items next) findings.now
        → AreEnded cluster items findings.now seens) }
{
    let mut seens = Seens::new(alloc);
    for finding in findings {
        seens.push(seen_by(finding)?)?;
    }
    Ok(seens)
}

// What a look has seen.
fn seen_by(finding: &Finding) -> Result<Seen, OutOfMemory>
    requires moment { HasMoment finding.now }
    requires ended { has_ended finding.now.stage ≡ true }
    ensures { IfOk result (λ seen. (cluster : Cluster) (items : List Item) (next : ℕ) → IsSettled cluster items next finding.now
        → EndsAs cluster items finding.now.look.key finding.now.stage seen) }
{
    match &finding.stage {
        Stage::Open { from } => Ok(Seen {
            from: *from,
            end: None,
        }),
        Stage::Read { from, to, cell } => seen_at(*from, *to, cell, finding.at),
        Stage::Waiting => unreachable!(),
        Stage::Visiting(_) => unreachable!(),
    }
}

// What a look has seen that has read this cell.
fn seen_at(from: u64, to: u64, cell: &Option<Value>, at: Option<u64>) -> Result<Seen, OutOfMemory>
    requires { (moment : ℕ) × (at ≡ Some moment) × (moment ≤ to) }
    ensures { IfOk result (λ seen. (cluster : Cluster) (items : List Item) (next : ℕ) (key : AKey) → SettledBelow cluster items next key (Stage.Read from to cell.now) at
        → EndsAs cluster items key (Stage.Read from to cell.now) seen) }
{
    match at {
        Some(at) => Ok(Seen {
            from,
            end: Some(Sight {
                at,
                to,
                cell: cell.copy()?,
            }),
        }),
        None => unreachable!(),
    }
}
