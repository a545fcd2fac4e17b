//! The schedule of a document.
ghost use Rattle.std.specs.Prelude.{◌≡◌, map};
ghost use Rattle.serde_json.specs.View.{view};
ghost use Rattle.acc_schedule.specs.Document.{schedule as schedule_data};
ghost use Rattle.acc_schedule.specs.Faults.{Gives};
ghost use Rattle.acc_schedule.specs.Seen.{seen};
ghost use Rattle.acc_schedule.specs.Steps.{cast_in, form_fault, form_step, schedule_fault, step_fault, step_of, steps_of};

use crate::actors::ActorTable;
use crate::cast::Cast;
use crate::error::PlanError;
use crate::fields::{elements, list};
use crate::forms::{begin, deliver, drain, fail, lose, no_step, recover, restart, slow};
use crate::names::NameTable;
use crate::path::Part;
use crate::plan::{Step, Steps};
use crate::words::{Word, word_in};
use acc_base::Sequence;
use acc_topology::Topology;
use serde_json::Value;
use std::alloc::Global;

/// The most steps.
const MOST_STEPS: usize = 200_000;

/// The steps of the schedule, which speak of transactions by these names, and of the nodes and stores of the cluster.
pub(crate) fn schedule(
    alloc: Global,
    root: &Value,
    names: &NameTable,
    topology: &Topology,
) -> Result<Steps, PlanError>
    ensures { Gives (schedule_fault (cast_in names.now topology.now) (schedule_data (view root.now)))
        (λ steps. steps ≡ steps_of (cast_in names.now topology.now) (schedule_data (view root.now))) result }
{
    let actors = ActorTable::of(alloc, topology)?;
    let cast = Cast::new(names, topology.nodes(), actors);
    steps(alloc, root, &cast)
}

fn steps(alloc: Global, root: &Value, cast: &Cast<'_>) -> Result<Steps, PlanError>
    ensures { Gives (schedule_fault (seen cast.now) (schedule_data (view root.now)))
        (λ steps. steps ≡ steps_of (seen cast.now) (schedule_data (view root.now))) result }
{
    let items = list(
        alloc,
        root,
        "schedule",
        MOST_STEPS,
        &[Part::Field("schedule")],
    )?;
    let mut steps = Sequence::new(alloc);
    for (place, item) in items.iter().enumerate() {
        steps.push(step(alloc, item, place, cast)?)?;
    }
    Ok(steps)
}

fn step(alloc: Global, item: &Value, place: usize, cast: &Cast<'_>) -> Result<Step, PlanError>
    ensures { Gives (step_fault (seen cast.now) place (view item.now)) (λ step. step ≡ step_of (seen cast.now) (view item.now)) result }
{
    match elements(item) {
        Some([first, items @ ..]) => form(alloc, word_in(first), items, place, cast),
        _ => Err(no_step(alloc, place)),
    }
}

// The step of a word and the items after it.
fn form(
    alloc: Global,
    word: Option<Word>,
    items: &[Value],
    place: usize,
    cast: &Cast<'_>,
) -> Result<Step, PlanError>
    ensures { Gives (form_fault (seen cast.now) place word (map view items.now)) (λ step. step ≡ form_step (seen cast.now) word (map view items.now)) result }
{
    match word {
        Some(Word::Begin) => begin(alloc, items, place, cast),
        Some(Word::Deliver) => deliver(alloc, items, place),
        Some(Word::Drop) => lose(alloc, items, place),
        Some(Word::Recover) => recover(alloc, items, place, cast),
        Some(Word::Slow) => slow(alloc, items, place, cast),
        Some(Word::Restart) => restart(alloc, items, place, cast),
        Some(Word::Fail) => fail(alloc, items, place, cast),
        Some(Word::Drain) => drain(alloc, items, place),
        None => Err(no_step(alloc, place)),
    }
}
