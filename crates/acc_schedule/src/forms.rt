//! The forms of steps, each with its items in their order.
ghost use Rattle.std.specs.Prelude.{◌≡◌, Some, map};
ghost use Rattle.serde_json.specs.View.{view};
ghost use Rattle.acc_schedule.specs.declared.words.Word.TheVariants.{Begin, Recover, Slow, Restart, Fail};
ghost use Rattle.acc_schedule.specs.Faults.{Gives, IsFault};
ghost use Rattle.acc_schedule.specs.Fields.{number as number_of};
ghost use Rattle.acc_schedule.specs.Parts.{part_text};
ghost use Rattle.acc_schedule.specs.Seen.{seen};
ghost use Rattle.acc_schedule.specs.Steps.{first_in, form_fault, form_step, message_fault, no_item, no_step_fault, one_item, operand_path};

use crate::cast::{Cast, count, message};
use crate::error::{PlanError, PlanKind};
use crate::path::{Part, wrong};
use crate::plan::Step;
use serde_json::Value;
use std::alloc::Global;

/// The greatest choice of a restart.
const MOST_CHOICE: u64 = 255;

/// The most calls after which a disk fails.
const MOST_CALLS: u64 = 1_000_000;

pub(crate) fn begin(
    alloc: Global,
    items: &[Value],
    place: usize,
    cast: &Cast<'_>,
) -> Result<Step, PlanError>
    ensures { Gives (form_fault (seen cast.now) place (Some Begin) (map view items.now))
        (λ step. step ≡ form_step (seen cast.now) (Some Begin) (map view items.now)) result }
{
    let [name] = items else {
        return Err(no_step(alloc, place));
    };
    let txn = cast.transaction(alloc, name, &item(place, 1))?;
    Ok(Step::Begin { txn })
}

pub(crate) fn deliver(alloc: Global, items: &[Value], place: usize) -> Result<Step, PlanError>
    ensures { Gives (one_item (λ number. message_fault (operand_path place 1) number) (no_step_fault place) (map view items.now))
        (λ step. step ≡ Step.Deliver (number_of (first_in (map view items.now)))) result }
{
    let [number] = items else {
        return Err(no_step(alloc, place));
    };
    let number = message(alloc, number, &item(place, 1))?;
    Ok(Step::Deliver { number })
}

pub(crate) fn lose(alloc: Global, items: &[Value], place: usize) -> Result<Step, PlanError>
    ensures { Gives (one_item (λ number. message_fault (operand_path place 1) number) (no_step_fault place) (map view items.now))
        (λ step. step ≡ Step.Drop (number_of (first_in (map view items.now)))) result }
{
    let [number] = items else {
        return Err(no_step(alloc, place));
    };
    let number = message(alloc, number, &item(place, 1))?;
    Ok(Step::Drop { number })
}

pub(crate) fn recover(
    alloc: Global,
    items: &[Value],
    place: usize,
    cast: &Cast<'_>,
) -> Result<Step, PlanError>
    ensures { Gives (form_fault (seen cast.now) place (Some Recover) (map view items.now))
        (λ step. step ≡ form_step (seen cast.now) (Some Recover) (map view items.now)) result }
{
    let [name, node] = items else {
        return Err(no_step(alloc, place));
    };
    let txn = cast.transaction(alloc, name, &item(place, 1))?;
    let node = cast.node(alloc, node, &item(place, 2))?;
    Ok(Step::Recover { txn, node })
}

pub(crate) fn slow(
    alloc: Global,
    items: &[Value],
    place: usize,
    cast: &Cast<'_>,
) -> Result<Step, PlanError>
    ensures { Gives (form_fault (seen cast.now) place (Some Slow) (map view items.now))
        (λ step. step ≡ form_step (seen cast.now) (Some Slow) (map view items.now)) result }
{
    let [name] = items else {
        return Err(no_step(alloc, place));
    };
    let txn = cast.transaction(alloc, name, &item(place, 1))?;
    Ok(Step::Slow { txn })
}

pub(crate) fn restart(
    alloc: Global,
    items: &[Value],
    place: usize,
    cast: &Cast<'_>,
) -> Result<Step, PlanError>
    ensures { Gives (form_fault (seen cast.now) place (Some Restart) (map view items.now))
        (λ step. step ≡ form_step (seen cast.now) (Some Restart) (map view items.now)) result }
{
    let [actor, choice] = items else {
        return Err(no_step(alloc, place));
    };
    let actor = cast.actor(alloc, actor, &item(place, 1))?;
    let choice = count(alloc, choice, MOST_CHOICE, &item(place, 2))?;
    Ok(Step::Restart {
        actor,
        choice: choice as u8,
    })
}

pub(crate) fn fail(
    alloc: Global,
    items: &[Value],
    place: usize,
    cast: &Cast<'_>,
) -> Result<Step, PlanError>
    ensures { Gives (form_fault (seen cast.now) place (Some Fail) (map view items.now))
        (λ step. step ≡ form_step (seen cast.now) (Some Fail) (map view items.now)) result }
{
    let [actor, calls] = items else {
        return Err(no_step(alloc, place));
    };
    let actor = cast.actor(alloc, actor, &item(place, 1))?;
    let calls = count(alloc, calls, MOST_CALLS, &item(place, 2))?;
    Ok(Step::Fail { actor, calls })
}

pub(crate) fn drain(alloc: Global, items: &[Value], place: usize) -> Result<Step, PlanError>
    ensures { Gives (no_item (no_step_fault place) (map view items.now)) (λ step. step ≡ Step.Drain) result }
{
    if items.is_empty() {
        Ok(Step::Drain)
    } else {
        Err(no_step(alloc, place))
    }
}

/// The fault of what is no step.
pub(crate) fn no_step(alloc: Global, place: usize) -> PlanError
    ensures { IsFault (no_step_fault place) result }
{
    wrong(
        alloc,
        PlanKind::Step,
        &[Part::Field("schedule"), Part::Place(place)],
    )
}

// The path of an item of a step.
fn item(place: usize, item: usize) -> [Part<'static>; 3]
    ensures { map part_text result ≡ operand_path place item }
{
    [
        Part::Field("schedule"),
        Part::Place(place),
        Part::Place(item),
    ]
}
