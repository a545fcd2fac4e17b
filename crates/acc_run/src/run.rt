//! The run of a plan.
ghost use Rattle.std.specs.Prelude.{◌≡◌, ℕ, IsTrue, List, reverse, IfOk, IfErr};
ghost use Rattle.acc_message.specs.declared.error.Which.{Which};
ghost use Rattle.acc_message.specs.declared.error.RunError.{RunError as Why};
ghost use Rattle.acc_message.specs.declared.item.Item.{Item};
ghost use Rattle.acc_schedule.specs.Plan.{IsPlan};
ghost use Rattle.acc_schedule_runs.specs.StrictSchedules.{ObeysStrictly};
ghost use Rattle.acc_schedule_runs.specs.Limits.{IsWithin};
ghost use Rattle.acc_schedule_runs.specs.StrictFronts.{StrictLimitEnds};
ghost use Rattle.acc_run.specs.Given.{HasRun, HasStopped};

use crate::ending::give_back;
use crate::opening::opened;
use crate::steps::take_all;
use acc_cluster::Remains;
use acc_message::{Items, RunError};
use acc_ports::DiskMaker;
use acc_schedule::Plan;
use std::alloc::Global;

/// Takes all steps of a plan over new disks, from actors that have done nothing, and gives the disks back at the end, in rising order of
/// the actors' numbers, and what the actors knew to `remains`. A run past a limit gives them back too, and has no items. Without memory the
/// disks may be gone.
pub fn run_plan<M: DiskMaker>(
    alloc: Global,
    plan: &Plan,
    disks: &mut M,
    remains: &mut Remains,
) -> Result<Items, RunError>
where
    M::D: Drop,
    requires is_plan { IsPlan plan.now }

    // Whatever the disks answered, the items are those of the schedule with these answers, and within the limits; and each disk keeps its
    // actor where these answers led, after a limit too.
    ensures ran { IfOk result (λ items. HasRun M.D.Disk plan.now (reverse items) (M.given disks.old) (M.given disks.new)) }
    ensures within { IfOk result (λ items. IsWithin (reverse items)) }
    ensures limit { IfErr result (λ e. (which : Which) (number : ℕ) → e ≡ Why.Limit which number →
        (front : List Item) × HasStopped M.D.Disk plan.now front which number (M.given disks.old) (M.given disks.new)
        × (IsTrue (M.strict disks.old) → StrictLimitEnds plan.now front which number)) }

    // Over strict disks the plan alone fixes them.
    ensures strict { IsTrue (M.strict disks.old) → IfOk result (λ items. ObeysStrictly plan.now (reverse items)) }

    ensures kind { M.strict disks.new ≡ M.strict disks.old }
{
    let mut cluster = opened(alloc, plan, disks)?;
    let taken = take_all(&mut cluster, plan);
    let ended = cluster.finish(remains)?;
    give_back(disks, ended.disks)?;
    taken?;
    Ok(ended.items)
}
