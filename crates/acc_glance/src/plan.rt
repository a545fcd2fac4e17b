//! The run of a plan with looks.
ghost use Rattle.std.specs.Prelude.{◌≡◌, ℕ, IsTrue, List, reverse, IfOk, IfErr};
ghost use Rattle.acc_message.specs.declared.error.Which.{Which};
ghost use Rattle.acc_message.specs.declared.error.RunError.{RunError as Why};
ghost use Rattle.acc_message.specs.declared.item.Item.{Item};
ghost use Rattle.acc_schedule.specs.Plan.{IsPlan};
ghost use Rattle.acc_schedule_runs.specs.Limits.{IsWithin};
ghost use Rattle.acc_schedule_runs.specs.StrictFronts.{StrictLimitEnds};
ghost use Rattle.acc_run.specs.Given.{HasStopped};
ghost use Rattle.acc_glance.specs.Documents.{AreInTime};
ghost use Rattle.acc_glance.specs.Runs.{AreSeenStrictly, HasRunWithLooks};

use crate::looking::glance;
use crate::looks::Looks;
use crate::seen::Seens;
use acc_cluster::Remains;
use acc_message::{Items, RunError};
use acc_ports::DiskMaker;
use acc_run::{give_back, opened};
use acc_schedule::Plan;
use std::alloc::Global;

/// Takes all steps of a plan over new disks, from actors that have done nothing, with looks between them, and gives the disks back at the
/// end, in rising order of the actors' numbers, and what the actors knew to `remains`. A run past a limit gives them back too, and has no
/// items. Without memory the disks may be gone.
pub fn glance_plan<M: DiskMaker>(
    alloc: Global,
    plan: &Plan,
    looks: &Looks,
    disks: &mut M,
    remains: &mut Remains,
) -> Result<(Items, Seens), RunError>
where
    M::D: Drop,
    requires is_plan { IsPlan plan.now }
    requires in_time { AreInTime plan.now looks.now }

    // Whatever the disks answered, the items are those of the schedule with these answers, and within the limits; the looks have seen what
    // stood there; and each disk keeps its actor where these answers led, after a limit too.
    ensures ran { IfOk result (λ seen. HasRunWithLooks M.D.Disk plan.now looks.now (reverse seen.0) seen.1 (M.given disks.old) (M.given disks.new)) }
    ensures within { IfOk result (λ seen. IsWithin (reverse seen.0)) }
    ensures limit { IfErr result (λ e. (which : Which) (number : ℕ) → e ≡ Why.Limit which number →
        (front : List Item) × HasStopped M.D.Disk plan.now front which number (M.given disks.old) (M.given disks.new)
        × (IsTrue (M.strict disks.old) → StrictLimitEnds plan.now front which number)) }

    // Over strict disks the plan and the looks alone fix them.
    ensures strict { IsTrue (M.strict disks.old) → IfOk result (λ seen. AreSeenStrictly plan.now looks.now (reverse seen.0) seen.1) }

    ensures kind { M.strict disks.new ≡ M.strict disks.old }
{
    let mut cluster = opened(alloc, plan, disks)?;
    let taken = glance(alloc, plan, looks, &mut cluster);
    let ended = cluster.finish(remains)?;
    give_back(disks, ended.disks)?;
    let seens = taken?;
    Ok((ended.items, seens))
}
