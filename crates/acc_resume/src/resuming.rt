//! A plan's steps after an earlier run.
ghost use Rattle.std.specs.Prelude.{◌≡◌, ℕ, reverse, IfOk, IfErr};
ghost use Rattle.acc_message.specs.declared.error.Which.{Which};
ghost use Rattle.acc_message.specs.declared.error.RunError.{RunError as Why};
ghost use Rattle.acc_schedule.specs.Plan.{IsPlan};
ghost use Rattle.acc_left.specs.Rules.{AreLeft};
ghost use Rattle.acc_resume.specs.Resumed.{ALimitEndsAfter, GoesOnTo, OfEachRun};

use crate::opening::opened;
use crate::steps::take_all;
use acc_cluster::Remains;
use acc_left::Images;
use acc_message::{Items, RunError};
use acc_plan_laws::laws::plans_are_valid;
use acc_safety_laws::every_run::{agreement, coverage, serial};
use acc_schedule::Plan;
use acc_schedule_runs::strict::strict_disks_give_answers;
use std::alloc::Global;

/// Opens each actor of the plan from its journal among the images, over a strict disk of its own, and takes all steps
/// of the plan. An actor that has no image has an empty journal. What the actors knew goes to `remains`. The images
/// are those that `read_left` gave with the plan.
///
/// Journals that break no rule need not be those of a run. Then it ends with some items, past a limit, or for want of
/// memory, which comes too where an actor would be asked for what no run asks.
pub fn resume(
    alloc: Global,
    plan: &Plan,
    images: &Images,
    remains: &mut Remains,
) -> Result<Items, RunError>
    requires is_plan { IsPlan plan.now }
    requires left { AreLeft plan.now images.now }

    // After whatever run left the images, the items are those of the plan's steps over strict disks, within the
    // limits, and both are one safe run.
    ensures ran { IfOk result (λ items. OfEachRun plan.now images.now (λ earlier. GoesOnTo plan.now earlier (reverse items))) }

    // A limit ends the items of just that.
    ensures limit { IfErr result (λ e. (which : Which) (number : ℕ) → e ≡ Why.Limit which number →
        OfEachRun plan.now images.now (λ earlier. ALimitEndsAfter plan.now earlier which number)) }
{
    plans_are_valid();
    strict_disks_give_answers();
    agreement();
    coverage();
    serial();
    let mut cluster = opened(alloc, plan, images.as_slice())?;
    let taken = take_all(&mut cluster, plan);
    let ended = cluster.finish(remains)?;
    taken?;
    Ok(ended.items)
}
