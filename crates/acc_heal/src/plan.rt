//! The run of a plan with its healing.
ghost use Rattle.std.specs.Prelude.{◌≡◌, ℕ, IsTrue, List, reverse, IfOk, IfErr};
ghost use Rattle.acc_message.specs.declared.error.Which.{Which};
ghost use Rattle.acc_message.specs.declared.error.RunError.{RunError as Why};
ghost use Rattle.acc_message.specs.declared.item.Item.{Item};
ghost use Rattle.acc_schedule.specs.Plan.{IsPlan};
ghost use Rattle.acc_schedule_runs.specs.Moves.{Answers};
ghost use Rattle.acc_schedule_runs.specs.Limits.{IsWithin};
ghost use Rattle.acc_heal_laws.specs.HealingFronts.{LimitEndsWithHealing, StrictLimitEndsWithHealing};
ghost use Rattle.acc_heal.specs.Healed.{HasRunHealing, HealsStrictlyTo};

use crate::healing::heal;
use acc_cluster::Remains;
use acc_message::{Items, RunError};
use acc_ports::DiskMaker;
use acc_run::{give_back, opened, take_all};
use acc_schedule::Plan;
use std::alloc::Global;

/// Takes all steps of a plan over new disks, from actors that have done nothing, heals, and gives the disks back at the end, in rising order
/// of the actors' numbers, and what the actors knew to `remains`. Past a limit, or without memory, there are no items, and the disks may be
/// gone.
pub fn heal_plan<M: DiskMaker>(
    alloc: Global,
    plan: &Plan,
    disks: &mut M,
    remains: &mut Remains,
) -> Result<Items, RunError>
where
    M::D: Drop,
    requires is_plan { IsPlan plan.now }

    // Whatever the disks answered, the items are those of the plan's run and its healing with these answers, and within the limits; and each
    // disk keeps its actor where these answers led.
    ensures ran { IfOk result (λ items. HasRunHealing M.D.Disk plan.now (reverse items) (M.given disks.old) (M.given disks.new)) }
    ensures within { IfOk result (λ items. IsWithin (reverse items)) }
    ensures limit { IfErr result (λ e. (which : Which) (number : ℕ) → e ≡ Why.Limit which number →
        (answers : Answers) × (front : List Item) × LimitEndsWithHealing plan.now answers front which number) }

    // Over strict disks the plan alone fixes them, and where a limit ends them.
    ensures strict { IsTrue (M.strict disks.old) → IfOk result (λ items. HealsStrictlyTo plan.now (reverse items)) }
    ensures strict_limit { IsTrue (M.strict disks.old) → IfErr result (λ e. (which : Which) (number : ℕ) → e ≡ Why.Limit which number →
        (front : List Item) × StrictLimitEndsWithHealing plan.now front which number) }

    ensures kind { M.strict disks.new ≡ M.strict disks.old }
{
    let mut cluster = opened(alloc, plan, disks)?;
    take_all(&mut cluster, plan)?;
    heal(alloc, plan, &mut cluster)?;
    let ended = cluster.finish(remains)?;
    give_back(disks, ended.disks)?;
    Ok(ended.items)
}
