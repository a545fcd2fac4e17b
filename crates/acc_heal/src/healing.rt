//! The healing of a cluster.
ghost use Rattle.std.specs.Prelude.{◌≡◌, List, length, IfErr, OnOk};
ghost use Rattle.acc_message.specs.declared.item.Item.{Item};
ghost use Rattle.acc_schedule.specs.Plan.{IsPlan};
ghost use Rattle.acc_schedule_runs.specs.Moves.{Answers};
ghost use Rattle.acc_cluster.specs.Steps.{IfLimit};
ghost use Rattle.acc_run.specs.Taken.{HasTaken, HasTakenStrictly};
ghost use Rattle.acc_heal_laws.specs.HealingFronts.{LimitEndsWithHealing, StrictLimitEndsWithHealing};
ghost use Rattle.acc_heal.specs.Healed.{HasHealed, HasHealedStrictly};
ghost use Rattle.acc_heal.specs.Places.{IsReopened, IsReopening, StandsIn, Leads, EndsWithin};

use crate::reopening::reopening;
use crate::taking::take;
use crate::turns::take_turns;
use acc_cluster::Cluster;
use acc_message::RunError;
use acc_ports::Rig;
use acc_schedule::{Plan, Step};
use acc_schedule_runs::strict::strict_disks_give_answers;
use std::alloc::Global;

/// Finishes what the plan's run left open, in a cluster that has taken all steps of the plan. Its steps have the numbers after theirs: every
/// actor comes back, all messages are delivered, and each begun transaction of which some store lacks the outcome is recovered, in rising
/// order of the ids. After an error the cluster takes no step any more.
pub fn heal<D: Rig + Drop>(
    alloc: Global,
    plan: &Plan,
    cluster: &mut Cluster<D>,
) -> Result<(), RunError>
    requires is_plan { IsPlan plan.now }
    requires taken { HasTaken D.Disk plan.now cluster.old plan.now.steps }

    ensures ok { OnOk result ((taken : HasTaken D.Disk plan.now cluster.old plan.now.steps) → HasHealed D.Disk plan.now taken.last cluster.new) }
    ensures limit { IfErr result (IfLimit (λ which most. (answers : Answers) × (front : List Item) × LimitEndsWithHealing plan.now answers front which most)) }

    ensures strict { OnOk result ((taken : HasTakenStrictly D.Disk plan.now cluster.old plan.now.steps) → HasHealedStrictly D.Disk plan.now taken.last cluster.new) }
    ensures strict_limit { HasTakenStrictly D.Disk plan.now cluster.old plan.now.steps
        → IfErr result (IfLimit (λ which most. (front : List Item) × StrictLimitEndsWithHealing plan.now front which most)) }
{
    strict_disks_give_answers();
    let mut number = first_number(plan);
    reopen(alloc, plan, cluster, &mut number)?;
    take(plan, cluster, &mut number, &Step::Drain)?;
    take_turns(alloc, plan, cluster, &mut number)
}

// The number of the first step after those of the plan.
fn first_number(plan: &Plan) -> u32
    requires { IsPlan plan.now }
    ensures { result ≡ length plan.now.steps }
{
    plan.steps.len() as u32
}

// Takes the steps of the reopening.
fn reopen<D: Rig + Drop>(
    alloc: Global,
    plan: &Plan,
    cluster: &mut Cluster<D>,
    number: &mut u32,
) -> Result<(), RunError>
    requires is_plan { IsPlan plan.now }
    requires standing { StandsIn D.Disk plan.now cluster.old (IsReopening plan.now number.old) }
    ensures ok { OnOk result (Leads D.Disk plan.now cluster.old cluster.new (IsReopening plan.now number.old) (λ place now. IsReopened number.new now)) }
    ensures limit { IfErr result (IfLimit (EndsWithin D.Disk plan.now cluster.old (IsReopening plan.now number.old))) }
{
    let steps = reopening(alloc, plan, cluster)?;
    for step in steps.as_slice() {
        take(plan, cluster, number, step)?;
    }
    Ok(())
}
