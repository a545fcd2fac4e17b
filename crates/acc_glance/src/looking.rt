//! The looks over the run of a plan.
ghost use Rattle.std.specs.Prelude.{◌≡◌, ◌≤◌, ℕ, Bool, true, false, List, [], length, map, IfOk, IfErr, OnOk};
ghost use Rattle.std.specs.List.{AllByRecursion};
ghost use Rattle.acc_message.specs.declared.item.Item.{Item};
ghost use Rattle.acc_schedule.specs.Plan.{IsPlan};
ghost use Rattle.acc_schedule_runs.specs.Situations.{opened as opened_behind};
ghost use Rattle.acc_schedule_runs.specs.StrictMoves.{opened_strictly};
ghost use Rattle.acc_schedule_runs.specs.StrictFronts.{StrictLimitEnds};
ghost use Rattle.acc_cluster.specs.Stands.{StandsFor, StandsStrictly};
ghost use Rattle.acc_cluster.specs.Limits.{HasEntered};
ghost use Rattle.acc_cluster.specs.Steps.{IfLimit};
ghost use Rattle.acc_run.specs.Taken.{IsStopped};
ghost use Rattle.acc_glance.specs.Documents.{AreInTime};
ghost use Rattle.acc_glance.specs.Stages.{has_ended};
ghost use Rattle.acc_glance.specs.Visits.{HasReplicas, IsLed};
ghost use Rattle.acc_glance.specs.Runs.{HasLooked};
ghost use Rattle.acc_glance.specs.UnderWay.{IsUnderWay};

use crate::looks::Looks;
use crate::seen::Seens;
use crate::sights::{find_moments, findings, seens};
use crate::visits::{Moment, Visitor, are_over, visit_all, visitors};
use acc_base::OutOfMemory;
use acc_cluster::Cluster;
use acc_glance_laws::laws::{oldest_items_stay, what_is_read_was_there};
use acc_message::RunError;
use acc_ports::Rig;
use acc_schedule::Plan;
use acc_schedule_runs::follow::runs_are_made_step_by_step;
use acc_schedule_runs::limits::{
    a_limit_or_the_whole_over_strict_disks, fronts_are_made_step_by_step,
};
use acc_schedule_runs::strict::{strict_disks_give_answers, strict_runs_are_made_step_by_step};
use std::alloc::Global;

/// After the last step each phase of a look visits each of at most 16 nodes once, and then no visit is left.
const MOST_MOMENTS: u32 = 33;

/// Takes all steps of a plan, numbered from 0, in a cluster that has taken none, and lets each look make its visits between them. After a
/// limit the items that were entered stay.
pub fn glance<D: Rig + Drop>(
    alloc: Global,
    plan: &Plan,
    looks: &Looks,
    cluster: &mut Cluster<D>,
) -> Result<Seens, RunError>
    requires is_plan { IsPlan plan.now }
    requires in_time { AreInTime plan.now looks.now }
    requires stands { StandsFor D.Disk plan.now cluster.old (opened_behind []) }

    ensures ok { IfOk result (λ seens. HasLooked false D.Disk plan.now looks.now cluster.new seens) }
    ensures limit { IfErr result (IfLimit (λ which most. (items : List Item) × IsStopped D.Disk plan.now cluster.new items which most)) }

    ensures strict { StandsStrictly D.Disk plan.now cluster.old (opened_strictly [])
        → IfOk result (λ seens. HasLooked true D.Disk plan.now looks.now cluster.new seens) }
    ensures strict_limit { StandsStrictly D.Disk plan.now cluster.old (opened_strictly [])
        → IfErr result (IfLimit (λ which most. (items : List Item) × StrictLimitEnds plan.now items which most × HasEntered cluster.new items)) }
{
    let mut visitors = visitors(alloc, plan, looks)?;
    take_steps(alloc, plan, cluster, &mut visitors)?;
    finish_visits(alloc, plan, cluster, &mut visitors)?;
    let mut findings = findings(alloc, visitors)?;
    find_moments(alloc, plan, cluster.items(), &mut findings)?;
    what_is_read_was_there();
    oldest_items_stay();
    Ok(seens(alloc, findings.as_slice())?)
}

// Takes the steps, with the visits of the moment before each of them.
fn take_steps<D: Rig + Drop>(
    alloc: Global,
    plan: &Plan,
    cluster: &mut Cluster<D>,
    visitors: &mut Vec<Visitor>,
) -> Result<(), RunError>
    requires is_plan { IsPlan plan.now }
    requires stands { StandsFor D.Disk plan.now cluster.old (opened_behind []) }
    requires replicas { AllByRecursion (HasReplicas plan.now) visitors.old.items }
    requires begins { AllByRecursion (IsLed plan.now []) visitors.old.items }

    ensures looks { OnOk result (map (λ v. v.look) visitors.new.items ≡ map (λ v. v.look) visitors.old.items) }
    ensures replicas { OnOk result (AllByRecursion (HasReplicas plan.now) visitors.new.items) }
    ensures ok { OnOk result (IsUnderWay false D.Disk plan.now cluster.new visitors.new.items (length plan.now.steps)) }
    ensures limit { IfErr result (IfLimit (λ which most. (items : List Item) × IsStopped D.Disk plan.now cluster.new items which most)) }

    ensures strict { StandsStrictly D.Disk plan.now cluster.old (opened_strictly [])
        → OnOk result (IsUnderWay true D.Disk plan.now cluster.new visitors.new.items (length plan.now.steps)) }
    ensures strict_limit { StandsStrictly D.Disk plan.now cluster.old (opened_strictly [])
        → IfErr result (IfLimit (λ which most. (items : List Item) × StrictLimitEnds plan.now items which most × HasEntered cluster.new items)) }
{
    runs_are_made_step_by_step();
    strict_runs_are_made_step_by_step();
    strict_disks_give_answers();
    fronts_are_made_step_by_step();
    a_limit_or_the_whole_over_strict_disks();
    let mut number: u32 = 0;
    for step in plan.steps.as_slice() {
        let moment = Moment {
            number,
            over: false,
        };
        visit_all(alloc, plan, cluster, moment, visitors)?;
        cluster.step(plan, number, step)?;
        number += 1;
    }
    Ok(())
}

// Makes the visits of the moments after the last step, until no look has one left.
fn finish_visits<D: Rig + Drop>(
    alloc: Global,
    plan: &Plan,
    cluster: &Cluster<D>,
    visitors: &mut Vec<Visitor>,
) -> Result<(), OutOfMemory>
    requires is_plan { IsPlan plan.now }
    requires in_time { AreInTime plan.now (map (λ v. v.look) visitors.old.items) }
    requires replicas { AllByRecursion (HasReplicas plan.now) visitors.old.items }
    ensures looks { OnOk result (map (λ v. v.look) visitors.new.items ≡ map (λ v. v.look) visitors.old.items) }
    ensures ok { OnOk result ((strictly : Bool) → IsUnderWay strictly D.Disk plan.now cluster.now visitors.old.items (length plan.now.steps)
        → (count : ℕ) × (length plan.now.steps ≤ count) × IsUnderWay strictly D.Disk plan.now cluster.now visitors.new.items count) }
    ensures ended { OnOk result (IsUnderWay false D.Disk plan.now cluster.now visitors.old.items (length plan.now.steps)
        → AllByRecursion (λ v. has_ended v.stage ≡ true) visitors.new.items) }
{
    let steps = plan.steps.len() as u32;
    for more in 0..MOST_MOMENTS {
        if are_over(visitors.as_slice()) {
            return Ok(());
        }
        let moment = Moment {
            number: steps + more,
            over: true,
        };
        visit_all(alloc, plan, cluster, moment, visitors)?;
    }
    Ok(())
}
