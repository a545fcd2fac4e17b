//! The steps of a plan.
ghost use Rattle.std.specs.Prelude.{List, [], IfErr, OnOk};
ghost use Rattle.acc_message.specs.declared.item.Item.{Item};
ghost use Rattle.acc_schedule.specs.Plan.{IsPlan};
ghost use Rattle.acc_schedule_runs.specs.Situations.{opened as opened_behind};
ghost use Rattle.acc_schedule_runs.specs.StrictMoves.{opened_strictly};
ghost use Rattle.acc_schedule_runs.specs.StrictFronts.{StrictLimitEnds};
ghost use Rattle.acc_cluster.specs.Stands.{StandsFor, StandsStrictly};
ghost use Rattle.acc_cluster.specs.Limits.{HasEntered};
ghost use Rattle.acc_cluster.specs.Steps.{IfLimit};
ghost use Rattle.acc_run.specs.Taken.{HasTaken, HasTakenStrictly, IsStopped};

use acc_cluster::Cluster;
use acc_message::RunError;
use acc_ports::Rig;
use acc_schedule::Plan;
use acc_schedule_runs::follow::runs_are_made_step_by_step;
use acc_schedule_runs::limits::{
    a_limit_or_the_whole_over_strict_disks, fronts_are_made_step_by_step,
};
use acc_schedule_runs::strict::strict_runs_are_made_step_by_step;

/// Takes all steps of a plan, numbered from 0. After a limit the items that were entered stay.
pub fn take_all<D: Rig + Drop>(cluster: &mut Cluster<D>, plan: &Plan) -> Result<(), RunError>
    requires is_plan { IsPlan plan.now }
    requires stands { StandsFor D.Disk plan.now cluster.old (opened_behind []) }

    ensures ok { OnOk result (HasTaken D.Disk plan.now cluster.new plan.now.steps) }
    ensures limit { IfErr result (IfLimit (λ which most. (items : List Item) × IsStopped D.Disk plan.now cluster.new items which most)) }

    ensures strict { StandsStrictly D.Disk plan.now cluster.old (opened_strictly [])
        → OnOk result (HasTakenStrictly D.Disk plan.now cluster.new plan.now.steps) }
    ensures strict_limit { StandsStrictly D.Disk plan.now cluster.old (opened_strictly [])
        → IfErr result (IfLimit (λ which most. (items : List Item) × StrictLimitEnds plan.now items which most × HasEntered cluster.new items)) }
{
    runs_are_made_step_by_step();
    strict_runs_are_made_step_by_step();
    fronts_are_made_step_by_step();
    a_limit_or_the_whole_over_strict_disks();
    let mut number: u32 = 0;
    for step in plan.steps.as_slice() {
        cluster.step(plan, number, step)?;
        number += 1;
    }
    Ok(())
}
