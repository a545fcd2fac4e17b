//! The steps of a plan in a cluster that was opened from journals.
ghost use Rattle.std.specs.Prelude.{List, IfErr, OnOk};
ghost use Rattle.acc_message.specs.declared.item.Item.{Item};
ghost use Rattle.acc_schedule.specs.Plan.{IsPlan};
ghost use Rattle.acc_schedule_runs.specs.StrictMoves.{opened_strictly};
ghost use Rattle.acc_cluster.specs.Stands.{StandsStrictly};
ghost use Rattle.acc_cluster.specs.Steps.{IfLimit};
ghost use Rattle.acc_cluster.specs.Tested.{IsTested};
ghost use Rattle.acc_resume.specs.Resumed.{ALimitEndsAfter};
ghost use Rattle.acc_resume.specs.Taken.{HasTakenAfter};

use acc_cluster::TestedCluster;
use acc_message::RunError;
use acc_ports::Rig;
use acc_schedule::Plan;
use acc_schedule_runs::limits::a_limit_or_the_whole_over_strict_disks;
use acc_schedule_runs::strict::strict_runs_are_made_step_by_step;

/// Takes all steps of a plan, numbered from 0. After an error no step may follow.
pub(crate) fn take_all<D: Rig + Drop>(
    cluster: &mut TestedCluster<D>,
    plan: &Plan,
) -> Result<(), RunError>
    requires is_plan { IsPlan plan.now }
    requires tested { IsTested D.Disk plan.now cluster.old.cluster }
    ensures ok { OnOk result ((earlier : List Item) → StandsStrictly D.Disk plan.now cluster.old.cluster (opened_strictly earlier)
        → HasTakenAfter D.Disk plan.now earlier cluster.new.cluster plan.now.steps) }
    ensures limit { IfErr result (IfLimit (λ which most. (earlier : List Item) → StandsStrictly D.Disk plan.now cluster.old.cluster (opened_strictly earlier)
        → ALimitEndsAfter plan.now earlier which most)) }
{
    strict_runs_are_made_step_by_step();
    a_limit_or_the_whole_over_strict_disks();
    let mut number: u32 = 0;
    for step in plan.steps.as_slice() {
        cluster.step(plan, number, step)?;
        number += 1;
    }
    Ok(())
}
