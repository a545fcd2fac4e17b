//! The cluster of a plan, opened from journals.
ghost use Rattle.std.specs.Prelude.{IfOk};
ghost use Rattle.acc_schedule.specs.Plan.{IsPlan};
ghost use Rattle.acc_schedule_runs.specs.StrictMoves.{opened_strictly};
ghost use Rattle.acc_cluster.specs.Stands.{StandsStrictly};
ghost use Rattle.acc_cluster.specs.Tested.{IsTested};
ghost use Rattle.acc_left.specs.Rules.{AreLeft};
ghost use Rattle.acc_resume.specs.Opened.{memory};
ghost use Rattle.acc_resume.specs.Resumed.{OfEachRun};

use crate::nodes::nodes_of;
use crate::stores::stores_of;
use acc_base::OutOfMemory;
use acc_cluster::TestedCluster;
use acc_left::Image;
use acc_left_laws::laws::left_runs_go_on;
use acc_plan_laws::laws::{plans_are_valid, plans_have_few_bodies};
use acc_ports::MemDisk;
use acc_schedule::Plan;
use std::alloc::Global;

/// The cluster of the plan's actors, each opened from its journal among these, over a disk of its own. It stands for
/// each run that left them.
pub(crate) fn opened(
    alloc: Global,
    plan: &Plan,
    images: &[Image],
) -> Result<TestedCluster<MemDisk>, OutOfMemory>
    requires is_plan { IsPlan plan.now }
    requires left { AreLeft plan.now images.now }
    ensures tested { IfOk result (λ opened. IsTested memory plan.now opened.cluster) }
    ensures stands { IfOk result (λ opened. OfEachRun plan.now images.now (λ earlier.
        StandsStrictly memory plan.now opened.cluster (opened_strictly earlier))) }
{
    plans_are_valid();
    plans_have_few_bodies();
    left_runs_go_on();
    let nodes = nodes_of(alloc, plan, images)?;
    let stores = stores_of(alloc, plan, images)?;
    TestedCluster::of(alloc, plan, nodes, stores)
}
