//! The rounds in which a cluster finishes.
ghost use Rattle.std.specs.Prelude.{◌≡◌, Bool, false, map, IfOk, IfErr, OnOk};
ghost use Rattle.acc_schedule.specs.Plan.{IsPlan};
ghost use Rattle.acc_schedule_runs.specs.Situations.{Situation};
ghost use Rattle.acc_cluster.specs.Steps.{IfLimit};
ghost use Rattle.acc_free_ending.specs.Queues.{actor_in, AreAllActors, HaveGone};
ghost use Rattle.acc_free_ending.specs.Moves.{progress, Serves, HasGoneRound, IsEmptied, HasEnded, EachWent, StopsFreely};

use crate::command::take_commands;
use crate::rest::Queues;
use acc_cluster::Cluster;
use acc_free_laws::laws::schedule_steps_serve;
use acc_message::RunError;
use acc_ports::Rig;
use acc_schedule::{Plan, Step};

// Delivers all messages that wait, and those that come meanwhile.
fn drain<D: Rig + Drop>(cluster: &mut Cluster<D>, plan: &Plan) -> Result<(), RunError>
    requires is_plan { IsPlan plan.now }
    requires standing { (s : Situation) × Serves D.Disk false plan.now cluster.old s }
    ensures ok { OnOk result ((strict_run : Bool) (s : Situation) → Serves D.Disk strict_run plan.now cluster.old s → IsEmptied D.Disk strict_run plan.now cluster.new s) }
    ensures limit { IfErr result (IfLimit (λ which most. (strict_run : Bool) (s : Situation) → Serves D.Disk strict_run plan.now cluster.old s → EachWent plan.now s → StopsFreely D.Disk strict_run plan.now s.own cluster.new which most)) }
{
    schedule_steps_serve();
    cluster.step(plan, 0, &Step::Drain)
}

// Each actor takes its next commands. Answers whether any went by.
fn round<D: Rig + Drop>(
    cluster: &mut Cluster<D>,
    plan: &Plan,
    queues: &mut Queues,
) -> Result<bool, RunError>
    requires is_plan { IsPlan plan.now }
    requires actors { AreAllActors plan.now (map actor_in queues.old.items) }
    requires standing { (s : Situation) × Serves D.Disk false plan.now cluster.old s × HaveGone plan.now s queues.old.items }
    ensures same { OnOk result (map actor_in queues.new.items ≡ map actor_in queues.old.items) }
    ensures ok { IfOk result (λ went. (strict_run : Bool) (s : Situation) → Serves D.Disk strict_run plan.now cluster.old s → HaveGone plan.now s queues.old.items
        → HasGoneRound D.Disk strict_run plan.now (progress queues.old.items queues.new.items went) cluster.new s) }
    ensures limit { IfErr result (IfLimit (λ which most. (strict_run : Bool) (s : Situation) → Serves D.Disk strict_run plan.now cluster.old s → HaveGone plan.now s queues.old.items
        → StopsFreely D.Disk strict_run plan.now s.own cluster.new which most)) }
{
    let mut went = false;
    for place in 0..queues.len() {
        if take_commands(cluster, plan, &mut queues[place])? {
            went = true;
        }
    }
    Ok(went)
}

/// Delivers what waits, and goes round until no command goes by any more, with all deliveries after each round.
pub(crate) fn rounds<D: Rig + Drop>(
    cluster: &mut Cluster<D>,
    plan: &Plan,
    queues: &mut Queues,
) -> Result<(), RunError>
    requires is_plan { IsPlan plan.now }
    requires actors { AreAllActors plan.now (map actor_in queues.old.items) }
    requires standing { (s : Situation) × Serves D.Disk false plan.now cluster.old s × HaveGone plan.now s queues.old.items }
    ensures same { OnOk result (map actor_in queues.new.items ≡ map actor_in queues.old.items) }
    ensures ok { OnOk result ((strict_run : Bool) (s : Situation) → Serves D.Disk strict_run plan.now cluster.old s → HaveGone plan.now s queues.old.items
        → HasEnded D.Disk strict_run plan.now queues.new.items cluster.new s) }
    ensures limit { IfErr result (IfLimit (λ which most. (strict_run : Bool) (s : Situation) → Serves D.Disk strict_run plan.now cluster.old s → HaveGone plan.now s queues.old.items
        → StopsFreely D.Disk strict_run plan.now s.own cluster.new which most)) }
{
    drain(cluster, plan)?;
    'rounds: while round(cluster, plan, queues)? {
        drain(cluster, plan)?;
    }
    Ok(())
}
