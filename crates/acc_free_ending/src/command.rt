//! The commands of one actor.
ghost use Rattle.std.specs.Prelude.{◌≡◌, Bool, true, false, Contains, IfOk, IfErr, OnOk};
ghost use Rattle.acc_schedule.specs.Actors.{actors};
ghost use Rattle.acc_schedule.specs.Content.{Content};
ghost use Rattle.acc_schedule.specs.Plan.{IsPlan};
ghost use Rattle.acc_schedule.specs.declared.plan.Step.{Step as Command};
ghost use Rattle.acc_schedule_runs.specs.Situations.{Situation, whole};
ghost use Rattle.acc_schedule_runs.specs.Schedules.{cluster_of};
ghost use Rattle.acc_cluster.specs.Stands.{StandsFor};
ghost use Rattle.acc_cluster.specs.Steps.{IfLimit};
ghost use Rattle.acc_free_laws.specs.Commands.{is_command_of};
ghost use Rattle.acc_free_laws.specs.Serving.{HasGone};
ghost use Rattle.acc_free_ending.specs.Queues.{left_in};
ghost use Rattle.acc_free_ending.specs.Moves.{progress, Serves, IsTurn, HasMoved, EachWent, StopsFreely};

use crate::rest::Queue;
use acc_cluster::Cluster;
use acc_free_laws::laws::schedule_steps_serve;
use acc_message::RunError;
use acc_ports::Rig;
use acc_schedule::{Plan, Step};
use acc_stamp::Actor;

/// What is to be done with a command that is its actor's next one.
#[derive(Clone, Copy, Debug, PartialEq, Eq)]
pub(crate) enum Turn {
    /// It can be taken.
    Takes,
    /// It is passed over.
    Passes,
    /// It recovers what isn't begun so far.
    Waits,
}

// What is to be done with a begin.
fn begin_turn<D: Rig + Drop>(cluster: &Cluster<D>, actor: Actor, txn: u32) -> Turn
    ensures { (plan : Content) (s : Situation) → StandsFor D.Disk plan cluster.now s → IsTurn result actor (whole s) (Command.Begin txn) }
{
    if cluster.is_down(actor) {
        return Turn::Passes;
    }
    if cluster.is_begun(txn) {
        return Turn::Passes;
    }
    Turn::Takes
}

// What is to be done with a recover.
fn recover_turn<D: Rig + Drop>(cluster: &Cluster<D>, actor: Actor, txn: u32, node: u32) -> Turn
    ensures { (plan : Content) (s : Situation) → StandsFor D.Disk plan cluster.now s → IsTurn result actor (whole s) (Command.Recover txn node) }
{
    if cluster.is_down(actor) {
        return Turn::Passes;
    }
    if cluster.is_begun(txn) {
        return Turn::Takes;
    }
    Turn::Waits
}

// What is to be done with a command of an actor.
fn turn_of<D: Rig + Drop>(cluster: &Cluster<D>, actor: Actor, command: &Step) -> Turn
    requires { (plan : Content) × (is_command_of (cluster_of plan) actor command.now ≡ true) }
    ensures { (plan : Content) (s : Situation) → StandsFor D.Disk plan cluster.now s → IsTurn result actor (whole s) command.now }
{
    match *command {
        Step::Begin { txn } => begin_turn(cluster, actor, txn),
        Step::Recover { txn, node } => recover_turn(cluster, actor, txn, node),
        Step::Restart { .. } => Turn::Takes,
        Step::Deliver { .. }
        | Step::Drop { .. }
        | Step::Slow { .. }
        | Step::Fail { .. }
        | Step::Drain => Turn::Waits,
    }
}

// Takes the next command of an actor, or passes it over, and answers whether it went by.
fn take_command<D: Rig + Drop>(
    cluster: &mut Cluster<D>,
    plan: &Plan,
    queue: &mut Queue,
) -> Result<bool, RunError>
    requires is_plan { IsPlan plan.now }
    requires known { Contains (actors plan.now.topology) queue.old.actor }
    requires standing { (s : Situation) × Serves D.Disk false plan.now cluster.old s × HasGone plan.now s queue.old.actor (left_in queue.old) }
    ensures same { queue.new.actor ≡ queue.old.actor }
    ensures ok { IfOk result (λ went. (strict_run : Bool) (s : Situation) → Serves D.Disk strict_run plan.now cluster.old s → HasGone plan.now s queue.old.actor (left_in queue.old)
        → HasMoved D.Disk strict_run plan.now queue.old.actor (progress (left_in queue.old) (left_in queue.new) went) cluster.new s) }
    ensures limit { IfErr result (IfLimit (λ which most. (strict_run : Bool) (s : Situation) → Serves D.Disk strict_run plan.now cluster.old s → HasGone plan.now s queue.old.actor (left_in queue.old)
        → EachWent plan.now s → StopsFreely D.Disk strict_run plan.now s.own cluster.new which most)) }
{
    schedule_steps_serve();
    let commands = queue.commands.as_slice();
    if queue.gone >= commands.len() {
        return Ok(false);
    }
    let command = commands[queue.gone];
    match turn_of(cluster, queue.actor, &command) {
        Turn::Takes => {
            cluster.step(plan, 0, &command)?;
            queue.gone += 1;
            Ok(true)
        }
        Turn::Passes => {
            queue.gone += 1;
            Ok(true)
        }
        Turn::Waits => Ok(false),
    }
}

/// Takes the next commands of an actor as long as they can be taken or are passed over, and answers whether any went by.
pub(crate) fn take_commands<D: Rig + Drop>(
    cluster: &mut Cluster<D>,
    plan: &Plan,
    queue: &mut Queue,
) -> Result<bool, RunError>
    requires is_plan { IsPlan plan.now }
    requires known { Contains (actors plan.now.topology) queue.old.actor }
    requires standing { (s : Situation) × Serves D.Disk false plan.now cluster.old s × HasGone plan.now s queue.old.actor (left_in queue.old) }
    ensures same { queue.new.actor ≡ queue.old.actor }
    ensures ok { IfOk result (λ went. (strict_run : Bool) (s : Situation) → Serves D.Disk strict_run plan.now cluster.old s → HasGone plan.now s queue.old.actor (left_in queue.old)
        → HasMoved D.Disk strict_run plan.now queue.old.actor (progress (left_in queue.old) (left_in queue.new) went) cluster.new s) }
    ensures limit { IfErr result (IfLimit (λ which most. (strict_run : Bool) (s : Situation) → Serves D.Disk strict_run plan.now cluster.old s → HasGone plan.now s queue.old.actor (left_in queue.old)
        → EachWent plan.now s → StopsFreely D.Disk strict_run plan.now s.own cluster.new which most)) }
{
    let mut went = false;
    'commands: while take_command(cluster, plan, queue)? {
        went = true;
    }
    Ok(went)
}
