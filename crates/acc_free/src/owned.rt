//! The commands of an actor in the schedule of a plan.
ghost use Rattle.std.specs.Prelude.{◌≡◌, unwrap_or, IfOk};
ghost use Rattle.std.specs.List.{slice_get};
ghost use Rattle.acc_stamp.specs.Actor.{actor_of};
ghost use Rattle.acc_message.specs.Items.{same_actor};
ghost use Rattle.acc_schedule_runs.specs.Schedules.{cluster_of};
ghost use Rattle.acc_free_laws.specs.Commands.{is_command_of as is_its_command, commands_of as its_commands};

use acc_base::OutOfMemory;
use acc_schedule::{Plan, Step, Steps};
use acc_stamp::Actor;
use std::alloc::Global;

/// The commands of an actor, in their order.
pub(crate) fn commands_of(alloc: Global, plan: &Plan, actor: Actor) -> Result<Steps, OutOfMemory>
    ensures { IfOk result (λ commands. commands ≡ its_commands plan.now actor) }
{
    let mut commands = Steps::new(alloc);
    for step in plan.steps.as_slice() {
        if is_command_of(plan, actor, step) {
            commands.push(*step)?;
        }
    }
    Ok(commands)
}

// Whether a step is a command of an actor.
fn is_command_of(plan: &Plan, actor: Actor, step: &Step) -> bool
    ensures { result ≡ is_its_command (cluster_of plan.now) actor step.now }
{
    match *step {
        Step::Begin { txn } => is_node(home_of(plan, txn), actor),
        Step::Recover { txn: _, node } => is_node(node, actor),
        Step::Restart {
            actor: own,
            choice: _,
        } => own.0 == actor.0,
        Step::Deliver { .. }
        | Step::Drop { .. }
        | Step::Slow { .. }
        | Step::Fail { .. }
        | Step::Drain => false,
    }
}

// The node of a transaction.
fn home_of(plan: &Plan, txn: u32) -> u32
    ensures { result ≡ unwrap_or (slice_get plan.now.homes txn) 0 }
{
    match plan.homes.as_slice().get(txn as usize) {
        Some(home) => *home,
        None => 0,
    }
}

// Whether an actor is the node with this number.
fn is_node(number: u32, actor: Actor) -> bool
    ensures { result ≡ same_actor (actor_of number 0) actor }
{
    u64::from(number) * 64 == u64::from(actor.0)
}
