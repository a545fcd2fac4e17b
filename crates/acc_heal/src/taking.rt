//! Steps that are due in a healing.
ghost use Rattle.std.specs.Prelude.{◌≡◌, ◌+◌, IfOk, IfErr, OnOk};
ghost use Rattle.acc_schedule.specs.Plan.{IsPlan};
ghost use Rattle.acc_cluster.specs.Steps.{IfLimit};
ghost use Rattle.acc_heal.specs.Places.{IsDue, TookDue, StandsIn, Leads, EndsWithin};

use acc_base::OutOfMemory;
use acc_cluster::Cluster;
use acc_heal_laws::laws::healings_go_step_by_step;
use acc_message::RunError;
use acc_ports::Rig;
use acc_schedule::{Plan, Step};

// Steps that can't be numbered with 32 bits are more than memory holds.
fn next_number(number: u32) -> Result<u32, OutOfMemory>
    ensures { IfOk result (λ next. next ≡ number + 1) }
{
    number.checked_add(1).ok_or(OutOfMemory)
}

/// Takes the step that is due, which has this number, and counts it.
pub(crate) fn take<D: Rig + Drop>(
    plan: &Plan,
    cluster: &mut Cluster<D>,
    number: &mut u32,
    step: &Step,
) -> Result<(), RunError>
    requires is_plan { IsPlan plan.now }
    requires standing { StandsIn D.Disk plan.now cluster.old (IsDue plan.now number.old step.now) }
    ensures ok { OnOk result (Leads D.Disk plan.now cluster.old cluster.new (IsDue plan.now number.old step.now) (TookDue plan.now number.new)) }
    ensures limit { IfErr result (IfLimit (EndsWithin D.Disk plan.now cluster.old (IsDue plan.now number.old step.now))) }
{
    healings_go_step_by_step();
    cluster.step(plan, *number, step)?;
    let next = next_number(*number)?;
    *number = next;
    Ok(())
}
