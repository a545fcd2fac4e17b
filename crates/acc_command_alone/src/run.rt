//! The command `run`.
ghost use Rattle.std.specs.Prelude.{◌≡◌, ◌≤◌, length, IfOk};
ghost use Rattle.acc_schedule.specs.Plan.{IsPlan};
ghost use Rattle.acc_command_alone.specs.declared.words.Command.TheVariants.{Run};
ghost use Rattle.acc_command_alone.specs.Ends.{document_limit};
ghost use Rattle.acc_command_alone.specs.Command.{IsDue, OverDisks, PlanEnds};

use crate::lines::{limit_line, refusal_line};
use crate::reading::read_plan;
use crate::remains::Remains;
use crate::reply::Reply;
use crate::status::Status;
use acc_base::{Bytes, OutOfMemory, Sequence};
use acc_message::RunError;
use acc_plan_laws::laws::plans_run_safely;
use acc_ports::DiskMaker;
use acc_report::text;
use acc_run::run_plan;
use acc_schedule::Plan;
use std::alloc::Global;

/// Runs the schedule of a document over disks of this maker, and tells what happened.
pub(crate) fn run<M: DiskMaker>(
    alloc: Global,
    bytes: Bytes,
    disks: &mut M,
    remains: &mut Remains,
) -> Result<Reply, OutOfMemory>
where
    M::D: Drop,
    requires { length bytes ≤ document_limit }
    ensures { IfOk result (λ reply. IsDue (OverDisks M.D.Disk (M.strict disks.old) (M.given disks.old) (M.given disks.new)) Run bytes reply.status reply.text) }
{
    match read_plan(alloc, bytes) {
        Ok(plan) => {
            let reply = report(alloc, &plan, disks, remains);
            remains.plan = Some(plan);
            reply
        }
        Err(error) => Ok(Reply {
            status: Status::BadInput,
            text: refusal_line(alloc, &error)?,
        }),
    }
}

// The report of a plan, or the line of the limit that ends its run.
fn report<M: DiskMaker>(
    alloc: Global,
    plan: &Plan,
    disks: &mut M,
    remains: &mut Remains,
) -> Result<Reply, OutOfMemory>
where
    M::D: Drop,
    requires { IsPlan plan.now }
    ensures { IfOk result (λ reply. PlanEnds (OverDisks M.D.Disk (M.strict disks.old) (M.given disks.old) (M.given disks.new)) plan.now reply.status reply.text) }
{
    plans_run_safely();
    match run_plan(alloc, plan, disks, &mut remains.actors) {
        Ok(items) => {
            let text = text(&items, &Sequence::new(alloc), &plan.names, plan.print)?;
            remains.items = Some(items);
            Ok(Reply {
                status: Status::Done,
                text,
            })
        }
        Err(RunError::Limit { which, number }) => Ok(Reply {
            status: Status::Limit,
            text: limit_line(alloc, which, number)?,
        }),
        Err(RunError::OutOfMemory) => Err(OutOfMemory),
    }
}
