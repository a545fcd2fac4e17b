//! The command `heal`.
ghost use Rattle.std.specs.Prelude.{◌≡◌, ◌≤◌, length, IfOk};
ghost use Rattle.acc_schedule.specs.Plan.{IsPlan};
ghost use Rattle.acc_command_alone.specs.declared.words.Command.TheVariants.{Run};
ghost use Rattle.acc_command_alone.specs.Streams.{streams_of};
ghost use Rattle.acc_command_alone.specs.Ends.{document_limit};
ghost use Rattle.acc_command_alone.specs.Responds.{Responds};
ghost use Rattle.acc_command_alone.specs.Command.{DoesOn, IsDue, PlanEnds};
ghost use Rattle.acc_command_alone.specs.Healing.{OverHealing};

use crate::lines::{limit_line, refusal_line};
use crate::reading::read_plan;
use crate::remains::Remains;
use crate::reply::Reply;
use crate::respond::{read_document, tell};
use crate::status::Status;
use acc_base::{Bytes, OutOfMemory, Sequence};
use acc_heal::heal_plan;
use acc_heal::laws::{healed_runs_are_safe, healings_heal};
use acc_heal_laws::laws::one_healing_limit_over_strict_disks;
use acc_message::RunError;
use acc_ports::{DiskMaker, Sink, Source};
use acc_report::text;
use acc_schedule::Plan;
use std::alloc::Global;

/// Reads a document, runs its schedule over disks of this maker, heals what the run left open, and tells what happened.
pub(crate) fn heal<S: Source, K: Sink, M: DiskMaker>(
    alloc: Global,
    source: &mut S,
    sink: &mut K,
    disks: &mut M,
    remains: &mut Remains,
) -> Status
where
    M::D: Drop,
    ensures { Responds (IsDue (OverHealing M.D.Disk (M.strict disks.old) (M.given disks.old) (M.given disks.new)) Run) (DoesOn Run) (streams_of S.Source K.Sink source.old sink.old) (streams_of S.Source K.Sink source.new sink.new) result }
{
    match read_document(alloc, source, sink) {
        Ok(bytes) => tell(sink, reply(alloc, bytes, disks, remains)),
        Err(status) => status,
    }
}

// What is answered to a document.
fn reply<M: DiskMaker>(
    alloc: Global,
    bytes: Bytes,
    disks: &mut M,
    remains: &mut Remains,
) -> Result<Reply, OutOfMemory>
where
    M::D: Drop,
    requires { length bytes ≤ document_limit }
    ensures { IfOk result (λ reply. IsDue (OverHealing M.D.Disk (M.strict disks.old) (M.given disks.old) (M.given disks.new)) Run bytes reply.status reply.text) }
{
    match read_plan(alloc, bytes) {
        Ok(plan) => {
            let reply = report(alloc, &plan, disks, remains);
            remains.plan = Some(plan);
            reply
        }
        Err(error) => Ok(Reply {
            status: Status::BadInput,
            text: refusal_line(alloc, &error)?,
        }),
    }
}

// The report of a plan with its healing, or the line of the limit that ends them.
fn report<M: DiskMaker>(
    alloc: Global,
    plan: &Plan,
    disks: &mut M,
    remains: &mut Remains,
) -> Result<Reply, OutOfMemory>
where
    M::D: Drop,
    requires { IsPlan plan.now }
    ensures { IfOk result (λ reply. PlanEnds (OverHealing M.D.Disk (M.strict disks.old) (M.given disks.old) (M.given disks.new)) plan.now reply.status reply.text) }
{
    healed_runs_are_safe();
    healings_heal();
    one_healing_limit_over_strict_disks();
    match heal_plan(alloc, plan, disks, &mut remains.actors) {
        Ok(items) => {
            let text = text(&items, &Sequence::new(alloc), &plan.names, plan.print)?;
            remains.items = Some(items);
            Ok(Reply {
                status: Status::Done,
                text,
            })
        }
        Err(RunError::Limit { which, number }) => Ok(Reply {
            status: Status::Limit,
            text: limit_line(alloc, which, number)?,
        }),
        Err(RunError::OutOfMemory) => Err(OutOfMemory),
    }
}
