//! The command `free`.
ghost use Rattle.std.specs.Prelude.{◌≡◌, ◌≤◌, length, IfOk};
ghost use Rattle.acc_schedule.specs.Plan.{IsPlan};
ghost use Rattle.acc_command_alone.specs.declared.words.Command.TheVariants.{Run};
ghost use Rattle.acc_command_alone.specs.Streams.{streams_of};
ghost use Rattle.acc_command_alone.specs.Ends.{document_limit};
ghost use Rattle.acc_command_alone.specs.Responds.{Responds};
ghost use Rattle.acc_command_alone.specs.Command.{DoesOn, IsDue, PlanEnds};
ghost use Rattle.acc_command.specs.Free.{OverThreads};

use acc_base::{Bytes, OutOfMemory, Sequence};
use acc_command_alone::{
    Remains, Reply, Status, limit_line, read_document, read_plan, refusal_line, tell,
};
use acc_free::run_free;
use acc_free_laws::laws::free_runs_are_safe;
use acc_message::RunError;
use acc_ports::{DiskMaker, Gate, Sink, Source};
use acc_report::text;
use acc_schedule::Plan;
use std::alloc::Global;
use std::sync::Wait;
use std::thread::Threads;

/// Reads a document, lets so many threads take the turns of its actors over disks of this maker, and tells what happened.
pub(crate) fn free<R: Threads + Wait + Sync, S: Source, K: Sink, M: DiskMaker, G: Gate + Sync>(
    rt: &R,
    alloc: Global,
    workers: u32,
    source: &mut S,
    sink: &mut K,
    disks: &mut M,
    gate: &G,
    remains: &mut Remains,
) -> Status
where
    M::D: Drop + Send,
    requires workers { (1 ≤ workers) × (workers ≤ 16) }
    ensures { Responds (IsDue (OverThreads M.D.Disk (M.strict disks.old) (M.given disks.old) (M.given disks.new)) Run) (DoesOn Run) (streams_of S.Source K.Sink source.old sink.old) (streams_of S.Source K.Sink source.new sink.new) result }
{
    match read_document(alloc, source, sink) {
        Ok(bytes) => tell(sink, reply(rt, alloc, workers, bytes, disks, gate, remains)),
        Err(status) => status,
    }
}

// What the command answers to a document.
fn reply<R: Threads + Wait + Sync, M: DiskMaker, G: Gate + Sync>(
    rt: &R,
    alloc: Global,
    workers: u32,
    bytes: Bytes,
    disks: &mut M,
    gate: &G,
    remains: &mut Remains,
) -> Result<Reply, OutOfMemory>
where
    M::D: Drop + Send,
    requires workers { (1 ≤ workers) × (workers ≤ 16) }
    requires short { length bytes ≤ document_limit }
    ensures { IfOk result (λ reply. IsDue (OverThreads M.D.Disk (M.strict disks.old) (M.given disks.old) (M.given disks.new)) Run bytes reply.status reply.text) }
{
    match read_plan(alloc, bytes) {
        Ok(plan) => {
            let reply = report(rt, alloc, &plan, workers, disks, gate, remains);
            remains.plan = Some(plan);
            reply
        }
        Err(error) => Ok(Reply {
            status: Status::BadInput,
            text: refusal_line(alloc, &error)?,
        }),
    }
}

// The report of what the actors of a plan did, or the line of the limit that ends it.
fn report<R: Threads + Wait + Sync, M: DiskMaker, G: Gate + Sync>(
    rt: &R,
    alloc: Global,
    plan: &Plan,
    workers: u32,
    disks: &mut M,
    gate: &G,
    remains: &mut Remains,
) -> Result<Reply, OutOfMemory>
where
    M::D: Drop + Send,
    requires workers { (1 ≤ workers) × (workers ≤ 16) }
    requires is_plan { IsPlan plan.now }
    ensures { IfOk result (λ reply. PlanEnds (OverThreads M.D.Disk (M.strict disks.old) (M.given disks.old) (M.given disks.new)) plan.now reply.status reply.text) }
{
    free_runs_are_safe();
    match run_free(rt, alloc, plan, workers, disks, gate, &mut remains.actors) {
        Ok(items) => {
            let text = text(&items, &Sequence::new(alloc), &plan.names, plan.print)?;
            remains.items = Some(items);
            Ok(Reply {
                status: Status::Done,
                text,
            })
        }
        Err(RunError::Limit { which, number }) => Ok(Reply {
            status: Status::Limit,
            text: limit_line(alloc, which, number)?,
        }),
        Err(RunError::OutOfMemory) => Err(OutOfMemory),
    }
}
