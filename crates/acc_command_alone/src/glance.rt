//! The command `glance`.
ghost use Rattle.std.specs.Prelude.{◌≡◌, ◌≤◌, ◌++◌, [], length, reverse, IfOk, IfErr};
ghost use Rattle.acc_schedule.specs.Plan.{IsPlan};
ghost use Rattle.acc_report.specs.Report.{report_text};
ghost use Rattle.acc_glance.specs.Documents.{AreInTime, IsLooksCause, MeansLooks};
ghost use Rattle.acc_glance.specs.Texts.{seens_text};
ghost use Rattle.acc_command_alone.specs.Streams.{streams_of};
ghost use Rattle.acc_command_alone.specs.Ends.{document_limit};
ghost use Rattle.acc_command_alone.specs.Responds.{Responds};
ghost use Rattle.acc_command_alone.specs.Command.{OverDisks};
ghost use Rattle.acc_command_alone.specs.Glancing.{IsGlanceDue, LooksEnd, LooksOn, SeesOver};

use crate::lines::{limit_line, refusal_line};
use crate::remains::Remains;
use crate::reply::Reply;
use crate::respond::{read_document, tell};
use crate::status::Status;
use acc_base::{Bytes, OutOfMemory, Sequence};
use acc_glance::{Looks, Seens, glance_plan, looks_text, read_looks};
use acc_message::{Items, RunError};
use acc_plan_laws::laws::plans_run_safely;
use acc_ports::{DiskMaker, Sink, Source};
use acc_report::text;
use acc_schedule::{Plan, PlanError};
use std::alloc::Global;

/// Reads a document with looks, runs its schedule over disks of this maker with the looks between its steps, and tells what happened and
/// what the looks have seen.
pub(crate) fn glance<S: Source, K: Sink, M: DiskMaker>(
    alloc: Global,
    source: &mut S,
    sink: &mut K,
    disks: &mut M,
    remains: &mut Remains,
) -> Status
where
    M::D: Drop,
    ensures { Responds (IsGlanceDue (OverDisks M.D.Disk (M.strict disks.old) (M.given disks.old) (M.given disks.new)) (SeesOver M.D.Disk (M.strict disks.old) (M.given disks.old) (M.given disks.new))) LooksOn (streams_of S.Source K.Sink source.old sink.old) (streams_of S.Source K.Sink source.new sink.new) result }
{
    match read_document(alloc, source, sink) {
        Ok(bytes) => tell(sink, reply(alloc, bytes, disks, remains)),
        Err(status) => status,
    }
}

// What is answered to a document.
fn reply<M: DiskMaker>(
    alloc: Global,
    bytes: Bytes,
    disks: &mut M,
    remains: &mut Remains,
) -> Result<Reply, OutOfMemory>
where
    M::D: Drop,
    requires { length bytes ≤ document_limit }
    ensures { IfOk result (λ reply. IsGlanceDue (OverDisks M.D.Disk (M.strict disks.old) (M.given disks.old) (M.given disks.new)) (SeesOver M.D.Disk (M.strict disks.old) (M.given disks.old) (M.given disks.new)) bytes reply.status reply.text) }
{
    match read(alloc, bytes) {
        Ok((plan, looks)) => {
            let reply = report(alloc, &plan, &looks, disks, remains);
            remains.plan = Some(plan);
            reply
        }
        Err(error) => Ok(Reply {
            status: Status::BadInput,
            text: refusal_line(alloc, &error)?,
        }),
    }
}

// The plan and the looks of a document, whose bytes are let go before its run.
fn read(alloc: Global, bytes: Bytes) -> Result<(Plan, Looks), PlanError>
    ensures accepted { IfOk result (λ said. MeansLooks bytes said.0 said.1) }
    ensures sound { IfOk result (λ said. IsPlan said.0) }
    ensures in_time { IfOk result (λ said. AreInTime said.0 said.1) }
    ensures refused { IfErr result (IsLooksCause bytes) }
{
    read_looks(alloc, bytes.as_slice())
}

// The report of a plan with its looks, or the line of the limit that ends its run.
fn report<M: DiskMaker>(
    alloc: Global,
    plan: &Plan,
    looks: &Looks,
    disks: &mut M,
    remains: &mut Remains,
) -> Result<Reply, OutOfMemory>
where
    M::D: Drop,
    requires is_plan { IsPlan plan.now }
    requires in_time { AreInTime plan.now looks.now }
    ensures { IfOk result (λ reply. LooksEnd (OverDisks M.D.Disk (M.strict disks.old) (M.given disks.old) (M.given disks.new)) (SeesOver M.D.Disk (M.strict disks.old) (M.given disks.old) (M.given disks.new)) plan.now looks.now reply.status reply.text) }
{
    plans_run_safely();
    match glance_plan(alloc, plan, looks, disks, &mut remains.actors) {
        Ok((items, seens)) => {
            let text = whole_text(alloc, plan, &items, &seens)?;
            remains.items = Some(items);
            Ok(Reply {
                status: Status::Done,
                text,
            })
        }
        Err(RunError::Limit { which, number }) => Ok(Reply {
            status: Status::Limit,
            text: limit_line(alloc, which, number)?,
        }),
        Err(RunError::OutOfMemory) => Err(OutOfMemory),
    }
}

// The report, and after it the lines of the looks.
fn whole_text(
    alloc: Global,
    plan: &Plan,
    items: &Items,
    seens: &Seens,
) -> Result<Bytes, OutOfMemory>
    ensures { IfOk result (λ text. text ≡ report_text plan.now.print plan.now.names [] (reverse items.now) ++ seens_text seens.now) }
{
    let report = text(items, &Sequence::new(alloc), &plan.names, plan.print)?;
    let lines = looks_text(alloc, seens)?;
    let mut whole = report.into_vec();
    whole.extend_from_slice(lines.as_slice())?;
    Ok(Bytes::from_vec(whole))
}
