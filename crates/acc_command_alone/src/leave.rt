//! The command `leave`.
ghost use Rattle.std.specs.Prelude.{◌≡◌, ◌≤◌, None, length, IfOk, IfErr};
ghost use Rattle.serde_json.specs.View.{view};
ghost use Rattle.acc_schedule.specs.Document.{document_fault, plan_of, IsCause, Reads};
ghost use Rattle.acc_schedule.specs.Faults.{IsOfRule};
ghost use Rattle.acc_schedule.specs.Plan.{IsPlan};
ghost use Rattle.acc_command_alone.specs.declared.words.Command.TheVariants.{Run};
ghost use Rattle.acc_command_alone.specs.Streams.{streams_of};
ghost use Rattle.acc_command_alone.specs.Ends.{document_limit};
ghost use Rattle.acc_command_alone.specs.Responds.{Responds};
ghost use Rattle.acc_command_alone.specs.Command.{DoesOn, OverDisks};
ghost use Rattle.acc_command_alone.specs.Leaving.{IsLeaveDue, RunLeaves};

use crate::lines::{limit_line, refusal_line};
use crate::remains::Remains;
use crate::reply::Reply;
use crate::respond::{read_document, tell};
use crate::status::Status;
use acc_base::{Bytes, OutOfMemory};
use acc_left::left_document;
use acc_message::RunError;
use acc_plan_laws::laws::{plans_are_valid, plans_have_few_bodies, plans_run_safely};
use acc_ports::{DiskMaker, Sink, Source};
use acc_resume::leave as journals_of;
use acc_run::run_plan;
use acc_run_laws::bounds::messages_are_short;
use acc_schedule::{Plan, PlanError, read_json, read_plan};
use serde_json::Value;
use std::alloc::Global;

/// Reads a document, runs its schedule over disks of this maker, and writes the document again with the journals that its actors then have.
pub(crate) fn leave<S: Source, K: Sink, M: DiskMaker>(
    alloc: Global,
    source: &mut S,
    sink: &mut K,
    disks: &mut M,
    remains: &mut Remains,
) -> Status
where
    M::D: Drop,
    ensures { Responds (IsLeaveDue (OverDisks M.D.Disk (M.strict disks.old) (M.given disks.old) (M.given disks.new))) (DoesOn Run) (streams_of S.Source K.Sink source.old sink.old) (streams_of S.Source K.Sink source.new sink.new) result }
{
    match read_document(alloc, source, sink) {
        Ok(bytes) => tell(sink, reply(alloc, bytes, disks, remains)),
        Err(status) => status,
    }
}

// What is answered to a document.
fn reply<M: DiskMaker>(
    alloc: Global,
    bytes: Bytes,
    disks: &mut M,
    remains: &mut Remains,
) -> Result<Reply, OutOfMemory>
where
    M::D: Drop,
    requires { length bytes ≤ document_limit }
    ensures { IfOk result (λ reply. IsLeaveDue (OverDisks M.D.Disk (M.strict disks.old) (M.given disks.old) (M.given disks.new)) bytes reply.status reply.text) }
{
    match read(alloc, bytes) {
        Ok((root, plan)) => {
            let reply = document(alloc, root, &plan, disks, remains);
            remains.plan = Some(plan);
            reply
        }
        Err(error) => Ok(Reply {
            status: Status::BadInput,
            text: refusal_line(alloc, &error)?,
        }),
    }
}

// The JSON of a document and the plan that it says. The bytes are let go before the run.
#[tactic(auto, using(crate::proofs::LeavingFacts::unread_cause, crate::proofs::LeavingFacts::fault_cause))]
fn read(alloc: Global, bytes: Bytes) -> Result<(Value, Plan), PlanError>
    ensures reads { IfOk result (λ said. Reads bytes (view said.0)) }
    ensures keeps_rules { IfOk result (λ said. document_fault (view said.0) ≡ None) }
    ensures says { IfOk result (λ said. said.1 ≡ plan_of (view said.0)) }
    ensures sound { IfOk result (λ said. IsPlan said.1) }
    ensures refused { IfErr result (IsCause bytes) }
    ensures built { IfErr result IsOfRule }
{
    let root = read_json(alloc, bytes.as_slice())?;
    let plan = read_plan(alloc, &root)?;
    Ok((root, plan))
}

// The document that the run of its plan leaves, or the line of the limit that ends that.
fn document<M: DiskMaker>(
    alloc: Global,
    root: Value,
    plan: &Plan,
    disks: &mut M,
    remains: &mut Remains,
) -> Result<Reply, OutOfMemory>
where
    M::D: Drop,
    requires { IsPlan plan.now }
    ensures { IfOk result (λ reply. RunLeaves (OverDisks M.D.Disk (M.strict disks.old) (M.given disks.old) (M.given disks.new)) plan.now (view root) reply.status reply.text) }
{
    plans_are_valid();
    plans_have_few_bodies();
    plans_run_safely();
    messages_are_short();
    match run_plan(alloc, plan, disks, &mut remains.actors) {
        Ok(items) => {
            let images = journals_of(alloc, plan, &items)?;
            let text = left_document(alloc, root, &images)?;
            remains.items = Some(items);
            Ok(Reply {
                status: Status::Done,
                text,
            })
        }
        Err(RunError::Limit { which, number }) => Ok(Reply {
            status: Status::Limit,
            text: limit_line(alloc, which, number)?,
        }),
        Err(RunError::OutOfMemory) => Err(OutOfMemory),
    }
}
