//! The command `resume`.
ghost use Rattle.std.specs.Prelude.{◌≡◌, ◌≤◌, List, length, IfOk, IfErr};
ghost use Rattle.acc_schedule.specs.Content.{Content};
ghost use Rattle.acc_schedule.specs.Plan.{IsPlan};
ghost use Rattle.acc_left.specs.declared.image.Image.{Image as AnImage};
ghost use Rattle.acc_left.specs.Leaves.{DoRise};
ghost use Rattle.acc_left.specs.Reading.{IsLeftCause, IsReadLeft, MeansLeft};
ghost use Rattle.acc_left.specs.Rules.{AreLeft};
ghost use Rattle.acc_command_alone.specs.Streams.{streams_of};
ghost use Rattle.acc_command_alone.specs.Ends.{document_limit};
ghost use Rattle.acc_command_alone.specs.Responds.{Responds};
ghost use Rattle.acc_command_alone.specs.Resuming.{IsResumeDue, ResumeEnds, ResumesOn};

use crate::lines::{limit_line, refusal_line};
use crate::remains::Remains;
use crate::reply::Reply;
use crate::respond::{read_document, tell};
use crate::status::Status;
use acc_base::{Bytes, OutOfMemory};
use acc_left::Images;
use acc_message::RunError;
use acc_ports::{Sink, Source};
use acc_report::text;
use acc_resume::{read_left, resume as resumed, roll};
use acc_schedule::{Plan, PlanError};
use std::alloc::{AllocError, Global};

/// More bytes than a document has, and so few that the C library takes note of such a block.
const LARGE: usize = 24 * 1024 * 1024;

/// Reads a document with journals, opens each actor from its journal, takes the steps of the schedule, and tells what happened.
pub(crate) fn resume<S: Source, K: Sink>(
    alloc: Global,
    source: &mut S,
    sink: &mut K,
    remains: &mut Remains,
) -> Status
    ensures { Responds IsResumeDue ResumesOn (streams_of S.Source K.Sink source.old sink.old) (streams_of S.Source K.Sink source.new sink.new) result }
{
    keep_freed(alloc);
    match read_document(alloc, source, sink) {
        Ok(bytes) => tell(sink, reply(alloc, bytes, remains)),
        Err(status) => status,
    }
}

// Has the C library keep the memory that is freed from here on. It maps long blocks one by one, and gives each back to the system
// when it is freed, until it has freed a longer one once. Here the bytes and the JSON of the document are freed before the actors
// are opened, which need as much again: to get that from the system anew would take as long as a tenth of all.
fn keep_freed(alloc: Global) {
    let _block: Result<Vec<u8>, AllocError> = Vec::with_capacity(alloc, LARGE);
}

// What is answered to a document.
fn reply(alloc: Global, bytes: Bytes, remains: &mut Remains) -> Result<Reply, OutOfMemory>
    requires { length bytes ≤ document_limit }
    ensures due { IfOk result (λ reply. IsResumeDue bytes reply.status reply.text) }
    ensures does { IfOk result (λ reply. ResumesOn bytes reply.status) }
{
    match read(alloc, bytes) {
        Ok((plan, images)) => {
            let reply = report(alloc, &plan, &images, remains);
            remains.plan = Some(plan);
            reply
        }
        Err(error) => Ok(Reply {
            status: Status::BadInput,
            text: refusal_line(alloc, &error)?,
        }),
    }
}

// The plan and the journals of a document, whose bytes are let go before its steps are taken.
fn read(alloc: Global, bytes: Bytes) -> Result<(Plan, Images), PlanError>
    ensures accepted { IfOk result (λ left. MeansLeft bytes left.0 left.1) }
    ensures sound { IfOk result (λ left. IsPlan left.0) }
    ensures rise { IfOk result (λ left. DoRise left.1) }
    ensures refused { IfErr result (IsLeftCause bytes) }
    ensures read { (plan : Content) (images : List AnImage) → MeansLeft bytes plan images → IsReadLeft plan images result }
{
    read_left(alloc, bytes.as_slice())
}

// The report of a plan with journals, or the line of the limit that ends its steps.
fn report(
    alloc: Global,
    plan: &Plan,
    images: &Images,
    remains: &mut Remains,
) -> Result<Reply, OutOfMemory>
    requires is_plan { IsPlan plan.now }
    requires left { AreLeft plan.now images.now }
    requires rise { DoRise images.now }
    ensures { IfOk result (λ reply. ResumeEnds plan.now images.now reply.status reply.text) }
{
    match resumed(alloc, plan, images, &mut remains.actors) {
        Ok(items) => {
            let roll = roll(alloc, plan, images)?;
            let text = text(&items, &roll, &plan.names, plan.print)?;
            remains.items = Some(items);
            Ok(Reply {
                status: Status::Done,
                text,
            })
        }
        Err(RunError::Limit { which, number }) => Ok(Reply {
            status: Status::Limit,
            text: limit_line(alloc, which, number)?,
        }),
        Err(RunError::OutOfMemory) => Err(OutOfMemory),
    }
}
