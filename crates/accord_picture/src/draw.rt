//! From a document to what is written of it.
ghost use Rattle.acc_schedule.specs.Plan.{IsPlan};

use crate::words::Wish;
use acc_base::{Bytes, OutOfMemory};
use acc_cluster::Remains;
use acc_command_alone::{Reply, Status, limit_line, read_document, read_plan, refusal_line};
use acc_message::{Items, RunError};
use acc_picture::{PictureError, page, svg};
use acc_ports::{MemMaker, PortError, Sink, Source, write_all};
use acc_run::run_plan;
use acc_schedule::{Plan, PlanError};
use std::alloc::Global;

/// The line of words that aren't defined.
const USAGE: &[u8] = b"usage: accord_picture [--from N] [--to M] [--only NAME].. [--page]\n";

/// The line of a picture that would have too many items.
const TOO_MANY: &[u8] = b"limit picture 2000\n";

/// Reads a document and writes what is wanted of it.
pub(crate) fn draw_run<S: Source, K: Sink>(
    alloc: Global,
    wish: Option<Wish>,
    source: &mut S,
    sink: &mut K,
) -> Status {
    let Some(wish) = wish else {
        return say(sink, USAGE, Status::Usage);
    };
    match read_document(alloc, source, sink) {
        Ok(bytes) => respond(alloc, &wish, bytes, sink),
        Err(status) => status,
    }
}

fn respond<K: Sink>(alloc: Global, wish: &Wish, bytes: Bytes, sink: &mut K) -> Status {
    match answer(alloc, wish, bytes) {
        Ok(reply) => say(sink, reply.text.as_slice(), reply.status),
        Err(OutOfMemory) => Status::OutOfMemory,
    }
}

// Writes a text, and answers the status once all of it is written.
fn say<K: Sink>(sink: &mut K, text: &[u8], status: Status) -> Status {
    match write_all(sink, text) {
        Ok(()) => status,
        Err(PortError::Failed) => Status::WriteFault,
        Err(PortError::OutOfMemory) => Status::OutOfMemory,
    }
}

// What a document is answered with.
fn answer(alloc: Global, wish: &Wish, bytes: Bytes) -> Result<Reply, OutOfMemory> {
    match read_plan(alloc, bytes) {
        Ok(plan) => run(alloc, wish, &plan),
        Err(error) => refusal(alloc, &error),
    }
}

fn refusal(alloc: Global, error: &PlanError) -> Result<Reply, OutOfMemory> {
    Ok(Reply {
        status: Status::BadInput,
        text: refusal_line(alloc, error)?,
    })
}

// The picture of a plan's run, or the line of the limit that ends it.
fn run(alloc: Global, wish: &Wish, plan: &Plan) -> Result<Reply, OutOfMemory>
    requires { IsPlan plan.now }
{
    let mut disks = MemMaker::new(alloc);
    let mut remains = Remains::new(alloc);
    match run_plan(alloc, plan, &mut disks, &mut remains) {
        Ok(items) => picture(alloc, wish, plan, &items),
        Err(RunError::Limit { which, number }) => Ok(Reply {
            status: Status::Limit,
            text: limit_line(alloc, which, number)?,
        }),
        Err(RunError::OutOfMemory) => Err(OutOfMemory),
    }
}

fn picture(alloc: Global, wish: &Wish, plan: &Plan, items: &Items) -> Result<Reply, OutOfMemory> {
    let drawn = if wish.page {
        page(alloc, plan, items, &wish.choice)
    } else {
        svg(alloc, plan, items, &wish.choice)
    };
    match drawn {
        Ok(text) => Ok(Reply {
            status: Status::Done,
            text,
        }),
        Err(PictureError::TooMany) => Ok(Reply {
            status: Status::Limit,
            text: Bytes::from_slice(alloc, TOO_MANY)?,
        }),
        Err(PictureError::OutOfMemory) => Err(OutOfMemory),
    }
}
