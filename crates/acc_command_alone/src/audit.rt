//! The command `audit`.
ghost use Rattle.std.specs.Prelude.{◌≡◌, ◌≤◌, ◌++◌, length, IfOk, IfErr, OnOk};
ghost use Rattle.acc_audit.specs.Cases.{IsCaseCause, IsDueOn};
ghost use Rattle.acc_command_alone.specs.Streams.{streams_of};
ghost use Rattle.acc_command_alone.specs.Ends.{document_limit};
ghost use Rattle.acc_command_alone.specs.Responds.{Responds};
ghost use Rattle.acc_command_alone.specs.Judging.{judgement_text, status_of, IsAuditDue, JudgesOn};
ghost use Rattle.acc_command_alone.specs.Lines.{line};

use crate::lines::refusal_line;
use crate::remains::Remains;
use crate::reply::Reply;
use crate::respond::{read_document, tell};
use crate::status::Status;
use acc_audit::{Judgement, judge_case};
use acc_base::{Bytes, OutOfMemory, push_number};
use acc_ports::{Sink, Source};
use acc_schedule::PlanError;
use std::alloc::Global;

/// Reads a case, and writes whether its report keeps the rules.
pub(crate) fn audit<S: Source, K: Sink>(
    alloc: Global,
    source: &mut S,
    sink: &mut K,
    remains: &mut Remains,
) -> Status
    ensures { Responds IsAuditDue JudgesOn (streams_of S.Source K.Sink source.old sink.old) (streams_of S.Source K.Sink source.new sink.new) result }
{
    match read_document(alloc, source, sink) {
        Ok(bytes) => tell(sink, reply(alloc, bytes, remains)),
        Err(status) => status,
    }
}

// What is said of a case, or why it is refused.
fn reply(alloc: Global, bytes: Bytes, remains: &mut Remains) -> Result<Reply, OutOfMemory>
    requires { length bytes ≤ document_limit }
    ensures { IfOk result (λ reply. IsAuditDue bytes reply.status reply.text) }
{
    match judge(alloc, bytes, remains) {
        Ok(judgement) => Ok(Reply {
            status: status(judgement),
            text: judgement_line(alloc, judgement)?,
        }),
        Err(error) => Ok(Reply {
            status: Status::BadInput,
            text: refusal_line(alloc, &error)?,
        }),
    }
}

// What is said of a case, whose bytes are let go before a text is made.
fn judge(alloc: Global, bytes: Bytes, remains: &mut Remains) -> Result<Judgement, PlanError>
    ensures judged { IfOk result (IsDueOn bytes) }
    ensures refused { IfErr result (IsCaseCause bytes) }
{
    judge_case(alloc, bytes.as_slice(), &mut remains.case)
}

fn status(judgement: Judgement) -> Status
    ensures { result ≡ status_of judgement }
{
    match judgement {
        Judgement::Yes { .. } => Status::Done,
        Judgement::No { .. } => Status::No,
    }
}

fn judgement_line(alloc: Global, judgement: Judgement) -> Result<Bytes, OutOfMemory>
    ensures { IfOk result (λ text. text ≡ line (judgement_text judgement)) }
{
    let mut text = Vec::new(alloc);
    push_judgement(&mut text, judgement)?;
    text.push(b'\n')?;
    Ok(Bytes::from_vec(text))
}

fn push_judgement(text: &mut Vec<u8>, judgement: Judgement) -> Result<(), OutOfMemory>
    ensures { OnOk result (text.new.items ≡ text.old.items ++ judgement_text judgement) }
{
    match judgement {
        Judgement::Yes { lines } => {
            text.extend_from_slice(b"yes lines=")?;
            push_number(text, lines)?;
        }
        Judgement::No { line, rule } => {
            text.extend_from_slice(b"no ")?;
            push_number(text, line)?;
            text.extend_from_slice(b" ")?;
            push_number(text, u64::from(rule))?;
        }
    }
    Ok(())
}
