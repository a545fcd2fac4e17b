//! Messages.
ghost use Rattle.std.specs.Prelude.{◌≡◌, ◌++◌, OnOk, OnErr, IfOk, Ok};
ghost use Rattle.acc_wire.specs.Reading.{AreBytes};
ghost use Rattle.acc_message.specs.declared.message.Message.{Message};
ghost use Rattle.acc_code.specs.Reading.{Reads};
ghost use Rattle.acc_message_code.specs.Short.{HasShortContent, IsShortMessage};
ghost use Rattle.acc_message_code.specs.Fitting.{HasFittingContent, FitsMessage};
ghost use Rattle.acc_message_code.specs.MessageSpelling.{number_of as number_of_message, content_bytes, message_bytes};
ghost use Rattle.acc_message_code.specs.MessageReading.{is_request as has_request, content_at, message_at, message_of, Gives};
ghost use Rattle.acc_txn.specs.Writing.{Keeps};

use crate::answer::put_answer;
use crate::deps::put_deps;
use crate::envelope::{put_head, take_envelope};
use crate::message_lengths::message_length;
use crate::records::put_settled;
use crate::replies::take_reply;
use crate::requests::{put_proposal, take_request};
use crate::stamps::put_stamp;
use crate::view::put_view;
use acc_base::{Bytes, OutOfMemory};
use acc_code::{CodeError, put_body, put_outcome, take_between};
use acc_message::{Envelope, Message};
use acc_wire::Reader;
use std::alloc::Global;

fn number_of(m: &Message) -> u8
    ensures { result ≡ number_of_message m.now }
{
    match m {
        Message::PreAccept { .. } => 1,
        Message::PreAcceptOk { .. } => 2,
        Message::Accept { .. } => 3,
        Message::AcceptOk { .. } => 4,
        Message::Commit { .. } => 5,
        Message::CommitOk { .. } => 6,
        Message::Stable { .. } => 7,
        Message::ReadOk { .. } => 8,
        Message::Apply { .. } => 9,
        Message::Recover { .. } => 10,
        Message::RecoverOk { .. } => 11,
        Message::Nack { .. } => 12,
        Message::Decided { .. } => 13,
        Message::Inform { .. } => 14,
    }
}

#[tactic(auto, using(acc_txn::proofs::Kept::keeps_all, acc_txn::proofs::Kept::keeps_front, acc_txn::proofs::Kept::keeps_more), unfolding(crate::specs::MessageSpelling::content_bytes))]
fn put_content(out: &mut Bytes, m: &Message) -> Result<(), OutOfMemory>
    requires { HasShortContent m.now }
    ensures spelled { OnOk result (out.new ≡ out.old ++ content_bytes m.now) }
    ensures kept { OnErr result (Keeps out.old out.new) }
    ensures fits { OnOk result (HasFittingContent m.now) }
{
    match m {
        Message::PreAccept { body, .. } | Message::Recover { body, .. } => put_body(out, body),
        Message::PreAcceptOk { vote: t, deps, .. } | Message::Decided { t, deps, .. } => {
            put_settled(out, *t, deps)
        }
        Message::Accept { body, t, deps, .. }
        | Message::Commit { body, t, deps, .. }
        | Message::Stable { body, t, deps, .. } => put_proposal(out, body, *t, deps),
        Message::AcceptOk { deps, .. } => put_deps(out, deps),
        Message::CommitOk { .. } => Ok(()),
        Message::ReadOk { answer, .. } => put_answer(out, answer),
        Message::Apply {
            body,
            t,
            deps,
            outcome,
            ..
        } => {
            put_proposal(out, body, *t, deps)?;
            put_outcome(out, outcome.outcome())
        }
        Message::RecoverOk { view, .. } => put_view(out, view.view()),
        Message::Nack { promised, .. } => put_stamp(out, promised.0),
        Message::Inform { outcome, .. } => put_outcome(out, outcome.outcome()),
    }
}

#[tactic(auto, using(acc_txn::proofs::Kept::keeps_all, acc_txn::proofs::Kept::keeps_front, acc_txn::proofs::Kept::keeps_more), unfolding(crate::specs::MessageSpelling::message_bytes))]
fn put_parts(out: &mut Bytes, m: &Message) -> Result<(), OutOfMemory>
    requires { IsShortMessage m.now }
    ensures spelled { OnOk result (out.new ≡ out.old ++ message_bytes m.now) }
    ensures kept { OnErr result (Keeps out.old out.new) }
    ensures fits { OnOk result (FitsMessage m.now) }
{
    put_head(out, number_of(m), m.envelope())?;
    put_content(out, m)
}

/// Appends a message. Without memory for it the bytes are as before.
pub fn put_message(out: &mut Bytes, m: &Message) -> Result<(), OutOfMemory>
    requires { IsShortMessage m.now }
    ensures spelled { OnOk result (out.new ≡ out.old ++ message_bytes m.now) }
    ensures err { OnErr result (out.new ≡ out.old) }
    // What is written can be read.
    ensures fits { OnOk result (FitsMessage m.now) }
{
    let before = out.len();
    let appended = put_parts(out, m);
    if appended.is_err() {
        out.truncate(before);
    }
    appended
}

/// The bytes of a message, in memory that is taken at once. A message has bytes where the numbers of its actors have two
/// bytes, its shards are 1 to 15, its lists and texts are no longer than their counts can tell, and the waits of a view
/// rise. Bodies and dependencies keep their rules by their types.
pub fn encode(alloc: Global, m: &Message) -> Result<Bytes, OutOfMemory>
    requires { IsShortMessage m.now }
    ensures spelled { IfOk result (λ bytes. bytes ≡ message_bytes m.now) }
    // What is encoded is decoded again, as `only` of decode says.
    ensures fits { OnOk result (FitsMessage m.now) }
{
    let mut out = Bytes::new(alloc);
    out.reserve(message_length(m) as usize)?;
    put_message(&mut out, m)?;
    Ok(out)
}

fn is_request(number: u8) -> bool
    ensures { result ≡ has_request number }
{
    number == 1 || number == 3 || number == 5 || number == 7 || number == 9 || number == 10
}

fn take_content(
    alloc: Global,
    reader: &mut Reader<'_>,
    number: u8,
    envelope: Envelope,
) -> Result<Message, CodeError>
    ensures { Reads result reader.new (content_at number envelope reader.old) }
{
    if is_request(number) {
        take_request(alloc, reader, number, envelope)
    } else {
        take_reply(alloc, reader, number, envelope)
    }
}

#[tactic(auto, unfolding(crate::specs::MessageReading::message_at))]
fn take_message(alloc: Global, reader: &mut Reader<'_>) -> Result<Message, CodeError>
    ensures exact { Reads result reader.new (message_at reader.old) }
    ensures bytes { AreBytes reader.old.bytes }
{
    let number = take_between(reader, 1, 14)?;
    let envelope = take_envelope(reader)?;
    take_content(alloc, reader, number, envelope)
}

#[tactic(auto, unfolding(crate::specs::MessageReading::message_of))]
fn take_all(alloc: Global, bytes: &[u8]) -> Result<Message, CodeError>
    ensures exact { Gives result (message_of bytes.now) }
    ensures bytes { AreBytes bytes.now }
{
    let mut reader = Reader::new(bytes);
    let m = take_message(alloc, &mut reader)?;
    reader.finish()?;
    Ok(m)
}

/// The message of some bytes, all of them. The error is their first fault, from left to right. Short comes where the bytes
/// end inside a field, at its first byte; a text and its length are one field. Range comes at the first byte of a field
/// that holds what isn't allowed, of a key or an id that may not stand after those before it, and of a body without a
/// key. Trailing comes at the first byte after a message.
pub fn decode(alloc: Global, bytes: &[u8]) -> Result<Message, CodeError>
    // What is read is spelled so.
    ensures found { IfOk result (λ m. bytes.now ≡ message_bytes m) }
    ensures fits { IfOk result FitsMessage }
    // What is spelled so is read, unless memory runs out.
    ensures only { (m : Message) → FitsMessage m → bytes.now ≡ message_bytes m → Gives result (Ok m) }
    // Which fault it is.
    ensures exact { Gives result (message_of bytes.now) }
{
    take_all(alloc, bytes)
}
