//! The messages to a store.
ghost use Rattle.std.specs.Prelude.{◌≡◌, ◌++◌, OnOk, OnErr};
ghost use Rattle.acc_code.specs.Reading.{Reads};
ghost use Rattle.acc_code.specs.Short.{IsNumberedBody};
ghost use Rattle.acc_message_code.specs.Short.{AreShortDeps};
ghost use Rattle.acc_message_code.specs.Fitting.{FitsDated};
ghost use Rattle.acc_message_code.specs.MessageSpelling.{proposal_bytes};
ghost use Rattle.acc_message_code.specs.MessageReading.{proposal_at, pre_accept_at, accept_at, commit_at, stable_at, apply_at, recover_at, request_at};
ghost use Rattle.acc_txn.specs.Writing.{Keeps};

use crate::records::{put_settled, take_settled};
use acc_base::{Bytes, OutOfMemory};
use acc_code::{CodeError, put_body, take_body, take_outcome};
use acc_deps::{Deps, Settled};
use acc_message::{Envelope, Message, SharedOutcome};
use acc_stamp::Stamp;
use acc_txn::Body;
use acc_wire::Reader;
use std::alloc::Global;

/// Appends a body with a timestamp and dependencies.
#[tactic(auto, using(acc_txn::proofs::Kept::keeps_all, acc_txn::proofs::Kept::keeps_front, acc_txn::proofs::Kept::keeps_more), unfolding(crate::specs::MessageSpelling::proposal_bytes))]
pub(crate) fn put_proposal(
    out: &mut Bytes,
    body: &Body,
    t: Stamp,
    deps: &Deps,
) -> Result<(), OutOfMemory>
    requires { AreShortDeps deps.now }
    ensures spelled { OnOk result (out.new ≡ out.old ++ proposal_bytes body.now t deps.now) }
    ensures kept { OnErr result (Keeps out.old out.new) }
    ensures fits { OnOk result (IsNumberedBody body.now × FitsDated t deps.now) }
{
    put_body(out, body)?;
    put_settled(out, t, deps)
}

#[tactic(auto, unfolding(crate::specs::MessageReading::proposal_at))]
fn take_proposal(alloc: Global, reader: &mut Reader<'_>) -> Result<(Body, Settled), CodeError>
    ensures { Reads result reader.new (proposal_at reader.old) }
{
    let body = take_body(alloc, reader)?;
    let settled = take_settled(alloc, reader)?;
    Ok((body, settled))
}

#[tactic(auto, unfolding(crate::specs::MessageReading::pre_accept_at))]
fn take_pre_accept(
    alloc: Global,
    reader: &mut Reader<'_>,
    envelope: Envelope,
) -> Result<Message, CodeError>
    ensures { Reads result reader.new (pre_accept_at envelope reader.old) }
{
    let body = take_body(alloc, reader)?;
    Ok(envelope.pre_accept(body))
}

#[tactic(auto, unfolding(crate::specs::MessageReading::accept_at))]
fn take_accept(
    alloc: Global,
    reader: &mut Reader<'_>,
    envelope: Envelope,
) -> Result<Message, CodeError>
    ensures { Reads result reader.new (accept_at envelope reader.old) }
{
    let (body, Settled { t, deps }) = take_proposal(alloc, reader)?;
    Ok(envelope.accept(body, t, deps))
}

#[tactic(auto, unfolding(crate::specs::MessageReading::commit_at))]
fn take_commit(
    alloc: Global,
    reader: &mut Reader<'_>,
    envelope: Envelope,
) -> Result<Message, CodeError>
    ensures { Reads result reader.new (commit_at envelope reader.old) }
{
    let (body, Settled { t, deps }) = take_proposal(alloc, reader)?;
    Ok(envelope.commit(body, t, deps))
}

#[tactic(auto, unfolding(crate::specs::MessageReading::stable_at))]
fn take_stable(
    alloc: Global,
    reader: &mut Reader<'_>,
    envelope: Envelope,
) -> Result<Message, CodeError>
    ensures { Reads result reader.new (stable_at envelope reader.old) }
{
    let (body, Settled { t, deps }) = take_proposal(alloc, reader)?;
    Ok(envelope.stable(body, t, deps))
}

#[tactic(auto, unfolding(crate::specs::MessageReading::apply_at))]
fn take_apply(
    alloc: Global,
    reader: &mut Reader<'_>,
    envelope: Envelope,
) -> Result<Message, CodeError>
    ensures { Reads result reader.new (apply_at envelope reader.old) }
{
    let (body, Settled { t, deps }) = take_proposal(alloc, reader)?;
    let outcome = take_outcome(alloc, reader)?;
    Ok(envelope.apply(body, t, deps, SharedOutcome::new(outcome)?))
}

#[tactic(auto, unfolding(crate::specs::MessageReading::recover_at))]
fn take_recover(
    alloc: Global,
    reader: &mut Reader<'_>,
    envelope: Envelope,
) -> Result<Message, CodeError>
    ensures { Reads result reader.new (recover_at envelope reader.old) }
{
    let body = take_body(alloc, reader)?;
    Ok(envelope.recover(body))
}

/// What the message to a store with this number has besides.
pub(crate) fn take_request(
    alloc: Global,
    reader: &mut Reader<'_>,
    number: u8,
    envelope: Envelope,
) -> Result<Message, CodeError>
    ensures { Reads result reader.new (request_at number envelope reader.old) }
{
    match number {
        1 => take_pre_accept(alloc, reader, envelope),
        3 => take_accept(alloc, reader, envelope),
        5 => take_commit(alloc, reader, envelope),
        7 => take_stable(alloc, reader, envelope),
        9 => take_apply(alloc, reader, envelope),
        _ => take_recover(alloc, reader, envelope),
    }
}
