//! The messages to a node.
ghost use Rattle.std.specs.Prelude.{◌≡◌};
ghost use Rattle.acc_code.specs.Reading.{Reads};
ghost use Rattle.acc_message_code.specs.MessageReading.{pre_accept_ok_at, accept_ok_at, read_ok_at, recover_ok_at, nack_at, decided_at, inform_at, reply_at};

use crate::answer::take_answer;
use crate::deps::take_deps;
use crate::records::take_settled;
use crate::stamps::take_ballot;
use crate::view::take_view;
use acc_code::{CodeError, take_outcome};
use acc_deps::{Settled, SharedView};
use acc_message::{Envelope, Message, SharedOutcome};
use acc_wire::Reader;
use std::alloc::Global;

#[tactic(auto, unfolding(crate::specs::MessageReading::pre_accept_ok_at))]
fn take_pre_accept_ok(
    alloc: Global,
    reader: &mut Reader<'_>,
    envelope: Envelope,
) -> Result<Message, CodeError>
    ensures { Reads result reader.new (pre_accept_ok_at envelope reader.old) }
{
    let Settled { t, deps } = take_settled(alloc, reader)?;
    Ok(envelope.pre_accept_ok(t, deps))
}

#[tactic(auto, unfolding(crate::specs::MessageReading::accept_ok_at))]
fn take_accept_ok(
    alloc: Global,
    reader: &mut Reader<'_>,
    envelope: Envelope,
) -> Result<Message, CodeError>
    ensures { Reads result reader.new (accept_ok_at envelope reader.old) }
{
    let deps = take_deps(alloc, reader)?;
    Ok(envelope.accept_ok(deps))
}

#[tactic(auto, unfolding(crate::specs::MessageReading::read_ok_at))]
fn take_read_ok(
    alloc: Global,
    reader: &mut Reader<'_>,
    envelope: Envelope,
) -> Result<Message, CodeError>
    ensures { Reads result reader.new (read_ok_at envelope reader.old) }
{
    let answer = take_answer(alloc, reader)?;
    Ok(envelope.read_ok(answer))
}

#[tactic(auto, unfolding(crate::specs::MessageReading::recover_ok_at))]
fn take_recover_ok(
    alloc: Global,
    reader: &mut Reader<'_>,
    envelope: Envelope,
) -> Result<Message, CodeError>
    ensures { Reads result reader.new (recover_ok_at envelope reader.old) }
{
    let view = take_view(alloc, reader)?;
    Ok(envelope.recover_ok(SharedView::new(view)?))
}

#[tactic(auto, unfolding(crate::specs::MessageReading::nack_at))]
fn take_nack(reader: &mut Reader<'_>, envelope: Envelope) -> Result<Message, CodeError>
    ensures { Reads result reader.new (nack_at envelope reader.old) }
{
    let promised = take_ballot(reader)?;
    Ok(envelope.nack(promised))
}

#[tactic(auto, unfolding(crate::specs::MessageReading::decided_at))]
fn take_decided(
    alloc: Global,
    reader: &mut Reader<'_>,
    envelope: Envelope,
) -> Result<Message, CodeError>
    ensures { Reads result reader.new (decided_at envelope reader.old) }
{
    let Settled { t, deps } = take_settled(alloc, reader)?;
    Ok(envelope.decided(t, deps))
}

#[tactic(auto, unfolding(crate::specs::MessageReading::inform_at))]
fn take_inform(
    alloc: Global,
    reader: &mut Reader<'_>,
    envelope: Envelope,
) -> Result<Message, CodeError>
    ensures { Reads result reader.new (inform_at envelope reader.old) }
{
    let outcome = take_outcome(alloc, reader)?;
    Ok(envelope.inform(SharedOutcome::new(outcome)?))
}

/// What the message to a node with this number has besides.
pub(crate) fn take_reply(
    alloc: Global,
    reader: &mut Reader<'_>,
    number: u8,
    envelope: Envelope,
) -> Result<Message, CodeError>
    ensures { Reads result reader.new (reply_at number envelope reader.old) }
{
    match number {
        2 => take_pre_accept_ok(alloc, reader, envelope),
        4 => take_accept_ok(alloc, reader, envelope),
        6 => Ok(envelope.commit_ok()),
        8 => take_read_ok(alloc, reader, envelope),
        11 => take_recover_ok(alloc, reader, envelope),
        12 => take_nack(reader, envelope),
        13 => take_decided(alloc, reader, envelope),
        _ => take_inform(alloc, reader, envelope),
    }
}
