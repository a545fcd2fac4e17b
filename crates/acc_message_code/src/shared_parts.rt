//! Reading the messages of transactions that are known: such a message shares the parts that are at hand.
ghost use Rattle.std.specs.Prelude.{◌≡◌, ◌++◌, Ok, IfOk, IfSome};
ghost use Rattle.acc_wire.specs.Reading.{AreBytes};
ghost use Rattle.acc_message.specs.declared.message.Message.{Message};
ghost use Rattle.acc_code.specs.Short.{IsNumberedBody};
ghost use Rattle.acc_message_code.specs.Fitting.{FitsMessage};
ghost use Rattle.acc_message_code.specs.MessageSpelling.{message_bytes};
ghost use Rattle.acc_message_code.specs.MessageReading.{message_of, Gives};
ghost use Rattle.acc_message_code.specs.SharedParts.{IsHead, IsBehind, IsWhole, AreSettled};

use crate::at_hand::has_settled;
use crate::envelope::take_envelope;
use crate::message::decode;
use crate::records::take_settled;
use acc_code::{CodeError, out_of_range, take_between, take_outcome};
use acc_deps::Settled;
use acc_message::{Envelope, Message, SharedOutcome};
use acc_stamp::TxnId;
use acc_txn::Body;
use acc_wire::Reader;
use std::alloc::Global;

/// Knows transactions. What is read doesn't depend on its answers, only how long that takes.
pub trait KnownParts {
    /// The body by which a transaction is known, if any.
    fn body_of(&self, id: TxnId) -> Option<&Body>;

    /// The timestamp and dependencies by which a transaction is stable, if any.
    fn stable_of(&self, id: TxnId) -> Option<&Settled>;
}

/// The number of a message, and what all messages have in common.
#[derive(Clone, Copy, Debug)]
struct Head {
    number: u8,
    envelope: Envelope,
}

/// The head of a message to a store.
fn take_head(reader: &mut Reader<'_>) -> Result<Head, CodeError>
    ensures { IfOk result (IsHead reader.old.bytes reader.new.bytes) }
{
    let number = take_between(reader, 1, 10)?;
    let envelope = take_envelope(reader)?;
    Ok(Head { number, envelope })
}

/// What is left after these bytes, where the others begin with them.
fn strip<'a>(bytes: &'a [u8], front: &[u8]) -> Option<&'a [u8]>
    ensures { IfSome result (λ rest. bytes.now ≡ front.now ++ rest.now) }
{
    bytes.strip_prefix(front)
}

/// A timestamp and dependencies, and what is left after them.
fn read_settled(alloc: Global, bytes: &[u8]) -> Result<(Settled, &[u8]), CodeError>
    requires { AreBytes bytes.now }
    ensures { IfOk result (λ parts. AreSettled bytes.now parts.0 parts.1.now) }
{
    let mut reader = Reader::new(bytes);
    let settled = take_settled(alloc, &mut reader)?;
    Ok((settled, reader.left()))
}

/// A timestamp and dependencies, and what is left after them. Where they are those at hand, these are shared.
fn share_settled<'a>(
    alloc: Global,
    bytes: &'a [u8],
    at_hand: Option<&Settled>,
) -> Result<(Settled, &'a [u8]), CodeError>
    requires { AreBytes bytes.now }
    ensures { IfOk result (λ parts. AreSettled bytes.now parts.0 parts.1.now) }
{
    if let Some(settled) = at_hand {
        let mut reader = Reader::new(bytes);
        if has_settled(&mut reader, settled) {
            let shared = settled.copy()?;
            return Ok((shared, reader.left()));
        }
    }
    read_settled(alloc, bytes)
}

fn pre_accept(envelope: Envelope, body: &Body, bytes: &[u8]) -> Result<Message, CodeError>
    requires { IsNumberedBody body.now }
    ensures { IfOk result (IsBehind (record { number = 1; envelope = envelope }) body.now bytes.now) }
{
    Reader::new(bytes).finish()?;
    Ok(envelope.pre_accept(body.copy()?))
}

fn stable(
    alloc: Global,
    envelope: Envelope,
    body: &Body,
    at_hand: Option<&Settled>,
    bytes: &[u8],
) -> Result<Message, CodeError>
    requires bytes { AreBytes bytes.now }
    requires body { IsNumberedBody body.now }
    ensures { IfOk result (IsBehind (record { number = 7; envelope = envelope }) body.now bytes.now) }
{
    let (Settled { t, deps }, rest) = share_settled(alloc, bytes, at_hand)?;
    Reader::new(rest).finish()?;
    Ok(envelope.stable(body.copy()?, t, deps))
}

fn apply(
    alloc: Global,
    envelope: Envelope,
    body: &Body,
    at_hand: Option<&Settled>,
    bytes: &[u8],
) -> Result<Message, CodeError>
    requires bytes { AreBytes bytes.now }
    requires body { IsNumberedBody body.now }
    ensures { IfOk result (IsBehind (record { number = 9; envelope = envelope }) body.now bytes.now) }
{
    let (Settled { t, deps }, rest) = share_settled(alloc, bytes, at_hand)?;
    let mut reader = Reader::new(rest);
    let outcome = take_outcome(alloc, &mut reader)?;
    reader.finish()?;
    Ok(envelope.apply(body.copy()?, t, deps, SharedOutcome::new(outcome)?))
}

/// A PreAccept, a Stable or an Apply with the known body. An error but want of memory tells nothing of the bytes.
fn share<K: KnownParts>(alloc: Global, bytes: &[u8], known: &K) -> Result<Message, CodeError>
    ensures { IfOk result (IsWhole bytes.now) }
{
    let mut reader = Reader::new(bytes);
    let Head { number, envelope } = take_head(&mut reader)?;
    let Some(body) = known.body_of(envelope.id) else {
        return Err(out_of_range(0));
    };
    let Some(rest) = strip(reader.left(), body.code()) else {
        return Err(out_of_range(0));
    };
    match number {
        1 => pre_accept(envelope, body, rest),
        7 => stable(alloc, envelope, body, known.stable_of(envelope.id), rest),
        9 => apply(alloc, envelope, body, known.stable_of(envelope.id), rest),
        _ => Err(out_of_range(0)),
    }
}

/// The message of some bytes, all of them, as `decode` reads it. A PreAccept, a Stable or an Apply that spells the body by
/// which its transaction is known shares it, and a Stable or an Apply that spells what is stable then shares that too.
pub fn decode_known<K: KnownParts>(
    alloc: Global,
    bytes: &[u8],
    known: &K,
) -> Result<Message, CodeError>
    ensures found { IfOk result (λ m. bytes.now ≡ message_bytes m) }
    ensures fits { IfOk result FitsMessage }
    ensures only { (m : Message) → FitsMessage m → bytes.now ≡ message_bytes m → Gives result (Ok m) }
    ensures exact { Gives result (message_of bytes.now) }
{
    match share(alloc, bytes, known) {
        Ok(m) => Ok(m),
        Err(CodeError::OutOfMemory) => Err(CodeError::OutOfMemory),
        Err(CodeError::Wire(_)) => decode(alloc, bytes),
    }
}
