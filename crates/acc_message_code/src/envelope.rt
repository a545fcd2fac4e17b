//! What all messages have in common.
ghost use Rattle.std.specs.Prelude.{◌≡◌, ◌≤◌, ◌++◌, length, drop, OnOk, OnErr};
ghost use Rattle.acc_wire.specs.Spelling.{u8_bytes};
ghost use Rattle.acc_code.specs.Reading.{Reads};
ghost use Rattle.acc_message_code.specs.Short.{IsShortActor};
ghost use Rattle.acc_message_code.specs.Spelling.{actor_bytes, id_bytes, ballot_bytes};
ghost use Rattle.acc_message_code.specs.Fitting.{FitsStamp, FitsEnvelope};
ghost use Rattle.acc_message_code.specs.MessageSpelling.{envelope_bytes};
ghost use Rattle.acc_message_code.specs.MessageReading.{envelope_at};
ghost use Rattle.acc_txn.specs.Writing.{Keeps};

use crate::stamps::{take_actor, take_ballot, take_id, write_actor, write_stamp};
use acc_base::{Bytes, OutOfMemory};
use acc_code::CodeError;
use acc_message::Envelope;
use acc_stamp::{Actor, Ballot, TxnId};
use acc_wire::Reader;

/// How many bytes the number of a message and what all messages have in common take.
pub(crate) const HEAD: u64 = 29;

#[tactic(auto, unfolding(crate::specs::Spelling::actor_bytes, acc_wire::specs::Spelling::u16_bytes))]
fn write_actors(field: &mut [u8], from: Actor, to: Actor)
    requires from { IsShortActor from }
    requires to { IsShortActor to }
    requires room { 4 ≤ length field.old }
    ensures { field.new ≡ actor_bytes from ++ actor_bytes to ++ drop 4 field.old }
{
    write_actor(field, from);
    write_actor(&mut field[2..], to);
}

#[tactic(auto, unfolding(crate::specs::Spelling::stamp_bytes, acc_wire::specs::Spelling::u32_bytes, acc_wire::specs::Spelling::u64_bytes))]
fn write_stamps(field: &mut [u8], id: TxnId, ballot: Ballot)
    requires { 24 ≤ length field.old }
    ensures spelled { field.new ≡ id_bytes id ++ ballot_bytes ballot ++ drop 24 field.old }
    ensures id { FitsStamp id.0 }
    ensures ballot { FitsStamp ballot.0 }
{
    write_stamp(field, id.0);
    write_stamp(&mut field[12..], ballot.0);
}

/// Writes what all messages have in common over the first bytes of a field.
#[tactic(auto, unfolding(crate::specs::MessageSpelling::envelope_bytes, crate::specs::Spelling::actor_bytes, acc_wire::specs::Spelling::u16_bytes))]
fn write_envelope(field: &mut [u8], envelope: Envelope)
    requires from { IsShortActor envelope.from }
    requires to { IsShortActor envelope.to }
    requires room { 28 ≤ length field.old }
    ensures spelled { field.new ≡ envelope_bytes envelope ++ drop 28 field.old }
    ensures fits { FitsEnvelope envelope }
{
    write_actors(field, envelope.from, envelope.to);
    write_stamps(&mut field[4..], envelope.id, envelope.ballot);
}

/// Appends the number of a message, and what all messages have in common.
#[tactic(auto, using(acc_txn::proofs::Kept::keeps_all))]
pub(crate) fn put_head(out: &mut Bytes, number: u8, envelope: Envelope) -> Result<(), OutOfMemory>
    requires from { IsShortActor envelope.from }
    requires to { IsShortActor envelope.to }
    ensures spelled { OnOk result (out.new ≡ out.old ++ u8_bytes number ++ envelope_bytes envelope) }
    ensures kept { OnErr result (Keeps out.old out.new) }
    ensures fits { FitsEnvelope envelope }
{
    let mut head = [0; HEAD as usize];
    head[0] = number;
    write_envelope(&mut head[1..], envelope);
    out.extend_from_slice(&head)
}

/// What all messages have in common.
#[tactic(auto, unfolding(crate::specs::MessageReading::envelope_at))]
pub(crate) fn take_envelope(reader: &mut Reader<'_>) -> Result<Envelope, CodeError>
    ensures { Reads result reader.new (envelope_at reader.old) }
{
    let from = take_actor(reader)?;
    let to = take_actor(reader)?;
    let id = take_id(reader)?;
    let ballot = take_ballot(reader)?;
    Ok(Envelope {
        from,
        to,
        id,
        ballot,
    })
}
