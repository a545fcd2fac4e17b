//! Actors and stamps.
ghost use Rattle.std.specs.Prelude.{◌≡◌, ◌+◌, ◌≤◌, ◌++◌, length, drop, vec_len, vec_capacity, OnOk, OnErr};
ghost use Rattle.acc_message_code.specs.Spelling.{actor_bytes, stamp_bytes};
ghost use Rattle.acc_message_code.specs.Short.{IsShortActor};
ghost use Rattle.acc_message_code.specs.Fitting.{FitsStamp};
ghost use Rattle.acc_code.specs.Reading.{Reads};
ghost use Rattle.acc_message_code.specs.Reading.{actor_at, stamp_at, id_at, ballot_at};
ghost use Rattle.acc_txn.specs.Writing.{Keeps};

use acc_base::{Bytes, OutOfMemory};
use acc_code::CodeError;
use acc_stamp::{Actor, Ballot, Stamp, TxnId};
use acc_wire::{Reader, push_bytes, put_u16};
use byteorder::{BigEndian, ByteOrder};

/// How many bytes a stamp takes.
pub(crate) const STAMP: u64 = 12;

/// Appends the number of an actor.
#[tactic(auto, using(acc_txn::proofs::Kept::keeps_all, acc_txn::proofs::Kept::keeps_front, acc_txn::proofs::Kept::keeps_more), unfolding(crate::specs::Spelling::actor_bytes))]
pub(crate) fn put_actor(out: &mut Bytes, actor: Actor) -> Result<(), OutOfMemory>
    requires { IsShortActor actor }
    ensures spelled { OnOk result (out.new ≡ out.old ++ actor_bytes actor) }
    ensures kept { OnErr result (Keeps out.old out.new) }
{
    put_u16(out, actor.0 as u16)
}

/// Writes the number of an actor over the first bytes of a field.
#[tactic(auto, unfolding(crate::specs::Spelling::actor_bytes, acc_wire::specs::Spelling::u16_bytes))]
pub(crate) fn write_actor(field: &mut [u8], actor: Actor)
    requires short { IsShortActor actor }
    requires room { 2 ≤ length field.old }
    ensures { field.new ≡ actor_bytes actor ++ drop 2 field.old }
{
    BigEndian::write_u16(field, actor.0 as u16);
}

/// Writes a stamp over the first bytes of a field.
#[tactic(auto, unfolding(crate::specs::Spelling::stamp_bytes, acc_wire::specs::Spelling::u64_bytes, acc_wire::specs::Spelling::u32_bytes))]
pub(crate) fn write_stamp(field: &mut [u8], stamp: Stamp)
    requires { 12 ≤ length field.old }
    ensures spelled { field.new ≡ stamp_bytes stamp ++ drop 12 field.old }
    ensures fits { FitsStamp stamp }
{
    BigEndian::write_u64(field, stamp.h);
    BigEndian::write_u32(&mut field[8..], stamp.origin);
}

/// Appends a stamp where there is room for it.
pub(crate) fn push_stamp(out: &mut Vec<u8>, stamp: Stamp)
    requires { vec_len out.old + 12 ≤ vec_capacity out.old }
    ensures spelled { out.new.items ≡ out.old.items ++ stamp_bytes stamp }
    ensures len { vec_len out.new ≡ vec_len out.old + 12 }
    ensures capacity { vec_capacity out.new ≡ vec_capacity out.old }
    ensures fits { FitsStamp stamp }
{
    let mut field = [0; STAMP as usize];
    write_stamp(&mut field, stamp);
    push_bytes(out, &field);
}

/// Appends a stamp.
#[tactic(auto, using(acc_txn::proofs::Kept::keeps_all))]
pub(crate) fn put_stamp(out: &mut Bytes, stamp: Stamp) -> Result<(), OutOfMemory>
    ensures spelled { OnOk result (out.new ≡ out.old ++ stamp_bytes stamp) }
    ensures kept { OnErr result (Keeps out.old out.new) }
    ensures fits { FitsStamp stamp }
{
    let mut field = [0; STAMP as usize];
    write_stamp(&mut field, stamp);
    out.extend_from_slice(&field)
}

/// An actor.
#[tactic(auto, unfolding(crate::specs::Reading::actor_at))]
pub(crate) fn take_actor(reader: &mut Reader<'_>) -> Result<Actor, CodeError>
    ensures { Reads result reader.new (actor_at reader.old) }
{
    let number = reader.take_u16()?;
    Ok(Actor(u32::from(number)))
}

/// A stamp.
#[tactic(auto, unfolding(crate::specs::Reading::stamp_at))]
pub(crate) fn take_stamp(reader: &mut Reader<'_>) -> Result<Stamp, CodeError>
    ensures { Reads result reader.new (stamp_at reader.old) }
{
    let h = reader.take_u64()?;
    let origin = reader.take_u32()?;
    Ok(Stamp { h, origin })
}

/// The id of a transaction.
#[tactic(auto, unfolding(crate::specs::Reading::id_at))]
pub(crate) fn take_id(reader: &mut Reader<'_>) -> Result<TxnId, CodeError>
    ensures { Reads result reader.new (id_at reader.old) }
{
    let stamp = take_stamp(reader)?;
    Ok(TxnId(stamp))
}

/// A ballot.
#[tactic(auto, unfolding(crate::specs::Reading::ballot_at))]
pub(crate) fn take_ballot(reader: &mut Reader<'_>) -> Result<Ballot, CodeError>
    ensures { Reads result reader.new (ballot_at reader.old) }
{
    let stamp = take_stamp(reader)?;
    Ok(Ballot(stamp))
}
