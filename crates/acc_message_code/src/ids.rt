//! Rising lists of transactions.
ghost use Rattle.std.specs.Prelude.{◌≡◌, ◌<◌, ◌≤◌, ◌+◌, ◌*◌, ◌^◌, ◌++◌, ◌∷◌, [], length, vec_len, vec_capacity, OnOk, OnErr, IfOk, IsTrue};
ghost use Rattle.std.specs.List.{flat_map, list_all};
ghost use Rattle.acc_stamp.specs.Stamp.{id_lt};
ghost use Rattle.acc_stamp.specs.Rising.{IsRising};
ghost use Rattle.acc_code.specs.Reading.{Reads, each_at};
ghost use Rattle.acc_message_code.specs.Spelling.{id_bytes, ids_bytes};
ghost use Rattle.acc_message_code.specs.Short.{AreShortIds};
ghost use Rattle.acc_message_code.specs.Fitting.{FitStamps};
ghost use Rattle.acc_message_code.specs.Reading.{next_id_at, ids_at};
ghost use Rattle.acc_txn.specs.Writing.{Keeps};

use crate::stamps::{STAMP, push_stamp, take_id};
use acc_base::{Bytes, OutOfMemory};
use acc_code::{CodeError, out_of_range};
use acc_stamp::{Ids, TxnId};
use acc_wire::{Reader, push_bytes};
use byteorder::{BigEndian, ByteOrder};
use std::alloc::Global;
use std::mem;

/// Appends transactions where there is room for them.
fn push_ids(out: &mut Vec<u8>, ids: &[TxnId])
    requires { vec_len out.old + 12 * length ids.now ≤ vec_capacity out.old }
    ensures spelled { out.new.items ≡ out.old.items ++ flat_map id_bytes ids.now }
    ensures stamps { FitStamps ids.now }
{
    for id in ids {
        push_stamp(out, id.0);
    }
}

/// Appends how many transactions there are, and their ids, where there is room for them.
#[tactic(auto, unfolding(crate::specs::Spelling::ids_bytes, acc_wire::specs::Spelling::u16_bytes))]
pub(crate) fn push_counted(out: &mut Vec<u8>, ids: &[TxnId])
    requires short { AreShortIds ids.now }
    requires room { vec_len out.old + (2 + 12 * length ids.now) ≤ vec_capacity out.old }
    ensures spelled { out.new.items ≡ out.old.items ++ ids_bytes ids.now }
    ensures stamps { FitStamps ids.now }
{
    let mut count = [0; 2];
    BigEndian::write_u16(&mut count, ids.len() as u16);
    push_bytes(out, &count);
    push_ids(out, ids);
}

/// The room that a count of transactions and their ids take.
pub(crate) fn counted_room(ids: &[TxnId]) -> usize
    requires { AreShortIds ids.now }
    ensures exact { result ≡ 2 + 12 * length ids.now }
    ensures most { result < 2 ^ 20 }
{
    2 + STAMP as usize * ids.len()
}

fn append_ids(out: &mut Vec<u8>, ids: &[TxnId]) -> Result<(), OutOfMemory>
    requires { AreShortIds ids.now }
    ensures spelled { OnOk result (out.new.items ≡ out.old.items ++ ids_bytes ids.now) }
    ensures err { OnErr result (out.new.items ≡ out.old.items) }
    ensures stamps { OnOk result (FitStamps ids.now) }
{
    out.reserve(counted_room(ids))?;
    push_counted(out, ids);
    Ok(())
}

/// Appends transactions: a count in two bytes, and their ids.
#[tactic(auto, using(acc_txn::proofs::Kept::keeps_all))]
pub(crate) fn put_ids(out: &mut Bytes, ids: &[TxnId]) -> Result<(), OutOfMemory>
    requires { AreShortIds ids.now }
    ensures spelled { OnOk result (out.new ≡ out.old ++ ids_bytes ids.now) }
    ensures kept { OnErr result (Keeps out.old out.new) }
    ensures stamps { OnOk result (FitStamps ids.now) }
{
    let alloc = out.allocator();
    let mut bytes = mem::replace(out, Bytes::new(alloc)).into_vec();
    let appended = append_ids(&mut bytes, ids);
    *out = Bytes::from_vec(bytes);
    appended
}

/// Whether a transaction may follow the others.
fn is_behind(front: &[TxnId], id: TxnId) -> bool
    requires { IsRising front.now }
    ensures value { result ≡ list_all (λ y. id_lt y id) front.now }
    ensures rises { IsTrue result → IsRising (front.now ++ id ∷ []) }
{
    match front.last() {
        Some(last) => *last < id,
        None => true,
    }
}

#[tactic(auto, unfolding(crate::specs::Reading::next_id_at))]
fn take_next_id(reader: &mut Reader<'_>, front: &[TxnId]) -> Result<TxnId, CodeError>
    requires { IsRising front.now }
    ensures read { Reads result reader.new (next_id_at front.now reader.old) }
    ensures rises { IfOk result (λ id. IsRising (front.now ++ id ∷ [])) }
{
    let field = reader.place();
    let id = take_id(reader)?;
    if !is_behind(front, id) {
        return Err(out_of_range(field));
    }
    Ok(id)
}

/// No transactions yet, with room for so many where the bytes that are left could spell them.
fn room_for(alloc: Global, reader: &Reader<'_>, count: u16) -> Result<Ids, OutOfMemory>
    ensures { IfOk result (λ ids. ids ≡ []) }
{
    let count = usize::from(count);
    let mut ids = Ids::new(alloc);
    if reader.left().len() / STAMP as usize >= count {
        ids.reserve(count)?;
    }
    Ok(ids)
}

#[tactic(auto, using(acc_code::proofs::Loops::each_goes_on, acc_code::proofs::Loops::each_fails, acc_code::proofs::Loops::each_ends))]
fn take_each_id(alloc: Global, reader: &mut Reader<'_>, count: u16) -> Result<Ids, CodeError>
    ensures read { Reads result reader.new (each_at next_id_at count [] reader.old) }
    ensures rises { IfOk result (λ ids. IsRising ids) }
    ensures count { IfOk result (λ ids. length ids ≡ count) }
{
    let mut ids = room_for(alloc, reader, count)?;
    for _ in 0..count {
        let id = take_next_id(reader, ids.as_slice())?;
        ids.push(id)?;
    }
    Ok(ids)
}

/// At least so many transactions, which rise.
#[tactic(auto, unfolding(crate::specs::Reading::ids_at))]
pub(crate) fn take_ids(alloc: Global, reader: &mut Reader<'_>, least: u16) -> Result<Ids, CodeError>
    ensures read { Reads result reader.new (ids_at least reader.old) }
    ensures rises { IfOk result (λ ids. IsRising ids) }
    ensures least { IfOk result (λ ids. least ≤ length ids) }
{
    let field = reader.place();
    let count = reader.take_u16()?;
    if count < least {
        return Err(out_of_range(field));
    }
    take_each_id(alloc, reader, count)
}
