//! A draw of a node.
ghost use Rattle.std.specs.Prelude.{◌≡◌, IfOk, OnErr};
ghost use Rattle.acc_wire.specs.Reading.{AreBytes};
ghost use Rattle.acc_code.specs.Reading.{between_at};
ghost use Rattle.acc_payloads.specs.declared.draw.Draw.{Draw as Drawn};
ghost use Rattle.acc_payloads.specs.Spelling.{purpose_number, draw_bytes, FitsDraw};
ghost use Rattle.acc_payloads.specs.Reading.{purpose_of as purpose_numbered, draw_at, draw_of, Leads};

use acc_base::{Bytes, OutOfMemory};
use acc_wire::{Reader, WireError, WireKind, put_u8, put_u32, put_u64};
use std::alloc::Global;

/// What a node draws for.
#[derive(Clone, Copy, Debug, PartialEq, Eq)]
pub enum Purpose {
    /// The id of a transaction that it begins.
    Begin = 1,
    /// The ballot of an attempt that takes a transaction over.
    Recover = 2,
}

/// A draw of a node, as its journal keeps it.
#[derive(Clone, Copy, Debug, PartialEq, Eq)]
pub struct Draw {
    /// What the node drew for.
    pub purpose: Purpose,
    /// The number of the transaction.
    pub txn: u32,
    /// The `h` that was drawn.
    pub h: u64,
}

fn number_of(purpose: Purpose) -> u8
    ensures { result ≡ purpose_number purpose }
{
    match purpose {
        Purpose::Begin => 1,
        Purpose::Recover => 2,
    }
}

fn purpose_of(number: u8) -> Purpose
    ensures { result ≡ purpose_numbered number }
{
    if number == 1 {
        Purpose::Begin
    } else {
        Purpose::Recover
    }
}

impl Draw {
    /// The payload of a draw.
    #[tactic(auto, unfolding(crate::specs::Spelling::draw_bytes))]
    pub fn to_bytes(&self, alloc: Global) -> Result<Bytes, OutOfMemory>
        ensures { IfOk result (λ bytes. bytes ≡ draw_bytes self.now) }
    {
        let mut out = Bytes::new(alloc);
        out.reserve(13)?;
        put_u8(&mut out, number_of(self.purpose))?;
        put_u32(&mut out, self.txn)?;
        put_u64(&mut out, self.h)?;
        Ok(out)
    }
}

/// The number of a purpose. Range comes at any other byte.
#[tactic(auto, unfolding(acc_code::specs::Reading::between_at))]
fn take_number(reader: &mut Reader<'_>) -> Result<u8, WireError>
    ensures exact { Leads result reader.new (between_at 1 2 reader.old) }
    ensures bytes { AreBytes reader.old.bytes }
{
    let place = reader.place();
    let number = reader.take_u8()?;
    if number < 1 || number > 2 {
        return Err(WireError {
            kind: WireKind::Range,
            place,
        });
    }
    Ok(number)
}

#[tactic(auto, unfolding(crate::specs::Reading::draw_at))]
fn take_draw(reader: &mut Reader<'_>) -> Result<Draw, WireError>
    ensures exact { Leads result reader.new (draw_at reader.old) }
    ensures bytes { AreBytes reader.old.bytes }
{
    let number = take_number(reader)?;
    let txn = reader.take_u32()?;
    let h = reader.take_u64()?;
    Ok(Draw {
        purpose: purpose_of(number),
        txn,
        h,
    })
}

#[tactic(auto, unfolding(crate::specs::Reading::draw_of))]
fn take_all(bytes: &[u8]) -> Result<Draw, WireError>
    ensures exact { result ≡ draw_of bytes.now }
    ensures bytes { AreBytes bytes.now }
{
    let mut reader = Reader::new(bytes);
    let draw = take_draw(&mut reader)?;
    reader.finish()?;
    Ok(draw)
}

/// The draw of some bytes, all of them. It takes no memory; the error is the first fault of bytes that are no draw's payload.
pub(crate) fn read_draw(bytes: &[u8]) -> Result<Draw, WireError>
    ensures found { IfOk result (λ d. (bytes.now ≡ draw_bytes d) × FitsDraw d) }
    ensures only { OnErr result ((d : Drawn) → FitsDraw d → bytes.now ≡ draw_bytes d → ⊥) }
{
    take_all(bytes)
}
