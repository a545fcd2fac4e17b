//! Cells, and lists of them.
ghost use Rattle.std.specs.Prelude.{◌≡◌, ◌<◌, ◌++◌, ◌∷◌, [], Option, List, length, OnOk, OnErr, IfOk, IsTrue};
ghost use Rattle.std.specs.List.{list_all, flat_map, AllByRecursion};
ghost use Rattle.acc_wire.specs.Reading.{Unread, Passes, AreBytes};
ghost use Rattle.acc_value.specs.declared.key.Key.{Key};
ghost use Rattle.acc_value.specs.declared.value.Value.{Value};
ghost use Rattle.acc_value.specs.Key.{key_lt};
ghost use Rattle.acc_value.specs.Pairs.{IsRising};
ghost use Rattle.acc_code.specs.Spelling.{listed, cell_bytes, pair_bytes, cells_bytes};
ghost use Rattle.acc_code.specs.Short.{IsShortKey, HoldsText, AreShortCells, AreCells, IsCell};
ghost use Rattle.acc_code.specs.Reading.{Reads, each_at, listed_at};
ghost use Rattle.acc_code.specs.CellReading.{text_value_at, cell_at, next_key_at, pair_at, cells_at};
ghost use Rattle.acc_txn.specs.Writing.{Keeps};

use crate::error::CodeError;
use crate::fields::{out_of_range, take_between};
use crate::keys::take_any_key;
use acc_base::{Bytes, OutOfMemory, Text};
use acc_txn::{is_free_text_value, put_key};
use acc_value::{CellList, Cells, Key, Value};
use acc_wire::{Reader, put_marked_i64, put_text, put_u8};
use std::alloc::Global;

/// Appends a cell: 0, or 1 and its number, or 2 and its text.
#[tactic(auto, using(acc_txn::proofs::Kept::keeps_all, acc_txn::proofs::Kept::keeps_front, acc_txn::proofs::Kept::keeps_more, acc_txn::proofs::BodyShortness::short_text), unfolding(crate::specs::Spelling::cell_bytes))]
fn put_cell(out: &mut Bytes, cell: &Option<Value>) -> Result<(), OutOfMemory>
    requires { HoldsText cell.now }
    ensures ok { OnOk result (out.new ≡ out.old ++ cell_bytes cell.now) }
    ensures kept { OnErr result (Keeps out.old out.new) }
    ensures fits { OnOk result (IsCell cell.now) }
{
    match cell {
        None => put_u8(out, 0),
        Some(Value::Number(number)) => put_marked_i64(out, 1, *number),
        Some(Value::Text(text)) => {
            put_u8(out, 2)?;
            put_text(out, text.as_slice())
        }
    }
}

#[tactic(auto, using(acc_txn::proofs::Kept::keeps_all, acc_txn::proofs::Kept::keeps_front, acc_txn::proofs::Kept::keeps_more), unfolding(crate::specs::Spelling::pair_bytes))]
fn put_pair(out: &mut Bytes, key: &Key, cell: &Option<Value>) -> Result<(), OutOfMemory>
    requires key { IsShortKey key.now }
    requires text { HoldsText cell.now }
    ensures ok { OnOk result (out.new ≡ out.old ++ pair_bytes (key.now, cell.now)) }
    ensures kept { OnErr result (Keeps out.old out.new) }
    ensures fits { OnOk result (IsCell cell.now) }
{
    put_key(out, key)?;
    put_cell(out, cell)
}

#[tactic(auto, using(acc_txn::proofs::Kept::keeps_all, acc_txn::proofs::Kept::keeps_front, acc_txn::proofs::Kept::keeps_more))]
fn put_pairs(out: &mut Bytes, pairs: &[(Key, Option<Value>)]) -> Result<(), OutOfMemory>
    requires keys { AllByRecursion (λ p. IsShortKey p.0) pairs.now }
    requires texts { AllByRecursion (λ p. HoldsText p.1) pairs.now }
    ensures ok { OnOk result (out.new ≡ out.old ++ flat_map pair_bytes pairs.now) }
    ensures kept { OnErr result (Keeps out.old out.new) }
    ensures fits { OnOk result (AllByRecursion (λ p. IsCell p.1) pairs.now) }
{
    for (key, cell) in pairs {
        put_pair(out, key, cell)?;
    }
    Ok(())
}

#[tactic(auto, using(acc_txn::proofs::Kept::keeps_all, acc_txn::proofs::Kept::keeps_front, acc_txn::proofs::Kept::keeps_more), unfolding(crate::specs::Spelling::cells_bytes, acc_txn::specs::BodySpelling::listed))]
fn put_counted_pairs(out: &mut Bytes, cells: &CellList) -> Result<(), OutOfMemory>
    requires { AreShortCells cells.now }
    ensures ok { OnOk result (out.new ≡ out.old ++ cells_bytes cells.now) }
    ensures kept { OnErr result (Keeps out.old out.new) }
    ensures fits { OnOk result (AreCells cells.now) }
{
    put_u8(out, cells.len() as u8)?;
    put_pairs(out, cells.pairs())
}

/// Appends a list of cells: a count in one byte, and the pairs of a key and its cell. Without memory for it the bytes are
/// as before.
pub fn put_cells(out: &mut Bytes, cells: &CellList) -> Result<(), OutOfMemory>
    requires { AreShortCells cells.now }
    ensures ok { OnOk result (out.new ≡ out.old ++ cells_bytes cells.now) }
    ensures err { OnErr result (out.new ≡ out.old) }
    // What is written can be read.
    ensures fits { OnOk result (AreCells cells.now) }
{
    let before = out.len();
    let appended = put_counted_pairs(out, cells);
    if appended.is_err() {
        out.truncate(before);
    }
    appended
}

/// A text that a cell may hold.
#[tactic(auto, unfolding(crate::specs::CellReading::text_value_at))]
pub(crate) fn take_text_value(alloc: Global, reader: &mut Reader<'_>) -> Result<Text, CodeError>
    ensures { Reads result reader.new (text_value_at reader.old) }
{
    let field = reader.place();
    let text = reader.take_text()?;
    if !is_free_text_value(text) {
        return Err(out_of_range(field));
    }
    Ok(Text::from_slice(alloc, text)?)
}

/// A cell.
#[tactic(auto, unfolding(crate::specs::CellReading::cell_at))]
fn take_cell(alloc: Global, reader: &mut Reader<'_>) -> Result<Option<Value>, CodeError>
    ensures { Reads result reader.new (cell_at reader.old) }
{
    match take_between(reader, 0, 2)? {
        0 => Ok(None),
        1 => Ok(Some(Value::Number(reader.take_i64()?))),
        _ => Ok(Some(Value::Text(take_text_value(alloc, reader)?))),
    }
}

/// Whether a key may follow the pairs.
fn is_behind(pairs: &CellList, key: &Key) -> bool
    ensures value { result ≡ list_all (λ p. key_lt p.0 key.now) pairs.now }
    ensures rising { IsTrue result → (cell : Option Value) → IsRising (pairs.now ++ (key.now, cell) ∷ []) }
{
    match pairs.pairs().last() {
        Some((last, _)) => last < key,
        None => true,
    }
}

#[tactic(auto, unfolding(crate::specs::CellReading::next_key_at))]
fn take_next_key(alloc: Global, reader: &mut Reader<'_>, front: &CellList) -> Result<Key, CodeError>
    ensures read { Reads result reader.new (next_key_at front.now reader.old) }
    ensures rising { IfOk result (λ key. (cell : Option Value) → IsRising (front.now ++ (key, cell) ∷ [])) }
{
    let field = reader.place();
    let key = take_any_key(alloc, reader)?;
    if !is_behind(front, &key) {
        return Err(out_of_range(field));
    }
    Ok(key)
}

#[tactic(auto, unfolding(crate::specs::CellReading::pair_at))]
fn take_pair(
    alloc: Global,
    reader: &mut Reader<'_>,
    front: &CellList,
) -> Result<(Key, Option<Value>), CodeError>
    ensures read { Reads result reader.new (pair_at front.now reader.old) }
    ensures rising { IfOk result (λ pair. IsRising (front.now ++ pair ∷ [])) }
{
    let key = take_next_key(alloc, reader, front)?;
    let cell = take_cell(alloc, reader)?;
    Ok((key, cell))
}

#[tactic(auto, using(crate::proofs::Loops::each_goes_on, crate::proofs::Loops::each_fails, crate::proofs::Loops::each_ends))]
fn take_pairs(alloc: Global, reader: &mut Reader<'_>, count: u8) -> Result<CellList, CodeError>
    ensures { Reads result reader.new (each_at pair_at count [] reader.old) }
{
    let mut pairs = CellList::new(alloc);
    for _ in 0..count {
        let (key, cell) = take_pair(alloc, reader, &pairs)?;
        pairs.push(key, cell)?;
    }
    Ok(pairs)
}

#[tactic(auto, unfolding(crate::specs::CellReading::cells_at, crate::specs::Reading::listed_at))]
fn take_counted_pairs(alloc: Global, reader: &mut Reader<'_>) -> Result<CellList, CodeError>
    ensures exact { Reads result reader.new (cells_at reader.old) }
    ensures kept { OnErr result (reader.new ≡ reader.old) }
    ensures bytes { AreBytes reader.old.bytes }
{
    let mut ahead = reader.fork();
    let count = take_between(&mut ahead, 0, u8::MAX)?;
    let cells = take_pairs(alloc, &mut ahead, count)?;
    *reader = ahead;
    Ok(cells)
}

/// A list of cells. The error is that of the first field at fault, with the place of its first byte: Short where the bytes
/// end inside the field, and Range where it holds what isn't allowed, which is a cell that begins with none of 0, 1 and 2, a text that no cell can hold, or
/// a key that isn't greater than the one before it. After an error the reader is unchanged.
pub fn take_cells(alloc: Global, reader: &mut Reader<'_>) -> Result<CellList, CodeError>
    // What is read is spelled so.
    ensures found { IfOk result (λ cells. Passes reader.old reader.new (cells_bytes cells)) }
    ensures fits { IfOk result AreCells }
    // What is spelled so is read, unless memory runs out.
    ensures only { (cells : List (Key × Option Value)) (rest : Unread) → AreCells cells → Passes reader.old rest (cells_bytes cells)
        → Reads result reader.new (Ok (cells, rest)) }
    // Which fault it is.
    ensures exact { Reads result reader.new (cells_at reader.old) }
    ensures kept { OnErr result (reader.new ≡ reader.old) }
{
    take_counted_pairs(alloc, reader)
}

/// Appends cells one after the other.
#[tactic(auto, using(acc_txn::proofs::Kept::keeps_all, acc_txn::proofs::Kept::keeps_front, acc_txn::proofs::Kept::keeps_more))]
fn put_each_cell(out: &mut Bytes, cells: &[Option<Value>]) -> Result<(), OutOfMemory>
    requires { AllByRecursion HoldsText cells.now }
    ensures ok { OnOk result (out.new ≡ out.old ++ flat_map cell_bytes cells.now) }
    ensures kept { OnErr result (Keeps out.old out.new) }
    ensures fits { OnOk result (AllByRecursion IsCell cells.now) }
{
    for cell in cells {
        put_cell(out, cell)?;
    }
    Ok(())
}

/// Appends a count in one byte, and as many cells.
#[tactic(auto, using(acc_txn::proofs::Kept::keeps_all, acc_txn::proofs::Kept::keeps_front, acc_txn::proofs::Kept::keeps_more), unfolding(acc_txn::specs::BodySpelling::listed))]
pub(crate) fn put_values(out: &mut Bytes, values: &Cells) -> Result<(), OutOfMemory>
    requires count { length values.now < 256 }
    requires texts { AllByRecursion HoldsText values.now }
    ensures ok { OnOk result (out.new ≡ out.old ++ listed cell_bytes values.now) }
    ensures kept { OnErr result (Keeps out.old out.new) }
    ensures fits { OnOk result (AllByRecursion IsCell values.now) }
{
    put_u8(out, values.len() as u8)?;
    put_each_cell(out, values.as_slice())
}

#[tactic(auto, using(crate::proofs::Loops::each_fails, crate::proofs::Loops::each_ends))]
fn take_each_cell(alloc: Global, reader: &mut Reader<'_>, count: u8) -> Result<Cells, CodeError>
    ensures { Reads result reader.new (each_at (λ _. cell_at) count [] reader.old) }
{
    let mut values = Cells::new(alloc);
    for _ in 0..count {
        let cell = take_cell(alloc, reader)?;
        values.push(cell)?;
    }
    Ok(values)
}

/// A count in one byte, and as many cells.
#[tactic(auto, unfolding(crate::specs::Reading::listed_at))]
pub(crate) fn take_values(alloc: Global, reader: &mut Reader<'_>) -> Result<Cells, CodeError>
    ensures { Reads result reader.new (listed_at 0 255 (λ _. cell_at) reader.old) }
{
    let count = take_between(reader, 0, u8::MAX)?;
    take_each_cell(alloc, reader, count)
}
