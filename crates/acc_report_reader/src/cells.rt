//! Replies, as they are read.
ghost use Rattle.std.specs.Prelude.{◌≡◌, false, if◌then◌else◌, [], ◌∷◌, ◌++◌, OnOk};
ghost use Rattle.acc_report_reader.specs.Gives.{Gives};
ghost use Rattle.acc_report_reader.specs.Fields.{list_in, content_in, text_in, negative_in, positive_in, plain_in, cell_in, verdict_in, bare_in, valued_in, reply_in};

use crate::numbers::number;
use crate::parts::{is_word, parts, piece};
use crate::refusal::Refusal;
use acc_base::{OutOfMemory, Text};
use acc_txn::{Reply, Verdict, is_free_text_value};
use acc_value::{Cells, Value};
use std::alloc::Global;

/// A reply.
#[tactic(auto, unfolding(crate::specs::Fields::reply_in))]
pub(crate) fn reply(alloc: Global, bytes: &[u8]) -> Result<Reply, Refusal>
    ensures { Gives (λ reply. reply) result (reply_in bytes.now) }
{
    match parts(bytes, b' ') {
        Some((verdict, values)) => valued(alloc, verdict, values),
        None => bare(alloc, bytes),
    }
}

/// A verdict that no values follow.
#[tactic(auto, unfolding(crate::specs::Fields::bare_in))]
fn bare(alloc: Global, bytes: &[u8]) -> Result<Reply, Refusal>
    ensures { Gives (λ reply. reply) result (bare_in bytes.now) }
{
    let values = Cells::new(alloc);
    if is_word(bytes, b"overflow") {
        return Ok(Reply {
            verdict: Verdict::Overflow,
            values,
        });
    }
    let verdict = verdict(bytes)?;
    Ok(Reply { verdict, values })
}

/// A verdict and the values after it.
#[tactic(auto, unfolding(crate::specs::Fields::valued_in))]
fn valued(alloc: Global, first: &[u8], others: &[u8]) -> Result<Reply, Refusal>
    ensures { Gives (λ reply. reply) result (valued_in (first.now, others.now)) }
{
    let verdict = verdict(first)?;
    let values = cells(alloc, others)?;
    Ok(Reply { verdict, values })
}

/// A verdict that values may follow.
#[tactic(auto, unfolding(crate::specs::Fields::verdict_in))]
fn verdict(bytes: &[u8]) -> Result<Verdict, Refusal>
    ensures { Gives (λ verdict. verdict) result (verdict_in bytes.now) }
{
    if is_word(bytes, b"ok") {
        Ok(Verdict::Ok)
    } else if is_word(bytes, b"skipped") {
        Ok(Verdict::Skipped)
    } else {
        Err(Refusal::Form)
    }
}

/// Values with commas between them.
fn cells(alloc: Global, bytes: &[u8]) -> Result<Cells, Refusal>
    ensures { Gives (λ cells. cells) result (list_in cell_in bytes.now) }
{
    let mut cells = Cells::new(alloc);
    let mut rest = bytes;
    while let Some((first, others)) = piece(rest) {
        cells.push(cell(alloc, first)?)?;
        rest = others;
    }
    cells.push(cell(alloc, rest)?)?;
    Ok(cells)
}

/// What a cell holds.
#[tactic(auto, unfolding(crate::specs::Fields::cell_in))]
fn cell(alloc: Global, bytes: &[u8]) -> Result<Option<Value>, Refusal>
    ensures { Gives (λ cell. cell) result (cell_in bytes.now) }
{
    let Some((first, others)) = bytes.split_first() else {
        return Err(Refusal::Form);
    };
    if *first == b'\'' {
        text(alloc, others)
    } else if *first == b'-' {
        negative(others)
    } else {
        plain(bytes)
    }
}

/// A text, from after its opening quote on.
#[tactic(auto, unfolding(crate::specs::Fields::text_in))]
fn text(alloc: Global, bytes: &[u8]) -> Result<Option<Value>, Refusal>
    ensures { Gives (λ cell. cell) result (text_in bytes.now) }
{
    let said = content(alloc, bytes)?;
    if is_free_text_value(said.as_slice()) {
        Ok(Some(Value::Text(said)))
    } else {
        Err(Refusal::Form)
    }
}

/// What stands up to the closing quote, with one quote for two.
fn content(alloc: Global, bytes: &[u8]) -> Result<Text, Refusal>
    ensures { Gives (λ said. said) result (content_in false bytes.now) }
{
    let mut said = Text::new(alloc);
    let mut waits = false;
    for byte in bytes {
        let quote = *byte == b'\'';
        if waits & !quote {
            return Err(Refusal::Form);
        }
        push_said(&mut said, *byte, waits | !quote)?;
        waits = quote & !waits;
    }
    if waits { Ok(said) } else { Err(Refusal::Form) }
}

/// Appends a byte that is said. An opening quote of two isn't.
fn push_said(said: &mut Text, byte: u8, is_said: bool) -> Result<(), OutOfMemory>
    ensures { OnOk result (said.new ≡ said.old ++ (if is_said then byte ∷ [] else [])) }
{
    if is_said { said.push(byte) } else { Ok(()) }
}

/// A number below zero, from after its sign on.
#[tactic(auto, unfolding(crate::specs::Fields::negative_in))]
fn negative(bytes: &[u8]) -> Result<Option<Value>, Refusal>
    ensures { Gives (λ cell. cell) result (negative_in bytes.now) }
{
    let number = number(bytes)?;
    if 1 <= number && number <= 0x8000_0000_0000_0000 {
        Ok(Some(Value::Number(-1 - (number - 1) as i64)))
    } else {
        Err(Refusal::Form)
    }
}

/// Null, or a number without a sign.
#[tactic(auto, unfolding(crate::specs::Fields::plain_in))]
fn plain(bytes: &[u8]) -> Result<Option<Value>, Refusal>
    ensures { Gives (λ cell. cell) result (plain_in bytes.now) }
{
    if is_word(bytes, b"null") {
        Ok(None)
    } else {
        positive(bytes)
    }
}

#[tactic(auto, unfolding(crate::specs::Fields::positive_in))]
fn positive(bytes: &[u8]) -> Result<Option<Value>, Refusal>
    ensures { Gives (λ cell. cell) result (positive_in bytes.now) }
{
    let number = number(bytes)?;
    if number < 0x8000_0000_0000_0000 {
        Ok(Some(Value::Number(number as i64)))
    } else {
        Err(Refusal::Form)
    }
}
