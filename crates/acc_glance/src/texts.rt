//! What looks have seen, as text.
ghost use Rattle.std.specs.Prelude.{◌≡◌, ◌++◌, flat_map, None, Some, IfOk, OnOk};
ghost use Rattle.acc_report_line.specs.Texts.{cell_text, quoted, quoted_byte};
ghost use Rattle.acc_glance.specs.Texts.{end_text, seen_text, seens_text};

use crate::seen::{Seen, Seens, Sight};
use acc_base::{Bytes, OutOfMemory, push_number, push_signed_number};
use acc_value::Value;
use std::alloc::Global;

/// A line for each look, in their order.
pub fn looks_text(alloc: Global, seens: &Seens) -> Result<Bytes, OutOfMemory>
    ensures { IfOk result (λ text. text ≡ seens_text seens.now) }
{
    let mut text = Vec::new(alloc);
    for (number, seen) in seens.as_slice().iter().enumerate() {
        push_seen(&mut text, number, seen)?;
    }
    Ok(Bytes::from_vec(text))
}

// Appends the line of a look.
fn push_seen(text: &mut Vec<u8>, number: usize, seen: &Seen) -> Result<(), OutOfMemory>
    ensures { OnOk result (text.new.items ≡ text.old.items ++ seen_text number seen.now) }
{
    text.extend_from_slice(b"glance ")?;
    push_number(text, number as u64)?;
    text.push(b' ')?;
    match &seen.end {
        None => push_open(text, seen.from)?,
        Some(sight) => push_sight(text, seen.from, sight)?,
    }
    text.push(b'\n')?;
    Ok(())
}

fn push_open(text: &mut Vec<u8>, from: u64) -> Result<(), OutOfMemory>
    ensures { OnOk result (text.new.items ≡ text.old.items ++ end_text from None) }
{
    text.extend_from_slice(b"open from ")?;
    push_number(text, from)
}

fn push_sight(text: &mut Vec<u8>, from: u64, sight: &Sight) -> Result<(), OutOfMemory>
    ensures { OnOk result (text.new.items ≡ text.old.items ++ end_text from (Some sight.now)) }
{
    push_cell(text, &sight.cell)?;
    text.extend_from_slice(b" from ")?;
    push_number(text, from)?;
    text.extend_from_slice(b" at ")?;
    push_number(text, sight.at)?;
    text.extend_from_slice(b" to ")?;
    push_number(text, sight.to)
}

fn push_cell(text: &mut Vec<u8>, cell: &Option<Value>) -> Result<(), OutOfMemory>
    ensures { OnOk result (text.new.items ≡ text.old.items ++ cell_text cell.now) }
{
    match cell {
        Some(Value::Number(number)) => push_signed_number(text, *number),
        Some(Value::Text(value)) => push_quoted(text, value.as_slice()),
        None => Ok(text.extend_from_slice(b"null")?),
    }
}

fn push_quoted(text: &mut Vec<u8>, value: &[u8]) -> Result<(), OutOfMemory>
    ensures { OnOk result (text.new.items ≡ text.old.items ++ quoted value.now) }
{
    text.push(b'\'')?;
    push_content(text, value)?;
    text.push(b'\'')?;
    Ok(())
}

fn push_content(text: &mut Vec<u8>, value: &[u8]) -> Result<(), OutOfMemory>
    ensures { OnOk result (text.new.items ≡ text.old.items ++ flat_map quoted_byte value.now) }
{
    for byte in value {
        push_quoted_byte(text, *byte)?;
    }
    Ok(())
}

fn push_quoted_byte(text: &mut Vec<u8>, byte: u8) -> Result<(), OutOfMemory>
    ensures { OnOk result (text.new.items ≡ text.old.items ++ quoted_byte byte) }
{
    if byte == b'\'' {
        text.extend_from_slice(b"''")?;
    } else {
        text.push(byte)?;
    }
    Ok(())
}
