//! Cells, and keys with their cells.
use super::push;
use acc_base::{OutOfMemory, push_number, push_signed_number};
use acc_value::{Key, Value};

/// Cells, joined by commas, each after its sign: the first one after the given sign.
pub fn push_cells(
    text: &mut Vec<u8>,
    first: &str,
    cells: &[Option<Value>],
) -> Result<(), OutOfMemory> {
    let mut sign = first;
    for cell in cells {
        push(text, sign)?;
        push_cell(text, cell)?;
        sign = ",";
    }
    Ok(())
}

/// Keys with their cells, as `TABLE.KEY=VALUE`, each after its sign: the first one after the given sign.
pub fn push_pairs(
    text: &mut Vec<u8>,
    first: &str,
    pairs: &[(Key, Option<Value>)],
) -> Result<(), OutOfMemory> {
    let mut sign = first;
    for (key, cell) in pairs {
        push(text, sign)?;
        push_key(text, key)?;
        push_cell(text, cell)?;
        sign = ",";
    }
    Ok(())
}

fn push_key(text: &mut Vec<u8>, key: &Key) -> Result<(), OutOfMemory> {
    push_shown(text, key.table.as_slice())?;
    push(text, ".")?;
    push_shown(text, key.key.as_slice())?;
    push(text, "=")
}

/// Bytes as they are where they are UTF-8, else the number of each after a backslash.
fn push_shown(text: &mut Vec<u8>, bytes: &[u8]) -> Result<(), OutOfMemory> {
    if std::str::from_utf8(bytes).is_ok() {
        text.extend_from_slice(bytes)?;
        return Ok(());
    }
    for byte in bytes {
        push(text, "\\")?;
        push_number(text, u64::from(*byte))?;
    }
    Ok(())
}

fn push_cell(text: &mut Vec<u8>, cell: &Option<Value>) -> Result<(), OutOfMemory> {
    match cell {
        Some(Value::Number(number)) => push_signed_number(text, *number),
        Some(Value::Text(held)) => push_quoted(text, held.as_slice()),
        None => push(text, "null"),
    }
}

/// A text in quotes, with two quotes for one.
fn push_quoted(text: &mut Vec<u8>, held: &[u8]) -> Result<(), OutOfMemory> {
    push(text, "'")?;
    for byte in held {
        if *byte == b'\'' {
            text.push(b'\'')?;
        }
        text.push(*byte)?;
    }
    push(text, "'")
}
