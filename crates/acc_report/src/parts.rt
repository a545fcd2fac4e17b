//! The parts of a line, as they are printed.
ghost use Rattle.std.specs.Prelude.{◌≡◌, ◌++◌, codes, flat_map, map, OnOk};
ghost use Rattle.acc_report.specs.Numbers.{name_in};
ghost use Rattle.acc_report_line.specs.Texts.{stamp_text, actor_text, names_text, path_text, verdict_text, quoted_byte, quoted, cell_text, values_text, reply_text};

use crate::names::Directory;
use acc_base::{OutOfMemory, push_number, push_signed_number};
use acc_message::Path;
use acc_stamp::{Actor, Stamp, TxnId};
use acc_txn::{Reply, Verdict};
use acc_value::{Cells, Value};

/// Appends a timestamp.
pub(crate) fn push_stamp(text: &mut Vec<u8>, stamp: Stamp) -> Result<(), OutOfMemory>
    ensures { OnOk result (text.new.items ≡ text.old.items ++ stamp_text stamp) }
{
    push_number(text, stamp.h)?;
    text.push(b'.')?;
    push_number(text, u64::from(stamp.origin))?;
    Ok(())
}

/// Appends an actor.
pub(crate) fn push_actor(text: &mut Vec<u8>, actor: Actor) -> Result<(), OutOfMemory>
    ensures { OnOk result (text.new.items ≡ text.old.items ++ actor_text actor) }
{
    push_number(text, u64::from(actor.node()))?;
    if actor.shard() != 0 {
        text.push(b'.')?;
        push_number(text, u64::from(actor.shard()))?;
    }
    Ok(())
}

/// The word of a path.
pub(crate) fn path_word(path: Path) -> &'static [u8]
    ensures { result.now ≡ path_text path }
{
    match path {
        Path::Fast => b"fast",
        Path::Slow => b"slow",
        Path::Recovered => b"recovered",
        Path::Adopted => b"adopted",
    }
}

/// Appends the names of ids.
pub(crate) fn push_names(
    text: &mut Vec<u8>,
    directory: &Directory<'_>,
    ids: &[TxnId],
) -> Result<(), OutOfMemory>
    ensures { OnOk result (text.new.items ≡ text.old.items ++ names_text (map (name_in directory.now) ids.now)) }
{
    let Some((first, others)) = ids.split_first() else {
        text.extend_from_slice(b"-")?;
        return Ok(());
    };
    text.extend_from_slice(directory.name_of(*first))?;
    push_more_names(text, directory, others)
}

fn push_more_names(
    text: &mut Vec<u8>,
    directory: &Directory<'_>,
    ids: &[TxnId],
) -> Result<(), OutOfMemory>
    ensures { OnOk result (text.new.items
        ≡ text.old.items ++ flat_map (λ name. codes "," ++ name) (map (name_in directory.now) ids.now)) }
{
    for id in ids {
        text.push(b',')?;
        text.extend_from_slice(directory.name_of(*id))?;
    }
    Ok(())
}

/// Appends a reply: its verdict, and its values if there are any.
pub(crate) fn push_reply(text: &mut Vec<u8>, reply: &Reply) -> Result<(), OutOfMemory>
    ensures { OnOk result (text.new.items ≡ text.old.items ++ reply_text reply.now) }
{
    text.extend_from_slice(verdict_word(reply.verdict))?;
    push_values(text, &reply.values)
}

fn verdict_word(verdict: Verdict) -> &'static [u8]
    ensures { result.now ≡ verdict_text verdict }
{
    match verdict {
        Verdict::Ok => b"ok",
        Verdict::Skipped => b"skipped",
        Verdict::Overflow => b"overflow",
    }
}

fn push_values(text: &mut Vec<u8>, values: &Cells) -> Result<(), OutOfMemory>
    ensures { OnOk result (text.new.items ≡ text.old.items ++ values_text values.now) }
{
    let Some((first, others)) = values.as_slice().split_first() else {
        return Ok(());
    };
    text.push(b' ')?;
    push_cell(text, first)?;
    push_more_cells(text, others)
}

fn push_more_cells(text: &mut Vec<u8>, cells: &[Option<Value>]) -> Result<(), OutOfMemory>
    ensures { OnOk result (text.new.items ≡ text.old.items ++ flat_map (λ cell. codes "," ++ cell_text cell) cells.now) }
{
    for cell in cells {
        text.push(b',')?;
        push_cell(text, cell)?;
    }
    Ok(())
}

fn push_cell(text: &mut Vec<u8>, cell: &Option<Value>) -> Result<(), OutOfMemory>
    ensures { OnOk result (text.new.items ≡ text.old.items ++ cell_text cell.now) }
{
    match cell {
        Some(Value::Number(number)) => push_signed_number(text, *number),
        Some(Value::Text(value)) => push_quoted(text, value.as_slice()),
        None => Ok(text.extend_from_slice(b"null")?),
    }
}

fn push_quoted(text: &mut Vec<u8>, value: &[u8]) -> Result<(), OutOfMemory>
    ensures { OnOk result (text.new.items ≡ text.old.items ++ quoted value.now) }
{
    text.push(b'\'')?;
    push_content(text, value)?;
    text.push(b'\'')?;
    Ok(())
}

fn push_content(text: &mut Vec<u8>, value: &[u8]) -> Result<(), OutOfMemory>
    ensures { OnOk result (text.new.items ≡ text.old.items ++ flat_map quoted_byte value.now) }
{
    for byte in value {
        push_quoted_byte(text, *byte)?;
    }
    Ok(())
}

fn push_quoted_byte(text: &mut Vec<u8>, byte: u8) -> Result<(), OutOfMemory>
    ensures { OnOk result (text.new.items ≡ text.old.items ++ quoted_byte byte) }
{
    if byte == b'\'' {
        text.extend_from_slice(b"''")?;
    } else {
        text.push(byte)?;
    }
    Ok(())
}
