//! The text of keys, and of the reads of their cells.
ghost use Rattle.std.specs.Prelude.{◌≡◌, ◌++◌, flat_map, OnOk};
ghost use Rattle.acc_print.specs.Canonical.{quoted_byte, quoted, where_text, get_text, let_text};

use acc_base::OutOfMemory;
use acc_txn::Let;
use acc_value::Key;

/// Appends a LET, with a space in front of it.
#[tactic(auto, unfolding(crate::specs::Canonical::let_text))]
pub fn push_let(text: &mut Vec<u8>, binding: &Let) -> Result<(), OutOfMemory>
    ensures { OnOk result (text.new.items ≡ text.old.items ++ let_text binding.now) }
{
    text.extend_from_slice(b" LET ")?;
    text.extend_from_slice(binding.name.as_slice())?;
    text.extend_from_slice(b" = (")?;
    push_get(text, &binding.key)?;
    text.extend_from_slice(b");")?;
    Ok(())
}

/// Appends the read of a key's cell.
#[tactic(auto, unfolding(crate::specs::Canonical::get_text))]
pub fn push_get(text: &mut Vec<u8>, key: &Key) -> Result<(), OutOfMemory>
    ensures { OnOk result (text.new.items ≡ text.old.items ++ get_text key.now) }
{
    text.extend_from_slice(b"SELECT v FROM ")?;
    text.extend_from_slice(key.table.as_slice())?;
    push_where(text, key)
}

/// Appends the condition that chooses a key in its table, with a space in front of it.
#[tactic(auto, unfolding(crate::specs::Canonical::where_text))]
pub fn push_where(text: &mut Vec<u8>, key: &Key) -> Result<(), OutOfMemory>
    ensures { OnOk result (text.new.items ≡ text.old.items ++ where_text key.now) }
{
    text.extend_from_slice(b" WHERE k = ")?;
    push_quoted(text, key.key.as_slice())
}

/// Appends a text in quotes, with two quotes for one.
pub fn push_quoted(text: &mut Vec<u8>, bytes: &[u8]) -> Result<(), OutOfMemory>
    ensures { OnOk result (text.new.items ≡ text.old.items ++ quoted bytes.now) }
{
    text.extend_from_slice(b"'")?;
    push_content(text, bytes)?;
    text.extend_from_slice(b"'")?;
    Ok(())
}

fn push_content(text: &mut Vec<u8>, bytes: &[u8]) -> Result<(), OutOfMemory>
    ensures { OnOk result (text.new.items ≡ text.old.items ++ flat_map quoted_byte bytes.now) }
{
    for byte in bytes {
        push_quoted_byte(text, *byte)?;
    }
    Ok(())
}

fn push_quoted_byte(text: &mut Vec<u8>, byte: u8) -> Result<(), OutOfMemory>
    ensures { OnOk result (text.new.items ≡ text.old.items ++ quoted_byte byte) }
{
    if byte == b'\'' {
        text.extend_from_slice(b"''")?;
    } else {
        text.push(byte)?;
    }
    Ok(())
}
