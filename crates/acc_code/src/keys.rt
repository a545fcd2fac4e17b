//! Keys.
ghost use Rattle.std.specs.Prelude.{◌≡◌, ◌+◌, ◌≤◌, Bool, length, IfOk};
ghost use Rattle.std.specs.List.{list_any};
ghost use Rattle.acc_value.specs.Key.{key_eq};
ghost use Rattle.acc_value.specs.Footprint.{used};
ghost use Rattle.acc_txn.specs.Uses.{selected_keys, updated_key};
ghost use Rattle.acc_code.specs.Reading.{Reads, ReadsBy};
ghost use Rattle.acc_code.specs.CellReading.{any_key_at};
ghost use Rattle.acc_code.specs.BodyReading.{word_at, key_text_at, key_at, use_at, uses_so_far, is_among};

use crate::error::CodeError;
use crate::fields::out_of_range;
use acc_base::InlineText;
use acc_txn::{Let, Select, Update, is_free_key_text, is_free_word};
use acc_value::Key;
use acc_wire::Reader;
use std::alloc::Global;

/// The greatest number of different keys of a body.
const MOST_KEYS: usize = 16;

/// A key of any two texts.
#[tactic(auto, unfolding(crate::specs::CellReading::any_key_at))]
pub(crate) fn take_any_key(alloc: Global, reader: &mut Reader<'_>) -> Result<Key, CodeError>
    ensures { Reads result reader.new (any_key_at reader.old) }
{
    let table = reader.take_text()?;
    let key = reader.take_text()?;
    Ok(Key {
        table: InlineText::from_slice(alloc, table)?,
        key: InlineText::from_slice(alloc, key)?,
    })
}

/// A word that may name a LET or a table.
#[tactic(auto, unfolding(crate::specs::BodyReading::word_at))]
pub(crate) fn take_word<'a>(reader: &mut Reader<'a>) -> Result<&'a [u8], CodeError>
    ensures { ReadsBy (λ word. word.now) result reader.new (word_at reader.old) }
{
    let field = reader.place();
    let word = reader.take_text()?;
    if !is_free_word(word) {
        return Err(out_of_range(field));
    }
    Ok(word)
}

#[tactic(auto, unfolding(crate::specs::BodyReading::key_text_at))]
fn take_key_text<'a>(reader: &mut Reader<'a>) -> Result<&'a [u8], CodeError>
    ensures { ReadsBy (λ text. text.now) result reader.new (key_text_at reader.old) }
{
    let field = reader.place();
    let text = reader.take_text()?;
    if !is_free_key_text(text) {
        return Err(out_of_range(field));
    }
    Ok(text)
}

#[tactic(auto, unfolding(crate::specs::BodyReading::key_at))]
fn take_key(alloc: Global, reader: &mut Reader<'_>) -> Result<Key, CodeError>
    ensures { Reads result reader.new (key_at reader.old) }
{
    let table = take_word(reader)?;
    let key = take_key_text(reader)?;
    Ok(Key {
        table: InlineText::from_slice(alloc, table)?,
        key: InlineText::from_slice(alloc, key)?,
    })
}

fn is_bound(lets: &[Let], key: &Key) -> bool
    ensures { result ≡ list_any (λ l. key_eq key.now l.key) lets.now }
{
    lets.iter().any(|binding| key == &binding.key)
}

fn is_selected(select: &Select, key: &Key) -> bool
    ensures { result ≡ list_any (key_eq key.now) (selected_keys select.now) }
{
    match select {
        Select::Get(selected) => key == selected,
        Select::Nothing | Select::Names(_) => false,
    }
}

fn is_updated(updates: &[Update], key: &Key) -> bool
    ensures { result ≡ list_any (λ u. key_eq key.now (updated_key u)) updates.now }
{
    updates.iter().any(|update| key == update.key())
}

/// Whether a key is one of LETs, of a select that reads one, or of updates.
fn is_used(lets: &[Let], select: &Select, updates: &[Update], key: &Key) -> bool
    ensures { result ≡ is_among lets.now select.now updates.now key.now }
{
    is_bound(lets, key) || is_selected(select, key) || is_updated(updates, key)
}

/// A key of a body after LETs, a select and updates, which have so many different keys. It joins their count.
#[tactic(auto, unfolding(crate::specs::BodyReading::use_at))]
pub(crate) fn take_use(
    alloc: Global,
    reader: &mut Reader<'_>,
    lets: &[Let],
    select: &Select,
    updates: &[Update],
    keys: &mut usize,
) -> Result<Key, CodeError>
    requires counted { keys.old ≡ length (uses_so_far lets.now select.now updates.now) }
    requires few { keys.old ≤ 16 }
    ensures read { (writes : Bool) → Reads result reader.new (use_at (uses_so_far lets.now select.now updates.now) writes reader.old) }
    ensures counted { IfOk result (λ key. (writes : Bool) → keys.new ≡ length (used (uses_so_far lets.now select.now updates.now) key writes)) }
    ensures few { keys.new ≤ 16 }
{
    let field = reader.place();
    let key = take_key(alloc, reader)?;
    if !is_used(lets, select, updates, &key) {
        if *keys == MOST_KEYS {
            return Err(out_of_range(field));
        }
        *keys += 1;
    }
    Ok(key)
}
