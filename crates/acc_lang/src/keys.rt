//! Tables and keys.
ghost use Rattle.std.specs.Prelude.{◌≡◌, Bool, IfOk, length, false};
ghost use Rattle.acc_value.specs.Footprint.{used};
ghost use Rattle.acc_lang.specs.Answer.{Gives};
ghost use Rattle.acc_lang.specs.Reading.{table as table_from, key_text as key_text_from, where_key as where_key_from, from_key as from_key_from};

use crate::fault::ReadError;
use crate::judge::{check, standing_of};
use crate::lexemes::{folded_inline, is_free, is_quoted, letters_of, text_inline};
use crate::take::{take_mark, take_word};
use acc_base::InlineText;
use acc_token::Cursor;
use acc_value::{Footprint, Key};
use std::alloc::Global;

/// The greatest number of different keys.
const MOST_KEYS: usize = 16;

/// The name of a table.
#[tactic(auto, using(crate::proofs::Taking::fails_at_once), unfolding(crate::specs::Reading::table, crate::specs::Reading::step))]
pub fn table(alloc: Global, cursor: &mut Cursor<'_>, texts: bool) -> Result<InlineText, ReadError>
    ensures { Gives (λ name. name) result cursor.new.rest.now (table_from texts cursor.old.rest.now) }
{
    let shown = cursor.next();
    check(
        &shown,
        !texts,
        standing_of(is_free(&shown.lexeme), false, true),
    )?;
    Ok(folded_inline(alloc, letters_of(&shown.lexeme))?)
}

/// The text of a key of a table, which is read or written.
#[tactic(auto, using(crate::proofs::Taking::fails_at_once), unfolding(crate::specs::Reading::key_text, crate::specs::Reading::step))]
fn key_text(
    alloc: Global,
    cursor: &mut Cursor<'_>,
    uses: &mut Footprint,
    writes: bool,
    table: InlineText,
) -> Result<Key, ReadError>
    ensures key { (texts : Bool) → Gives (λ key. key) result cursor.new.rest.now (key_text_from texts writes uses.old table cursor.old.rest.now) }
    ensures uses { IfOk result (λ key. uses.new ≡ used uses.old key writes) }
{
    let shown = cursor.next();
    let key = Key {
        table,
        key: text_inline(alloc, &shown.lexeme)?,
    };
    uses.add(&key, writes)?;
    let extra = uses.len() > MOST_KEYS;
    check(
        &shown,
        true,
        standing_of(is_quoted(&shown.lexeme), extra, true),
    )?;
    Ok(key)
}

/// `WHERE k = 'key'`
#[tactic(auto, using(crate::proofs::Taking::fails_on), unfolding(crate::specs::Reading::where_key))]
pub fn where_key(
    alloc: Global,
    cursor: &mut Cursor<'_>,
    texts: bool,
    uses: &mut Footprint,
    writes: bool,
    table: InlineText,
) -> Result<Key, ReadError>
    ensures key { Gives (λ key. key) result cursor.new.rest.now (where_key_from texts writes uses.old table cursor.old.rest.now) }
    ensures uses { IfOk result (λ key. uses.new ≡ used uses.old key writes) }
{
    take_word(cursor, texts, "where")?;
    take_word(cursor, texts, "k")?;
    take_mark(cursor, texts, "=")?;
    key_text(alloc, cursor, uses, writes, table)
}

/// `FROM table WHERE k = 'key'`
#[tactic(auto, using(crate::proofs::Taking::fails_on), unfolding(crate::specs::Reading::from_key))]
pub fn from_key(
    alloc: Global,
    cursor: &mut Cursor<'_>,
    texts: bool,
    uses: &mut Footprint,
    writes: bool,
) -> Result<Key, ReadError>
    ensures key { Gives (λ key. key) result cursor.new.rest.now (from_key_from texts writes uses.old cursor.old.rest.now) }
    ensures uses { IfOk result (λ key. uses.new ≡ used uses.old key writes) }
{
    take_word(cursor, texts, "from")?;
    let name = table(alloc, cursor, texts)?;
    where_key(alloc, cursor, texts, uses, writes, name)
}
