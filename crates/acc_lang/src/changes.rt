//! Updates.
ghost use Rattle.std.specs.Prelude.{◌≡◌, ◌≤◌, [], ◌∷◌, ◌-◌, List, length, true, false, IfOk, OnOk};
ghost use Rattle.acc_value.specs.Footprint.{used};
ghost use Rattle.acc_txn.specs.declared.parts.Update.{Update};
ghost use Rattle.acc_lang.specs.Answer.{Gives};
ghost use Rattle.acc_lang.specs.Reading.{assignment as assignment_from, removal as removal_from, update as update_from, one_update as one_update_from, more_updates as more_updates_from, key_written};

use crate::fault::ReadError;
use crate::fit::{fitted, push};
use crate::keys::{from_key, table, where_key};
use crate::sums::expression;
use crate::take::{sees_update, take_mark, take_update, take_word};
use acc_token::Cursor;
use acc_txn::{Let, Update, Updates};
use acc_value::Footprint;
use std::alloc::Global;

/// The greatest number of updates.
const MOST_UPDATES: usize = 16;

/// The updates that follow those that were read already, up to the first token that begins none.
pub fn more_updates(
    alloc: Global,
    cursor: &mut Cursor<'_>,
    texts: bool,
    uses: &mut Footprint,
    lets: &[Let],
    updates: Updates,
) -> Result<Updates, ReadError>
    requires lets { length lets.now ≤ 16 }
    requires updates { length updates ≤ 16 }
    ensures { Gives (λ all. (all, uses.new)) result cursor.new.rest.now (more_updates_from texts lets.now (16 - length updates) (updates, uses.old) cursor.old.rest.now) }
{
    let mut all = updates;
    'updates: while sees_update(cursor) {
        let extra = all.len() == MOST_UPDATES;
        let next = update(alloc, cursor, texts, uses, lets, extra)?;
        push(&mut all, next)?;
    }
    Ok(fitted(all))
}

/// One update, with the key that it writes.
#[tactic(auto, using(crate::proofs::Taking::fails_on), unfolding(crate::specs::Reading::update))]
pub fn update(
    alloc: Global,
    cursor: &mut Cursor<'_>,
    texts: bool,
    uses: &mut Footprint,
    lets: &[Let],
    extra: bool,
) -> Result<Update, ReadError>
    requires { length lets.now ≤ 16 }
    ensures update { Gives (λ update. update) result cursor.new.rest.now (update_from texts extra uses.old lets.now cursor.old.rest.now) }
    ensures uses { IfOk result (λ update. uses.new ≡ used uses.old (key_written update) true) }
    ensures room { OnOk result (extra ≡ false) }
{
    let sets = take_update(cursor, texts, extra)?;
    if sets {
        assignment(alloc, cursor, texts, uses, lets)
    } else {
        removal(alloc, cursor, texts, uses)
    }
}

/// `table SET v = expression WHERE k = 'key' ;`
#[tactic(auto, using(crate::proofs::Taking::fails_on), unfolding(crate::specs::Reading::assignment))]
fn assignment(
    alloc: Global,
    cursor: &mut Cursor<'_>,
    texts: bool,
    uses: &mut Footprint,
    lets: &[Let],
) -> Result<Update, ReadError>
    requires { length lets.now ≤ 16 }
    ensures update { Gives (λ update. update) result cursor.new.rest.now (assignment_from texts uses.old lets.now cursor.old.rest.now) }
    ensures uses { IfOk result (λ update. uses.new ≡ used uses.old (key_written update) true) }
{
    let name = table(alloc, cursor, texts)?;
    take_word(cursor, texts, "set")?;
    take_word(cursor, texts, "v")?;
    take_mark(cursor, texts, "=")?;
    let value = expression(alloc, cursor, texts, lets)?;
    let key = where_key(alloc, cursor, texts, uses, true, name)?;
    take_mark(cursor, texts, ";")?;
    Ok(Update::Set { key, value })
}

/// `FROM table WHERE k = 'key' ;`
#[tactic(auto, using(crate::proofs::Taking::fails_on), unfolding(crate::specs::Reading::removal))]
fn removal(
    alloc: Global,
    cursor: &mut Cursor<'_>,
    texts: bool,
    uses: &mut Footprint,
) -> Result<Update, ReadError>
    ensures update { Gives (λ update. update) result cursor.new.rest.now (removal_from texts uses.old cursor.old.rest.now) }
    ensures uses { IfOk result (λ update. uses.new ≡ used uses.old (key_written update) true) }
{
    let key = from_key(alloc, cursor, texts, uses, true)?;
    take_mark(cursor, texts, ";")?;
    Ok(Update::Delete { key })
}
