//! The select.
ghost use Rattle.std.specs.Prelude.{◌≡◌, ◌≤◌, [], ◌∷◌, ◌++◌, ℕ, List, length, false, OnOk};
ghost use Rattle.acc_lang.specs.Answer.{Gives};
ghost use Rattle.acc_lang.specs.Reading.{one_item as one_item_from, more_items as more_items_from, items as items_from, get as get_from, selected as selected_from, select as select_from, begins_get as begins_get_of};

use crate::fault::ReadError;
use crate::fit::begun;
use crate::keys::from_key;
use crate::names::named;
use crate::take::{sees_mark, sees_word, skip_word, take_mark, take_word};
use acc_token::Cursor;
use acc_txn::{Let, Numbers, Select};
use acc_value::Footprint;
use std::alloc::Global;

/// The greatest number of items.
const MOST_ITEMS: usize = 16;

/// The select, if there is one.
#[tactic(auto, unfolding(crate::specs::Reading::select))]
pub fn select(
    alloc: Global,
    cursor: &mut Cursor<'_>,
    texts: bool,
    uses: &mut Footprint,
    lets: &[Let],
) -> Result<Select, ReadError>
    requires { length lets.now ≤ 16 }
    ensures { Gives (λ select. (select, uses.new)) result cursor.new.rest.now (select_from texts uses.old lets.now cursor.old.rest.now) }
{
    if skip_word(cursor, "select") {
        selected(alloc, cursor, texts, uses, lets)
    } else {
        Ok(Select::Nothing)
    }
}

// After SELECT.
#[tactic(auto, using(crate::proofs::Taking::fails_on), unfolding(crate::specs::Reading::selected))]
fn selected(
    alloc: Global,
    cursor: &mut Cursor<'_>,
    texts: bool,
    uses: &mut Footprint,
    lets: &[Let],
) -> Result<Select, ReadError>
    requires { length lets.now ≤ 16 }
    ensures { Gives (λ select. (select, uses.new)) result cursor.new.rest.now (selected_from texts uses.old lets.now cursor.old.rest.now) }
{
    if begins_get(cursor) {
        get(alloc, cursor, texts, uses)
    } else {
        let names = items(alloc, cursor, texts, lets)?;
        Ok(Select::Names(names))
    }
}

fn begins_get(cursor: &Cursor<'_>) -> bool
    ensures { result ≡ begins_get_of cursor.now.rest.now }
{
    if !sees_word(cursor, "v") {
        return false;
    }
    let mut ahead = *cursor;
    ahead.next();
    sees_word(&ahead, "from")
}

/// `v FROM table WHERE k = 'key' ;`
#[tactic(auto, using(crate::proofs::Taking::fails_on), unfolding(crate::specs::Reading::get))]
fn get(
    alloc: Global,
    cursor: &mut Cursor<'_>,
    texts: bool,
    uses: &mut Footprint,
) -> Result<Select, ReadError>
    ensures { Gives (λ select. (select, uses.new)) result cursor.new.rest.now (get_from texts uses.old cursor.old.rest.now) }
{
    take_word(cursor, texts, "v")?;
    let key = from_key(alloc, cursor, texts, uses, false)?;
    take_mark(cursor, texts, ";")?;
    Ok(Select::Get(key))
}

/// `name . v { , name . v } ;`
#[tactic(auto, using(crate::proofs::Taking::fails_on), unfolding(crate::specs::Reading::items))]
fn items(
    alloc: Global,
    cursor: &mut Cursor<'_>,
    texts: bool,
    lets: &[Let],
) -> Result<Numbers, ReadError>
    requires { length lets.now ≤ 16 }
    ensures { Gives (λ names. names) result cursor.new.rest.now (items_from texts lets.now cursor.old.rest.now) }
{
    let first = named(cursor, texts, lets, false)?;
    let names = more_items(alloc, cursor, texts, lets, first)?;
    take_mark(cursor, texts, ";")?;
    Ok(names)
}

fn more_items(
    alloc: Global,
    cursor: &mut Cursor<'_>,
    texts: bool,
    lets: &[Let],
    first: u8,
) -> Result<Numbers, ReadError>
    requires { length lets.now ≤ 16 }
    ensures { Gives (λ names. names) result cursor.new.rest.now (more_items_from texts lets.now 15 (first ∷ []) cursor.old.rest.now) }
{
    let mut names = begun(alloc, first, sees_mark(cursor, ","))?;
    'items: while sees_mark(cursor, ",") {
        let extra = names.len() == MOST_ITEMS;
        let next = one_item(cursor, texts, lets, extra)?;
        names.push(next)?;
    }
    Ok(names)
}

/// `, name . v`
#[tactic(auto, using(crate::proofs::Taking::fails_on), unfolding(crate::specs::Reading::one_item))]
fn one_item(
    cursor: &mut Cursor<'_>,
    texts: bool,
    lets: &[Let],
    extra: bool,
) -> Result<u8, ReadError>
    requires { length lets.now ≤ 16 }
    ensures next { (names : List ℕ) → Gives (λ name. names ++ name ∷ []) result cursor.new.rest.now (one_item_from texts lets.now extra names cursor.old.rest.now) }
    ensures room { OnOk result (extra ≡ false) }
{
    take_mark(cursor, texts, ",")?;
    named(cursor, texts, lets, extra)
}
