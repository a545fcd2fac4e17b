//! The whole text.
ghost use Rattle.std.specs.Prelude.{◌≡◌, ◌≤◌, [], true, false, length, IfOk};
ghost use Rattle.acc_txn.specs.Uses.{selected_keys, written_keys, with_keys, footprint_of};
ghost use Rattle.acc_lang.specs.Answer.{Gives, Passes, Answers};
ghost use Rattle.acc_lang.specs.Reading.{guarded as guarded_from, unguarded as unguarded_from, action as action_from, commit_word as commit_word_from, commit as commit_from, finish as finish_from, opening, closing, behind_lets as behind_lets_from, reading};

use crate::changes::{more_updates, update};
use crate::conditions::conditions;
use crate::fault::ReadError;
use crate::fit::begun;
use crate::judge::check_behind_end;
use crate::lets::lets;
use crate::selects::select;
use crate::take::{sees_update, skip_mark, skip_word, take_first, take_word};
use acc_base::Sequence;
use acc_token::Cursor;
use acc_txn::{BodyParts, Conditions, Let, Lets, Updates};
use acc_value::Footprint;
use std::alloc::Global;

/// `BEGIN TRANSACTION { let } [ select ] action COMMIT TRANSACTION [ ; ]`, and nothing after it. `texts` tells whether text
/// values are allowed. The keys that the body uses are added to the footprint.
#[tactic(auto, using(crate::proofs::Taking::fails_on), unfolding(crate::specs::Reading::reading))]
pub fn read(
    alloc: Global,
    text: &[u8],
    texts: bool,
    uses: &mut Footprint,
) -> Result<BodyParts, ReadError>
    requires { uses.old ≡ [] }
    ensures parts { Answers result (reading texts text.now) }
    ensures uses { IfOk result (λ parts. uses.new ≡ footprint_of parts) }
{
    let mut cursor = Cursor::new(text);
    open(&mut cursor, texts)?;
    let lets = lets(alloc, &mut cursor, texts, uses)?;
    behind_lets(alloc, &mut cursor, texts, uses, lets)
}

/// `BEGIN TRANSACTION`
#[tactic(auto, using(crate::proofs::Taking::fails_on), unfolding(crate::specs::Reading::opening))]
fn open(cursor: &mut Cursor<'_>, texts: bool) -> Result<(), ReadError>
    ensures { Passes result cursor.new.rest.now (opening texts cursor.old.rest.now) }
{
    take_word(cursor, texts, "begin")?;
    take_word(cursor, texts, "transaction")
}

#[tactic(auto, using(crate::proofs::Taking::fails_on), unfolding(crate::specs::Reading::behind_lets))]
fn behind_lets(
    alloc: Global,
    cursor: &mut Cursor<'_>,
    texts: bool,
    uses: &mut Footprint,
    lets: Lets,
) -> Result<BodyParts, ReadError>
    requires { length lets ≤ 16 }
    ensures parts { Answers result (behind_lets_from texts uses.old lets cursor.old.rest.now) }
    ensures lets { IfOk result (λ parts. parts.lets ≡ lets) }
    ensures uses { IfOk result (λ parts. uses.new ≡ with_keys true (with_keys false uses.old (selected_keys parts.select)) (written_keys parts)) }
{
    let select = select(alloc, cursor, texts, uses, lets.as_slice())?;
    let (guards, updates) = action(alloc, cursor, texts, uses, lets.as_slice())?;
    close(cursor, texts, uses)?;
    Ok(BodyParts {
        lets,
        select,
        guards,
        updates,
    })
}

/// `COMMIT TRANSACTION [ ; ]`, and nothing after it.
#[tactic(auto, using(crate::proofs::Taking::fails_on), unfolding(crate::specs::Reading::closing))]
fn close(cursor: &mut Cursor<'_>, texts: bool, uses: &Footprint) -> Result<(), ReadError>
    ensures { Passes result cursor.new.rest.now (closing texts uses.now cursor.old.rest.now) }
{
    commit(cursor, texts, uses)?;
    finish(cursor)
}

#[tactic(auto, unfolding(crate::specs::Reading::action))]
fn action(
    alloc: Global,
    cursor: &mut Cursor<'_>,
    texts: bool,
    uses: &mut Footprint,
    lets: &[Let],
) -> Result<(Conditions, Updates), ReadError>
    requires { length lets.now ≤ 16 }
    ensures { Gives (λ both. (both, uses.new)) result cursor.new.rest.now (action_from texts uses.old lets.now cursor.old.rest.now) }
{
    if skip_word(cursor, "if") {
        guarded(alloc, cursor, texts, uses, lets)
    } else {
        unguarded(alloc, cursor, texts, uses, lets)
    }
}

/// `conditions THEN update { update } END IF [ ; ]`
#[tactic(auto, using(crate::proofs::Taking::fails_on), unfolding(crate::specs::Reading::guarded, crate::specs::Reading::one_update))]
fn guarded(
    alloc: Global,
    cursor: &mut Cursor<'_>,
    texts: bool,
    uses: &mut Footprint,
    lets: &[Let],
) -> Result<(Conditions, Updates), ReadError>
    requires { length lets.now ≤ 16 }
    ensures { Gives (λ both. (both, uses.new)) result cursor.new.rest.now (guarded_from texts uses.old lets.now cursor.old.rest.now) }
{
    let guards = conditions(alloc, cursor, texts, lets)?;
    let first = update(alloc, cursor, texts, uses, lets, false)?;
    let first = begun(alloc, first, sees_update(cursor))?;
    let updates = more_updates(alloc, cursor, texts, uses, lets, first)?;
    take_word(cursor, texts, "end")?;
    take_word(cursor, texts, "if")?;
    skip_mark(cursor, ";");
    Ok((guards, updates))
}

#[tactic(auto, using(crate::proofs::Taking::fails_on), unfolding(crate::specs::Reading::unguarded))]
fn unguarded(
    alloc: Global,
    cursor: &mut Cursor<'_>,
    texts: bool,
    uses: &mut Footprint,
    lets: &[Let],
) -> Result<(Conditions, Updates), ReadError>
    requires { length lets.now ≤ 16 }
    ensures { Gives (λ both. (both, uses.new)) result cursor.new.rest.now (unguarded_from texts uses.old lets.now cursor.old.rest.now) }
{
    let updates = more_updates(alloc, cursor, texts, uses, lets, Sequence::new(alloc))?;
    Ok((Sequence::new(alloc), updates))
}

/// `COMMIT TRANSACTION [ ; ]`
#[tactic(auto, using(crate::proofs::Taking::fails_on), unfolding(crate::specs::Reading::commit))]
fn commit(cursor: &mut Cursor<'_>, texts: bool, uses: &Footprint) -> Result<(), ReadError>
    ensures { Passes result cursor.new.rest.now (commit_from texts uses.now cursor.old.rest.now) }
{
    commit_word(cursor, texts, uses)?;
    take_word(cursor, texts, "transaction")?;
    skip_mark(cursor, ";");
    Ok(())
}

/// `COMMIT`, where there is a key.
#[tactic(auto, unfolding(crate::specs::Reading::commit_word))]
fn commit_word(cursor: &mut Cursor<'_>, texts: bool, uses: &Footprint) -> Result<(), ReadError>
    ensures { Passes result cursor.new.rest.now (commit_word_from texts uses.now cursor.old.rest.now) }
{
    take_first(cursor, texts, "commit", uses.is_empty())
}

#[tactic(auto, using(crate::proofs::Taking::passes), unfolding(crate::specs::Reading::finish))]
fn finish(cursor: &mut Cursor<'_>) -> Result<(), ReadError>
    ensures { Passes result cursor.new.rest.now (finish_from cursor.old.rest.now) }
{
    check_behind_end(&cursor.next())
}
