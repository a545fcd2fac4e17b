//! Conditions.
ghost use Rattle.std.specs.Prelude.{◌≡◌, ◌≤◌, [], ◌∷◌, ◌++◌, List, length, false, OnOk};
ghost use Rattle.acc_token.specs.Lexemes.{token_shown};
ghost use Rattle.acc_txn.specs.declared.parts.Condition.{Condition};
ghost use Rattle.acc_lang.specs.Answer.{Gives};
ghost use Rattle.acc_lang.specs.Reading.{operator_of as operator_of_token, operator as operator_from, null_test as null_test_from, comparison as comparison_from, condition_from as condition_from_term, condition as condition_from, one_condition as one_condition_from, more_conditions as more_conditions_from, conditions as conditions_from};

use crate::fault::ReadError;
use crate::fit::{begun, fitted};
use crate::judge::{check, standing_of};
use crate::lexemes::is_mark;
use crate::sums::{expression, more_parts, term};
use crate::take::{sees_word, skip_word, take_word};
use acc_token::{Cursor, Lexeme};
use acc_txn::{Condition, Conditions, Let, Operator, Term};
use std::alloc::Global;

/// The greatest number of conditions.
const MOST_CONDITIONS: usize = 16;

/// `condition { AND condition } THEN`
#[tactic(auto, using(crate::proofs::Taking::fails_on), unfolding(crate::specs::Reading::conditions))]
pub fn conditions(
    alloc: Global,
    cursor: &mut Cursor<'_>,
    texts: bool,
    lets: &[Let],
) -> Result<Conditions, ReadError>
    requires { length lets.now ≤ 16 }
    ensures { Gives (λ all. all) result cursor.new.rest.now (conditions_from texts lets.now cursor.old.rest.now) }
{
    let first = condition(alloc, cursor, texts, lets, false)?;
    let all = more_conditions(alloc, cursor, texts, lets, first)?;
    take_word(cursor, texts, "then")?;
    Ok(all)
}

fn more_conditions(
    alloc: Global,
    cursor: &mut Cursor<'_>,
    texts: bool,
    lets: &[Let],
    first: Condition,
) -> Result<Conditions, ReadError>
    requires { length lets.now ≤ 16 }
    ensures { Gives (λ all. all) result cursor.new.rest.now (more_conditions_from texts lets.now 15 (first ∷ []) cursor.old.rest.now) }
{
    let mut all = begun(alloc, first, sees_word(cursor, "and"))?;
    'conditions: while sees_word(cursor, "and") {
        let extra = all.len() == MOST_CONDITIONS;
        let next = one_condition(alloc, cursor, texts, lets, extra)?;
        all.push(next)?;
    }
    Ok(fitted(all))
}

/// `AND condition`
#[tactic(auto, using(crate::proofs::Taking::fails_on), unfolding(crate::specs::Reading::one_condition))]
fn one_condition(
    alloc: Global,
    cursor: &mut Cursor<'_>,
    texts: bool,
    lets: &[Let],
    extra: bool,
) -> Result<Condition, ReadError>
    requires { length lets.now ≤ 16 }
    ensures next { (all : List Condition) → Gives (λ next. all ++ next ∷ []) result cursor.new.rest.now (one_condition_from texts lets.now extra all cursor.old.rest.now) }
    ensures room { OnOk result (extra ≡ false) }
{
    take_word(cursor, texts, "and")?;
    condition(alloc, cursor, texts, lets, extra)
}

#[tactic(auto, using(crate::proofs::Taking::fails_on), unfolding(crate::specs::Reading::condition))]
fn condition(
    alloc: Global,
    cursor: &mut Cursor<'_>,
    texts: bool,
    lets: &[Let],
    extra: bool,
) -> Result<Condition, ReadError>
    requires { length lets.now ≤ 16 }
    ensures condition { Gives (λ condition. condition) result cursor.new.rest.now (condition_from texts extra lets.now cursor.old.rest.now) }
    ensures room { OnOk result (extra ≡ false) }
{
    let first = term(alloc, cursor, texts, lets, extra)?;
    condition_from(alloc, cursor, texts, lets, first)
}

// After the first term: IS NULL and IS NOT NULL only after a name.
#[tactic(auto, unfolding(crate::specs::Reading::condition_from))]
fn condition_from(
    alloc: Global,
    cursor: &mut Cursor<'_>,
    texts: bool,
    lets: &[Let],
    first: Term,
) -> Result<Condition, ReadError>
    requires { length lets.now ≤ 16 }
    ensures { Gives (λ condition. condition) result cursor.new.rest.now (condition_from_term texts lets.now first cursor.old.rest.now) }
{
    match first {
        Term::Name(name) if skip_word(cursor, "is") => null_test(cursor, texts, name),
        _ => comparison(alloc, cursor, texts, lets, first),
    }
}

/// `NULL` or `NOT NULL`
#[tactic(auto, using(crate::proofs::Taking::fails_on), unfolding(crate::specs::Reading::null_test))]
fn null_test(cursor: &mut Cursor<'_>, texts: bool, name: u8) -> Result<Condition, ReadError>
    ensures { Gives (λ condition. condition) result cursor.new.rest.now (null_test_from texts name cursor.old.rest.now) }
{
    if skip_word(cursor, "not") {
        take_word(cursor, texts, "null")?;
        Ok(Condition::IsNotNull(name))
    } else {
        take_word(cursor, texts, "null")?;
        Ok(Condition::IsNull(name))
    }
}

#[tactic(auto, using(crate::proofs::Taking::fails_on), unfolding(crate::specs::Reading::comparison))]
fn comparison(
    alloc: Global,
    cursor: &mut Cursor<'_>,
    texts: bool,
    lets: &[Let],
    first: Term,
) -> Result<Condition, ReadError>
    requires { length lets.now ≤ 16 }
    ensures { Gives (λ condition. condition) result cursor.new.rest.now (comparison_from texts lets.now first cursor.old.rest.now) }
{
    let left = more_parts(alloc, cursor, texts, lets, first)?;
    let op = operator(cursor, texts)?;
    let right = expression(alloc, cursor, texts, lets)?;
    Ok(Condition::Compare { op, left, right })
}

#[tactic(auto, using(crate::proofs::Taking::fails_at_once), unfolding(crate::specs::Reading::operator, crate::specs::Reading::step))]
fn operator(cursor: &mut Cursor<'_>, texts: bool) -> Result<Operator, ReadError>
    ensures { Gives (λ op. op) result cursor.new.rest.now (operator_from texts cursor.old.rest.now) }
{
    let shown = cursor.next();
    let op = operator_of(&shown.lexeme);
    check(&shown, !texts, standing_of(op.is_some(), false, true))?;
    Ok(op.unwrap_or(Operator::Equal))
}

fn operator_of(lexeme: &Lexeme<'_>) -> Option<Operator>
    ensures { result ≡ operator_of_token (token_shown lexeme.now) }
{
    if is_mark(lexeme, "=") {
        Some(Operator::Equal)
    } else if is_mark(lexeme, "!=") {
        Some(Operator::Differs)
    } else if is_mark(lexeme, "<") {
        Some(Operator::Less)
    } else if is_mark(lexeme, "<=") {
        Some(Operator::AtMost)
    } else if is_mark(lexeme, ">") {
        Some(Operator::More)
    } else if is_mark(lexeme, ">=") {
        Some(Operator::AtLeast)
    } else {
        None
    }
}
