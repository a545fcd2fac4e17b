//! Expressions, which are sums of terms.
ghost use Rattle.std.specs.Prelude.{◌≡◌, ◌≤◌, [], ◌∷◌, ◌++◌, ℕ, Bool, List, length, false, pos, neg_ℤ, OnOk};
ghost use Rattle.acc_txn.specs.declared.parts.Part.{Part};
ghost use Rattle.acc_token.specs.Tokens.{behind, left_at, token_at};
ghost use Rattle.acc_token.specs.Lexemes.{token_shown};
ghost use Rattle.acc_lang.specs.Answer.{Gives};
ghost use Rattle.acc_lang.specs.Reading.{term as term_from, text_value as text_value_from, negative as negative_from, plain as plain_from, null as null_from, one_part as one_part_from, more_parts as more_parts_from, expression as expression_from, part_of};

use crate::fault::ReadError;
use crate::fit::{begun, fitted};
use crate::judge::{check, check_behind_minus, standing_of};
use crate::lexemes::{is_mark, is_number, is_quoted, is_word, number_of, text_of};
use crate::names::named_by;
use crate::take::{sees_sign, take_sign};
use acc_token::{Cursor, Shown};
use acc_txn::{Expr, Let, Part, Term};
use std::alloc::Global;

/// The greatest number of terms.
const MOST_TERMS: usize = 16;

/// The greatest number after a minus sign.
const LARGEST_NEGATIVE: u64 = 9223372036854775808;

/// `term { ( + | - ) term }`
#[tactic(auto, using(crate::proofs::Taking::fails_on), unfolding(crate::specs::Reading::expression))]
pub fn expression(
    alloc: Global,
    cursor: &mut Cursor<'_>,
    texts: bool,
    lets: &[Let],
) -> Result<Expr, ReadError>
    requires { length lets.now ≤ 16 }
    ensures { Gives (λ sum. sum) result cursor.new.rest.now (expression_from texts lets.now cursor.old.rest.now) }
{
    let first = term(alloc, cursor, texts, lets, false)?;
    more_parts(alloc, cursor, texts, lets, first)
}

/// The sum of a first term and the terms that follow it.
pub fn more_parts(
    alloc: Global,
    cursor: &mut Cursor<'_>,
    texts: bool,
    lets: &[Let],
    first: Term,
) -> Result<Expr, ReadError>
    requires { length lets.now ≤ 16 }
    ensures { Gives (λ sum. sum) result cursor.new.rest.now (more_parts_from texts lets.now 15 (part_of false first ∷ []) cursor.old.rest.now) }
{
    let first = Part {
        minus: false,
        term: first,
    };
    let mut sum = begun(alloc, first, sees_sign(cursor))?;
    'parts: while sees_sign(cursor) {
        let extra = sum.len() == MOST_TERMS;
        let next = one_part(alloc, cursor, texts, lets, extra)?;
        sum.push(next)?;
    }
    Ok(fitted(sum))
}

/// `( + | - ) term`
#[tactic(auto, using(crate::proofs::Taking::fails_on), unfolding(crate::specs::Reading::one_part))]
fn one_part(
    alloc: Global,
    cursor: &mut Cursor<'_>,
    texts: bool,
    lets: &[Let],
    extra: bool,
) -> Result<Part, ReadError>
    requires { length lets.now ≤ 16 }
    ensures next { (sum : List Part) → Gives (λ part. sum ++ part ∷ []) result cursor.new.rest.now (one_part_from texts lets.now extra sum cursor.old.rest.now) }
    ensures room { OnOk result (extra ≡ false) }
{
    let minus = take_sign(cursor, texts)?;
    let term = term(alloc, cursor, texts, lets, extra)?;
    Ok(Part { minus, term })
}

/// `[ - ] number | text | NULL | name . v`, a text where text values are allowed.
#[tactic(auto, using(crate::proofs::Taking::fails_on), unfolding(crate::specs::Reading::term))]
pub fn term(
    alloc: Global,
    cursor: &mut Cursor<'_>,
    texts: bool,
    lets: &[Let],
    extra: bool,
) -> Result<Term, ReadError>
    requires { length lets.now ≤ 16 }
    ensures term { Gives (λ term. term) result cursor.new.rest.now (term_from texts extra lets.now cursor.old.rest.now) }
    ensures room { OnOk result (extra ≡ false) }
{
    let mut ahead = *cursor;
    let shown = ahead.next();
    let first = shown.lexeme;
    if is_mark(&first, "-") {
        negative(cursor, texts, extra)
    } else if is_number(&first) {
        *cursor = ahead;
        plain(&shown, texts, extra)
    } else if is_quoted(&first) && texts {
        text_value(alloc, cursor, extra)
    } else if is_word(&first, "null") {
        null(cursor, texts, extra)
    } else {
        *cursor = ahead;
        let name = named_by(&shown, cursor, texts, lets, extra)?;
        Ok(Term::Name(name))
    }
}

/// `- number`
#[tactic(auto, using(crate::proofs::Taking::fails_at_once, crate::proofs::Taking::fits, crate::proofs::Numbers::fits_behind_minus), unfolding(crate::specs::Reading::negative, crate::specs::Reading::step))]
fn negative(cursor: &mut Cursor<'_>, texts: bool, extra: bool) -> Result<Term, ReadError>
    ensures term { Gives (λ term. term) result cursor.new.rest.now (negative_from texts extra cursor.old.rest.now) }
    ensures room { OnOk result (extra ≡ false) }
{
    let sign = cursor.next();
    check(&sign, !texts, standing_of(true, extra, true))?;
    let digits = cursor.next();
    check_behind_minus(&digits, !texts)?;
    Ok(Term::Number(negated(number_of(&digits.lexeme))))
}

fn negated(number: u64) -> i64
    requires { number ≤ 9223372036854775808 }
    ensures { result ≡ neg_ℤ (pos number) }
{
    if number == LARGEST_NEGATIVE {
        i64::MIN
    } else {
        -(number as i64)
    }
}

#[tactic(auto, using(crate::proofs::Taking::fails_at_once, crate::proofs::Taking::fits, crate::proofs::Numbers::fits_plain), unfolding(crate::specs::Reading::plain, crate::specs::Reading::step))]
fn plain(digits: &Shown<'_>, texts: bool, extra: bool) -> Result<Term, ReadError>
    ensures term { (text : List ℕ) → token_shown digits.now.lexeme ≡ token_at text → digits.now.left ≡ left_at text
        → Gives (λ term. term) result (behind text) (plain_from texts extra text) }
    ensures room { OnOk result (extra ≡ false) }
{
    check(digits, !texts, standing_of(true, extra, true))?;
    Ok(Term::Number(number_of(&digits.lexeme) as i64))
}

#[tactic(auto, using(crate::proofs::Taking::fails_at_once, crate::proofs::Taking::fits), unfolding(crate::specs::Reading::text_value, crate::specs::Reading::step))]
fn text_value(alloc: Global, cursor: &mut Cursor<'_>, extra: bool) -> Result<Term, ReadError>
    ensures term { (texts : Bool) → Gives (λ term. term) result cursor.new.rest.now (text_value_from texts extra cursor.old.rest.now) }
    ensures room { OnOk result (extra ≡ false) }
{
    let shown = cursor.next();
    check(&shown, false, standing_of(true, extra, true))?;
    Ok(Term::Text(text_of(alloc, &shown.lexeme)?))
}

#[tactic(auto, using(crate::proofs::Taking::fails_at_once, crate::proofs::Taking::fits), unfolding(crate::specs::Reading::null, crate::specs::Reading::step))]
fn null(cursor: &mut Cursor<'_>, texts: bool, extra: bool) -> Result<Term, ReadError>
    ensures term { Gives (λ term. term) result cursor.new.rest.now (null_from texts extra cursor.old.rest.now) }
    ensures room { OnOk result (extra ≡ false) }
{
    let shown = cursor.next();
    check(&shown, !texts, standing_of(true, extra, true))?;
    Ok(Term::Null)
}
