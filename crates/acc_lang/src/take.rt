//! Takes one token from the text.
ghost use Rattle.std.specs.Prelude.{◌≡◌, codes, false, not, true, IfOk, OnOk, if◌then◌else◌};
ghost use Rattle.acc_token.specs.Tokens.{behind as behind_of, token_at, says_word, says_mark};
ghost use Rattle.acc_lang.specs.Answer.{Passes};
ghost use Rattle.acc_lang.specs.Reading.{step, standing_of as standing_of_token, take_word as take_word_from, take_mark as take_mark_from, skip_mark as skip_mark_from, is_sign as is_sign_of, begins_update as begins_update_of};

use crate::fault::ReadError;
use crate::judge::{LONGEST_WORD, check, standing_of};
use crate::lexemes::{begins_update, is_mark, is_sign, is_word};
use acc_token::Cursor;

/// Whether this word, which is given in small letters, stands next.
#[inline(always)]
pub fn sees_word(cursor: &Cursor<'_>, word: &str) -> bool
    ensures { result ≡ says_word word.now (token_at cursor.now.rest.now) }
{
    cursor.is_word(word.as_bytes())
}

/// Goes after this word, which is given in small letters, where it stands next, and tells whether it does.
#[inline(always)]
pub fn skip_word(cursor: &mut Cursor<'_>, word: &str) -> bool
    ensures word { result ≡ says_word word.now (token_at cursor.old.rest.now) }
    ensures behind { cursor.new.rest.now ≡ (if result then behind_of cursor.old.rest.now else cursor.old.rest.now) }
{
    cursor.skip_word(word.as_bytes())
}

/// Whether this mark stands next.
#[inline(always)]
pub fn sees_mark(cursor: &Cursor<'_>, mark: &str) -> bool
    ensures { result ≡ says_mark mark.now (token_at cursor.now.rest.now) }
{
    cursor.is_mark(mark.as_bytes())
}

/// Whether a plus or a minus stands next.
#[inline(always)]
pub fn sees_sign(cursor: &Cursor<'_>) -> bool
    ensures { result ≡ is_sign_of (token_at cursor.now.rest.now) }
{
    sees_mark(cursor, "+") || sees_mark(cursor, "-")
}

/// Whether an update stands next.
#[inline(always)]
pub fn sees_update(cursor: &Cursor<'_>) -> bool
    ensures { result ≡ begins_update_of (token_at cursor.now.rest.now) }
{
    sees_word(cursor, "update") || sees_word(cursor, "delete")
}

/// Takes this word, which is given in small letters.
#[tactic(auto, unfolding(crate::specs::Reading::take_word))]
#[inline(always)]
pub fn take_word(cursor: &mut Cursor<'_>, texts: bool, word: &str) -> Result<(), ReadError>
    ensures { Passes result cursor.new.rest.now (take_word_from texts word.now cursor.old.rest.now) }
{
    take_first(cursor, texts, word, false)
}

/// Takes this word, which is given in small letters and begins what may be one too many.
#[tactic(auto, using(crate::proofs::Seeing::first_taken))]
#[inline(always)]
pub fn take_first(
    cursor: &mut Cursor<'_>,
    texts: bool,
    word: &str,
    extra: bool,
) -> Result<(), ReadError>
    ensures word { Passes result cursor.new.rest.now (step (not texts) (standing_of_token (says_word word.now (token_at cursor.old.rest.now)) extra true) cursor.old.rest.now) }
    ensures room { OnOk result (extra ≡ false) }
{
    if !extra && word.len() <= LONGEST_WORD && cursor.skip_word(word.as_bytes()) {
        Ok(())
    } else {
        judged_word(cursor, texts, word, extra)
    }
}

// Takes the word, or tells what is wrong with what stands there.
#[tactic(auto, using(crate::proofs::Taking::passes, crate::proofs::Taking::fits), unfolding(crate::specs::Reading::step))]
#[cold]
#[inline(never)]
fn judged_word(
    cursor: &mut Cursor<'_>,
    texts: bool,
    word: &str,
    extra: bool,
) -> Result<(), ReadError>
    ensures word { Passes result cursor.new.rest.now (step (not texts) (standing_of_token (says_word word.now (token_at cursor.old.rest.now)) extra true) cursor.old.rest.now) }
    ensures room { OnOk result (extra ≡ false) }
{
    let shown = cursor.next();
    check(
        &shown,
        !texts,
        standing_of(is_word(&shown.lexeme, word), extra, true),
    )
}

/// Takes UPDATE or DELETE, which begins what may be one update too many, and tells whether it is UPDATE.
#[tactic(auto, using(crate::proofs::Seeing::update_taken, crate::proofs::Seeing::delete_taken))]
#[inline(always)]
pub fn take_update(cursor: &mut Cursor<'_>, texts: bool, extra: bool) -> Result<bool, ReadError>
    ensures word { Passes result cursor.new.rest.now (step (not texts) (standing_of_token (begins_update_of (token_at cursor.old.rest.now)) extra true) cursor.old.rest.now) }
    ensures update { IfOk result (λ sets. sets ≡ says_word (codes "update") (token_at cursor.old.rest.now)) }
    ensures room { OnOk result (extra ≡ false) }
{
    if !extra && skip_word(cursor, "update") {
        Ok(true)
    } else if !extra && skip_word(cursor, "delete") {
        Ok(false)
    } else {
        judged_update(cursor, texts, extra)
    }
}

// Takes the word, or tells what is wrong with what stands there.
#[tactic(auto, using(crate::proofs::Taking::passes, crate::proofs::Taking::fails_at_once, crate::proofs::Taking::fits), unfolding(crate::specs::Reading::step))]
#[cold]
#[inline(never)]
fn judged_update(cursor: &mut Cursor<'_>, texts: bool, extra: bool) -> Result<bool, ReadError>
    ensures word { Passes result cursor.new.rest.now (step (not texts) (standing_of_token (begins_update_of (token_at cursor.old.rest.now)) extra true) cursor.old.rest.now) }
    ensures update { IfOk result (λ sets. sets ≡ says_word (codes "update") (token_at cursor.old.rest.now)) }
    ensures room { OnOk result (extra ≡ false) }
{
    let shown = cursor.next();
    check(
        &shown,
        !texts,
        standing_of(begins_update(&shown.lexeme), extra, true),
    )?;
    Ok(is_word(&shown.lexeme, "update"))
}

/// Takes a plus or a minus, and tells whether it is a minus.
#[tactic(auto, using(crate::proofs::Seeing::plus_taken, crate::proofs::Seeing::minus_taken))]
#[inline(always)]
pub fn take_sign(cursor: &mut Cursor<'_>, texts: bool) -> Result<bool, ReadError>
    ensures sign { Passes result cursor.new.rest.now (step (not texts) (standing_of_token (is_sign_of (token_at cursor.old.rest.now)) false true) cursor.old.rest.now) }
    ensures minus { IfOk result (λ minus. minus ≡ says_mark (codes "-") (token_at cursor.old.rest.now)) }
{
    if cursor.skip_mark(b"-") {
        Ok(true)
    } else if cursor.skip_mark(b"+") {
        Ok(false)
    } else {
        judged_sign(cursor, texts)
    }
}

// Takes the sign, or tells what is wrong with what stands there.
#[tactic(auto, using(crate::proofs::Taking::passes, crate::proofs::Taking::fails_at_once), unfolding(crate::specs::Reading::step))]
#[cold]
#[inline(never)]
fn judged_sign(cursor: &mut Cursor<'_>, texts: bool) -> Result<bool, ReadError>
    ensures sign { Passes result cursor.new.rest.now (step (not texts) (standing_of_token (is_sign_of (token_at cursor.old.rest.now)) false true) cursor.old.rest.now) }
    ensures minus { IfOk result (λ minus. minus ≡ says_mark (codes "-") (token_at cursor.old.rest.now)) }
{
    let shown = cursor.next();
    check(
        &shown,
        !texts,
        standing_of(is_sign(&shown.lexeme), false, true),
    )?;
    Ok(is_mark(&shown.lexeme, "-"))
}

/// Takes this mark.
#[tactic(auto, using(crate::proofs::Seeing::mark_taken))]
#[inline(always)]
pub fn take_mark(cursor: &mut Cursor<'_>, texts: bool, mark: &str) -> Result<(), ReadError>
    ensures { Passes result cursor.new.rest.now (take_mark_from texts mark.now cursor.old.rest.now) }
{
    if cursor.skip_mark(mark.as_bytes()) {
        Ok(())
    } else {
        judged_mark(cursor, texts, mark)
    }
}

// Takes the mark, or tells what is wrong with what stands there.
#[tactic(auto, using(crate::proofs::Taking::passes), unfolding(crate::specs::Reading::take_mark, crate::specs::Reading::step))]
#[cold]
#[inline(never)]
fn judged_mark(cursor: &mut Cursor<'_>, texts: bool, mark: &str) -> Result<(), ReadError>
    ensures { Passes result cursor.new.rest.now (take_mark_from texts mark.now cursor.old.rest.now) }
{
    let shown = cursor.next();
    check(
        &shown,
        !texts,
        standing_of(is_mark(&shown.lexeme, mark), false, true),
    )
}

/// Takes this mark where it stands next.
#[tactic(auto, unfolding(crate::specs::Reading::skip_mark))]
#[inline(always)]
pub fn skip_mark(cursor: &mut Cursor<'_>, mark: &str)
    ensures { cursor.new.rest.now ≡ skip_mark_from mark.now cursor.old.rest.now }
{
    cursor.skip_mark(mark.as_bytes());
}
