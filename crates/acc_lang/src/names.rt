//! Names of LETs.
ghost use Rattle.std.specs.Prelude.{◌≡◌, ◌<◌, ◌≤◌, ℕ, List, length, false, map, OnOk, IfSome};
ghost use Rattle.std.specs.Char.{to_ascii_lowercase};
ghost use Rattle.acc_token.specs.Tokens.{behind, left_at, token_at};
ghost use Rattle.acc_token.specs.Lexemes.{token_shown};
ghost use Rattle.acc_lang.specs.Answer.{Gives};
ghost use Rattle.acc_lang.specs.Reading.{let_of as let_of_name, new_name as new_name_from, bound_name as bound_name_from, named as named_from};

use crate::fault::ReadError;
use crate::judge::{check, standing_of};
use crate::lexemes::{folded, is_free, letters_of, spells};
use crate::take::{take_mark, take_word};
use acc_base::Text;
use acc_token::{Cursor, Shown};
use acc_txn::Let;
use std::alloc::Global;

// The number of the LET that binds a name, whose letters are of either case.
fn let_of(lets: &[Let], letters: &[u8]) -> Option<usize>
    ensures number { result ≡ let_of_name lets.now (map to_ascii_lowercase letters.now) }
    ensures within { IfSome result (λ number. number < length lets.now) }
{
    lets.iter()
        .position(|binding| spells(letters, binding.name.as_slice()))
}

/// A name that no LET binds yet.
#[tactic(auto, using(crate::proofs::Taking::fails_at_once), unfolding(crate::specs::Reading::new_name, crate::specs::Reading::step))]
pub fn new_name(
    alloc: Global,
    cursor: &mut Cursor<'_>,
    texts: bool,
    lets: &[Let],
) -> Result<Text, ReadError>
    ensures { Gives (λ name. name) result cursor.new.rest.now (new_name_from texts lets.now cursor.old.rest.now) }
{
    let shown = cursor.next();
    let letters = letters_of(&shown.lexeme);
    let is_new = let_of(lets, letters).is_none();
    check(
        &shown,
        !texts,
        standing_of(is_free(&shown.lexeme), false, is_new),
    )?;
    Ok(folded(alloc, letters)?)
}

/// `name . v`, which gives the number of the LET that binds the name.
pub fn named(
    cursor: &mut Cursor<'_>,
    texts: bool,
    lets: &[Let],
    extra: bool,
) -> Result<u8, ReadError>
    requires { length lets.now ≤ 16 }
    ensures name { Gives (λ number. number) result cursor.new.rest.now (named_from texts extra lets.now cursor.old.rest.now) }
    ensures room { OnOk result (extra ≡ false) }
{
    let shown = cursor.next();
    named_by(&shown, cursor, texts, lets, extra)
}

/// The same after the name, which was taken from the text.
#[tactic(auto, using(crate::proofs::Taking::fails_on), unfolding(crate::specs::Reading::named))]
pub fn named_by(
    shown: &Shown<'_>,
    cursor: &mut Cursor<'_>,
    texts: bool,
    lets: &[Let],
    extra: bool,
) -> Result<u8, ReadError>
    requires { length lets.now ≤ 16 }
    ensures name { (text : List ℕ) → token_shown shown.now.lexeme ≡ token_at text → shown.now.left ≡ left_at text → cursor.old.rest.now ≡ behind text
        → Gives (λ number. number) result cursor.new.rest.now (named_from texts extra lets.now text) }
    ensures room { OnOk result (extra ≡ false) }
{
    let number = bound_name(shown, texts, lets, extra)?;
    take_mark(cursor, texts, ".")?;
    take_word(cursor, texts, "v")?;
    Ok(number)
}

// The name alone.
#[tactic(auto, using(crate::proofs::Taking::fails_at_once, crate::proofs::Taking::fits), unfolding(crate::specs::Reading::bound_name, crate::specs::Reading::step))]
fn bound_name(shown: &Shown<'_>, texts: bool, lets: &[Let], extra: bool) -> Result<u8, ReadError>
    requires { length lets.now ≤ 16 }
    ensures name { (text : List ℕ) → token_shown shown.now.lexeme ≡ token_at text → shown.now.left ≡ left_at text
        → Gives (λ number. number) result (behind text) (bound_name_from texts extra lets.now text) }
    ensures room { OnOk result (extra ≡ false) }
{
    let number = let_of(lets, letters_of(&shown.lexeme));
    check(
        shown,
        !texts,
        standing_of(is_free(&shown.lexeme), extra, number.is_some()),
    )?;
    Ok(number.unwrap_or(0) as u8)
}
