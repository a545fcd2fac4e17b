//! LETs.
ghost use Rattle.std.specs.Prelude.{◌≡◌, ◌≤◌, [], ◌∷◌, ◌++◌, length, false, IfOk, OnOk};
ghost use Rattle.acc_value.specs.Footprint.{used};
ghost use Rattle.acc_lang.specs.Answer.{Gives};
ghost use Rattle.acc_lang.specs.Reading.{binding as binding_from, one_let as one_let_from, more_lets};

use crate::fault::ReadError;
use crate::fit::{fitted, push};
use crate::keys::from_key;
use crate::names::new_name;
use crate::take::{sees_word, take_first, take_mark, take_word};
use acc_base::Sequence;
use acc_token::Cursor;
use acc_txn::{Let, Lets};
use acc_value::Footprint;
use std::alloc::Global;

/// The greatest number of LETs.
const MOST_LETS: usize = 16;

/// All LETs, up to the first token that begins none.
pub fn lets(
    alloc: Global,
    cursor: &mut Cursor<'_>,
    texts: bool,
    uses: &mut Footprint,
) -> Result<Lets, ReadError>
    ensures lets { Gives (λ lets. (lets, uses.new)) result cursor.new.rest.now (more_lets texts 16 ([], uses.old) cursor.old.rest.now) }
    ensures few { IfOk result (λ lets. length lets ≤ 16) }
{
    let mut lets = Sequence::new(alloc);
    'lets: while sees_word(cursor, "let") {
        let extra = lets.len() == MOST_LETS;
        let next = one_let(alloc, cursor, texts, uses, lets.as_slice(), extra)?;
        push(&mut lets, next)?;
    }
    Ok(fitted(lets))
}

#[tactic(auto, using(crate::proofs::Taking::fails_on), unfolding(crate::specs::Reading::one_let))]
fn one_let(
    alloc: Global,
    cursor: &mut Cursor<'_>,
    texts: bool,
    uses: &mut Footprint,
    lets: &[Let],
    extra: bool,
) -> Result<Let, ReadError>
    ensures next { Gives (λ l. (lets.now ++ l ∷ [], uses.new)) result cursor.new.rest.now (one_let_from texts extra (lets.now, uses.old) cursor.old.rest.now) }
    ensures room { OnOk result (extra ≡ false) }
{
    take_first(cursor, texts, "let", extra)?;
    binding(alloc, cursor, texts, uses, lets)
}

/// `name = ( SELECT v FROM table WHERE k = 'key' ) ;`
#[tactic(auto, using(crate::proofs::Taking::fails_on), unfolding(crate::specs::Reading::binding))]
fn binding(
    alloc: Global,
    cursor: &mut Cursor<'_>,
    texts: bool,
    uses: &mut Footprint,
    lets: &[Let],
) -> Result<Let, ReadError>
    ensures binding { Gives (λ l. l) result cursor.new.rest.now (binding_from texts uses.old lets.now cursor.old.rest.now) }
    ensures uses { IfOk result (λ l. uses.new ≡ used uses.old l.key false) }
{
    let name = new_name(alloc, cursor, texts, lets)?;
    take_mark(cursor, texts, "=")?;
    take_mark(cursor, texts, "(")?;
    take_word(cursor, texts, "select")?;
    take_word(cursor, texts, "v")?;
    let key = from_key(alloc, cursor, texts, uses, false)?;
    take_mark(cursor, texts, ")")?;
    take_mark(cursor, texts, ";")?;
    Ok(Let { name, key })
}
