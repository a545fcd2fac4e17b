//! Sums of terms.
ghost use Rattle.std.specs.Prelude.{◌≡◌, []};
ghost use Rattle.acc_code.specs.Reading.{Reads, each_at};
ghost use Rattle.acc_code.specs.BodyReading.{let_number_at, term_at, part_at, sum_at, greatest_sign};

use crate::cells::take_text_value;
use crate::error::CodeError;
use crate::fields::{out_of_range, take_between};
use acc_txn::{Expr, Part, Term};
use acc_wire::Reader;
use std::alloc::Global;

/// The number of one of so many LETs.
#[tactic(auto, unfolding(crate::specs::BodyReading::let_number_at))]
pub(crate) fn take_let_number(reader: &mut Reader<'_>, lets: usize) -> Result<u8, CodeError>
    ensures { Reads result reader.new (let_number_at lets reader.old) }
{
    let field = reader.place();
    let name = reader.take_u8()?;
    if usize::from(name) >= lets {
        return Err(out_of_range(field));
    }
    Ok(name)
}

#[tactic(auto, unfolding(crate::specs::BodyReading::term_at))]
fn take_term(alloc: Global, reader: &mut Reader<'_>, lets: usize) -> Result<Term, CodeError>
    ensures { Reads result reader.new (term_at lets reader.old) }
{
    match take_between(reader, 0, 3)? {
        0 => Ok(Term::Number(reader.take_i64()?)),
        1 => Ok(Term::Name(take_let_number(reader, lets)?)),
        2 => Ok(Term::Null),
        _ => Ok(Term::Text(take_text_value(alloc, reader)?)),
    }
}

fn most_of_sign(front: &[Part]) -> u8
    ensures { result ≡ greatest_sign front.now }
{
    if front.is_empty() { 0 } else { 1 }
}

#[tactic(auto, unfolding(crate::specs::BodyReading::part_at))]
fn take_part(
    alloc: Global,
    reader: &mut Reader<'_>,
    lets: usize,
    front: &[Part],
) -> Result<Part, CodeError>
    ensures { Reads result reader.new (part_at lets front.now reader.old) }
{
    let sign = take_between(reader, 0, most_of_sign(front))?;
    let term = take_term(alloc, reader, lets)?;
    Ok(Part {
        minus: sign == 1,
        term,
    })
}

#[tactic(auto, using(crate::proofs::Loops::each_goes_on, crate::proofs::Loops::each_fails, crate::proofs::Loops::each_ends))]
fn take_parts(
    alloc: Global,
    reader: &mut Reader<'_>,
    lets: usize,
    count: u8,
) -> Result<Expr, CodeError>
    ensures { Reads result reader.new (each_at (part_at lets) count [] reader.old) }
{
    let mut parts = Expr::new(alloc);
    parts.reserve(usize::from(count))?;
    for _ in 0..count {
        let part = take_part(alloc, reader, lets, parts.as_slice())?;
        parts.push(part)?;
    }
    Ok(parts)
}

/// A sum, whose names are numbers of so many LETs.
#[tactic(auto, unfolding(crate::specs::BodyReading::sum_at, crate::specs::Reading::listed_at))]
pub(crate) fn take_sum(
    alloc: Global,
    reader: &mut Reader<'_>,
    lets: usize,
) -> Result<Expr, CodeError>
    ensures { Reads result reader.new (sum_at lets reader.old) }
{
    let count = take_between(reader, 1, 16)?;
    take_parts(alloc, reader, lets, count)
}
