//! The conditions of a body.
ghost use Rattle.std.specs.Prelude.{◌≡◌, ◌<◌, []};
ghost use Rattle.acc_code.specs.Reading.{Reads, each_at};
ghost use Rattle.acc_code.specs.BodyReading.{operator_of, null_test, condition_behind, condition_at, conditions_at};

use crate::error::CodeError;
use crate::fields::take_between;
use crate::sums::{take_let_number, take_sum};
use acc_txn::{Condition, Conditions, Operator};
use acc_wire::Reader;
use std::alloc::Global;

/// The number of IS NULL, which follows those of the operators.
const IS_NULL: u8 = 7;

/// The number of IS NOT NULL.
const IS_NOT_NULL: u8 = 8;

/// The operator of a number.
fn operator(number: u8) -> Option<Operator>
    ensures { result ≡ operator_of number }
{
    match number {
        1 => Some(Operator::Equal),
        2 => Some(Operator::Differs),
        3 => Some(Operator::Less),
        4 => Some(Operator::AtMost),
        5 => Some(Operator::More),
        6 => Some(Operator::AtLeast),
        _ => None,
    }
}

fn test_for_null(number: u8, name: u8) -> Condition
    ensures { result ≡ null_test number name }
{
    if number == IS_NULL {
        Condition::IsNull(name)
    } else {
        Condition::IsNotNull(name)
    }
}

/// What stands after the number of a condition.
fn take_condition_behind(
    alloc: Global,
    reader: &mut Reader<'_>,
    lets: usize,
    number: u8,
) -> Result<Condition, CodeError>
    ensures { Reads result reader.new (condition_behind lets number (operator_of number) reader.old) }
{
    match operator(number) {
        Some(op) => {
            let left = take_sum(alloc, reader, lets)?;
            let right = take_sum(alloc, reader, lets)?;
            Ok(Condition::Compare { op, left, right })
        }
        None => {
            let name = take_let_number(reader, lets)?;
            Ok(test_for_null(number, name))
        }
    }
}

#[tactic(auto, unfolding(crate::specs::BodyReading::condition_at))]
fn take_condition(
    alloc: Global,
    reader: &mut Reader<'_>,
    lets: usize,
) -> Result<Condition, CodeError>
    ensures { Reads result reader.new (condition_at lets reader.old) }
{
    let number = take_between(reader, 1, IS_NOT_NULL)?;
    take_condition_behind(alloc, reader, lets, number)
}

#[tactic(auto, using(crate::proofs::Loops::each_goes_on, crate::proofs::Loops::each_fails, crate::proofs::Loops::each_ends))]
fn take_each_condition(
    alloc: Global,
    reader: &mut Reader<'_>,
    lets: usize,
    count: u8,
) -> Result<Conditions, CodeError>
    ensures { Reads result reader.new (each_at (λ _. condition_at lets) count [] reader.old) }
{
    let mut guards = Conditions::new(alloc);
    guards.reserve(usize::from(count))?;
    for _ in 0..count {
        let guard = take_condition(alloc, reader, lets)?;
        guards.push(guard)?;
    }
    Ok(guards)
}

/// The conditions of a body with so many LETs.
#[tactic(auto, unfolding(crate::specs::BodyReading::conditions_at, crate::specs::Reading::listed_at))]
pub(crate) fn take_conditions(
    alloc: Global,
    reader: &mut Reader<'_>,
    lets: usize,
) -> Result<Conditions, CodeError>
    ensures { Reads result reader.new (conditions_at lets reader.old) }
{
    let count = take_between(reader, 0, 16)?;
    take_each_condition(alloc, reader, lets, count)
}
