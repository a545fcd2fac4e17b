//! What a body answers.
ghost use Rattle.std.specs.Prelude.{◌≡◌, ◌<◌, ◌≤◌, [], length, IfOk};
ghost use Rattle.acc_code.specs.Reading.{Reads, each_at, listed_at};
ghost use Rattle.acc_code.specs.BodyReading.{let_number_at, select_at, let_uses, read_uses};

use crate::error::CodeError;
use crate::fields::take_between;
use crate::keys::take_use;
use crate::sums::take_let_number;
use acc_txn::{Let, Numbers, Select};
use acc_wire::Reader;
use std::alloc::Global;

#[tactic(auto, using(crate::proofs::Loops::each_goes_on, crate::proofs::Loops::each_fails, crate::proofs::Loops::each_ends))]
fn take_each_name(
    alloc: Global,
    reader: &mut Reader<'_>,
    lets: usize,
    count: u8,
) -> Result<Numbers, CodeError>
    ensures { Reads result reader.new (each_at (λ _. let_number_at lets) count [] reader.old) }
{
    let mut names = Numbers::new(alloc);
    names.reserve(usize::from(count))?;
    for _ in 0..count {
        let name = take_let_number(reader, lets)?;
        names.push(name)?;
    }
    Ok(names)
}

#[tactic(auto, unfolding(crate::specs::Reading::listed_at))]
fn take_names(alloc: Global, reader: &mut Reader<'_>, lets: usize) -> Result<Numbers, CodeError>
    ensures { Reads result reader.new (listed_at 1 16 (λ _. let_number_at lets) reader.old) }
{
    let count = take_between(reader, 1, 16)?;
    take_each_name(alloc, reader, lets, count)
}

/// The select of a body with these LETs. Its key joins the count of their different keys.
#[tactic(auto, unfolding(crate::specs::BodyReading::select_at))]
pub(crate) fn take_select(
    alloc: Global,
    reader: &mut Reader<'_>,
    lets: &[Let],
    keys: &mut usize,
) -> Result<Select, CodeError>
    requires counted { keys.old ≡ length (let_uses lets.now) }
    requires few { keys.old ≤ 16 }
    ensures read { Reads result reader.new (select_at lets.now reader.old) }
    ensures counted { IfOk result (λ select. keys.new ≡ length (read_uses lets.now select)) }
    ensures few { keys.new ≤ 16 }
{
    match take_between(reader, 0, 2)? {
        0 => Ok(Select::Nothing),
        1 => Ok(Select::Names(take_names(alloc, reader, lets.len())?)),
        _ => {
            let key = take_use(alloc, reader, lets, &Select::Nothing, &[], keys)?;
            Ok(Select::Get(key))
        }
    }
}
