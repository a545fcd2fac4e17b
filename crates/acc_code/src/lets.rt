//! The LETs of a body.
ghost use Rattle.std.specs.Prelude.{◌≡◌, ◌<◌, ◌≤◌, ◌++◌, ◌∷◌, [], length, IfOk};
ghost use Rattle.std.specs.List.{list_any};
ghost use Rattle.std.specs.Str.{bytes_eq};
ghost use Rattle.acc_wire.specs.Reading.{AreBytes};
ghost use Rattle.acc_code.specs.Reading.{Reads, ReadsBy, each_at};
ghost use Rattle.acc_code.specs.BodyReading.{new_name_at, let_at, lets_at, let_uses};

use crate::error::CodeError;
use crate::fields::{out_of_range, take_between};
use crate::keys::{take_use, take_word};
use acc_base::Text;
use acc_txn::{Let, Lets, Select};
use acc_wire::Reader;
use std::alloc::Global;

fn binds(lets: &[Let], name: &[u8]) -> bool
    ensures { result ≡ list_any (λ l. bytes_eq l.name name.now) lets.now }
{
    lets.iter().any(|binding| binding.name.as_slice() == name)
}

#[tactic(auto, unfolding(crate::specs::BodyReading::new_name_at))]
fn take_new_name<'a>(reader: &mut Reader<'a>, front: &[Let]) -> Result<&'a [u8], CodeError>
    ensures { ReadsBy (λ name. name.now) result reader.new (new_name_at front.now reader.old) }
{
    let field = reader.place();
    let name = take_word(reader)?;
    if binds(front, name) {
        return Err(out_of_range(field));
    }
    Ok(name)
}

#[tactic(auto, unfolding(crate::specs::BodyReading::let_at))]
fn take_let(
    alloc: Global,
    reader: &mut Reader<'_>,
    front: &[Let],
    keys: &mut usize,
) -> Result<Let, CodeError>
    requires counted { keys.old ≡ length (let_uses front.now) }
    requires few { keys.old ≤ 16 }
    ensures read { Reads result reader.new (let_at front.now reader.old) }
    ensures counted { IfOk result (λ binding. keys.new ≡ length (let_uses (front.now ++ binding ∷ []))) }
    ensures few { keys.new ≤ 16 }
{
    let name = take_new_name(reader, front)?;
    let key = take_use(alloc, reader, front, &Select::Nothing, &[], keys)?;
    Ok(Let {
        name: Text::from_slice(alloc, name)?,
        key,
    })
}

#[tactic(auto, using(crate::proofs::Loops::each_goes_on, crate::proofs::Loops::each_fails, crate::proofs::Loops::each_ends))]
fn take_each_let(
    alloc: Global,
    reader: &mut Reader<'_>,
    count: u8,
    keys: &mut usize,
) -> Result<Lets, CodeError>
    requires { keys.old ≡ 0 }
    ensures read { Reads result reader.new (each_at let_at count [] reader.old) }
    ensures counted { IfOk result (λ lets. keys.new ≡ length (let_uses lets)) }
    ensures few { keys.new ≤ 16 }
{
    let mut lets = Lets::new(alloc);
    lets.reserve(usize::from(count))?;
    for _ in 0..count {
        let binding = take_let(alloc, reader, lets.as_slice(), keys)?;
        lets.push(binding)?;
    }
    Ok(lets)
}

/// The LETs of a body, whose different keys are counted.
#[tactic(auto, unfolding(crate::specs::BodyReading::lets_at, crate::specs::Reading::listed_at))]
pub(crate) fn take_lets(
    alloc: Global,
    reader: &mut Reader<'_>,
    keys: &mut usize,
) -> Result<Lets, CodeError>
    requires { keys.old ≡ 0 }
    ensures read { Reads result reader.new (lets_at reader.old) }
    ensures counted { IfOk result (λ lets. keys.new ≡ length (let_uses lets)) }
    ensures few { keys.new ≤ 16 }
    ensures bytes { AreBytes reader.old.bytes }
{
    let count = take_between(reader, 0, 16)?;
    take_each_let(alloc, reader, count, keys)
}
