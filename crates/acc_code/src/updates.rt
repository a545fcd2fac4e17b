//! The updates of a body.
ghost use Rattle.std.specs.Prelude.{◌≡◌, ◌==◌, ◌<◌, ◌≤◌, [], true, length, IfOk};
ghost use Rattle.acc_value.specs.Footprint.{used};
ghost use Rattle.acc_txn.specs.Uses.{updated_key};
ghost use Rattle.acc_code.specs.Reading.{Reads, each_at};
ghost use Rattle.acc_code.specs.BodyReading.{update_with, update_at, next_update_at, updates_at, least_updates, read_uses, uses_so_far};

use crate::error::CodeError;
use crate::fields::take_between;
use crate::keys::take_use;
use crate::sums::take_sum;
use acc_txn::{Condition, Let, Select, Update, Updates};
use acc_value::Key;
use acc_wire::Reader;
use std::alloc::Global;

/// The number of an update that sets its key.
const SET: u8 = 1;

/// The number of an update that deletes its key.
const DELETE: u8 = 2;

/// What stands after the key of an update.
fn take_update_with(
    alloc: Global,
    reader: &mut Reader<'_>,
    lets: usize,
    number: u8,
    key: Key,
) -> Result<Update, CodeError>
    ensures read { Reads result reader.new (update_with lets key (number == 1) reader.old) }
    ensures key { IfOk result (λ update. updated_key update ≡ key) }
{
    if number == SET {
        let value = take_sum(alloc, reader, lets)?;
        Ok(Update::Set { key, value })
    } else {
        Ok(Update::Delete { key })
    }
}

/// An update after LETs, a select and other updates. Its key joins the count of their different keys.
#[tactic(auto, unfolding(crate::specs::BodyReading::update_at))]
fn take_update(
    alloc: Global,
    reader: &mut Reader<'_>,
    lets: &[Let],
    select: &Select,
    front: &[Update],
    keys: &mut usize,
) -> Result<Update, CodeError>
    requires counted { keys.old ≡ length (uses_so_far lets.now select.now front.now) }
    requires few { keys.old ≤ 16 }
    ensures read { Reads result reader.new (next_update_at (length lets.now) (read_uses lets.now select.now) front.now reader.old) }
    ensures counted { IfOk result (λ update. keys.new ≡ length (used (uses_so_far lets.now select.now front.now) (updated_key update) true)) }
    ensures few { keys.new ≤ 16 }
{
    let number = take_between(reader, SET, DELETE)?;
    let key = take_use(alloc, reader, lets, select, front, keys)?;
    take_update_with(alloc, reader, lets.len(), number, key)
}

#[tactic(auto, using(crate::proofs::Loops::each_goes_on, crate::proofs::Loops::each_fails, crate::proofs::Loops::each_ends))]
fn take_each_update(
    alloc: Global,
    reader: &mut Reader<'_>,
    lets: &[Let],
    select: &Select,
    count: u8,
    keys: &mut usize,
) -> Result<Updates, CodeError>
    requires counted { keys.old ≡ length (read_uses lets.now select.now) }
    requires few { keys.old ≤ 16 }
    ensures { Reads result reader.new (each_at (next_update_at (length lets.now) (read_uses lets.now select.now)) count [] reader.old) }
{
    let mut updates = Updates::new(alloc);
    updates.reserve(usize::from(count))?;
    for _ in 0..count {
        let update = take_update(alloc, reader, lets, select, updates.as_slice(), keys)?;
        updates.push(update)?;
    }
    Ok(updates)
}

fn least_of(guards: &[Condition]) -> u8
    ensures { result ≡ least_updates guards.now }
{
    if guards.is_empty() { 0 } else { 1 }
}

/// The updates of a body with these LETs, this select and these conditions. Their keys join the count of different keys.
#[tactic(auto, unfolding(crate::specs::BodyReading::updates_at, crate::specs::Reading::listed_at))]
pub(crate) fn take_updates(
    alloc: Global,
    reader: &mut Reader<'_>,
    lets: &[Let],
    select: &Select,
    guards: &[Condition],
    keys: &mut usize,
) -> Result<Updates, CodeError>
    requires counted { keys.old ≡ length (read_uses lets.now select.now) }
    requires few { keys.old ≤ 16 }
    ensures { Reads result reader.new (updates_at (length lets.now) (read_uses lets.now select.now) (least_updates guards.now) reader.old) }
{
    let count = take_between(reader, least_of(guards), 16)?;
    take_each_update(alloc, reader, lets, select, count, keys)
}
