//! What the users of some keys answer.
ghost use Rattle.std.specs.Prelude.{◌≡◌, ◌++◌, [], Bool, true, IfOk};
ghost use Rattle.acc_value.specs.declared.key.Key.{Key};
ghost use Rattle.acc_index.specs.Columns.{IsEven};
ghost use Rattle.acc_index.specs.Users.{places_at};
ghost use Rattle.acc_index.specs.Noted.{IsGreatestStamp};
ghost use Rattle.acc_index.specs.Places.{InRange, asked, others, those_below, stamps_of, ids_of};

use crate::columns::Columns;
use crate::users::{Users, users_of};
use acc_base::OutOfMemory;
use acc_stamp::{Stamp, TxnId};
use acc_value::Key;
use std::alloc::Global;
use std::collections::HashMap;

/// The other transactions whose use of a key conflicts.
pub(crate) fn all_of(
    alloc: Global,
    columns: &Columns,
    users: &HashMap<Key, Users>,
    uses: &[(Key, bool)],
    id: TxnId,
) -> Result<Vec<TxnId>, OutOfMemory>
    requires even { IsEven columns.now }
    requires in_range { (k : Key) → (w : Bool) → InRange columns.now (places_at users.now k w) }
    ensures { IfOk result (λ found. found.items ≡ ids_of columns.now (others columns.now id (asked (places_at users.now) uses.now))) }
{
    let mut found = Vec::new(alloc);
    for (key, writes) in uses {
        let (writers, readers) = users_of(users, key, *writes);
        found.reserve(writers.len().saturating_add(readers.len()))?;
        columns.collect_others(writers, id, &mut found)?;
        columns.collect_others(readers, id, &mut found)?;
    }
    Ok(found)
}

/// Those of them whose own stamp is smaller than the bound.
pub(crate) fn all_below(
    alloc: Global,
    columns: &Columns,
    users: &HashMap<Key, Users>,
    uses: &[(Key, bool)],
    id: TxnId,
    bound: Stamp,
) -> Result<Vec<TxnId>, OutOfMemory>
    requires even { IsEven columns.now }
    requires in_range { (k : Key) → (w : Bool) → InRange columns.now (places_at users.now k w) }
    ensures { IfOk result (λ found. found.items ≡ ids_of columns.now (those_below columns.now bound (others columns.now id (asked (places_at users.now) uses.now)))) }
{
    let mut found = Vec::new(alloc);
    for (key, writes) in uses {
        let (writers, readers) = users_of(users, key, *writes);
        found.reserve(writers.len().saturating_add(readers.len()))?;
        columns.collect_below(writers, id, bound, &mut found)?;
        columns.collect_below(readers, id, bound, &mut found)?;
    }
    Ok(found)
}

/// The greatest stamp of another transaction whose use of a key conflicts.
pub(crate) fn greatest_of_all(
    columns: &Columns,
    users: &HashMap<Key, Users>,
    uses: &[(Key, bool)],
    id: TxnId,
) -> Option<Stamp>
    requires even { IsEven columns.now }
    requires in_range { (k : Key) → (w : Bool) → InRange columns.now (places_at users.now k w) }
    ensures { IsGreatestStamp (stamps_of columns.now (others columns.now id (asked (places_at users.now) uses.now))) result }
{
    let mut greatest = None;
    for (key, writes) in uses {
        let (writers, readers) = users_of(users, key, *writes);
        greatest = columns.greatest_of(writers, id, greatest);
        greatest = columns.greatest_of(readers, id, greatest);
    }
    greatest
}

/// The greatest stamp of another transaction whose use of a key conflicts, and those of them whose own stamp is smaller than the
/// bound.
pub(crate) fn greatest_and_below(
    alloc: Global,
    columns: &Columns,
    users: &HashMap<Key, Users>,
    uses: &[(Key, bool)],
    id: TxnId,
    bound: Stamp,
) -> Result<(Option<Stamp>, Vec<TxnId>), OutOfMemory>
    requires even { IsEven columns.now }
    requires in_range { (k : Key) → (w : Bool) → InRange columns.now (places_at users.now k w) }
    ensures greatest { IfOk result (λ told. IsGreatestStamp (stamps_of columns.now (others columns.now id (asked (places_at users.now) uses.now))) told.0) }
    ensures found { IfOk result (λ told. told.1.items ≡ ids_of columns.now (those_below columns.now bound (others columns.now id (asked (places_at users.now) uses.now)))) }
{
    let mut greatest = None;
    let mut found = Vec::new(alloc);
    for (key, writes) in uses {
        let (writers, readers) = users_of(users, key, *writes);
        greatest = columns.greatest_of(writers, id, greatest);
        greatest = columns.greatest_of(readers, id, greatest);
        found.reserve(writers.len().saturating_add(readers.len()))?;
        columns.collect_below(writers, id, bound, &mut found)?;
        columns.collect_below(readers, id, bound, &mut found)?;
    }
    Ok((greatest, found))
}
