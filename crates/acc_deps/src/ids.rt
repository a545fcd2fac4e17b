//! Rising lists of transactions.
ghost use Rattle.std.specs.Prelude.{◌≡◌, IfOk, OnOk, OnErr, MatchResult};
ghost use Rattle.acc_stamp.specs.Rising.{IsRising, IsPlaceOf, IsGapFor, ids_union, ids_with};
ghost use Rattle.acc_stamp.specs.Stamp.{id_lt};

use acc_base::OutOfMemory;
use acc_stamp::{Ids, TxnId};
use std::alloc::Global;
use std::cmp::Ordering;

// Where a transaction stands in a rising list, or would stand. One behind all others is found at once.
pub(crate) fn place_of_id(ids: &[TxnId], id: TxnId) -> Result<usize, usize>
    requires { IsRising ids.now }
    ensures { MatchResult result (IsPlaceOf (λ y. y) ids.now id) (IsGapFor id_lt (λ y. y) ids.now id) }
{
    match ids.last() {
        Some(last) if *last < id => Err(ids.len()),
        _ => ids.binary_search(&id),
    }
}

// Adds a transaction to a rising list, where it isn't there. Without memory for it the list is as before.
pub(crate) fn insert_id(ids: &mut Ids, id: TxnId) -> Result<(), OutOfMemory>
    requires { IsRising ids.old }
    ensures ok { OnOk result (ids.new ≡ ids_with id ids.old) }
    ensures err { OnErr result (ids.new ≡ ids.old) }
{
    match place_of_id(ids.as_slice(), id) {
        Ok(_) => Ok(()),
        Err(place) => ids.insert(place, id),
    }
}

// The same transactions, without room for more.
fn fitted(ids: Ids) -> Ids
    ensures { result ≡ ids }
{
    let mut exact = ids.into_vec();
    exact.shrink_to_fit();
    Ids::from_vec(exact)
}

/// The transactions of either list, each once, rising, in a list that fits. It looks at each of them once.
pub fn merged_ids(alloc: Global, left: &[TxnId], right: &[TxnId]) -> Result<Ids, OutOfMemory>
    requires left_rises { IsRising left.now }
    requires right_rises { IsRising right.now }
    ensures { IfOk result (λ ids. ids ≡ ids_union left.now right.now) }
{
    let mut merged = Ids::new(alloc);
    merged.reserve(left.len() + right.len())?;
    let mut i = 0;
    let mut j = 0;
    while i < left.len() && j < right.len() {
        let x = left[i];
        let y = right[j];
        match x.cmp(&y) {
            Ordering::Less => {
                merged.push(x)?;
                i += 1;
            }
            Ordering::Equal => {
                merged.push(x)?;
                i += 1;
                j += 1;
            }
            Ordering::Greater => {
                merged.push(y)?;
                j += 1;
            }
        }
    }
    merged.extend_from_slice(&left[i..])?;
    merged.extend_from_slice(&right[j..])?;
    Ok(fitted(merged))
}
