//! The dependencies of one shard, and lists of them.
ghost use Rattle.std.specs.Prelude.{◌≡◌, ◌++◌, nat_lt, IfOk, OnOk, MatchResult};
ghost use Rattle.std.specs.List.{AllByRecursion};
ghost use Rattle.acc_stamp.specs.Rising.{IsRising, IsRisingBy, IsPlaceOf, IsGapFor, ids_union};
ghost use Rattle.acc_deps.specs.Deps.{AreDeps, shard_lt, deps_union, all_ids};

use crate::ids::merged_ids;
use acc_base::{Duplicate, OutOfMemory};
use acc_stamp::Ids;
use std::alloc::Global;
use std::cmp::Ordering;

/// The dependencies of a transaction in one shard.
#[derive(Debug, PartialEq, Eq, Drop)]
pub struct ShardDeps {
    /// The number of the shard.
    pub shard: u32,
    /// The transactions, rising.
    pub ids: Ids,
}

impl ShardDeps {
    /// An equal value, in memory of its own.
    pub fn copy(&self) -> Result<ShardDeps, OutOfMemory>
        ensures { IfOk result (λ copy. copy ≡ self.now) }
    {
        Ok(ShardDeps {
            shard: self.shard,
            ids: self.ids.copy()?,
        })
    }

    // The transactions of both, in this one's shard.
    pub(crate) fn joined(&self, other: &ShardDeps) -> Result<ShardDeps, OutOfMemory>
        requires rises { IsRising self.now.ids }
        requires other_rises { IsRising other.now.ids }
        ensures { IfOk result (λ joined. joined ≡ record self.now { ids = ids_union self.now.ids other.now.ids }) }
    {
        let ids = merged_ids(
            self.ids.allocator(),
            self.ids.as_slice(),
            other.ids.as_slice(),
        )?;
        Ok(ShardDeps {
            shard: self.shard,
            ids,
        })
    }
}

impl Duplicate for ShardDeps {
    fn copy(&self) -> Result<ShardDeps, OutOfMemory> {
        ShardDeps::copy(self)
    }
}

// Where a shard stands, or would stand.
pub(crate) fn place_of(shards: &[ShardDeps], shard: u32) -> Result<usize, usize>
    requires { IsRisingBy shard_lt shards.now }
    ensures { MatchResult result
        (IsPlaceOf (λ d. d.shard) shards.now shard)
        (IsGapFor nat_lt (λ d. d.shard) shards.now shard) }
{
    shards.binary_search_by_key(&shard, |d| d.shard)
}

// Appends equal values.
pub(crate) fn copy_onto(
    copies: &mut Vec<ShardDeps>,
    shards: &[ShardDeps],
) -> Result<(), OutOfMemory>
    ensures { OnOk result (copies.new.items ≡ copies.old.items ++ shards.now) }
{
    for shard in shards {
        copies.push(shard.copy()?)?;
    }
    Ok(())
}

// The dependencies of either list, shard by shard.
pub(crate) fn merged_shards(
    alloc: Global,
    left: &[ShardDeps],
    right: &[ShardDeps],
) -> Result<Vec<ShardDeps>, OutOfMemory>
    requires left_stands { AreDeps left.now }
    requires right_stands { AreDeps right.now }
    ensures { IfOk result (λ merged. merged.items ≡ deps_union left.now right.now) }
{
    let mut merged = Vec::with_capacity(alloc, left.len() + right.len())?;
    let mut i = 0;
    let mut j = 0;
    while i < left.len() && j < right.len() {
        let x = &left[i];
        let y = &right[j];
        match x.shard.cmp(&y.shard) {
            Ordering::Less => {
                merged.push(x.copy()?)?;
                i += 1;
            }
            Ordering::Equal => {
                merged.push(x.joined(y)?)?;
                i += 1;
                j += 1;
            }
            Ordering::Greater => {
                merged.push(y.copy()?)?;
                j += 1;
            }
        }
    }
    copy_onto(&mut merged, &left[i..])?;
    copy_onto(&mut merged, &right[j..])?;
    merged.shrink_to_fit();
    Ok(merged)
}

// The transactions of all shards, each once, rising: those of each half, merged.
pub(crate) fn merged_all(alloc: Global, shards: &[ShardDeps]) -> Result<Ids, OutOfMemory>
    requires { AllByRecursion (λ d. IsRising d.ids) shards.now }
    ensures { IfOk result (λ ids. ids ≡ all_ids shards.now) }
{
    match shards {
        [] => Ok(Ids::new(alloc)),
        [only] => only.ids.copy(),
        _ => {
            let (front, back) = shards.split_at(shards.len() / 2);
            let front = merged_all(alloc, front)?;
            let back = merged_all(alloc, back)?;
            merged_ids(alloc, front.as_slice(), back.as_slice())
        }
    }
}
