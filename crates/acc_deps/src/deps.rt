//! The dependencies of a transaction.
ghost use Rattle.std.specs.Prelude.{◌≡◌, ◌<◌, ℕ, [], ◌++◌, IsTrue, IfOk, OnOk, OnErr};
ghost use Rattle.std.specs.List.{AllByRecursion};
ghost use Rattle.acc_stamp.specs.declared.stamps.TxnId.{TxnId};
ghost use Rattle.acc_stamp.specs.Rising.{IsRising};
ghost use Rattle.acc_deps.specs.Deps.{AreDeps, of_shard, deps_has, deps_with, deps_union, deps_of, all_ids};

use crate::content::{Content, insert_shared, push_shared, shards_in, share};
use crate::parts::is_part;
use crate::shards::{ShardDeps, merged_all, merged_shards, place_of};
use acc_base::{Duplicate, OutOfMemory};
use acc_stamp::{Ids, TxnId};
use std::alloc::Global;
use std::marker::Model;
use std::sync::Arc;

/// The dependencies of a transaction: in each shard the transactions that conflict with it and are to go before it.
///
/// Copies share their content. A value that has a content of its own is written in place, and another one takes a content of
/// its own first.
#[derive(Debug, Drop)]
pub struct Deps {
    alloc: Global,
    shards: Content,
}

impl Model for Deps {
    ghost use Rattle.std.specs.Prelude.{List};
    ghost use Rattle.acc_deps.specs.Content.{held};
    ghost use Rattle.acc_deps.specs.declared.shards.ShardDeps.{ShardDeps};
    ghost use Rattle.acc_deps.specs.Deps.{AreDeps};

    ghost Value = { List ShardDeps };

    ghost view = { λ d. held d.shards };

    ghost invariant = { λ d. AreDeps (held d.shards) };
}

impl Deps {
    /// No dependencies, which take no memory yet.
    pub fn new(alloc: Global) -> Deps
        ensures { result ≡ [] }
    {
        Deps {
            alloc,
            shards: Content::Nothing,
        }
    }

    // Dependencies with a content of their own.
    fn of(alloc: Global, shards: Vec<ShardDeps>) -> Result<Deps, OutOfMemory>
        requires { AreDeps shards.items }
        ensures { IfOk result (λ deps. deps ≡ shards.items) }
    {
        Ok(Deps {
            alloc,
            shards: Content::List(Arc::new(alloc, shards)?),
        })
    }

    /// The shards that have dependencies, with these.
    pub fn by_shard(&self) -> &[ShardDeps]
        ensures shards { result.now ≡ self.now }
        ensures stands { AreDeps self.now }
    {
        shards_in(&self.shards)
    }

    /// The dependencies in a shard, rising.
    pub fn of_shard(&self, shard: u32) -> &[TxnId]
        ensures ids { result.now ≡ of_shard self.now shard }
        ensures rises { IsRising result.now }
    {
        let shards = self.by_shard();
        match place_of(shards, shard) {
            Ok(place) => shards[place].ids.as_slice(),
            Err(_) => &[],
        }
    }

    /// Whether a transaction is among the dependencies in a shard.
    pub fn contains(&self, shard: u32, id: TxnId) -> bool
        ensures { result ≡ deps_has self.now shard id }
    {
        self.of_shard(shard).binary_search(&id).is_ok()
    }

    /// The transactions of all shards, each once, rising.
    pub fn all(&self) -> Result<Ids, OutOfMemory>
        ensures ids { IfOk result (λ ids. ids ≡ all_ids self.now) }
        ensures rises { IfOk result IsRising }
    {
        merged_all(self.alloc, self.by_shard())
    }

    /// Adds a transaction to the dependencies in a shard, where it isn't there. Without memory for it these are as before.
    pub fn insert(&mut self, shard: u32, id: TxnId) -> Result<(), OutOfMemory>
        ensures ok { OnOk result (self.new ≡ deps_with shard id self.old) }
        ensures err { OnErr result (self.new ≡ self.old) }
    {
        insert_shared(&mut self.shards, self.alloc, shard, id)
    }

    /// Adds a shard behind all that have dependencies, with these. No transactions add nothing. Without memory for it the
    /// dependencies are as before.
    pub fn push_shard(&mut self, shard: u32, ids: Ids) -> Result<(), OutOfMemory>
        requires behind { AllByRecursion (λ d. d.shard < shard) self.old }
        requires rises { IsRising ids }
        ensures ok { OnOk result (self.new ≡ self.old ++ deps_of shard ids) }
        ensures err { OnErr result (self.new ≡ self.old) }
    {
        if ids.is_empty() {
            return Ok(());
        }
        push_shared(&mut self.shards, self.alloc, ShardDeps { shard, ids })
    }

    // Whether these have all of some others. Where this isn't found, they may have them too.
    fn has_each(&self, others: &[ShardDeps]) -> bool
        ensures { IsTrue result → (s : ℕ) (x : TxnId) → IsTrue (deps_has others.now s x) → IsTrue (deps_has self.now s x) }
    {
        for other in others {
            if !is_part(other.ids.as_slice(), self.of_shard(other.shard)) {
                return false;
            }
        }
        true
    }

    /// Adds the dependencies that another value has. Without memory for them these are as before. Where one value has all of
    /// the other, it is shared, and no new list is made.
    pub fn union(&mut self, other: &Deps) -> Result<(), OutOfMemory>
        ensures ok { OnOk result (self.new ≡ deps_union self.old other.now) }
        ensures err { OnErr result (self.new ≡ self.old) }
    {
        *self = self.joined(other)?;
        Ok(())
    }

    // The dependencies of both.
    fn joined(&self, other: &Deps) -> Result<Deps, OutOfMemory>
        ensures { IfOk result (λ joined. joined ≡ deps_union self.now other.now) }
    {
        let ours = self.by_shard();
        let theirs = other.by_shard();
        if self.has_each(theirs) {
            return self.copy();
        }
        if other.has_each(ours) {
            return other.copy();
        }
        let merged = merged_shards(self.alloc, ours, theirs)?;
        Deps::of(self.alloc, merged)
    }

    /// An equal value, which shares its content with this one. It takes no memory of its own.
    pub fn copy(&self) -> Result<Deps, OutOfMemory>
        ensures { IfOk result (λ copy. copy ≡ self.now) }
    {
        Ok(Deps {
            alloc: self.alloc,
            shards: share(&self.shards)?,
        })
    }
}

impl Duplicate for Deps {
    fn copy(&self) -> Result<Deps, OutOfMemory> {
        Deps::copy(self)
    }
}

impl PartialEq for Deps {
    ghost use Rattle.std.specs.Cmp.Lexicographic.{pointwise, lists_per};

    ghost eq = { λ x y. pointwise ⟦<ShardDeps as PartialEq>⟧.eq x y };

    ghost use Rattle.acc_deps.specs.contracts.shards.ShardDepsPartialEq.TheImpl.Laws.{laws-law};

    ghost laws = { lists_per laws-law };

    fn eq(&self, other: &Deps) -> bool {
        self.by_shard() == other.by_shard()
    }
}

impl Eq for Deps {
    ghost use Rattle.std.specs.Cmp.Lexicographic.{lists_equiv};
    ghost use Rattle.acc_deps.specs.contracts.shards.ShardDepsEq.TheImpl.Laws.{laws-law};

    ghost laws = { lists_equiv laws-law };
}
