//! The tally of an attempt's answers.
ghost use Rattle.std.specs.Prelude.{◌≡◌, ◌<◌, ◌≤◌, ℕ, [], ◌∷◌, not, true, false, IsTrue, List, IfOk, OnErr, slice_index};
ghost use Rattle.std.specs.List.{list_all, list_any};
ghost use Rattle.acc_stamp.specs.Actor.{node_of, shard_of};
ghost use Rattle.acc_topology.specs.Sets.{in_set, members};
ghost use Rattle.acc_topology.specs.Layout.{HasShard, shard_at};
ghost use Rattle.acc_topology.specs.Quorums.{is_majority, is_fast, fast_lost, may_be_fast};
ghost use Rattle.acc_quorum.specs.Answers.{Answer, has_answered, majority_everywhere, fast_everywhere, fast_lost_somewhere, may_be_fast_everywhere, later_stamp, union_of};
ghost use Rattle.acc_tally.specs.Stands.{StandsFor, answer_of, greatest_if, HasShards, Counts};

use crate::marks::{Marks, SHARDS, is_marked, mark};
use acc_base::OutOfMemory;
use acc_deps::Deps;
use acc_stamp::{Actor, Stamp};
use acc_topology::sets::contains;
use acc_topology::{ShardSet, Topology};
use std::alloc::Global;

/// The first answer of each store of some shards: who answered, who voted for the transaction's own timestamp and who for
/// another one, the greatest timestamp that was voted for, and the dependencies of all answers.
#[derive(Debug, Drop)]
pub struct Tally {
    shards: ShardSet,
    answered: Marks,
    kept: Marks,
    changed: Marks,
    greatest: Option<Stamp>,
    deps: Deps,
}

impl Tally {
    /// No answers yet, of the stores of these shards. It takes no memory.
    pub fn new(alloc: Global, shards: ShardSet) -> Tally
        ensures { StandsFor result (members shards) [] }
    {
        Tally {
            shards,
            answered: [0; SHARDS],
            kept: [0; SHARDS],
            changed: [0; SHARDS],
            greatest: None,
            deps: Deps::new(alloc),
        }
    }

    /// Counts an answer where it is the first one of its store, which it tells; else nothing changes. `unchanged` says that the
    /// answer votes for the transaction's own timestamp, and `t` for which one it votes: an answer without a vote has the least
    /// timestamp. Without memory for the dependencies all is as before.
    pub fn first(
        &mut self,
        store: Actor,
        unchanged: bool,
        t: Stamp,
        deps: &Deps,
    ) -> Result<bool, OutOfMemory>
        requires shard { shard_of store ≤ 15 }
        requires node { node_of store ≤ 15 }
        ensures ok { IfOk result (λ is_first. (shards : List ℕ) (answers : List Answer) → StandsFor self.old shards answers →
            Counts self.old self.new shards answers (answer_of store unchanged t deps.now) is_first) }
        ensures err { OnErr result (self.new ≡ self.old) }
    {
        if is_marked(&self.answered, store) {
            return Ok(false);
        }
        self.deps.union(deps)?;
        self.greatest = later(self.greatest, t);
        mark(&mut self.answered, store);
        if unchanged {
            mark(&mut self.kept, store);
        } else {
            mark(&mut self.changed, store);
        }
        Ok(true)
    }

    /// Whether a majority of each shard has answered.
    pub fn majority_everywhere(&self, topology: &Topology) -> bool
        ensures { (shards : List ℕ) (answers : List Answer) → HasShards topology.now shards → StandsFor self.now shards answers →
            result ≡ majority_everywhere topology.now shards answers }
    {
        let shards = self.shards;
        for shard in 1..topology.shards() + 1 {
            if contains(shards, shard)
                && !topology.is_majority(shard, self.answered[shard as usize])
            {
                return false;
            }
        }
        true
    }

    /// Whether the votes for the transaction's own timestamp are a fast quorum of each shard.
    pub fn fast_everywhere(&self, topology: &Topology) -> bool
        ensures { (shards : List ℕ) (answers : List Answer) → HasShards topology.now shards → StandsFor self.now shards answers →
            result ≡ fast_everywhere topology.now shards answers }
    {
        let shards = self.shards;
        for shard in 1..topology.shards() + 1 {
            if contains(shards, shard) && !topology.is_fast(shard, self.kept[shard as usize]) {
                return false;
            }
        }
        true
    }

    /// Whether so many votes of some shard are for other timestamps that it can have no fast quorum any more.
    pub fn fast_lost(&self, topology: &Topology) -> bool
        ensures { (shards : List ℕ) (answers : List Answer) → HasShards topology.now shards → StandsFor self.now shards answers →
            result ≡ fast_lost_somewhere topology.now shards answers }
    {
        let shards = self.shards;
        for shard in 1..topology.shards() + 1 {
            if contains(shards, shard) && topology.fast_lost(shard, self.changed[shard as usize]) {
                return true;
            }
        }
        false
    }

    /// Whether each shard may have had a fast quorum, as far as those that answered can tell.
    pub fn may_be_fast(&self, topology: &Topology) -> bool
        ensures { (shards : List ℕ) (answers : List Answer) → HasShards topology.now shards → StandsFor self.now shards answers →
            result ≡ may_be_fast_everywhere topology.now shards answers }
    {
        let shards = self.shards;
        for shard in 1..topology.shards() + 1 {
            if contains(shards, shard)
                && !topology.may_be_fast(
                    shard,
                    self.answered[shard as usize],
                    self.kept[shard as usize],
                )
            {
                return false;
            }
        }
        true
    }

    /// The greatest timestamp that an answer votes for; none where there is no answer.
    pub fn greatest(&self) -> Option<Stamp>
        ensures { (shards : List ℕ) (answers : List Answer) → StandsFor self.now shards answers → result ≡ greatest_if answers }
    {
        self.greatest
    }

    /// The dependencies of all answers.
    pub fn deps(&self) -> &Deps
        ensures { (shards : List ℕ) (answers : List Answer) → StandsFor self.now shards answers → result.now ≡ union_of answers }
    {
        &self.deps
    }

    /// An equal tally, which shares the dependencies with this one and takes no memory of its own.
    pub fn copy(&self) -> Result<Tally, OutOfMemory>
        ensures { IfOk result (λ copy. copy ≡ self.now) }
    {
        Ok(Tally {
            shards: self.shards,
            answered: self.answered,
            kept: self.kept,
            changed: self.changed,
            greatest: self.greatest,
            deps: self.deps.copy()?,
        })
    }
}

// The greater one of a timestamp, where there is one, and another.
fn later(greatest: Option<Stamp>, t: Stamp) -> Option<Stamp>
    ensures { (answers : List Answer) (a : Answer) → greatest ≡ greatest_if answers → t ≡ a.t → result ≡ greatest_if (a ∷ answers) }
{
    match greatest {
        Some(before) => Some(later_of(before, t)),
        None => Some(later_of(Stamp::ZERO, t)),
    }
}

fn later_of(before: Stamp, t: Stamp) -> Stamp
    ensures { result ≡ later_stamp before t }
{
    if before < t { t } else { before }
}
