//! What dependencies are as sets: what they have after each call, and that this determines them.
ghost use Rattle.std.specs.Prelude.{◌≡◌, ◌==◌, ℕ, List, ◌||◌, ◌&&◌, Some, Contains};
ghost use Rattle.std.specs.Bool.{Decides};
ghost use Rattle.std.specs.List.{list_any};
ghost use Rattle.acc_stamp.specs.declared.stamps.TxnId.{TxnId};
ghost use Rattle.acc_stamp.specs.Rising.{id_among};
ghost use Rattle.acc_stamp.specs.Stamp.{id_eq};
ghost use Rattle.acc_deps.specs.declared.shards.ShardDeps.{ShardDeps};
ghost use Rattle.acc_deps.specs.Deps.{AreDeps, deps_has, deps_with, deps_union, all_ids};
ghost use Rattle.acc_deps.specs.Records.{Stably, stably_all, least_stably, Claim, claims_of, highest_claim, ShowsStable, ShowsClaim, IsAtLeast};
ghost use Rattle.acc_deps.specs.declared.records.View.{View};

use crate::deps::Deps;

/// After an insert a shard has what it had, and the one inserted.
pub fn insert_adds_one()
    ensures stands { (deps : List ShardDeps) (shard : ℕ) (id : TxnId) → AreDeps deps → AreDeps (deps_with shard id deps) }
    ensures has { (deps : List ShardDeps) (shard s : ℕ) (id x : TxnId) → AreDeps deps →
        deps_has (deps_with shard id deps) s x ≡ (((shard == s) && id_eq id x) || deps_has deps s x) }
{}

/// After a union a shard has what either had.
pub fn union_has_both()
    ensures stands { (deps more : List ShardDeps) → AreDeps deps → AreDeps more → AreDeps (deps_union deps more) }
    ensures has { (deps more : List ShardDeps) (s : ℕ) (x : TxnId) → AreDeps deps → AreDeps more →
        deps_has (deps_union deps more) s x ≡ (deps_has deps s x || deps_has more s x) }
{}

/// Among all are those of each shard.
pub fn all_has_each()
    ensures { (deps : List ShardDeps) (x : TxnId) → id_among x (all_ids deps) ≡ list_any (λ d. id_among x d.ids) deps }
{}

/// Dependencies that have the same in each shard are the same, and `==` tells whether they are.
pub fn dependencies_are_sets()
    ensures same { (deps others : List ShardDeps) → AreDeps deps → AreDeps others →
        ((s : ℕ) (x : TxnId) → deps_has deps s x ≡ deps_has others s x) → deps ≡ others }
    ensures eq { (deps others : List ShardDeps) → Decides (⟦<Deps as PartialEq>⟧.eq deps others) (deps ≡ others) }
{}

/// The record that a recovery adopts is that of a view that was answered: the stable record, or else the claim. No claim has a
/// greater ballot, and none of the same ballot is a committed one unless the adopted one is.
pub fn adopted_is_answered()
    ensures stable { (views : List View) (s : Stably) → least_stably (stably_all views) ≡ Some s → ShowsStable views s }
    ensures claim { (views : List View) (c : Claim) → highest_claim (claims_of views) ≡ Some c → ShowsClaim views c }
    ensures greatest { (views : List View) (c d : Claim) → highest_claim (claims_of views) ≡ Some c → Contains (claims_of views) d → IsAtLeast c d }
{}
