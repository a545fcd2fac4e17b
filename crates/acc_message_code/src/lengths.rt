//! How many bytes dependencies take, and what a store keeps of a transaction.
ghost use Rattle.std.specs.Prelude.{◌≡◌, ◌<◌, ◌≤◌, ◌+◌, ◌*◌, ◌^◌, length, IfSome};
ghost use Rattle.std.specs.List.{flat_map, AllByRecursion};
ghost use Rattle.acc_message_code.specs.Spelling.{ids_bytes, shard_bytes, deps_bytes, accepted_bytes, settled_bytes, optional, view_bytes};
ghost use Rattle.acc_message_code.specs.Short.{AreShortIds, IsShortShard, AreShortDeps, IsShortAccepted, IsShortSettled, IsShortView};

use crate::stamps::STAMP;
use acc_deps::{Deps, Settled, ShardDeps, SharedAccepted, View};
use acc_stamp::TxnId;

#[tactic(auto, using(crate::proofs::ByteCounts::ids_take))]
fn ids_length(ids: &[TxnId]) -> u64
    requires { AreShortIds ids.now }
    ensures exact { result ≡ length (ids_bytes ids.now) }
    ensures most { result < 2 ^ 20 }
{
    2 + STAMP * ids.len() as u64
}

#[tactic(auto, unfolding(crate::specs::Spelling::shard_bytes))]
fn shard_length(d: &ShardDeps) -> u64
    requires { IsShortShard d.now }
    ensures exact { result ≡ length (shard_bytes d.now) }
    ensures most { result ≤ 2 ^ 20 }
{
    1 + ids_length(d.ids.as_slice())
}

fn shards_length(shards: &[ShardDeps]) -> u64
    requires count { length shards.now ≤ 15 }
    requires short { AllByRecursion IsShortShard shards.now }
    ensures exact { result ≡ length (flat_map shard_bytes shards.now) }
    ensures most { result ≤ 2 ^ 20 * length shards.now }
{
    let mut total = 0;
    for shard in shards {
        total += shard_length(shard);
    }
    total
}

#[tactic(auto, unfolding(crate::specs::Spelling::deps_bytes, acc_txn::specs::BodySpelling::listed))]
fn counted_shards_length(shards: &[ShardDeps]) -> u64
    requires { AreShortDeps shards.now }
    ensures exact { result ≡ length (deps_bytes shards.now) }
    ensures most { result < 2 ^ 24 }
{
    1 + shards_length(shards)
}

/// How many bytes dependencies take.
pub fn deps_length(deps: &Deps) -> u64
    requires { AreShortDeps deps.now }
    ensures exact { result ≡ length (deps_bytes deps.now) }
    ensures most { result < 2 ^ 24 }
{
    counted_shards_length(deps.by_shard())
}

/// How many bytes a timestamp and dependencies take.
pub(crate) fn dated_length(deps: &Deps) -> u64
    requires { AreShortDeps deps.now }
    ensures exact { result ≡ 12 + length (deps_bytes deps.now) }
    ensures most { result < 2 ^ 25 }
{
    STAMP + deps_length(deps)
}

#[tactic(auto, using(crate::proofs::ByteCounts::accepted_takes), unfolding(crate::specs::Spelling::optional))]
fn optional_accepted_length(accepted: &Option<SharedAccepted>) -> u64
    requires { IfSome accepted.now IsShortAccepted }
    ensures exact { result ≡ length (optional accepted_bytes accepted.now) }
    ensures most { result < 2 ^ 26 }
{
    match accepted {
        None => 1,
        Some(accepted) => 1 + STAMP + dated_length(&accepted.accepted().deps),
    }
}

#[tactic(auto, using(crate::proofs::ByteCounts::settled_takes), unfolding(crate::specs::Spelling::optional))]
fn optional_settled_length(settled: &Option<Settled>) -> u64
    requires { IfSome settled.now IsShortSettled }
    ensures exact { result ≡ length (optional settled_bytes settled.now) }
    ensures most { result < 2 ^ 26 }
{
    match settled {
        None => 1,
        Some(settled) => 1 + dated_length(&settled.deps),
    }
}

/// How many bytes a view takes.
#[tactic(auto, using(crate::proofs::ByteCounts::view_takes))]
pub(crate) fn view_length(view: &View) -> u64
    requires { IsShortView view.now }
    ensures exact { result ≡ length (view_bytes view.now) }
    ensures most { result < 2 ^ 29 }
{
    3 + dated_length(&view.vote_deps)
        + optional_accepted_length(&view.accepted)
        + optional_accepted_length(&view.committed)
        + optional_settled_length(&view.stable)
        + ids_length(view.waits.as_slice())
}
