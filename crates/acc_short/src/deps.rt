//! Whether dependencies, and what has some, fit their format.
ghost use Rattle.std.specs.Prelude.{◌≡◌};
ghost use Rattle.std.specs.List.{list_all};
ghost use Rattle.acc_short.specs.Tests.{is_short_shard, are_short_deps, has_short_deps, has_short_settled, is_short_view};

use crate::waits::rise;
use acc_deps::{Deps, Settled, ShardDeps, SharedAccepted, View};

fn shard_is_short(d: &ShardDeps) -> bool
    ensures { result ≡ is_short_shard d.now }
{
    1 <= d.shard && (d.shard <= 15 && d.ids.len() < 65536)
}

fn each_shard_is_short(shards: &[ShardDeps]) -> bool
    ensures { result ≡ list_all is_short_shard shards.now }
{
    shards.iter().all(|d| shard_is_short(d))
}

fn shards_are_short(shards: &[ShardDeps]) -> bool
    ensures { result ≡ are_short_deps shards.now }
{
    shards.len() <= 15 && each_shard_is_short(shards)
}

pub(crate) fn deps_are_short(deps: &Deps) -> bool
    ensures { result ≡ are_short_deps deps.now }
{
    shards_are_short(deps.by_shard())
}

fn accepted_is_short(accepted: &Option<SharedAccepted>) -> bool
    ensures { result ≡ has_short_deps accepted.now }
{
    match accepted {
        Some(accepted) => deps_are_short(&accepted.accepted().deps),
        None => true,
    }
}

fn settled_is_short(settled: &Option<Settled>) -> bool
    ensures { result ≡ has_short_settled settled.now }
{
    match settled {
        Some(settled) => deps_are_short(&settled.deps),
        None => true,
    }
}

pub(crate) fn view_is_short(v: &View) -> bool
    ensures { result ≡ is_short_view v.now }
{
    v.store.0 < 65536
        && (deps_are_short(&v.vote_deps)
            && (accepted_is_short(&v.accepted)
                && (accepted_is_short(&v.committed)
                    && (settled_is_short(&v.stable)
                        && (v.waits.len() < 65536 && rise(v.waits.as_slice()))))))
}
