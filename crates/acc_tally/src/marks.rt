//! Sets of nodes, one for each shard.
ghost use Rattle.std.specs.Prelude.{◌≡◌, ◌<◌, ◌≤◌, ◌||◌, ℕ, slice_index, replicate};
ghost use Rattle.acc_stamp.specs.Actor.{actor_of, actor_eq, node_of, shard_of};
ghost use Rattle.acc_topology.specs.Sets.{in_set};

use acc_stamp::Actor;
use acc_topology::NodeSet;
use acc_topology::sets::{contains, with};

/// One more than the greatest number of a shard.
pub(crate) const SHARDS: usize = 16;

/// For each shard a set of nodes, by the shard's number.
pub(crate) type Marks = [NodeSet; SHARDS];

/// Whether a store is marked.
pub(crate) fn is_marked(marks: &Marks, store: Actor) -> bool
    requires { shard_of store ≤ 15 }
    ensures { result ≡ in_set (slice_index marks.now (shard_of store)) (node_of store) }
{
    contains(marks[store.shard() as usize], store.node())
}

/// Marks a store.
pub(crate) fn mark(marks: &mut Marks, store: Actor)
    requires shard { shard_of store ≤ 15 }
    requires node { node_of store ≤ 15 }
    ensures { (shard node : ℕ) → shard < 16 → in_set (slice_index marks.new shard) node
        ≡ (in_set (slice_index marks.old shard) node || actor_eq store (actor_of node shard)) }
{
    let shard = store.shard() as usize;
    marks[shard] = with(marks[shard], store.node());
}
