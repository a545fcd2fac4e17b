//! The number of an actor, from its node and its shard.
ghost use Rattle.std.specs.Prelude.{◌≡◌, ◌≤◌};
ghost use Rattle.acc_stamp.specs.Actor.{actor_of, node_of, shard_of};

use crate::actors::Actor;

/// The store of a shard at a node, or for shard 0 the node itself.
pub fn actor(node: u32, shard: u32) -> Actor
    requires node_in_range { node ≤ 15 }
    requires shard_in_range { shard ≤ 15 }
    ensures number { result ≡ actor_of node shard }
    ensures node { node_of result ≡ node }
    ensures shard { shard_of result ≡ shard }
{
    Actor(node * 64 + shard)
}
