//! Actors: the nodes, and their stores.
ghost use Rattle.std.specs.Prelude.{◌≡◌};
ghost use Rattle.acc_stamp.specs.Actor.{node_of, shard_of, home_of};

use crate::stamps::{Ballot, TxnId};
use acc_base::{Duplicate, OutOfMemory};
use std::alloc::Global;

/// A node, or one of its stores: the number of the node times 64, plus 0 for the node itself and plus the number of the
/// shard for its store of that shard.
#[derive(Clone, Copy, Debug, PartialEq, Eq, PartialOrd, Ord)]
pub struct Actor(pub u32);

impl Actor {
    /// The number of the node.
    pub fn node(self) -> u32
        ensures { result ≡ node_of self }
    {
        self.0 / 64
    }

    /// The number of the shard, or 0 for the node itself.
    pub fn shard(self) -> u32
        ensures { result ≡ shard_of self }
    {
        self.0 % 64
    }
}

/// The node that runs an attempt: the one that drew the ballot, or for ballot zero the one that drew the id.
pub fn home(id: TxnId, ballot: Ballot) -> Actor
    ensures { result ≡ home_of id ballot }
{
    let drawn = if ballot == Ballot::ZERO {
        id.0
    } else {
        ballot.0
    };
    Actor(drawn.origin / 64 * 64)
}

impl Duplicate for Actor {
    fn copy(&self) -> Result<Actor, OutOfMemory> {
        Ok(*self)
    }

    fn copy_all(alloc: Global, items: &[Actor]) -> Result<Vec<Actor>, OutOfMemory> {
        Ok(Vec::from_slice(alloc, items)?)
    }
}
