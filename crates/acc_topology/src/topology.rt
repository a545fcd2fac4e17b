//! The nodes and shards of a cluster.
ghost use Rattle.std.specs.Prelude.{◌≡◌, ◌==◌, ◌≤◌, length, IfOk, All};
ghost use Rattle.std.specs.List.{list_all};
ghost use Rattle.acc_topology.specs.Sets.{in_set, members, in_order, IsSetOf};
ghost use Rattle.acc_topology.specs.Layout.{IsLayout, HasShard, shard_at};
ghost use Rattle.acc_topology.specs.Quorums.{is_majority, is_fast, fast_lost, may_be_fast};
ghost use Rattle.acc_topology.specs.Faults.{Finds, fault_of, given_layout};
ghost use Rattle.acc_topology.specs.Keys.{shard_of_key, shards_of, share_of};

use crate::checks::{checked_shards, node_set};
use crate::error::TopologyError;
use crate::given::{NodeSpec, ShardSpec};
use crate::sets::{NodeSet, ShardSet, with};
use crate::shard::Shard;
use acc_base::{Duplicate, OutOfMemory};
use acc_value::{Footprint, Key};
use std::alloc::Global;
use std::marker::Model;

/// The nodes of a cluster, and its shards in the order of their keys, numbered from 1. Contracts see the nodes and each
/// shard's end, replicas and electorate; the nodes of each list rise.
#[derive(Debug, Drop)]
pub struct Topology {
    nodes: NodeSet,
    shards: Vec<Shard>,
}

impl Model for Topology {
    ghost use Rattle.acc_topology.specs.Layout.{Layout, IsLayout};

    ghost Value = { Layout };

    ghost use Rattle.acc_topology.specs.View.{layout_view};

    ghost view = { λ t. layout_view t.nodes t.shards.items };

    ghost invariant = { λ t. IsLayout (layout_view t.nodes t.shards.items) };
}

impl Topology {
    ghost use Rattle.acc_topology.specs.View.{shard_view};

    /// The topology of these nodes and shards. Where a shard names no electorate, its replicas are. A replica and an
    /// elector may be any number; a replica that is no node is refused, and so is an elector that is no replica.
    pub fn new(
        alloc: Global,
        nodes: &[NodeSpec],
        shards: &[ShardSpec],
    ) -> Result<Topology, TopologyError>
        requires few_nodes { length nodes.now ≤ 15 }
        requires few_shards { length shards.now ≤ 15 }
        requires ids { All (λ n. (1 ≤ n.id) × (n.id ≤ 15)) nodes.now }
        ensures answer { Finds (fault_of nodes.now shards.now) (λ topology. topology ≡ given_layout nodes.now shards.now) result }
        ensures valid { IfOk result IsLayout }
    {
        let nodes = node_set(nodes)?;
        let shards = checked_shards(alloc, nodes, shards)?;
        Ok(Topology { nodes, shards })
    }

    /// An equal topology, in memory of its own.
    pub fn copy(&self) -> Result<Topology, OutOfMemory>
        ensures { IfOk result (λ copy. copy ≡ self.now) }
    {
        Ok(Topology {
            nodes: self.nodes,
            shards: Shard::copy_all(*self.shards.allocator(), &self.shards)?,
        })
    }

    /// How many shards there are.
    pub fn shards(&self) -> u32
        ensures value { result ≡ length self.now.shards }
        ensures valid { IsLayout self.now }
    {
        self.shards.len() as u32
    }

    /// The nodes.
    pub fn nodes(&self) -> NodeSet
        ensures listed { members result ≡ self.now.nodes }
        ensures set { IsSetOf result self.now.nodes }
        ensures valid { IsLayout self.now }
    {
        self.nodes
    }

    /// The nodes that keep a shard.
    pub fn replicas(&self, shard: u32) -> NodeSet
        requires { HasShard self.now shard }
        ensures listed { members result ≡ (shard_at self.now shard).replicas }
        ensures set { IsSetOf result (shard_at self.now shard).replicas }
        ensures valid { IsLayout self.now }
    {
        self.shard(shard).replicas
    }

    /// The shard that holds a key: the first one whose end lies above the key. The last shard, without an end, holds the rest.
    #[inline(always)]
    pub fn shard_of(&self, key: &Key) -> u32
        ensures value { result ≡ shard_of_key self.now key.now }
        ensures exists { HasShard self.now result }
        ensures valid { IsLayout self.now }
    {
        let before = self.shards.partition_point(|shard| shard.is_behind(key));
        before as u32 + 1
    }

    /// The shards of the keys of a footprint.
    pub fn shards_of(&self, footprint: &Footprint) -> ShardSet
        ensures listed { members result ≡ in_order (shards_of self.now footprint.now) }
        ensures set { IsSetOf result (shards_of self.now footprint.now) }
    {
        let mut shards = 0;
        for (key, _) in footprint.pairs() {
            shards = with(shards, self.shard_of(key));
        }
        shards
    }

    // Whether all keys of a footprint lie in a shard.
    fn holds_all(&self, footprint: &Footprint, shard: u32) -> bool
        ensures { result ≡ list_all (λ item. shard_of_key self.now item.0 == shard) footprint.now }
    {
        for (key, _) in footprint.pairs() {
            if self.shard_of(key) != shard {
                return false;
            }
        }
        true
    }

    /// The part of a footprint that lies in a shard: a copy of the footprint where the shard holds all its keys. Where there
    /// is no such shard, no key lies in it.
    pub fn share(&self, footprint: &Footprint, shard: u32) -> Result<Footprint, OutOfMemory>
        ensures { IfOk result (λ share. share ≡ share_of self.now footprint.now shard) }
    {
        if self.holds_all(footprint, shard) {
            return footprint.copy();
        }
        let mut share = Footprint::new(*self.shards.allocator());
        for (key, writes) in footprint.pairs() {
            if self.shard_of(key) == shard {
                share.push(key.copy()?, *writes)?;
            }
        }
        Ok(share)
    }

    /// Whether the replicas that answered are a majority of the shard: f + 1 of 2f + 1.
    pub fn is_majority(&self, shard: u32, answered: NodeSet) -> bool
        requires { HasShard self.now shard }
        ensures { result ≡ is_majority (shard_at self.now shard) (in_set answered) }
    {
        self.shard(shard).is_majority(answered)
    }

    /// Whether the unchanged votes make a fast path in the shard.
    pub fn is_fast(&self, shard: u32, votes: NodeSet) -> bool
        requires { HasShard self.now shard }
        ensures { result ≡ is_fast (shard_at self.now shard) (in_set votes) }
    {
        self.shard(shard).is_fast(votes)
    }

    /// Whether so many votes have changed that no fast path can be made in the shard.
    pub fn fast_lost(&self, shard: u32, changed: NodeSet) -> bool
        requires { HasShard self.now shard }
        ensures { result ≡ fast_lost (shard_at self.now shard) (in_set changed) }
    {
        self.shard(shard).fast_lost(changed)
    }

    /// Whether a fast path may have been made in the shard, as far as those that answered can tell, of whom some voted
    /// unchanged.
    pub fn may_be_fast(&self, shard: u32, answered: NodeSet, votes: NodeSet) -> bool
        requires { HasShard self.now shard }
        ensures { result ≡ may_be_fast (shard_at self.now shard) (in_set answered) (in_set votes) }
    {
        self.shard(shard).may_be_fast(answered, votes)
    }

    fn shard(&self, shard: u32) -> &Shard
        requires { HasShard self.now shard }
        ensures value { shard_view result.now ≡ shard_at self.now shard }
        ensures valid { IsLayout self.now }
    {
        &self.shards[shard as usize - 1]
    }
}

impl Duplicate for Topology {
    fn copy(&self) -> Result<Topology, OutOfMemory> {
        Topology::copy(self)
    }
}
