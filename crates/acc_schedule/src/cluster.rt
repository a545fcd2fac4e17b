//! The cluster that the nodes and the shards of a document make.
ghost use Rattle.std.specs.Prelude.{◌≡◌, ◌==◌, ◌≤◌, ◌||◌, All, length, map};
ghost use Rattle.std.specs.List.{list_any};
ghost use Rattle.acc_topology.specs.Faults.{given_layout};
ghost use Rattle.acc_topology.specs.declared.error.TopologyError.TheVariants.{Wrong};
ghost use Rattle.acc_schedule.specs.declared.error.PlanError.TheVariants.{Bad};
ghost use Rattle.acc_schedule.specs.Cluster.{cluster_fault, detail_of, node_path, placed, shard_path, stands_twice};
ghost use Rattle.acc_schedule.specs.Faults.{Gives, IsFault};
ghost use Rattle.acc_schedule.specs.Parts.{part_text};
ghost use Rattle.acc_schedule.specs.Paths.{path_text};

use crate::error::{PlanError, PlanKind};
use crate::path::{Part, detailed};
use acc_topology::{NodeSpec, ShardSpec, Topology, TopologyError, TopologyKind};
use std::alloc::Global;

/// The cluster of these nodes and shards.
pub(crate) fn cluster(
    alloc: Global,
    nodes: &[NodeSpec],
    shards: &[ShardSpec],
) -> Result<Topology, PlanError>
    requires few_nodes { length nodes.now ≤ 15 }
    requires few_shards { length shards.now ≤ 15 }
    requires ids { All (λ n. (1 ≤ n.id) × (n.id ≤ 15)) nodes.now }
    ensures { Gives (cluster_fault nodes.now shards.now) (λ topology. topology ≡ given_layout nodes.now shards.now) result }
{
    match Topology::new(alloc, nodes, shards) {
        Ok(topology) => Ok(topology),
        Err(TopologyError::OutOfMemory) => Err(PlanError::OutOfMemory),
        Err(TopologyError::Wrong { kind, shard, item }) => {
            if are_at_fault(nodes, item as usize) {
                Err(at_nodes(alloc, kind, shard, item))
            } else {
                Err(at_shards(alloc, kind, shard, item))
            }
        }
    }
}

// Whether there is no node, or the node at the place stands in front of it too.
fn are_at_fault(nodes: &[NodeSpec], place: usize) -> bool
    ensures { result ≡ (length nodes.now == 0 || stands_twice nodes.now place) }
{
    nodes.is_empty() || stands_twice(nodes, place)
}

fn stands_twice(nodes: &[NodeSpec], place: usize) -> bool
    ensures { result ≡ stands_twice nodes.now place }
{
    match nodes.get(place) {
        Some(node) => is_among(&nodes[..place], node.id),
        None => false,
    }
}

fn is_among(nodes: &[NodeSpec], id: u32) -> bool
    ensures { result ≡ list_any (λ node. node.id == id) nodes.now }
{
    nodes.iter().any(|node| node.id == id)
}

// A refusal of the nodes, at its place in the document.
fn at_nodes(alloc: Global, kind: TopologyKind, shard: u32, item: u32) -> PlanError
    ensures { IsFault (placed node_path (Some (Wrong kind shard item))) result }
{
    let nodes = Part::Field("nodes");
    match kind {
        TopologyKind::Twice => refusal(alloc, kind, &[nodes, Part::Place(item as usize)]),
        _ => refusal(alloc, kind, &[nodes]),
    }
}

// A refusal of the shards, at its place in the document.
fn at_shards(alloc: Global, kind: TopologyKind, shard: u32, item: u32) -> PlanError
    ensures { IsFault (placed shard_path (Some (Wrong kind shard item))) result }
{
    let shards = Part::Field("shards");
    let place = Part::Place(shard as usize);
    let replicas = Part::Field("replicas");
    match kind {
        TopologyKind::NoShard => refusal(alloc, kind, &[shards]),
        TopologyKind::Order => refusal(alloc, kind, &[shards, place, Part::Field("end")]),
        TopologyKind::Replicas => refusal(alloc, kind, &[shards, place, replicas]),
        TopologyKind::Electorate => {
            refusal(alloc, kind, &[shards, place, Part::Field("electorate")])
        }
        _ => refusal(
            alloc,
            kind,
            &[shards, place, replicas, Part::Place(item as usize)],
        ),
    }
}

fn refusal(alloc: Global, kind: TopologyKind, path: &[Part<'_>]) -> PlanError
    ensures { IsFault (Some (Bad PlanKind.Topology (path_text (map part_text path.now)) (detail_of kind) 0)) result }
{
    detailed(alloc, PlanKind::Topology, path, kind as u32, 0)
}
