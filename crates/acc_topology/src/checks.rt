//! The rules that nodes and shards must meet, each in its turn.
ghost use Rattle.std.specs.Prelude.{◌≡◌, ◌<◌, ◌≤◌, ℕ, List, length, Some, None, MatchResult, IfOk, All, map};
ghost use Rattle.std.specs.Option.{option_copied};
ghost use Rattle.acc_topology.specs.Sets.{in_set, IsSetOf};
ghost use Rattle.acc_topology.specs.Layout.{is_replica_count};
ghost use Rattle.acc_topology.specs.Faults.{ids, nodes_fault, ends_well, replicas_fault, least_electors, electorate_fault, electors, replica_faults, shards_fault, given_shard, Finds};
ghost use Rattle.acc_topology.specs.View.{shard_view};

use crate::error::{TopologyError, TopologyKind};
use crate::given::{NodeSpec, ShardSpec};
use crate::sets::{NodeSet, contains, with};
use crate::shard::Shard;
use acc_base::{InlineText, OutOfMemory, Text};
use std::alloc::Global;

/// The set of the nodes.
pub(crate) fn node_set(nodes: &[NodeSpec]) -> Result<NodeSet, TopologyError>
    requires few { length nodes.now ≤ 15 }
    requires ids { All (λ n. n.id < 16) nodes.now }
    ensures { MatchResult result
        (λ set. (nodes_fault nodes.now ≡ None) × IsSetOf set (ids nodes.now))
        (λ fault. nodes_fault nodes.now ≡ Some fault) }
{
    if nodes.is_empty() {
        return Err(wrong(TopologyKind::NoNode, 0, 0));
    }
    let mut set = 0;
    for (place, node) in nodes.iter().enumerate() {
        if contains(set, node.id) {
            return Err(wrong(TopologyKind::Twice, 0, place as u32));
        }
        set = with(set, node.id);
    }
    Ok(set)
}

/// The set of a shard's replicas.
pub(crate) fn replica_set(
    nodes: NodeSet,
    shard: u32,
    replicas: &[u32],
) -> Result<NodeSet, TopologyError>
    requires { length replicas.now ≤ 7 }
    ensures { MatchResult result
        (λ set. (replicas_fault (in_set nodes) shard replicas.now ≡ None) × IsSetOf set replicas.now)
        (λ fault. replicas_fault (in_set nodes) shard replicas.now ≡ Some fault) }
{
    let mut set = 0;
    for (item, replica) in replicas.iter().enumerate() {
        if !contains(nodes, *replica) {
            return Err(wrong(TopologyKind::UnknownNode, shard, item as u32));
        }
        if contains(set, *replica) {
            return Err(wrong(TopologyKind::Twice, shard, item as u32));
        }
        set = with(set, *replica);
    }
    Ok(set)
}

/// The set of a shard's electorate: all its replicas where it names none.
pub(crate) fn electorate_set(
    replicas: NodeSet,
    place: u32,
    shard: &ShardSpec,
) -> Result<NodeSet, TopologyError>
    requires { IsSetOf replicas shard.now.replicas }
    ensures { MatchResult result
        (λ set. (electorate_fault (in_set replicas) (least_electors shard.now) place shard.now.electorate ≡ None)
        × IsSetOf set (electors shard.now))
        (λ fault. electorate_fault (in_set replicas) (least_electors shard.now) place shard.now.electorate ≡ Some fault) }
{
    match &shard.electorate {
        Some(electorate) => {
            let least = shard.replicas.len() / 2 + 1;
            named_electorate(replicas, least, place, electorate.as_slice())
        }
        None => Ok(replicas),
    }
}

/// The set of an electorate that a shard names.
fn named_electorate(
    replicas: NodeSet,
    least: usize,
    place: u32,
    electorate: &[u32],
) -> Result<NodeSet, TopologyError>
    ensures { MatchResult result
        (λ set. (electorate_fault (in_set replicas) least place (Some electorate.now) ≡ None) × IsSetOf set electorate.now)
        (λ fault. electorate_fault (in_set replicas) least place (Some electorate.now) ≡ Some fault) }
{
    if electorate.len() < least {
        return Err(wrong(TopologyKind::Electorate, place, 0));
    }
    let mut set = 0;
    for elector in electorate {
        if !contains(replicas, *elector) || contains(set, *elector) {
            return Err(wrong(TopologyKind::Electorate, place, 0));
        }
        set = with(set, *elector);
    }
    Ok(set)
}

/// Whether a shard may end here: the last has no end, and every other one ends after the one before.
pub(crate) fn may_end(is_last: bool, before: Option<&Text>, end: Option<&Text>) -> bool
    ensures { result ≡ ends_well is_last (option_copied before.entry) (option_copied end.entry) }
{
    match (before, end) {
        (_, None) => is_last,
        (None, Some(_)) => !is_last,
        (Some(before), Some(end)) => !is_last && before.cmp(end).is_lt(),
    }
}

/// Whether a shard may have so many replicas.
fn is_replica_count(count: usize) -> bool
    ensures { result ≡ is_replica_count count }
{
    matches!(count, 1 | 3 | 5 | 7)
}

fn wrong(kind: TopologyKind, shard: u32, item: u32) -> TopologyError
    ensures { result ≡ TopologyError.Wrong kind shard item }
{
    TopologyError::Wrong { kind, shard, item }
}

/// The shards, each with the sets of its replicas and its electorate.
pub(crate) fn checked_shards(
    alloc: Global,
    nodes: NodeSet,
    shards: &[ShardSpec],
) -> Result<Vec<Shard>, TopologyError>
    requires { length shards.now ≤ 15 }
    ensures { Finds (shards_fault (in_set nodes) shards.now)
        (λ checked. map shard_view checked.items ≡ map given_shard shards.now) result }
{
    if shards.is_empty() {
        return Err(wrong(TopologyKind::NoShard, 0, 0));
    }
    let mut checked = Vec::with_capacity(alloc, shards.len())?;
    let mut before = None;
    for (place, shard) in shards.iter().enumerate() {
        let is_last = place + 1 == shards.len();
        if !may_end(is_last, before, shard.end.as_ref()) {
            return Err(wrong(TopologyKind::Order, place as u32, 0));
        }
        checked.push(checked_shard(nodes, place as u32, shard)?)?;
        before = shard.end.as_ref();
    }
    Ok(checked)
}

/// The text in front of which a shard ends, as it is compared with keys.
fn end_of(end: &Option<Text>) -> Result<Option<InlineText>, OutOfMemory>
    ensures { IfOk result (λ copy. copy ≡ end.now) }
{
    match end {
        Some(end) => Ok(Some(InlineText::from_slice(end.allocator(), end.as_slice())?)),
        None => Ok(None),
    }
}

/// A shard with the sets of its replicas and its electorate.
fn checked_shard(nodes: NodeSet, place: u32, shard: &ShardSpec) -> Result<Shard, TopologyError>
    ensures { Finds (replica_faults (in_set nodes) place shard.now)
        (λ checked. shard_view checked ≡ given_shard shard.now) result }
{
    if !is_replica_count(shard.replicas.len()) {
        return Err(wrong(TopologyKind::Replicas, place, 0));
    }
    let replicas = replica_set(nodes, place, shard.replicas.as_slice())?;
    let electorate = electorate_set(replicas, place, shard)?;
    Ok(Shard {
        end: end_of(&shard.end)?,
        replicas,
        electorate,
    })
}
