//! The shards of a document.
ghost use Rattle.std.specs.Prelude.{◌≡◌, ◌≤◌, codes, length, map, option_map, IfOk};
ghost use Rattle.std.specs.List.{list_all};
ghost use Rattle.serde_json.specs.Find.{as_str, get};
ghost use Rattle.serde_json.specs.View.{view};
ghost use Rattle.acc_schedule.specs.Document.{shards as shards_data};
ghost use Rattle.acc_schedule.specs.Faults.{Gives};
ghost use Rattle.acc_schedule.specs.Fields.{field, is_whole as is_whole_of};
ghost use Rattle.acc_schedule.specs.Paths.{part_path};
ghost use Rattle.acc_schedule.specs.Parts.{part_text};
ghost use Rattle.acc_schedule.specs.Shards.{electorate_fault, end_fault, id_of, ids_fault, ids_of, shard_fault, shard_of, shards_fault, shards_of};

use crate::error::{PlanError, PlanKind};
use crate::fields::{elements, field_text, is_null, is_whole, list, object};
use crate::path::{Part, wrong};
use acc_base::{OutOfMemory, Sequence, Text};
use acc_topology::{NodeList, ShardSpec};
use serde_json::Value;
use std::alloc::Global;

/// The most shards.
const MOST_SHARDS: usize = 15;

/// The most nodes that a shard may name in a list.
const MOST_IDS: usize = 15;

/// The longest end of a shard, in bytes.
const LONGEST_END: usize = 64;

/// The shards. In the lists of their nodes, a number that no node can have is 0.
pub(crate) fn shards(alloc: Global, root: &Value) -> Result<Sequence<ShardSpec>, PlanError>
    ensures { Gives (shards_fault (shards_data (view root.now)))
        (λ shards. (shards ≡ shards_of (shards_data (view root.now))) × (length shards ≤ 15)) result }
{
    let items = list(alloc, root, "shards", MOST_SHARDS, &[Part::Field("shards")])?;
    let mut shards = Sequence::new(alloc);
    for (place, item) in items.iter().enumerate() {
        shards.push(shard(alloc, item, place)?)?;
    }
    Ok(shards)
}

fn shard(alloc: Global, item: &Value, place: usize) -> Result<ShardSpec, PlanError>
    ensures { Gives (shard_fault place (view item.now)) (λ shard. shard ≡ shard_of (view item.now)) result }
{
    let path = [Part::Field("shards"), Part::Place(place)];
    object(alloc, item, &["end", "replicas"], &["electorate"], &path)?;
    let end = end(alloc, item, place)?;
    let replicas = replicas(alloc, item, place)?;
    let electorate = electorate(alloc, item, place)?;
    Ok(ShardSpec {
        end,
        replicas,
        electorate,
    })
}

// The end of a shard, which the last one doesn't have.
fn end(alloc: Global, item: &Value, place: usize) -> Result<Option<Text>, PlanError>
    ensures { Gives (end_fault (part_path (codes "shards") place (codes "end")) (field (codes "end") (view item.now)))
        (λ end. end ≡ as_str (field (codes "end") (view item.now))) result }
{
    let path = [
        Part::Field("shards"),
        Part::Place(place),
        Part::Field("end"),
    ];
    if is_null(item, "end") {
        return Ok(None);
    }
    let Some(text) = field_text(item, "end") else {
        return Err(wrong(alloc, PlanKind::Shape, &path));
    };
    if text.is_empty() || text.len() > LONGEST_END {
        return Err(wrong(alloc, PlanKind::Limit, &path));
    }
    Ok(Some(Sequence::from_slice(alloc, text.as_bytes())?))
}

fn replicas(alloc: Global, item: &Value, place: usize) -> Result<NodeList, PlanError>
    ensures { Gives (ids_fault (part_path (codes "shards") place (codes "replicas")) (field (codes "replicas") (view item.now)))
        (λ replicas. replicas ≡ ids_of (field (codes "replicas") (view item.now))) result }
{
    let path = [
        Part::Field("shards"),
        Part::Place(place),
        Part::Field("replicas"),
    ];
    match item.get("replicas") {
        Some(value) => ids(alloc, value, &path),
        None => Err(wrong(alloc, PlanKind::Shape, &path)),
    }
}

// The electorate of a shard, where it names one.
fn electorate(alloc: Global, item: &Value, place: usize) -> Result<Option<NodeList>, PlanError>
    ensures { Gives (electorate_fault (part_path (codes "shards") place (codes "electorate")) (get (codes "electorate") (view item.now)))
        (λ electorate. electorate ≡ option_map ids_of (get (codes "electorate") (view item.now))) result }
{
    let path = [
        Part::Field("shards"),
        Part::Place(place),
        Part::Field("electorate"),
    ];
    match item.get("electorate") {
        Some(value) => Ok(Some(ids(alloc, value, &path)?)),
        None => Ok(None),
    }
}

// The list of nodes at the path.
fn ids(alloc: Global, value: &Value, path: &[Part<'_>]) -> Result<NodeList, PlanError>
    ensures { Gives (ids_fault (map part_text path.now) (view value.now)) (λ ids. ids ≡ ids_of (view value.now)) result }
{
    let Some(items) = elements(value) else {
        return Err(wrong(alloc, PlanKind::Shape, path));
    };
    if !are_whole(items) {
        return Err(wrong(alloc, PlanKind::Shape, path));
    }
    if items.len() > MOST_IDS {
        return Err(wrong(alloc, PlanKind::Limit, path));
    }
    Ok(ids_in(alloc, items)?)
}

fn are_whole(items: &[Value]) -> bool
    ensures { result ≡ list_all (λ item. is_whole_of (view item)) items.now }
{
    items.iter().all(|item| is_whole(item))
}

fn ids_in(alloc: Global, items: &[Value]) -> Result<NodeList, OutOfMemory>
    ensures { IfOk result (λ ids. ids ≡ map id_of (map view items.now)) }
{
    let mut ids = Sequence::new(alloc);
    ids.reserve(items.len())?;
    for item in items {
        ids.push(id(item))?;
    }
    Ok(ids)
}

// The node's number, or 0 where no node can have it.
fn id(item: &Value) -> u32
    ensures { result ≡ id_of (view item.now) }
{
    match item.as_u64() {
        Some(number @ 1..=15) => number as u32,
        _ => 0,
    }
}
