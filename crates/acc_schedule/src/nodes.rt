//! The nodes of a document.
ghost use Rattle.std.specs.Prelude.{◌≡◌, ◌≤◌, All, length, map};
ghost use Rattle.serde_json.specs.View.{view};
ghost use Rattle.acc_schedule.specs.Faults.{Gives};
ghost use Rattle.acc_schedule.specs.Nodes.{clock as clock_data, clock_fault, node_fault, node_of, nodes_fault, nodes_of};
ghost use Rattle.acc_schedule.specs.Fields.{number as number_of};
ghost use Rattle.acc_schedule.specs.Document.{nodes as nodes_data};

use crate::error::PlanError;
use crate::fields::{list, number, number_in, object};
use crate::path::Part;
use crate::plan::Starts;
use acc_base::Sequence;
use acc_topology::NodeSpec;
use serde_json::Value;
use std::alloc::Global;

/// The most nodes, and the greatest number of one.
const MOST_NODES: usize = 15;

/// Where a node's clock may start at most.
const MOST_CLOCK: u64 = 1_000_000_000_000;

/// The nodes, and where their clocks start.
pub(crate) fn nodes(alloc: Global, root: &Value) -> Result<Starts, PlanError>
    ensures { Gives (nodes_fault (nodes_data (view root.now)))
        (λ nodes. (nodes ≡ nodes_of (nodes_data (view root.now))) × (length nodes ≤ 15) × All (λ n. (1 ≤ n.id) × (n.id ≤ 15)) nodes) result }
{
    let items = list(alloc, root, "nodes", MOST_NODES, &[Part::Field("nodes")])?;
    let mut nodes = Sequence::new(alloc);
    for (place, item) in items.iter().enumerate() {
        nodes.push(node(alloc, item, place)?)?;
    }
    Ok(nodes)
}

fn node(alloc: Global, item: &Value, place: usize) -> Result<NodeSpec, PlanError>
    ensures { Gives (node_fault place (view item.now))
        (λ node. (node ≡ node_of (view item.now)) × (1 ≤ node.id) × (node.id ≤ 15)) result }
{
    let path = [Part::Field("nodes"), Part::Place(place)];
    object(alloc, item, &["id"], &["clock"], &path)?;
    let id = number(
        alloc,
        item,
        "id",
        1,
        MOST_NODES as u64,
        &[Part::Field("nodes"), Part::Place(place), Part::Field("id")],
    )?;
    let clock = clock(alloc, item, place)?;
    Ok(NodeSpec {
        id: id as u32,
        clock,
    })
}

// Where the clock starts; at 0 where nothing is said.
fn clock(alloc: Global, item: &Value, place: usize) -> Result<u64, PlanError>
    ensures { Gives (clock_fault place (view item.now))
        (λ clock. clock ≡ number_of (clock_data (view item.now))) result }
{
    let path = [
        Part::Field("nodes"),
        Part::Place(place),
        Part::Field("clock"),
    ];
    match item.get("clock") {
        Some(clock) => number_in(alloc, clock, 0, MOST_CLOCK, &path),
        None => Ok(0),
    }
}
