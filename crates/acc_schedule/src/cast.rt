//! What the steps of a schedule may speak of.
ghost use Rattle.std.specs.Prelude.{◌≡◌, ◌≤◌, map};
ghost use Rattle.serde_json.specs.View.{view};
ghost use Rattle.acc_schedule.specs.Faults.{Gives};
ghost use Rattle.acc_schedule.specs.Fields.{number as number_of};
ghost use Rattle.acc_schedule.specs.Parts.{part_text};
ghost use Rattle.acc_schedule.specs.Steps.{actor_at, actor_fault, count_fault, message_fault, name_fault, node_fault, transaction_of};

use crate::actors::ActorTable;
use crate::error::{PlanError, PlanKind};
use crate::fields::{is_whole, node_in};
use crate::names::NameTable;
use crate::path::{Part, wrong};
use acc_stamp::Actor;
use acc_topology::sets::NodeSet;
use serde_json::Value;
use std::alloc::Global;

/// The transactions, the nodes and the actors that there are.
#[derive(Drop)]
pub(crate) struct Cast<'d> {
    names: &'d NameTable,
    nodes: NodeSet,
    actors: ActorTable,
}

impl<'d> Cast<'d> {
    /// The transactions of these names, these nodes, and these actors.
    pub(crate) fn new(names: &'d NameTable, nodes: NodeSet, actors: ActorTable) -> Cast<'d>
        ensures names { result.names.now ≡ names.now }
        ensures nodes { result.nodes ≡ nodes }
        ensures actors { result.actors ≡ actors }
    {
        Cast {
            names,
            nodes,
            actors,
        }
    }
}

impl Cast<'_> {
    ghost use Rattle.acc_schedule.specs.Seen.{seen};

    /// The number of the transaction that is named. The path is that of the name.
    pub(crate) fn transaction(
        &self,
        alloc: Global,
        value: &Value,
        path: &[Part<'_>],
    ) -> Result<u32, PlanError>
        ensures { Gives (name_fault (seen self.now) (map part_text path.now) (view value.now)) (λ txn. txn ≡ transaction_of (seen self.now) (view value.now)) result }
    {
        let Some(name) = value.as_str() else {
            return Err(wrong(alloc, PlanKind::Step, path));
        };
        match self.names.place(name.as_bytes()) {
            Some(place) => Ok(place),
            None => Err(wrong(alloc, PlanKind::Name, path)),
        }
    }

    /// The actor that prints so.
    pub(crate) fn actor(
        &self,
        alloc: Global,
        value: &Value,
        path: &[Part<'_>],
    ) -> Result<Actor, PlanError>
        ensures { Gives (actor_fault (seen self.now) (map part_text path.now) (view value.now)) (λ actor. actor ≡ actor_at (seen self.now) (view value.now)) result }
    {
        let Some(text) = value.as_str() else {
            return Err(wrong(alloc, PlanKind::Step, path));
        };
        match self.actors.get(text.as_bytes()) {
            Some(actor) => Ok(actor),
            None => Err(wrong(alloc, PlanKind::Name, path)),
        }
    }

    /// The number of a node.
    pub(crate) fn node(
        &self,
        alloc: Global,
        value: &Value,
        path: &[Part<'_>],
    ) -> Result<u32, PlanError>
        ensures { Gives (node_fault (seen self.now) (map part_text path.now) (view value.now)) (λ node. node ≡ number_of (view value.now)) result }
    {
        if !is_whole(value) {
            return Err(wrong(alloc, PlanKind::Step, path));
        }
        match node_in(self.nodes, value) {
            Some(node) => Ok(node),
            None => Err(wrong(alloc, PlanKind::Name, path)),
        }
    }
}

/// The number of a message.
pub(crate) fn message(alloc: Global, value: &Value, path: &[Part<'_>]) -> Result<u64, PlanError>
    ensures { Gives (message_fault (map part_text path.now) (view value.now)) (λ number. number ≡ number_of (view value.now)) result }
{
    match value.as_u64() {
        Some(number) => Ok(number),
        None => Err(wrong(alloc, PlanKind::Step, path)),
    }
}

/// A number of at most so much.
pub(crate) fn count(
    alloc: Global,
    value: &Value,
    most: u64,
    path: &[Part<'_>],
) -> Result<u64, PlanError>
    ensures { Gives (count_fault most (map part_text path.now) (view value.now))
        (λ number. (number ≡ number_of (view value.now)) × (number ≤ most)) result }
{
    match value.as_u64() {
        Some(number) if number <= most => Ok(number),
        _ => Err(wrong(alloc, PlanKind::Step, path)),
    }
}
