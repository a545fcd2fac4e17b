//! The actors of a cluster, found by how they print.
ghost use Rattle.std.specs.Prelude.{◌≡◌, ◌≤◌, ℕ, List, [], ◌∷◌, map, IfOk, OnOk};
ghost use Rattle.std.specs.Option.{option_or};
ghost use Rattle.acc_stamp.specs.Actor.{actor_of};
ghost use Rattle.acc_topology.specs.Sets.{members};
ghost use Rattle.acc_schedule.specs.Actors.{actor_named, actor_text, actors, at_name};

use acc_base::{OutOfMemory, push_number};
use acc_stamp::{Actor, actor};
use acc_topology::Topology;
use acc_topology::sets::{NodeSet, contains};
use indexmap::IndexMap;
use std::alloc::Global;
use std::marker::Model;

/// Actors by how they print. Of actors that print alike the first is found.
#[derive(Drop)]
pub(crate) struct ActorTable {
    actors: IndexMap<Vec<u8>, Actor>,
}

impl Model for ActorTable {
    ghost use Rattle.std.specs.Prelude.{ℕ, List, map};
    ghost use Rattle.acc_stamp.specs.declared.actors.Actor.{Actor as ActorValue};

    ghost Value = { List (List ℕ × ActorValue) };

    ghost view = { λ t. map (λ entry. (entry.0.items, entry.1)) t.actors.entries };
}

impl ActorTable {
    /// The nodes of a cluster, and the stores of its shards.
    pub(crate) fn of(alloc: Global, topology: &Topology) -> Result<ActorTable, OutOfMemory>
        ensures { IfOk result (λ table. (name : List ℕ) → at_name table name ≡ actor_named (actors topology.now) name) }
    {
        let mut table = ActorTable {
            actors: IndexMap::new(alloc),
        };
        table.add_all(alloc, topology.nodes(), 0)?;
        for place in 0..topology.shards() {
            let shard = place + 1;
            table.add_all(alloc, topology.replicas(shard), shard)?;
        }
        Ok(table)
    }

    /// The actor that prints so.
    pub(crate) fn get(&self, name: &[u8]) -> Option<Actor>
        ensures { result ≡ at_name self.now name.now }
    {
        self.actors.get(name).copied()
    }

    // Adds the stores of a shard at the nodes, or for shard 0 the nodes themselves.
    fn add_all(&mut self, alloc: Global, nodes: NodeSet, shard: u32) -> Result<(), OutOfMemory>
        requires { shard ≤ 15 }
        ensures { OnOk result ((name : List ℕ) → at_name self.new name
            ≡ option_or (at_name self.old name) (actor_named (map (λ node. actor_of node shard) (members nodes)) name)) }
    {
        for node in 0..16 {
            if contains(nodes, node) {
                self.add(alloc, actor(node, shard))?;
            }
        }
        Ok(())
    }

    fn add(&mut self, alloc: Global, actor: Actor) -> Result<(), OutOfMemory>
        ensures { OnOk result ((name : List ℕ) → at_name self.new name
            ≡ option_or (at_name self.old name) (actor_named (actor ∷ []) name)) }
    {
        let text = text(alloc, actor)?;
        if self.actors.get(text.as_slice()).is_none() {
            self.actors.insert(text, actor)?;
        }
        Ok(())
    }
}

// How an actor prints.
fn text(alloc: Global, actor: Actor) -> Result<Vec<u8>, OutOfMemory>
    ensures { IfOk result (λ text. text.items ≡ actor_text actor) }
{
    let mut text = Vec::new(alloc);
    push_number(&mut text, u64::from(actor.node()))?;
    if actor.shard() != 0 {
        text.push(b'.')?;
        push_number(&mut text, u64::from(actor.shard()))?;
    }
    Ok(text)
}
