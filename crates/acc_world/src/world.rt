//! The cluster as one pure value.
ghost use Rattle.std.specs.Prelude.{◌≡◌, ℕ, List, [], ◌∷◌, Some, IfOk, IfErr, OnErr};
ghost use Rattle.acc_stamp.specs.declared.actors.Actor.{Actor as AnActor};
ghost use Rattle.acc_message.specs.declared.entry.Event.{Event as AnEvent};
ghost use Rattle.acc_message.specs.declared.item.Item.{Item as AnItem};
ghost use Rattle.acc_message.specs.declared.item.Skip.{Skip as ASkip};
ghost use Rattle.acc_message.specs.NodeRules.{Act};
ghost use Rattle.acc_message.specs.Run.{Cluster};
ghost use Rattle.acc_safety.specs.Valid.{IsValidCluster};
ghost use Rattle.acc_run_laws.specs.declared.ask.Ask.{Ask as AnAsk};
ghost use Rattle.acc_run_laws.specs.Asks.{skip_of};
ghost use Rattle.acc_run_laws.specs.AskLaws.{IsAskOf, IsRunWithoutDowns};
ghost use Rattle.acc_world.specs.Values.{cluster};
ghost use Rattle.acc_world.specs.Held.{cluster_of, IsRefused};

use crate::error::WorldError;
use crate::held::nothing;
use crate::keeping::{self, Actors, note};
use crate::setup::Setup;
use crate::shared::SharedEntry;
use acc_base::OutOfMemory;
use acc_history::History;
use acc_message::{Event, Skip};
use acc_node::NodeError;
use acc_run_laws::Ask;
use acc_schedule::{Bodies, Starts};
use acc_stamp::{Actor, actor};
use acc_topology::{NodeList, Topology};
use std::alloc::Global;
use std::collections::BTreeMap;

/// A cluster that is asked for steps one by one: what it is of, its past, and the actors that stand there. An actor that is missing did
/// what the past says, and is built anew when it is asked for.
#[derive(Debug, Drop)]
pub struct World {
    pub(crate) setup: Setup,
    pub(crate) history: History,
    pub(crate) actors: Actors,
}

impl World {
    ghost use Rattle.acc_world.specs.Stands.{Stands, StandsFor};
    ghost use Rattle.acc_world.specs.Steps.{HasPlace, MayBeTried, IsTried, HasEntered, Steps, MayBeAsked, IsAnswered, Skips, IsSkip};

    /// A cluster that has done nothing.
    pub fn new(
        alloc: Global,
        topology: &Topology,
        starts: &Starts,
        homes: &NodeList,
        bodies: &Bodies,
    ) -> Result<World, OutOfMemory>
        requires { IsValidCluster (cluster topology.now starts.now homes.now bodies.now) }
        ensures { IfOk result (λ world. StandsFor world (cluster topology.now starts.now homes.now bodies.now) []) }
    {
        Ok(World {
            setup: Setup::of(topology, starts, homes, bodies)?,
            history: History::new(alloc)?,
            actors: BTreeMap::new(alloc),
        })
    }

    /// Takes a step, and answers its entry. A step is passed over by its first cause. **A fast quorum decides at once**: where a node takes an
    /// answer that makes the votes for a transaction's own timestamp a fast quorum in every shard, the entry decides that timestamp. After an
    /// error the world stands for what it stood for.
    pub fn step(&mut self, ask: &Ask) -> Result<SharedEntry, WorldError>
        requires standing { (cluster : Cluster) × (items : List AnItem) × StandsFor self.old cluster items × HasPlace items × IsAskOf cluster ask.now }
        ensures ok { IfOk result (λ entry. (cluster : Cluster) (items : List AnItem) → StandsFor self.old cluster items → HasPlace items → IsAskOf cluster ask.now
            → Steps self.old self.new cluster items ask.now entry) }
        ensures skip { IfErr result (IsSkip (λ cause. (cluster : Cluster) (items : List AnItem) → StandsFor self.old cluster items → HasPlace items → IsAskOf cluster ask.now
            → skip_of cluster items ask.now ≡ Some cause)) }
        ensures err { OnErr result ((cluster : Cluster) (items : List AnItem) → StandsFor self.old cluster items → StandsFor self.new cluster items) }
        ensures runs { (cluster : Cluster) (items : List AnItem) → StandsFor self.new cluster items → IsRunWithoutDowns cluster items }
    {
        match *ask {
            Ask::Begin { txn } => self.begin(txn),
            Ask::Recover { txn, node } => self.recover(txn, node),
            Ask::Slow { txn } => self.slow(txn),
            Ask::Deliver { number } => self.deliver(number),
            Ask::Restart { actor } => self.restart(actor),
        }
    }

    // The home of a transaction begins it.
    fn begin(&mut self, txn: u32) -> Result<SharedEntry, WorldError>
        requires { MayBeAsked self.old (AnAsk.Begin txn) }
        ensures ok { IfOk result (IsAnswered self.old self.new (AnAsk.Begin txn)) }
        ensures skip { IfErr result (IsSkip (λ cause. Skips self.old (AnAsk.Begin txn) cause)) }
        ensures err { OnErr result ((items : List AnItem) → Stands self.old items → Stands self.new items) }
        ensures same { self.new.setup ≡ self.old.setup }
    {
        if self.history.is_begun(txn) {
            return Err(WorldError::Skip(Skip::Begun { txn }));
        }
        let Some(home) = self.setup.home_of(txn) else {
            return Err(WorldError::OutOfMemory);
        };
        match self.enter(home, Event::Begin { txn }) {
            Ok(entry) => Ok(entry),
            Err(_) => Err(WorldError::OutOfMemory),
        }
    }

    // The node takes a transaction over.
    fn recover(&mut self, txn: u32, node: u32) -> Result<SharedEntry, WorldError>
        requires { MayBeAsked self.old (AnAsk.Recover txn node) }
        ensures ok { IfOk result (IsAnswered self.old self.new (AnAsk.Recover txn node)) }
        ensures skip { IfErr result (IsSkip (λ cause. Skips self.old (AnAsk.Recover txn node) cause)) }
        ensures err { OnErr result ((items : List AnItem) → Stands self.old items → Stands self.new items) }
        ensures same { self.new.setup ≡ self.old.setup }
    {
        if !self.history.is_begun(txn) {
            return Err(WorldError::Skip(Skip::Unknown { txn }));
        }
        match self.enter(actor(node, 0), Event::Recover { txn }) {
            Ok(entry) => Ok(entry),
            Err(_) => Err(WorldError::OutOfMemory),
        }
    }

    // The home of a transaction gives its fast path up.
    fn slow(&mut self, txn: u32) -> Result<SharedEntry, WorldError>
        requires { MayBeAsked self.old (AnAsk.Slow txn) }
        ensures ok { IfOk result (IsAnswered self.old self.new (AnAsk.Slow txn)) }
        ensures skip { IfErr result (IsSkip (λ cause. Skips self.old (AnAsk.Slow txn) cause)) }
        ensures err { OnErr result ((items : List AnItem) → Stands self.old items → Stands self.new items) }
        ensures same { self.new.setup ≡ self.old.setup }
    {
        if self.history.id_of(txn).is_none() {
            return Err(WorldError::Skip(Skip::Unknown { txn }));
        }
        let Some(home) = self.setup.home_of(txn) else {
            return Err(WorldError::OutOfMemory);
        };
        match self.enter(home, Event::Slow { txn }) {
            Ok(entry) => Ok(entry),
            Err(NodeError::Unknown) => Err(WorldError::Skip(Skip::Unknown { txn })),
            Err(NodeError::NoQuorum) => Err(WorldError::Skip(Skip::NoQuorum { txn })),
            Err(_) => Err(WorldError::OutOfMemory),
        }
    }

    // The actor that a message goes to takes it.
    fn deliver(&mut self, number: u64) -> Result<SharedEntry, WorldError>
        requires { MayBeAsked self.old (AnAsk.Deliver number) }
        ensures ok { IfOk result (IsAnswered self.old self.new (AnAsk.Deliver number)) }
        ensures skip { IfErr result (IsSkip (λ cause. Skips self.old (AnAsk.Deliver number) cause)) }
        ensures err { OnErr result ((items : List AnItem) → Stands self.old items → Stands self.new items) }
        ensures same { self.new.setup ≡ self.old.setup }
    {
        let Some(m) = self.history.message(number) else {
            let sent = self.history.sent();
            return Err(WorldError::Skip(Skip::NoMessage { number, sent }));
        };
        let to = m.to();
        match self.enter(to, Event::Message { number }) {
            Ok(entry) => Ok(entry),
            Err(_) => Err(WorldError::OutOfMemory),
        }
    }

    // The actor comes back from its journal.
    fn restart(&mut self, actor: Actor) -> Result<SharedEntry, WorldError>
        requires { MayBeAsked self.old (AnAsk.Restart actor) }
        ensures ok { IfOk result (IsAnswered self.old self.new (AnAsk.Restart actor)) }
        ensures skip { IfErr result (IsSkip (λ cause. Skips self.old (AnAsk.Restart actor) cause)) }
        ensures err { OnErr result ((items : List AnItem) → Stands self.old items → Stands self.new items) }
        ensures same { self.new.setup ≡ self.old.setup }
    {
        let emitted = nothing(self.setup.allocator());
        let entry = note(
            &mut self.history,
            actor,
            Event::Restart { kept: 0 },
            emitted,
        )?;
        keeping::restart(&mut self.actors, actor);
        Ok(entry)
    }

    // An actor takes an event, which is entered. Where memory is refused after its step, it is left out, as it has done more than the past
    // says.
    fn enter(&mut self, actor: Actor, event: Event) -> Result<SharedEntry, NodeError>
        requires { MayBeTried self.old actor event }
        ensures ok { IfOk result (λ entry. (items : List AnItem) (act : Act) → IsTried self.old actor event items act
            → HasEntered self.old self.new items actor event act entry) }
        ensures refused { IfErr result (λ error. (items : List AnItem) (act : Act) → IsTried self.old actor event items act
            → IsRefused (cluster_of self.old.setup) items event error) }
        ensures err { OnErr result ((items : List AnItem) → Stands self.old items → Stands self.new items) }
        ensures same { self.new.setup ≡ self.old.setup }
    {
        match keeping::act(&mut self.actors, &self.setup, &self.history, actor, event) {
            Ok(emitted) => match note(&mut self.history, actor, event, emitted) {
                Ok(entry) => Ok(entry),
                Err(error) => {
                    keeping::leave_out(&mut self.actors, actor);
                    Err(error.into())
                }
            },
            Err(error) => Err(error),
        }
    }
}
