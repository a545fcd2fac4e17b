//! The actors that a world keeps, by their numbers. One that is missing is built anew when it is asked for.
ghost use Rattle.std.specs.Prelude.{◌≡◌, ℕ, false, List, ◌∷◌, IsSome, IfOk, IfErr, OnOk, OnErr};
ghost use Rattle.std.specs.Ordering.{nat_cmp};
ghost use Rattle.std.specs.BTreeMap.{get};
ghost use Rattle.acc_message.specs.declared.entry.Entry.{Entry as AnEntry};
ghost use Rattle.acc_message.specs.declared.item.Item.{Item as AnItem};
ghost use Rattle.acc_message.specs.NodeRules.{Act};
ghost use Rattle.acc_message.specs.Run.{Cluster};
ghost use Rattle.acc_history.specs.Stands.{StandsFor as IsHistoryOf, EventTakesSent};
ghost use Rattle.acc_world.specs.Held.{cluster_of, past_of, IsPast, IsActorOf, IsRefused};
ghost use Rattle.acc_world.specs.Stands.{AreHeld};
ghost use Rattle.acc_world.specs.Keeping.{IsReady, MayAct, HasActed, came_back};

use crate::held::Held;
use crate::rebuilding::rebuild;
use crate::setup::Setup;
use crate::shared::SharedEntry;
use acc_base::OutOfMemory;
use acc_history::History;
use acc_message::{Emitted, Entry, Event};
use acc_node::NodeError;
use acc_stamp::Actor;
use std::collections::BTreeMap;

/// Actors by their numbers.
pub(crate) type Actors = BTreeMap<u32, Held>;

// Builds an actor anew that is missing.
fn cover(
    actors: &mut Actors,
    setup: &Setup,
    history: &History,
    actor: Actor,
) -> Result<(), OutOfMemory>
    requires past { (items : List AnItem) × IsPast (cluster_of setup.now) history.now items }
    requires known { IsActorOf (cluster_of setup.now) actor }
    ensures held { (items : List AnItem) → IsPast (cluster_of setup.now) history.now items → AreHeld (cluster_of setup.now) items actors.old
        → AreHeld (cluster_of setup.now) items actors.new }
    ensures there { OnOk result (IsSome (get nat_cmp actors.new actor.0)) }
{
    if actors.contains_key(&actor.0) {
        return Ok(());
    }
    let held = rebuild(setup.allocator(), setup, history, actor)?;
    actors.insert(actor.0, held)?;
    Ok(())
}

/// An actor takes an event where it stands. After an error the actors stand for what they stood for.
pub(crate) fn act(
    actors: &mut Actors,
    setup: &Setup,
    history: &History,
    actor: Actor,
    event: Event,
) -> Result<Emitted, NodeError>
    requires { MayAct setup.now history.now actors.old actor event }
    ensures ok { IfOk result (λ emitted. (items : List AnItem) (act : Act) → IsReady setup.now history.now actors.old actor event items act
        → HasActed (cluster_of setup.now) items actor event act emitted actors.new) }
    ensures refused { IfErr result (λ error. (items : List AnItem) (act : Act) → IsReady setup.now history.now actors.old actor event items act
        → IsRefused (cluster_of setup.now) items event error) }
    ensures err { OnErr result ((items : List AnItem) → IsPast (cluster_of setup.now) history.now items → AreHeld (cluster_of setup.now) items actors.old
        → AreHeld (cluster_of setup.now) items actors.new) }
{
    cover(actors, setup, history, actor)?;
    match actors.get_mut(&actor.0) {
        Some(held) => held.act(setup, history, actor, event),
        None => Err(NodeError::OutOfMemory),
    }
}

/// An actor comes back from its journal. One that is missing needs nothing.
pub(crate) fn restart(actors: &mut Actors, actor: Actor)
    ensures { (cluster : Cluster) (items : List AnItem) → AreHeld cluster items actors.old → AreHeld cluster (AnItem.Step (came_back actor) ∷ items) actors.new }
{
    match actors.get_mut(&actor.0) {
        Some(held) => held.restart(),
        None => {}
    }
}

/// Leaves an actor out that has taken an event which isn't entered.
pub(crate) fn leave_out(actors: &mut Actors, actor: Actor)
    ensures { (cluster : Cluster) (items : List AnItem) (entry : AnEntry) → entry.actor ≡ actor → AreHeld cluster (AnItem.Step entry ∷ items) actors.old
        → AreHeld cluster items actors.new }
{
    let _taken = actors.remove(&actor.0);
}

/// Enters what an actor did; nobody asks a world for the bytes of its messages. Without memory for it the past is as before.
pub(crate) fn note(
    history: &mut History,
    actor: Actor,
    event: Event,
    emitted: Emitted,
) -> Result<SharedEntry, OutOfMemory>
    ensures entry { IfOk result (λ entry. entry ≡ record { actor = actor; event = event; emitted = emitted; lost = false }) }
    ensures ok { IfOk result (λ entry. (items : List AnItem) → IsHistoryOf history.old (past_of items) → EventTakesSent (past_of items) event
        → IsHistoryOf history.new (past_of (AnItem.Step entry ∷ items))) }
    ensures err { OnErr result ((items : List AnItem) → IsHistoryOf history.old (past_of items) → IsHistoryOf history.new (past_of items)) }
{
    let alloc = emitted.out.allocator();
    let entry = Entry {
        actor,
        event,
        emitted,
        lost: false,
    };
    let shared = SharedEntry::of(alloc, entry)?;
    history.add_shared(shared.item()?, 0)?;
    Ok(shared)
}
