//! Actors that are built from what they did.
ghost use Rattle.std.specs.Prelude.{◌≡◌, ℕ, List, ◌∷◌, [], IfOk, OnOk};
ghost use Rattle.acc_message.specs.declared.message.Message.{Message};
ghost use Rattle.acc_message.specs.declared.item.Item.{Item as AnItem};
ghost use Rattle.acc_message.specs.Shown.{with_sent};
ghost use Rattle.acc_message.specs.Run.{deeds_of};
ghost use Rattle.acc_world.specs.Held.{cluster_of, HeldStands, IsPast, IsActorOf, IsRedone};

use crate::held::Held;
use crate::setup::Setup;
use acc_base::OutOfMemory;
use acc_history::History;
use acc_message::Shown;
use acc_node::Node;
use acc_stamp::Actor;
use acc_store::Store;
use std::alloc::Global;

// An actor that has done nothing.
fn fresh(alloc: Global, setup: &Setup, actor: Actor) -> Held
    requires { IsActorOf (cluster_of setup.now) actor }
    ensures { HeldStands (cluster_of setup.now) actor [] result }
{
    if actor.shard() == 0 {
        let number = actor.node();
        Held::Node(Node::new(alloc, number, setup.start_of(number)))
    } else {
        Held::Store(Store::new(alloc, actor))
    }
}

// Takes an item's event again, where it is the actor's. The item stands in the past.
fn redo(
    held: &mut Held,
    setup: &Setup,
    history: &History,
    actor: Actor,
    item: Shown<'_>,
) -> Result<(), OutOfMemory>
    requires { (out : List Message) × (items earlier : List AnItem) × IsRedone setup.now history.now items earlier (with_sent item out) actor held.old }
    ensures { OnOk result ((out : List Message) (items earlier : List AnItem) → IsRedone setup.now history.now items earlier (with_sent item.entry out) actor held.old
        → HeldStands (cluster_of setup.now) actor (deeds_of (cluster_of setup.now) actor (with_sent item.entry out ∷ earlier)) held.new) }
{
    let Shown::Step {
        actor: stepped,
        event,
        ..
    } = item
    else {
        return Ok(());
    };
    if stepped != actor {
        return Ok(());
    }
    if held.act(setup, history, actor, event).is_err() {
        return Err(OutOfMemory);
    }
    Ok(())
}

/// The actor as the past makes it.
pub(crate) fn rebuild(
    alloc: Global,
    setup: &Setup,
    history: &History,
    actor: Actor,
) -> Result<Held, OutOfMemory>
    requires past { (items : List AnItem) × IsPast (cluster_of setup.now) history.now items }
    requires known { IsActorOf (cluster_of setup.now) actor }
    ensures { IfOk result (λ held. (items : List AnItem) → IsPast (cluster_of setup.now) history.now items
        → HeldStands (cluster_of setup.now) actor (deeds_of (cluster_of setup.now) actor items) held) }
{
    let mut held = fresh(alloc, setup, actor);
    let items = history.items();
    for index in 0..items.len() {
        redo(&mut held, setup, history, actor, items.shown(index))?;
    }
    Ok(held)
}
