//! What actors left undone.
ghost use Rattle.std.specs.Prelude.{◌≡◌, map, IfOk};
ghost use Rattle.acc_free_ending.specs.Queues.{queue_in, placed_in};

use acc_actors::Slot;
use acc_base::OutOfMemory;
use acc_cluster::Slots;
use acc_ports::Rig;
use acc_schedule::Steps;
use acc_stamp::Actor;
use std::alloc::Global;

/// An actor in its slot, with all its commands in their order, of which so many went by.
#[derive(Debug, Drop)]
pub struct Rest<D: Rig> {
    pub actor: Actor,
    pub slot: Slot<D>,
    pub commands: Steps,
    pub gone: usize,
}

/// What is left of each actor.
pub type Rests<D> = Vec<Rest<D>>;

/// The commands of an actor alone.
#[derive(Debug, Drop)]
pub(crate) struct Queue {
    pub(crate) actor: Actor,
    pub(crate) commands: Steps,
    pub(crate) gone: usize,
}

/// The commands of all actors.
pub(crate) type Queues = Vec<Queue>;

/// The slots by themselves, and the commands, in the order of the actors.
pub(crate) fn parted<D: Rig + Drop>(
    alloc: Global,
    rests: Rests<D>,
) -> Result<(Slots<D>, Queues), OutOfMemory>
    ensures slots { IfOk result (λ parts. parts.0.items ≡ map placed_in rests.items) }
    ensures queues { IfOk result (λ parts. parts.1.items ≡ map queue_in rests.items) }
{
    let mut slots = Vec::new(alloc);
    let mut queues = Vec::new(alloc);
    for rest in rests {
        let Rest {
            actor,
            slot,
            commands,
            gone,
        } = rest;
        slots.push((actor, slot))?;
        queues.push(Queue {
            actor,
            commands,
            gone,
        })?;
    }
    Ok((slots, queues))
}
