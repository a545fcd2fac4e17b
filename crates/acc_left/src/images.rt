//! The journals that the actors of a plan have after some items.
ghost use Rattle.std.specs.Prelude.{◌≡◌, ◌<◌, ◌∷◌, [], ℕ, List, Some, length, map, reverse, slice_get, IfOk, OnOk};
ghost use Rattle.acc_stamp.specs.declared.actors.Actor.{Actor as AnActor};
ghost use Rattle.acc_message.specs.declared.item.Item.{Item};
ghost use Rattle.acc_message.specs.declared.message.Message.{Message as AMessage};
ghost use Rattle.acc_message.specs.Items.{message_at};
ghost use Rattle.acc_message_code.specs.Short.{IsShortMessage};
ghost use Rattle.acc_left.specs.Kept.{closed, fronts_after, TellPlaces};
ghost use Rattle.acc_left.specs.Leaves.{images_left};

use crate::actors::actors_of;
use crate::image::{Image, Images};
use crate::leaving::enter;
use crate::places::Places;
use acc_base::{Bytes, OutOfMemory, Sequence};
use acc_message::{Items, Shown};
use acc_schedule::Plan;
use acc_stamp::Actor;
use std::alloc::Global;

/// The journals that the actors of the plan have after these items, one for each actor.
///
/// They hold what the items journal, also where an item's messages are lost. Of a step that a fault stopped they hold
/// nothing.
pub fn leave(alloc: Global, plan: &Plan, items: &Items) -> Result<Images, OutOfMemory>
    requires short { (number : ℕ) (m : AMessage) → message_at (reverse items.now) number ≡ Some m → IsShortMessage m }
    ensures { IfOk result (λ images. images ≡ images_left plan.now (reverse items.now)) }
{
    let actors = actors_of(alloc, &plan.topology)?;
    let mut images = begun(alloc, actors.as_slice())?;
    let mut places = Places::new(alloc);
    for place in 0..items.len() {
        enter_item(images.as_mut_slice(), plan.version, items, &places, place)?;
        places.enter(items, place)?;
    }
    close(images.as_mut_slice())?;
    Ok(Sequence::from_vec(images))
}

// For each actor a journal without payloads, with no gate at its end.
fn begun(alloc: Global, actors: &[Actor]) -> Result<Vec<Image>, OutOfMemory>
    ensures { (version : ℕ) → IfOk result (λ images. images.items ≡ fronts_after version actors.now []) }
{
    let mut images = Vec::new(alloc);
    for actor in actors {
        let bytes = Bytes::from_slice(alloc, &[1])?;
        images.push(Image {
            actor: *actor,
            bytes,
        })?;
    }
    Ok(images)
}

// Puts what the item at this place journals into the journal of its actor.
fn enter_item(
    images: &mut [Image],
    version: u8,
    items: &Items,
    places: &Places,
    place: usize,
) -> Result<(), OutOfMemory>
    requires within { place < length items.now }
    requires short { (entered : List Item) (number : ℕ) (m : AMessage) → TellPlaces places.now items.now entered → message_at entered number ≡ Some m → IsShortMessage m }
    requires told { (entered : List Item) × TellPlaces places.now items.now entered }
    ensures { OnOk result ((entered : List Item) (item : Item) (actors : List AnActor) → TellPlaces places.now items.now entered → slice_get items.now place ≡ Some item
        → images.old ≡ fronts_after version actors entered → images.new ≡ fronts_after version actors (item ∷ entered)) }
{
    let Shown::Step {
        actor,
        event,
        notes,
        ..
    } = items.shown(place)
    else {
        return Ok(());
    };
    for image in images.iter_mut() {
        if image.actor == actor {
            enter(
                &mut image.bytes,
                version,
                items,
                places,
                actor,
                event,
                notes,
            )?;
        }
    }
    Ok(())
}

// Puts the gates at the ends of the journals.
fn close(images: &mut [Image]) -> Result<(), OutOfMemory>
    ensures { OnOk result (images.new ≡ map closed images.old) }
{
    for image in images.iter_mut() {
        image.bytes.push(0)?;
    }
    Ok(())
}
