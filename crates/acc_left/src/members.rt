//! The field of a document that holds journals.
ghost use Rattle.std.specs.Prelude.{◌≡◌, ◌++◌, List, Some, filter, map, string_bytes, IfOk, OnOk};
ghost use Rattle.serde_json.specs.Data.{Data};
ghost use Rattle.serde_json.specs.Find.{as_object};
ghost use Rattle.serde_json.specs.View.{view, members_view};
ghost use Rattle.acc_base.specs.Faults.{must};
ghost use Rattle.acc_stamp.specs.declared.actors.Actor.{Actor as AnActor};
ghost use Rattle.acc_stamp.specs.Actor.{actor_eq};
ghost use Rattle.acc_schedule.specs.declared.error.PlanKind.TheVariants.{Name, Shape};
ghost use Rattle.acc_schedule.specs.Actors.{actor_named as named_among, actor_text as text_of_actor};
ghost use Rattle.acc_schedule.specs.Faults.{bad, fault, Gives, IsFault};
ghost use Rattle.acc_schedule.specs.Fields.{text};
ghost use Rattle.acc_schedule.specs.Paths.{escaped};
ghost use Rattle.acc_left.specs.declared.image.Image.{Image as AnImage};
ghost use Rattle.acc_left.specs.declared.members.NamedActor.{NamedActor as ANamedActor};
ghost use Rattle.acc_left.specs.Digits.{bytes_said};
ghost use Rattle.acc_left.specs.Leaves.{actors_rising, AreApart, DoRise};
ghost use Rattle.acc_topology.specs.Layout.{IsLayout};
ghost use Rattle.acc_left.specs.Reading.{image_said, in_turn as in_turn_of, is_image, journals as journals_in, journals_fault, member_path, members as members_in, members_fault};

use crate::actors::{actor_text, actors_of};
use crate::digits::{bytes_of, is_digits};
use crate::image::{Image, Images};
use acc_base::{Bytes, OutOfMemory, Sequence};
use acc_document_fields::{Part, unknown, wrong};
use acc_schedule::{PlanError, PlanKind};
use acc_stamp::Actor;
use acc_topology::Topology;
use serde_json::{Map, Value};
use std::alloc::Global;

/// The name of the field.
pub(crate) const JOURNALS: &str = "journals";

/// The journals of a document, by their names.
pub(crate) fn journals_of(alloc: Global, root: &Value) -> Result<&Map<String, Value>, PlanError>
    ensures { Gives (journals_fault (view root.now)) (λ journals. as_object (journals_in (view root.now)) ≡ Some (members_view journals.now.entries)) result }
{
    let Some(field) = root.get(JOURNALS) else {
        return Err(wrong(alloc, PlanKind::Shape, &[]));
    };
    match field.as_object() {
        Some(journals) => Ok(journals),
        None => Err(wrong(alloc, PlanKind::Shape, &[Part::Field(JOURNALS)])),
    }
}

/// An actor, and how it prints.
#[derive(Drop)]
struct NamedActor {
    actor: Actor,
    name: String,
}

// The actors of a cluster with their names, rising.
fn named(alloc: Global, topology: &Topology) -> Result<Vec<NamedActor>, OutOfMemory>
    ensures actors { IfOk result (λ all. map (λ (n : ANamedActor). n.actor) all.items ≡ actors_rising topology.now) }
    ensures names { IfOk result (λ all. map (λ (n : ANamedActor). string_bytes n.name) all.items ≡ map text_of_actor (actors_rising topology.now)) }
{
    let mut all = Vec::new(alloc);
    for actor in actors_of(alloc, topology)?.as_slice() {
        all.push(NamedActor {
            actor: *actor,
            name: actor_text(alloc, *actor)?,
        })?;
    }
    Ok(all)
}

// The actor of this name.
fn actor_named(all: &[NamedActor], name: &str) -> Option<Actor>
    ensures { (actors : List AnActor) → map (λ (n : ANamedActor). n.actor) all.now ≡ actors
        → map (λ (n : ANamedActor). string_bytes n.name) all.now ≡ map text_of_actor actors → result ≡ named_among actors name.now }
{
    for named in all {
        if name == named.name.as_str() {
            return Some(named.actor);
        }
    }
    None
}

/// The journals, in the order of their names.
pub(crate) fn images_in(
    alloc: Global,
    topology: &Topology,
    journals: &Map<String, Value>,
) -> Result<Images, PlanError>
    ensures { (d : Data) → as_object d ≡ Some (members_view journals.now.entries)
        → Gives (members_fault topology.now d) (λ images. (images ≡ map (image_said topology.now) (members_in d)) × AreApart images) result }
{
    let actors = named(alloc, topology)?;
    let mut images = Sequence::new(alloc);
    for (name, value) in journals {
        let Some(actor) = actor_named(&actors, name.as_str()) else {
            return Err(no_actor(alloc, name.as_str()));
        };
        let bytes = image_in(alloc, name.as_str(), value)?;
        images.push(Image { actor, bytes })?;
    }
    Ok(images)
}

// The journal that a value says.
fn image_in(alloc: Global, name: &str, value: &Value) -> Result<Bytes, PlanError>
    ensures { Gives (must (is_image (view value.now)) (bad Shape (member_path name.now))) (λ bytes. bytes ≡ bytes_said (text (view value.now))) result }
{
    match value.as_str() {
        Some(text) if is_digits(text) => Ok(bytes_of(alloc, text)?),
        _ => Err(wrong(
            alloc,
            PlanKind::Shape,
            &[Part::Field(JOURNALS), Part::Field(name)],
        )),
    }
}

// The fault that no actor has this name.
fn no_actor(alloc: Global, name: &str) -> PlanError
    ensures { IsFault (fault Name (member_path (escaped name.now))) result }
{
    match unknown(alloc, &[Part::Field(JOURNALS)], name) {
        PlanError::Bad { path, .. } => PlanError::Bad {
            kind: PlanKind::Name,
            path,
            detail: 0,
            at: 0,
        },
        PlanError::OutOfMemory => PlanError::OutOfMemory,
    }
}

/// The journals, in the order of the actors.
pub(crate) fn in_turn(
    alloc: Global,
    topology: &Topology,
    images: &[Image],
) -> Result<Images, OutOfMemory>
    ensures same { IfOk result (λ all. all ≡ in_turn_of topology.now images.now) }
    ensures rise { IsLayout topology.now → AreApart images.now → IfOk result DoRise }
{
    let mut all = Sequence::new(alloc);
    for actor in actors_of(alloc, topology)?.as_slice() {
        push_those_of(&mut all, *actor, images)?;
    }
    Ok(all)
}

// Appends the journals of an actor.
fn push_those_of(all: &mut Images, actor: Actor, images: &[Image]) -> Result<(), OutOfMemory>
    ensures { OnOk result (all.new ≡ all.old ++ filter (λ (image : AnImage). actor_eq image.actor actor) images.now) }
{
    for image in images {
        if image.actor == actor {
            all.push(image.copy()?)?;
        }
    }
    Ok(())
}
