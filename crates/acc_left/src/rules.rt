//! The rules on all journals of a document.
ghost use Rattle.std.specs.Prelude.{◌≡◌, true, List};
ghost use Rattle.acc_message.specs.Run.{is_node};
ghost use Rattle.acc_left.specs.declared.image.Image.{Image as AnImage};
ghost use Rattle.acc_left.specs.Answers.{GivesDrawn, GivesNode, GivesStore, GivesTested};
ghost use Rattle.acc_left.specs.Leaves.{AreApart};
ghost use Rattle.acc_left.specs.Told.{TellDraws};

use crate::drawn::Drawn;
use crate::image::Image;
use crate::nodes::enter_node;
use crate::numbers::Numbers;
use crate::records::payloads_of;
use crate::refusal::{JournalFault, refusal, unreadable};
use crate::stores::store_fault;
use acc_schedule::{Plan, PlanError};
use std::alloc::Global;

/// Nothing, where no journal breaks a rule; else the refusal of the first that does. Those of nodes come before those
/// of stores, and else they come in their order.
pub(crate) fn test_all(alloc: Global, plan: &Plan, images: &[Image]) -> Result<(), PlanError>
    requires { AreApart images.now }
    ensures { GivesTested plan.now images.now result }
{
    let drawn = drawn_in(alloc, plan, images)?;
    let numbers = Numbers::of(alloc, drawn)?;
    for image in images {
        if image.actor.shard() != 0 {
            test_store(alloc, plan, image, &numbers)?;
        }
    }
    Ok(())
}

/// The draws in the journals of nodes; or the refusal of the first of these that breaks a rule.
pub(crate) fn drawn_in(alloc: Global, plan: &Plan, images: &[Image]) -> Result<Drawn, PlanError>
    requires { AreApart images.now }
    ensures { GivesDrawn plan.now images.now result }
{
    let mut drawn = Drawn::new(alloc);
    for image in images {
        if image.actor.shard() == 0 {
            test_node(alloc, plan, image, &mut drawn)?;
        }
    }
    Ok(drawn)
}

fn test_node(alloc: Global, plan: &Plan, image: &Image, drawn: &mut Drawn) -> Result<(), PlanError>
    requires { is_node image.now.actor ≡ true }
    ensures { GivesNode plan.now image.now drawn.old.draws drawn.new.draws result }
{
    let payloads = match payloads_of(alloc, image.bytes.as_slice()) {
        Ok(payloads) => payloads,
        Err(error) => return Err(unreadable(alloc, image.actor, error)),
    };
    match enter_node(alloc, plan, image.actor.node(), &payloads, drawn)? {
        Some(gate) => Err(refusal(alloc, image.actor, JournalFault::Payload(gate))),
        None => Ok(()),
    }
}

fn test_store(alloc: Global, plan: &Plan, image: &Image, drawn: &Numbers) -> Result<(), PlanError>
    ensures { (images : List AnImage) → TellDraws plan.now drawn.now.drawn.draws images → GivesStore plan.now images image.now result }
{
    let payloads = match payloads_of(alloc, image.bytes.as_slice()) {
        Ok(payloads) => payloads,
        Err(error) => return Err(unreadable(alloc, image.actor, error)),
    };
    match store_fault(alloc, plan, image.actor, &payloads, drawn)? {
        Some(gate) => Err(refusal(alloc, image.actor, JournalFault::Payload(gate))),
        None => Ok(()),
    }
}
