//! Reads a document with the journals of an earlier run.
ghost use Rattle.std.specs.Prelude.{List, IfOk, IfErr};
ghost use Rattle.serde_json.specs.View.{view};
ghost use Rattle.acc_schedule.specs.declared.error.PlanError.{PlanError};
ghost use Rattle.acc_schedule.specs.Content.{Content};
ghost use Rattle.acc_schedule.specs.Document.{IsRefused};
ghost use Rattle.acc_schedule.specs.Plan.{IsPlan};
ghost use Rattle.acc_left.specs.declared.image.Image.{Image};
ghost use Rattle.acc_left.specs.Leaves.{DoRise};
ghost use Rattle.acc_left.specs.Reading.{GivesLeft, IsLeftCause, IsReadLeft, MeansLeft};

use crate::image::Images;
use crate::members::{JOURNALS, images_in, in_turn, journals_of};
use crate::rules::test_all;
use acc_schedule::{Plan, PlanError, read_json, read_value};
use serde_json::Value;
use std::alloc::Global;

/// The plan that a document says, and the journals in its field `journals`, an object from actors, as they print, to
/// hexadecimal digits. An actor that it doesn't name has no journal there.
///
/// A document that breaks a rule is refused with the first that it breaks. Bytes that aren't JSON are `Json` at `-`. A
/// root that is no object, or without the field, is `Shape` at `-`, and a field that is no object `Shape` at
/// `/journals`. Then come the rules of a document, as if the field weren't there. A name that is no actor's is `Name`,
/// and what isn't an even number of the digits 0 to 9 and a to f is `Shape`, both at `/journals/NAME`. Of the journals
/// themselves the kind is `Journal` and the path `/journals/ACTOR`; those of nodes are tested first. The detail is 1
/// where the first byte isn't the version of journals, and the place is that byte; 2 where the bytes are cut, and the
/// place is where they are; and 3 where a payload breaks a rule, and the place is that of the gate in front of it.
#[tactic(auto, using(crate::proofs::ReadFacts::given_left, crate::proofs::ReadFacts::given_refuses))]
pub fn read_left(alloc: Global, bytes: &[u8]) -> Result<(Plan, Images), PlanError>
    // What is answered, and what the answer says of the bytes.
    ensures accepted { IfOk result (λ left. MeansLeft bytes.now left.0 left.1) }
    ensures sound { IfOk result (λ left. IsPlan left.0) }
    ensures rise { IfOk result (λ left. DoRise left.1) }
    ensures refused { IfErr result (IsLeftCause bytes.now) }

    // What all bytes give, unless memory runs out.
    ensures read { (plan : Content) (images : List Image) → MeansLeft bytes.now plan images → IsReadLeft plan images result }
    ensures refuses { (error : PlanError) → IsLeftCause bytes.now error → IsRefused error result }
{
    let root = read_json(alloc, bytes)?;
    left_in(alloc, &root)
}

// The plan and the journals that the JSON of a document says.
#[tactic(auto, using(crate::proofs::ReadFacts::journals_fail, crate::proofs::ReadFacts::document_fails, crate::proofs::ReadFacts::members_fail, crate::proofs::ReadFacts::journal_fails))]
fn left_in(alloc: Global, root: &Value) -> Result<(Plan, Images), PlanError>
    ensures gives { GivesLeft (view root.now) result }
    ensures sound { IfOk result (λ left. IsPlan left.0) }
    ensures rise { IfOk result (λ left. DoRise left.1) }
{
    let journals = journals_of(alloc, root)?;
    let plan = read_value(alloc, root, JOURNALS)?;
    let images = images_in(alloc, &plan.topology, journals)?;
    test_all(alloc, &plan, images.as_slice())?;
    let images = in_turn(alloc, &plan.topology, images.as_slice())?;
    Ok((plan, images))
}
