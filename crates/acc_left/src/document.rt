//! A document with the journals that its run left.
ghost use Rattle.std.specs.Prelude.{◌≡◌, IfOk};
ghost use Rattle.serde_json.specs.View.{view, members_view};
ghost use Rattle.acc_left.specs.Documents.{journal_members, left_data, without_steps as emptied, IsLine};

use crate::actors::actor_text;
use crate::digits::digits_of;
use crate::image::{Image, Images};
use acc_base::{Bytes, OutOfMemory};
use serde_json::{Map, Value};
use std::alloc::Global;

/// The text of a document with an empty schedule and with these journals in its field `journals`: compact JSON, the
/// fields of each object in the order of their bytes, and one line feed. All other fields are as in `root`, which is
/// an object.
///
/// The text may be longer than a document may be.
pub fn left_document(alloc: Global, root: Value, images: &Images) -> Result<Bytes, OutOfMemory>
    ensures { IfOk result (IsLine (left_data (view root) images.now)) }
{
    let journals = journals_in(alloc, images.as_slice())?;
    let left = with_journals(alloc, root, journals)?;
    let mut line = left.to_vec(alloc)?;
    line.push(b'\n')?;
    Ok(Bytes::from_vec(line))
}

// The journals as an object.
fn journals_in(alloc: Global, images: &[Image]) -> Result<Map<String, Value>, OutOfMemory>
    ensures { IfOk result (λ members. members_view members.entries ≡ journal_members images.now) }
{
    let mut members = Map::new(alloc);
    for after in 0..images.len() {
        let image = &images[images.len() - 1 - after];
        let name = actor_text(alloc, image.actor)?;
        let digits = digits_of(alloc, image.bytes.as_slice())?;
        members.insert(name, Value::String(digits))?;
    }
    Ok(members)
}

// The root with these journals and with no step.
fn with_journals(
    alloc: Global,
    root: Value,
    journals: Map<String, Value>,
) -> Result<Value, OutOfMemory>
    ensures { IfOk result (λ left. view left ≡ emptied (view root) (members_view journals.entries)) }
{
    match root {
        Value::Object(mut fields) => {
            let schedule = String::from_str(alloc, "schedule")?;
            fields.insert(schedule, Value::Array(Vec::new(alloc)))?;
            let name = String::from_str(alloc, "journals")?;
            fields.insert(name, Value::Object(journals))?;
            Ok(Value::Object(fields))
        }
        other => Ok(other),
    }
}
