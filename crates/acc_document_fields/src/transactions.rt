//! A version, and the name and the text of a transaction.
ghost use Rattle.std.specs.Prelude.{◌≡◌, [], ◌∷◌, ◌++◌, codes, OnErr};
ghost use Rattle.std.specs.List.{list_all};
ghost use Rattle.serde_json.specs.View.{view};
ghost use Rattle.acc_txn.specs.Rules.{IsBody};
ghost use Rattle.acc_schedule.specs.Document.{version_fault};
ghost use Rattle.acc_schedule.specs.Faults.{Gives};
ghost use Rattle.acc_schedule.specs.Fields.{field, number as number_of};
ghost use Rattle.acc_schedule.specs.Paths.{part_path};
ghost use Rattle.acc_schedule.specs.Transactions.{body_fault, body_of, is_name as is_name_of, is_name_byte as is_name_byte_of, name_fault, name_of};

use crate::fields::field_text;
use crate::names::NameTable;
use crate::path::{Part, wrong};
use crate::texts::body_in;
use acc_schedule::{PlanError, PlanKind};
use acc_txn::Body;
use serde_json::Value;
use std::alloc::Global;

/// The longest text of a transaction, in bytes.
const LONGEST_TEXT: usize = 8_192;

/// The version that a document names, 1 or 2.
pub fn version(alloc: Global, root: &Value) -> Result<u8, PlanError>
    ensures { Gives (version_fault (field (codes "version") (view root.now)))
        (λ version. version ≡ number_of (field (codes "version") (view root.now))) result }
{
    match root.get("version") {
        Some(version) => version_in(alloc, version),
        None => Err(wrong(alloc, PlanKind::Shape, &[Part::Field("version")])),
    }
}

fn version_in(alloc: Global, version: &Value) -> Result<u8, PlanError>
    ensures { Gives (version_fault (view version.now)) (λ number. number ≡ number_of (view version.now)) result }
{
    match version.as_u64() {
        Some(number @ 1..=2) => Ok(number as u8),
        _ => Err(wrong(alloc, PlanKind::Shape, &[Part::Field("version")])),
    }
}

/// Adds the name of the transaction at this place, which has to be new. At a fault the names are as before.
pub fn name(
    alloc: Global,
    item: &Value,
    place: usize,
    names: &mut NameTable,
) -> Result<(), PlanError>
    ensures name { Gives (name_fault names.old (part_path (codes "txns") place (codes "name")) (field (codes "name") (view item.now)))
        (λ _. names.new ≡ names.old ++ name_of (view item.now) ∷ []) result }
    ensures err { OnErr result (names.new ≡ names.old) }
{
    let path = [Part::Field("txns"), Part::Place(place), Part::Field("name")];
    let Some(name) = field_text(item, "name") else {
        return Err(wrong(alloc, PlanKind::Shape, &path));
    };
    if !is_name(name.as_bytes()) {
        return Err(wrong(alloc, PlanKind::Name, &path));
    }
    if !names.add(alloc, name.as_bytes())? {
        return Err(wrong(alloc, PlanKind::Name, &path));
    }
    Ok(())
}

// Whether the bytes are 1 to 16 small letters and digits, a letter first.
fn is_name(bytes: &[u8]) -> bool
    ensures { result ≡ is_name_of bytes.now }
{
    match bytes.split_first() {
        Some((first, others)) => {
            first.is_ascii_lowercase() && others.len() <= 15 && are_name_bytes(others)
        }
        None => false,
    }
}

fn are_name_bytes(bytes: &[u8]) -> bool
    ensures { result ≡ list_all is_name_byte_of bytes.now }
{
    bytes
        .iter()
        .all(|byte| byte.is_ascii_lowercase() || byte.is_ascii_digit())
}

/// The body that the text of the transaction at this place says.
pub fn body(alloc: Global, item: &Value, place: usize, version: u8) -> Result<Body, PlanError>
    ensures { Gives (body_fault version (part_path (codes "txns") place (codes "text")) (field (codes "text") (view item.now)))
        (λ body. (body ≡ body_of version (view item.now)) × IsBody body) result }
{
    let path = [Part::Field("txns"), Part::Place(place), Part::Field("text")];
    let Some(text) = field_text(item, "text") else {
        return Err(wrong(alloc, PlanKind::Shape, &path));
    };
    if text.len() > LONGEST_TEXT {
        return Err(wrong(alloc, PlanKind::Limit, &path));
    }
    body_in(alloc, version, text, &path)
}
