//! Looking into JSON values, and the rules on one value.
ghost use Rattle.std.specs.Prelude.{◌≡◌, ◌==◌, ◌≤◌, ◌&&◌, ◌||◌, find, is_some, length, map, not, option_map, zip};
ghost use Rattle.std.specs.List.{list_all};
ghost use Rattle.std.specs.Str.{bytes_eq};
ghost use Rattle.std.specs.BTreeMap.{keys};
ghost use Rattle.std.specs.Prelude.{string_bytes};
ghost use Rattle.serde_json.specs.Find.{as_str, get};
ghost use Rattle.serde_json.specs.View.{view};
ghost use Rattle.acc_schedule.specs.Parts.{is_among};
ghost use Rattle.acc_document_fields.specs.Parts.{part_text};
ghost use Rattle.acc_base.specs.Faults.{must};
ghost use Rattle.acc_schedule.specs.declared.error.PlanKind.TheVariants.{Shape};
ghost use Rattle.acc_schedule.specs.Faults.{bad, Gives};
ghost use Rattle.acc_schedule.specs.Fields.{elements, field, is_text, is_whole as is_whole_of, items, list_fault, number as number_of, number_fault, object_fault, text as text_of};

use crate::path::{Part, unknown, wrong};
use acc_schedule::{PlanError, PlanKind};
use serde_json::{Map, Value};
use std::alloc::Global;

/// The elements of an array.
pub fn elements(value: &Value) -> Option<&[Value]>
    ensures { option_map (λ items. map view items.now) result ≡ elements (view value.now) }
{
    Some(value.as_array()?.as_slice())
}

/// The elements of an array that is given away.
pub fn into_elements(value: Value) -> Option<Vec<Value>>
    ensures { option_map (λ items. map view items.items) result ≡ elements (view value) }
{
    match value {
        Value::Array(items) => Some(items),
        _ => None,
    }
}

/// The elements of a field that is an array.
pub fn field_elements<'v>(object: &'v Value, name: &str) -> Option<&'v [Value]>
    ensures { option_map (λ items. map view items.now) result
        ≡ elements (field name.now (view object.now)) }
{
    elements(object.get(name)?)
}

/// Whether it is a whole number.
pub fn is_whole(value: &Value) -> bool
    ensures { result ≡ is_whole_of (view value.now) }
{
    value.is_u64() || value.is_i64()
}

/// The text of a field.
pub fn field_text<'v>(object: &'v Value, name: &str) -> Option<&'v str>
    ensures { option_map (λ text. text.now) result ≡ as_str (field name.now (view object.now)) }
{
    object.get(name)?.as_str()
}

/// The value of a field that is a text. The path is that of the field.
pub fn text<'v>(
    alloc: Global,
    object: &'v Value,
    name: &str,
    path: &[Part<'_>],
) -> Result<&'v str, PlanError>
    ensures { Gives (must (is_text (field name.now (view object.now))) (bad Shape (map part_text path.now)))
        (λ text. text.now ≡ text_of (field name.now (view object.now))) result }
{
    match field_text(object, name) {
        Some(text) => Ok(text),
        None => Err(wrong(alloc, PlanKind::Shape, path)),
    }
}

/// The elements of a field that is an array, of which there are at most so many. The path is that of the field.
pub fn list<'v>(
    alloc: Global,
    object: &'v Value,
    name: &str,
    most: usize,
    path: &[Part<'_>],
) -> Result<&'v [Value], PlanError>
    ensures { Gives (list_fault most (map part_text path.now) (field name.now (view object.now)))
        (λ list. (map view list.now ≡ items (field name.now (view object.now))) × (length list.now ≤ most)) result }
{
    let Some(list) = field_elements(object, name) else {
        return Err(wrong(alloc, PlanKind::Shape, path));
    };
    if list.len() > most {
        return Err(wrong(alloc, PlanKind::Limit, path));
    }
    Ok(list)
}

/// The value of a field that is a whole number within its limits. The path is that of the field.
pub fn number(
    alloc: Global,
    object: &Value,
    name: &str,
    least: u64,
    most: u64,
    path: &[Part<'_>],
) -> Result<u64, PlanError>
    ensures { Gives (number_fault least most (map part_text path.now) (field name.now (view object.now)))
        (λ number. (number ≡ number_of (field name.now (view object.now))) × (least ≤ number) × (number ≤ most)) result }
{
    match object.get(name) {
        Some(value) => number_in(alloc, value, least, most, path),
        None => Err(wrong(alloc, PlanKind::Shape, path)),
    }
}

/// The whole number at the path, which lies within its limits.
pub fn number_in(
    alloc: Global,
    value: &Value,
    least: u64,
    most: u64,
    path: &[Part<'_>],
) -> Result<u64, PlanError>
    ensures { Gives (number_fault least most (map part_text path.now) (view value.now))
        (λ number. (number ≡ number_of (view value.now)) × (least ≤ number) × (number ≤ most)) result }
{
    if !is_whole(value) {
        return Err(wrong(alloc, PlanKind::Shape, path));
    }
    match value.as_u64() {
        Some(number) if least <= number && number <= most => Ok(number),
        _ => Err(wrong(alloc, PlanKind::Limit, path)),
    }
}

/// Nothing, where the value at the path is an object that has each of the needed fields, and no others than these and
/// the optional ones.
pub fn object(
    alloc: Global,
    value: &Value,
    needed: &[&str],
    optional: &[&str],
    path: &[Part<'_>],
) -> Result<(), PlanError>
    ensures { Gives (object_fault (map (λ name. name.now) needed.now) (map (λ name. name.now) optional.now) (map part_text path.now) (view value.now))
        (λ _. Unit {0}) result }
{
    let Some(members) = value.as_object() else {
        return Err(wrong(alloc, PlanKind::Shape, path));
    };
    if are_named(members, needed) {
        return Ok(());
    }
    if !has_each(value, needed) {
        return Err(wrong(alloc, PlanKind::Shape, path));
    }
    match other_field(members, needed, optional) {
        Some(name) => Err(unknown(alloc, path, name)),
        None => Ok(()),
    }
}

// Whether the fields are these and no others, in the order of their names.
fn are_named(members: &Map<String, Value>, names: &[&str]) -> bool
    ensures { result ≡ (length (keys members.now) == length names.now && list_all (λ pair. bytes_eq (string_bytes pair.0) pair.1.now) (zip (keys members.now) names.now)) }
{
    members.len() == names.len() && begin_alike(members, names)
}

// Whether each field has the name at its place, up to where one of the two ends.
fn begin_alike(members: &Map<String, Value>, names: &[&str]) -> bool
    ensures { result ≡ list_all (λ pair. bytes_eq (string_bytes pair.0) pair.1.now) (zip (keys members.now) names.now) }
{
    members
        .keys()
        .zip(names)
        .all(|(key, name)| key.as_str() == *name)
}

fn has_each(value: &Value, names: &[&str]) -> bool
    ensures { result ≡ list_all (λ name. is_some (get name.now (view value.now))) names.now }
{
    names.iter().all(|name| value.get(*name).is_some())
}

// The first field that is neither needed nor optional.
fn other_field<'v>(
    members: &'v Map<String, Value>,
    needed: &[&str],
    optional: &[&str],
) -> Option<&'v str>
    ensures { option_map (λ name. name.now) result
        ≡ option_map string_bytes (find (λ key. not (is_among (string_bytes key) needed.now || is_among (string_bytes key) optional.now)) (keys members.now)) }
{
    match members.keys().find(|key| !(is_among(key.as_str(), needed)
        || is_among(key.as_str(), optional)))
    {
        Some(key) => Some(key.as_str()),
        None => None,
    }
}

// Whether a name is one of these.
fn is_among(key: &str, names: &[&str]) -> bool
    ensures { result ≡ is_among key.now names.now }
{
    names.iter().any(|name| key == *name)
}
