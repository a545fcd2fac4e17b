//! Reads a document with looks.
ghost use Rattle.std.specs.Prelude.{◌≡◌, ℕ, ◌≤◌, List, map, IfOk, IfErr};
ghost use Rattle.serde_json.specs.View.{view};
ghost use Rattle.acc_base.specs.Faults.{each};
ghost use Rattle.acc_schedule.specs.declared.error.PlanError.{PlanError};
ghost use Rattle.acc_schedule.specs.Content.{Content};
ghost use Rattle.acc_schedule.specs.Document.{IsRefused};
ghost use Rattle.acc_schedule.specs.Faults.{Gives};
ghost use Rattle.acc_schedule.specs.Fields.{field, items as items_of};
ghost use Rattle.acc_schedule.specs.Plan.{IsPlan};
ghost use Rattle.acc_glance.specs.declared.looks.Look.{Look as ALook};
ghost use Rattle.acc_glance.specs.Documents.{glances, key_fault, key_of, listed_fault, look_fault, look_of, looks_document_fault, looks_in as looks_said, plan_in, table_fault, table_of, AreInTime, AreReadLooks, IsLooksCause, MeansLooks};

use acc_base::{InlineText, Sequence};
use acc_document_fields::{Part, list, number, object, text, wrong};
use acc_schedule::{Plan, PlanError, PlanKind, read_json, read_value};
use acc_txn::{is_free_key_text, is_free_word};
use acc_value::Key;
use serde_json::Value;
use std::alloc::Global;

/// The most looks of a document.
const MOST_LOOKS: usize = 1_000;

/// A look at a key.
#[derive(Debug, Drop)]
pub struct Look {
    /// It begins in the moment before the step with this number, and with the number of all steps in the first moment after the last one.
    pub at: u32,
    pub key: Key,
}

/// Looks, in the order of their document.
pub type Looks = Sequence<Look>;

/// The plan and the looks that a document says: that of a run, with one more field `glances`, an array of objects with `at`, `table` and
/// `key`.
///
/// A document that breaks a rule is refused with the first that it breaks: it has the field, an array of at most 1,000; without the field it
/// is a document of a run; and then each look in turn has just its fields, an `at` from 0 to the number of steps, the name of a table in
/// small letters, and a key of 1 to 64 bytes.
pub fn read_looks(alloc: Global, bytes: &[u8]) -> Result<(Plan, Looks), PlanError>
    // What is answered, and what the answer says of the bytes.
    ensures accepted { IfOk result (λ said. MeansLooks bytes.now said.0 said.1) }
    ensures sound { IfOk result (λ said. IsPlan said.0) }
    ensures in_time { IfOk result (λ said. AreInTime said.0 said.1) }
    ensures refused { IfErr result (IsLooksCause bytes.now) }

    // What all bytes give, unless memory runs out.
    ensures read { (plan : Content) (looks : List ALook) → MeansLooks bytes.now plan looks → AreReadLooks plan looks result }
    ensures refuses { (error : PlanError) → IsLooksCause bytes.now error → IsRefused error result }
{
    let root = read_json(alloc, bytes)?;
    said_in(alloc, &root)
}

// What the JSON of a document says.
fn said_in(alloc: Global, root: &Value) -> Result<(Plan, Looks), PlanError>
    ensures says { Gives (looks_document_fault (view root.now)) (λ said. (said.0 ≡ plan_in (view root.now)) × (said.1 ≡ looks_said (view root.now))) result }
    ensures sound { IfOk result (λ said. IsPlan said.0) }
{
    let items = listed(alloc, root)?;
    let plan = read_value(alloc, root, "glances")?;
    let looks = looks_in(alloc, items, plan.steps.len() as u64)?;
    Ok((plan, looks))
}

// The looks of a document, as JSON.
fn listed<'v>(alloc: Global, root: &'v Value) -> Result<&'v [Value], PlanError>
    ensures { Gives (listed_fault (view root.now)) (λ list. map view list.now ≡ items_of (field glances (view root.now))) result }
{
    if root.get("glances").is_none() {
        return Err(wrong(alloc, PlanKind::Shape, &[]));
    }
    list(
        alloc,
        root,
        "glances",
        MOST_LOOKS,
        &[Part::Field("glances")],
    )
}

fn looks_in(alloc: Global, items: &[Value], steps: u64) -> Result<Looks, PlanError>
    requires { steps ≤ 200000 }
    ensures { Gives (each (look_fault steps) 0 (map view items.now)) (λ looks. looks ≡ map look_of (map view items.now)) result }
{
    let mut looks = Sequence::new(alloc);
    for (place, item) in items.iter().enumerate() {
        let look = look_in(alloc, item, place, steps)?;
        looks.push(look)?;
    }
    Ok(looks)
}

// The look at this place, where there are so many steps.
fn look_in(alloc: Global, item: &Value, place: usize, steps: u64) -> Result<Look, PlanError>
    requires { steps ≤ 200000 }
    ensures { Gives (look_fault steps place (view item.now)) (λ look. look ≡ look_of (view item.now)) result }
{
    let path = [Part::Field("glances"), Part::Place(place)];
    object(alloc, item, &["at", "table", "key"], &[], &path)?;
    let path = [
        Part::Field("glances"),
        Part::Place(place),
        Part::Field("at"),
    ];
    let at = number(alloc, item, "at", 0, steps, &path)?;
    let table = table(alloc, item, place)?;
    let key = key(alloc, item, place)?;
    Ok(Look {
        at: at as u32,
        key: Key { table, key },
    })
}

// The table of the look at this place.
fn table(alloc: Global, item: &Value, place: usize) -> Result<InlineText, PlanError>
    ensures { Gives (table_fault place (view item.now)) (λ table. table ≡ table_of (view item.now)) result }
{
    let path = [
        Part::Field("glances"),
        Part::Place(place),
        Part::Field("table"),
    ];
    let table = text(alloc, item, "table", &path)?;
    if !is_free_word(table.as_bytes()) {
        return Err(wrong(alloc, PlanKind::Shape, &path));
    }
    Ok(InlineText::from_slice(alloc, table.as_bytes())?)
}

// The text of the key of the look at this place.
fn key(alloc: Global, item: &Value, place: usize) -> Result<InlineText, PlanError>
    ensures { Gives (key_fault place (view item.now)) (λ key. key ≡ key_of (view item.now)) result }
{
    let path = [
        Part::Field("glances"),
        Part::Place(place),
        Part::Field("key"),
    ];
    let key = text(alloc, item, "key", &path)?;
    if !is_free_key_text(key.as_bytes()) {
        return Err(wrong(alloc, PlanKind::Limit, &path));
    }
    Ok(InlineText::from_slice(alloc, key.as_bytes())?)
}
