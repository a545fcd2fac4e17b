//! Reads a whole document.
ghost use Rattle.std.specs.Prelude.{◌≡◌, None, Option, codes, map, option_map, IfOk, IfErr};
ghost use Rattle.serde_json.specs.Data.{Data};
ghost use Rattle.serde_json.specs.Find.{get};
ghost use Rattle.serde_json.specs.View.{view};
ghost use Rattle.acc_schedule.specs.Document.{base_fault, document_fault, fields_fault, layout_of, needed_fields, nodes as nodes_data, plan_in as plan_said, plan_of, print_fault, print_of, printed, root_fault, root_of, root_with, version_fault, IsCause, IsRead, IsRefused, IsUnread, Means, Reads};
ghost use Rattle.acc_schedule.specs.declared.error.PlanError.{PlanError};
ghost use Rattle.acc_schedule.specs.Content.{Content};
ghost use Rattle.acc_schedule.specs.Faults.{Gives, IsOfRule};
ghost use Rattle.acc_schedule.specs.Apart.{without};
ghost use Rattle.acc_schedule.specs.Fields.{field, number as number_of};
ghost use Rattle.acc_schedule.specs.Nodes.{nodes_of};
ghost use Rattle.acc_schedule.specs.Plan.{IsPlan};
ghost use Rattle.acc_schedule.specs.Seen.{seen_value};

use crate::cluster::cluster;
use crate::error::{PlanError, PlanKind};
use crate::fields::{is_among, object};
use crate::nodes::nodes;
use crate::path::{Part, wrong};
use crate::plan::{Plan, Print, Starts};
use crate::schedule::schedule;
use crate::shards::shards;
use crate::transactions::{TransactionLists, transactions};
use acc_topology::Topology;
use serde_json::Value;
use std::alloc::Global;

/// The plan that a document says.
///
/// A document that breaks a rule is refused with the first that it breaks, in the order of `docs/FORMATS.md`. This is
/// `read_json` and then `read_plan`.
#[tactic(auto, using(crate::proofs::AnswerFacts::given_read, crate::proofs::AnswerFacts::given_refuses))]
pub fn read(alloc: Global, bytes: &[u8]) -> Result<Plan, PlanError>
    // What is answered, and what the answer says of the document.
    ensures accepted { IfOk result (Means bytes.now) }
    ensures sound { IfOk result IsPlan }
    ensures refused { IfErr result (IsCause bytes.now) }
    ensures built { IfErr result IsOfRule }

    // What each document gives, unless memory runs out.
    ensures read { (plan : Content) → Means bytes.now plan → IsRead plan result }
    ensures refuses { (error : PlanError) → IsCause bytes.now error → IsRefused error result }
{
    let root = read_json(alloc, bytes)?;
    read_whole(alloc, root)
}

// The plan that the JSON of a document says. Each transaction's JSON is let go once it is read.
fn read_whole(alloc: Global, root: Value) -> Result<Plan, PlanError>
    ensures plan { Gives (document_fault (view root)) (λ plan. plan ≡ plan_of (view root)) result }
    ensures sound { IfOk result IsPlan }
    ensures built { IfErr result IsOfRule }
{
    object(alloc, &root, &needed(), &["print"], &[])?;
    let (others, txns) = set_apart(root);
    plan_in(alloc, &others, txns, others.get("print"))
}

// The root without its transactions, and these.
fn set_apart(root: Value) -> (Value, Option<Value>)
    ensures root { (print : Option Data) → root_with (view result.0) (option_map view result.1) print ≡ root_of (view root) print }
    ensures print { get (codes "print") (view result.0) ≡ get (codes "print") (view root) }
{
    match root {
        Value::Object(mut fields) => {
            let txns = fields.remove("txns");
            (Value::Object(fields), txns)
        }
        other => (other, None),
    }
}

/// The JSON of a document.
///
/// Bytes that aren't JSON, which are those that aren't UTF-8, that JSON's grammar doesn't allow, or that nest more than 127
/// levels deep, are refused as `Json`, with the path `-`.
pub fn read_json(alloc: Global, bytes: &[u8]) -> Result<Value, PlanError>
    ensures accepted { IfOk result (λ root. Reads bytes.now (view root)) }
    ensures refused { IfErr result (IsUnread bytes.now) }
    ensures built { IfErr result IsOfRule }
{
    match Value::from_slice(alloc, bytes) {
        Ok(root) => Ok(root),
        Err(error) if error.is_memory() => Err(PlanError::OutOfMemory),
        Err(_) => Err(wrong(alloc, PlanKind::Json, &[])),
    }
}

// The fields that the root must have.
fn needed() -> [&'static str; 5]
    ensures { map (λ name. name.now) result ≡ needed_fields }
{
    ["version", "nodes", "shards", "txns", "schedule"]
}

/// The plan that the JSON of a document says.
///
/// A document that breaks a rule is refused with the first that it breaks, in the order of `docs/FORMATS.md`.
pub fn read_plan(alloc: Global, root: &Value) -> Result<Plan, PlanError>
    ensures plan { Gives (document_fault (view root.now)) (λ plan. plan ≡ plan_of (view root.now)) result }
    ensures sound { IfOk result IsPlan }
    ensures built { IfErr result IsOfRule }
{
    object(alloc, root, &needed(), &["print"], &[])?;
    plan_in(alloc, root, None, root.get("print"))
}

/// The plan that the JSON of a document says, as if its root had no field of the name `apart`.
///
/// It is for documents with a field of another crate's: the rules are those of `read_plan`, in their order, and that field is
/// not unknown.
pub fn read_value(alloc: Global, root: &Value, apart: &str) -> Result<Plan, PlanError>
    ensures plan { Gives (document_fault (without apart.now (view root.now))) (λ plan. plan ≡ plan_of (without apart.now (view root.now))) result }
    ensures sound { IfOk result IsPlan }
    ensures built { IfErr result IsOfRule }
{
    object_without(alloc, root, apart)?;
    plan_in(alloc, root, None, print_without(root, apart))
}

// What the root without the field says of printing.
fn print_without<'v>(root: &'v Value, apart: &str) -> Option<&'v Value>
    ensures { seen_value result ≡ get (codes "print") (without apart.now (view root.now)) }
{
    if apart == "print" {
        None
    } else {
        root.get("print")
    }
}

// Nothing, where the root without the field has the fields that it must have, and no unknown one.
fn object_without(alloc: Global, root: &Value, apart: &str) -> Result<(), PlanError>
    ensures { Gives (root_fault (without apart.now (view root.now))) (λ _. Unit {0}) result }
{
    if is_among(apart, &needed()) {
        return Err(wrong(alloc, PlanKind::Shape, &[]));
    }
    object(alloc, root, &needed(), &["print", apart], &[])
}

// The plan that the fields of the root say, with the transactions that stand apart from it, if they do, and with what is
// printed.
fn plan_in(
    alloc: Global,
    root: &Value,
    apart: Option<Value>,
    print: Option<&Value>,
) -> Result<Plan, PlanError>
    ensures plan { Gives (fields_fault (root_with (view root.now) (option_map view apart) (seen_value print.entry)))
        (λ plan. plan ≡ plan_said (root_with (view root.now) (option_map view apart) (seen_value print.entry))) result }
    ensures sound { IfOk result IsPlan }
{
    let version = version(alloc, root)?;
    let (starts, topology) = base(alloc, root)?;
    let TransactionLists {
        names,
        homes,
        bodies,
    } = transactions(alloc, root, apart, version, topology.nodes())?;
    let steps = schedule(alloc, root, &names, &topology)?;
    let print = print_in(alloc, print)?;
    Ok(Plan {
        version,
        topology,
        starts,
        names: names.into_names(alloc)?,
        homes,
        bodies,
        steps,
        print,
    })
}

fn version(alloc: Global, root: &Value) -> Result<u8, PlanError>
    ensures { Gives (version_fault (field (codes "version") (view root.now)))
        (λ version. version ≡ number_of (field (codes "version") (view root.now))) result }
{
    match root.get("version") {
        Some(version) => version_in(alloc, version),
        None => Err(wrong(alloc, PlanKind::Shape, &[Part::Field("version")])),
    }
}

fn version_in(alloc: Global, version: &Value) -> Result<u8, PlanError>
    ensures { Gives (version_fault (view version.now)) (λ number. number ≡ number_of (view version.now)) result }
{
    match version.as_u64() {
        Some(number @ 1..=2) => Ok(number as u8),
        _ => Err(wrong(alloc, PlanKind::Shape, &[Part::Field("version")])),
    }
}

// The nodes, and the cluster that they make with the shards.
fn base(alloc: Global, root: &Value) -> Result<(Starts, Topology), PlanError>
    ensures { Gives (base_fault (root_of (view root.now) None))
        (λ base. (base.0 ≡ nodes_of (nodes_data (view root.now))) × (base.1 ≡ layout_of (root_of (view root.now) None))) result }
{
    let starts = nodes(alloc, root)?;
    let shards = shards(alloc, root)?;
    let topology = cluster(alloc, starts.as_slice(), shards.as_slice())?;
    Ok((starts, topology))
}

// What is printed; lines where nothing is said.
fn print_in(alloc: Global, print: Option<&Value>) -> Result<Print, PlanError>
    ensures { Gives (print_fault (printed (seen_value print.entry)))
        (λ said. said ≡ print_of (printed (seen_value print.entry))) result }
{
    let Some(print) = print else {
        return Ok(Print::Lines);
    };
    match print.as_str() {
        Some("lines") => Ok(Print::Lines),
        Some("summary") => Ok(Print::Summary),
        _ => Err(wrong(alloc, PlanKind::Shape, &[Part::Field("print")])),
    }
}
