//! The transactions of a document.
ghost use Rattle.std.specs.Prelude.{◌≡◌, ◌<◌, ◌≤◌, [], ◌∷◌, ◌++◌, codes, length, map, option_map};
ghost use Rattle.std.specs.List.{list_all, AllByRecursion};
ghost use Rattle.serde_json.specs.View.{view};
ghost use Rattle.acc_topology.specs.Sets.{in_set};
ghost use Rattle.acc_txn.specs.Rules.{IsBody};
ghost use Rattle.acc_schedule.specs.Document.{txns, txns_with};
ghost use Rattle.acc_schedule.specs.Faults.{Gives};
ghost use Rattle.acc_schedule.specs.Fields.{field, items as items_of, list_fault};
ghost use Rattle.acc_schedule.specs.Paths.{field_path, part_path};
ghost use Rattle.acc_schedule.specs.Transactions.{bodies_of, body_fault, body_of, home_fault, home_of, homes_of, is_name as is_name_of, is_name_byte as is_name_byte_of, name_fault, name_of, names_of, transaction_fault, transactions_fault};

use crate::error::{PlanError, PlanKind};
use crate::fields::{field_text, into_elements, is_whole, list, node_in, object};
use crate::names::NameTable;
use crate::path::{Part, wrong};
use crate::plan::Bodies;
use crate::texts::body_in;
use acc_base::Sequence;
use acc_topology::NodeList;
use acc_topology::sets::{NodeSet, contains};
use acc_txn::Body;
use serde_json::Value;
use std::alloc::Global;

/// The most transactions.
const MOST_TRANSACTIONS: usize = 10_000;

/// The longest text of a transaction, in bytes.
const LONGEST_TEXT: usize = 8_192;

/// The transactions of a document, by their numbers.
#[derive(Drop)]
pub(crate) struct TransactionLists {
    pub(crate) names: NameTable,
    pub(crate) homes: NodeList,
    pub(crate) bodies: Bodies,
}

/// The transactions, each at one of the nodes. Those that stand apart from the root are let go one by one, as they are read.
pub(crate) fn transactions(
    alloc: Global,
    root: &Value,
    apart: Option<Value>,
    version: u8,
    nodes: NodeSet,
) -> Result<TransactionLists, PlanError>
    ensures { Gives (transactions_fault version (in_set nodes) (txns_with (view root.now) (option_map view apart)))
        (λ all. (all.names ≡ names_of (txns_with (view root.now) (option_map view apart))) × (all.homes ≡ homes_of (txns_with (view root.now) (option_map view apart))) × (all.bodies ≡ bodies_of version (txns_with (view root.now) (option_map view apart))) × AllByRecursion IsBody all.bodies) result }
{
    match apart {
        Some(txns) => read_apart(alloc, txns, version, nodes),
        None => read_in_place(alloc, root, version, nodes),
    }
}

// The transactions that the root has.
fn read_in_place(
    alloc: Global,
    root: &Value,
    version: u8,
    nodes: NodeSet,
) -> Result<TransactionLists, PlanError>
    ensures { Gives (transactions_fault version (in_set nodes) (txns (view root.now)))
        (λ all. (all.names ≡ names_of (txns (view root.now))) × (all.homes ≡ homes_of (txns (view root.now))) × (all.bodies ≡ bodies_of version (txns (view root.now))) × AllByRecursion IsBody all.bodies) result }
{
    let items = list(
        alloc,
        root,
        "txns",
        MOST_TRANSACTIONS,
        &[Part::Field("txns")],
    )?;
    let mut all = TransactionLists {
        names: NameTable::new(alloc),
        homes: Sequence::new(alloc),
        bodies: Sequence::new(alloc),
    };
    for (place, item) in items.iter().enumerate() {
        let (home, body) = transaction(alloc, item, place, version, nodes, &mut all.names)?;
        all.homes.push(home)?;
        all.bodies.push(body)?;
    }
    Ok(all)
}

// The transactions, each of which is let go once it is read.
fn read_apart(
    alloc: Global,
    txns: Value,
    version: u8,
    nodes: NodeSet,
) -> Result<TransactionLists, PlanError>
    ensures { Gives (transactions_fault version (in_set nodes) (view txns))
        (λ all. (all.names ≡ names_of (view txns)) × (all.homes ≡ homes_of (view txns)) × (all.bodies ≡ bodies_of version (view txns)) × AllByRecursion IsBody all.bodies) result }
{
    let items = items_in(alloc, txns)?;
    let mut all = TransactionLists {
        names: NameTable::new(alloc),
        homes: Sequence::new(alloc),
        bodies: Sequence::new(alloc),
    };
    let mut place = 0;
    for item in items {
        let (home, body) = transaction(alloc, &item, place, version, nodes, &mut all.names)?;
        all.homes.push(home)?;
        all.bodies.push(body)?;
        place += 1;
    }
    Ok(all)
}

// The elements of the list of transactions, of which there are not too many.
fn items_in(alloc: Global, txns: Value) -> Result<Vec<Value>, PlanError>
    ensures { Gives (list_fault 10000 (field_path (codes "txns")) (view txns))
        (λ list. (map view list.items ≡ items_of (view txns)) × (length list.items ≤ 10000)) result }
{
    let Some(items) = into_elements(txns) else {
        return Err(wrong(alloc, PlanKind::Shape, &[Part::Field("txns")]));
    };
    if items.len() > MOST_TRANSACTIONS {
        return Err(wrong(alloc, PlanKind::Limit, &[Part::Field("txns")]));
    }
    Ok(items)
}

// The home and the body of a transaction, whose name is added to those before it.
fn transaction(
    alloc: Global,
    item: &Value,
    place: usize,
    version: u8,
    nodes: NodeSet,
    names: &mut NameTable,
) -> Result<(u32, Body), PlanError>
    requires { length names.old < 10000 }
    ensures { Gives (transaction_fault version (in_set nodes) names.old place (view item.now))
        (λ one. (one.0 ≡ home_of (view item.now)) × (one.1 ≡ body_of version (view item.now)) × (names.new ≡ names.old ++ name_of (view item.now) ∷ []) × IsBody one.1) result }
{
    let path = [Part::Field("txns"), Part::Place(place)];
    object(alloc, item, &["name", "node", "text"], &[], &path)?;
    name(alloc, item, place, names)?;
    let home = home(alloc, item, place, nodes)?;
    let body = body(alloc, item, place, version)?;
    Ok((home, body))
}

// Adds the name, which is new.
fn name(alloc: Global, item: &Value, place: usize, names: &mut NameTable) -> Result<(), PlanError>
    requires { length names.old < 10000 }
    ensures { Gives (name_fault names.old (part_path (codes "txns") place (codes "name")) (field (codes "name") (view item.now)))
        (λ _. names.new ≡ names.old ++ name_of (view item.now) ∷ []) result }
{
    let path = [Part::Field("txns"), Part::Place(place), Part::Field("name")];
    let Some(name) = field_text(item, "name") else {
        return Err(wrong(alloc, PlanKind::Shape, &path));
    };
    if !is_name(name.as_bytes()) {
        return Err(wrong(alloc, PlanKind::Name, &path));
    }
    if !names.add(alloc, name.as_bytes())? {
        return Err(wrong(alloc, PlanKind::Name, &path));
    }
    Ok(())
}

// Whether the bytes are 1 to 16 small letters and digits, a letter first.
fn is_name(bytes: &[u8]) -> bool
    ensures { result ≡ is_name_of bytes.now }
{
    match bytes.split_first() {
        Some((first, others)) => {
            first.is_ascii_lowercase() && others.len() <= 15 && are_name_bytes(others)
        }
        None => false,
    }
}

fn are_name_bytes(bytes: &[u8]) -> bool
    ensures { result ≡ list_all is_name_byte_of bytes.now }
{
    bytes
        .iter()
        .all(|byte| byte.is_ascii_lowercase() || byte.is_ascii_digit())
}

fn home(alloc: Global, item: &Value, place: usize, nodes: NodeSet) -> Result<u32, PlanError>
    ensures { Gives (home_fault (in_set nodes) (part_path (codes "txns") place (codes "node")) (field (codes "node") (view item.now)))
        (λ home. home ≡ home_of (view item.now)) result }
{
    let path = [Part::Field("txns"), Part::Place(place), Part::Field("node")];
    let Some(value) = item.get("node") else {
        return Err(wrong(alloc, PlanKind::Shape, &path));
    };
    if !is_whole(value) {
        return Err(wrong(alloc, PlanKind::Shape, &path));
    }
    match node_in(nodes, value) {
        Some(node) => Ok(node),
        None => Err(wrong(alloc, PlanKind::Name, &path)),
    }
}

fn body(alloc: Global, item: &Value, place: usize, version: u8) -> Result<Body, PlanError>
    ensures { Gives (body_fault version (part_path (codes "txns") place (codes "text")) (field (codes "text") (view item.now)))
        (λ body. (body ≡ body_of version (view item.now)) × IsBody body) result }
{
    let path = [Part::Field("txns"), Part::Place(place), Part::Field("text")];
    let Some(text) = field_text(item, "text") else {
        return Err(wrong(alloc, PlanKind::Shape, &path));
    };
    if text.len() > LONGEST_TEXT {
        return Err(wrong(alloc, PlanKind::Limit, &path));
    }
    body_in(alloc, version, text, &path)
}
