//! Reads a case.
ghost use Rattle.std.specs.Prelude.{◌≡◌, ◌≤◌, ℕ, List, [], ◌∷◌, ◌++◌, codes, length, map, IfOk};
ghost use Rattle.serde_json.specs.View.{view};
ghost use Rattle.acc_txn.specs.declared.parts.BodyParts.{BodyParts};
ghost use Rattle.acc_report_line.specs.declared.line.Line.{Line};
ghost use Rattle.acc_schedule.specs.declared.error.PlanError.{PlanError};
ghost use Rattle.acc_schedule.specs.Document.{IsRefused};
ghost use Rattle.acc_schedule.specs.Faults.{Gives};
ghost use Rattle.acc_schedule.specs.Fields.{field, items, list_fault};
ghost use Rattle.acc_schedule.specs.Paths.{field_path};
ghost use Rattle.acc_schedule.specs.Transactions.{bodies_of, body_of, name_of, names_of};
ghost use Rattle.acc_audit.specs.Cases.{case_fault, report_of, transaction_fault, transactions_fault, txns, version_of, GivesCase, GivesLines, IsCauseIn, IsReadCase, SaysCase};

use acc_base::Sequence;
use acc_document_fields::{
    NameTable, Part, body, detailed, into_elements, name, object, text, version, wrong,
};
use acc_report_reader::{PlacedLines, ReportError, read_report};
use acc_schedule::{Bodies, PlanError, PlanKind};
use acc_txn::Body;
use serde_json::Value;
use std::alloc::Global;

/// The most transactions.
const MOST_TRANSACTIONS: usize = 10_000;

/// Transactions with names and bodies, and the lines of a report that is judged against them.
#[derive(Drop)]
pub struct Case<'r> {
    /// The names of the transactions.
    pub names: NameTable,
    /// What each transaction does, in the order of the names.
    pub bodies: Bodies,
    /// The lines of the report, whose names stand in its text.
    pub lines: PlacedLines<'r>,
}

/// The case that a JSON object says: `version`, `txns`, objects with a name and a text, and `report`, a text.
///
/// A case that breaks a rule is refused with the first that it breaks, in the order of `docs/AUDIT.md`. Of a report with a line
/// that has no form, the path of the fault is `/report`, its detail 1 and its place the number of that line, counted from 1.
///
/// The transactions are taken out of the object, and the data of each are let go once it is read.
pub fn read_case(alloc: Global, root: &mut Value) -> Result<Case<'_>, PlanError>
    // What is answered, and what the answer says of the data.
    ensures gives { GivesCase (view root.old) result }
    ensures as_many { IfOk result (λ said. length said.bodies ≡ length said.names) }

    // What all data give, unless memory runs out.
    ensures read { (names : List (List ℕ)) (bodies : List BodyParts) (lines : List Line) → SaysCase (view root.old) names bodies lines → IsReadCase names bodies lines result }
    ensures refuses { (error : PlanError) → IsCauseIn (view root.old) error → IsRefused error result }
{
    case_in(alloc, root)
}

#[tactic(auto, using(crate::proofs::CaseFacts::refused, crate::proofs::CaseFacts::unread))]
fn case_in(alloc: Global, root: &mut Value) -> Result<Case<'_>, PlanError>
    ensures { GivesCase (view root.old) result }
{
    let Parts {
        names,
        bodies,
        report,
    } = parts_in(alloc, root)?;
    let lines = lines_in(alloc, report)?;
    Ok(Case {
        names,
        bodies,
        lines,
    })
}

// What a case says before its report is read.
#[derive(Drop)]
struct Parts<'v> {
    names: NameTable,
    bodies: Bodies,
    report: &'v str,
}

// The transactions of a case, by their numbers.
#[derive(Drop)]
struct Transactions {
    names: NameTable,
    bodies: Bodies,
}

#[tactic(auto, using(crate::proofs::CaseFacts::transactions_fail, crate::proofs::CaseFacts::report_fails, crate::proofs::CaseFacts::keeps_all))]
fn parts_in(alloc: Global, root: &mut Value) -> Result<Parts<'_>, PlanError>
    ensures { Gives (case_fault (view root.old))
        (λ parts. (parts.names ≡ names_of (txns (view root.old))) × (parts.bodies ≡ bodies_of (version_of (view root.old)) (txns (view root.old)))
        × (parts.report.now ≡ report_of (view root.old))) result }
{
    object(alloc, root, &["report", "txns", "version"], &[], &[])?;
    let version = version(alloc, root)?;
    let txns = taken(root);
    let Transactions { names, bodies } = transactions_in(alloc, txns, version)?;
    let report = text(alloc, root, "report", &[Part::Field("report")])?;
    Ok(Parts {
        names,
        bodies,
        report,
    })
}

// The transactions, which are taken out of the root.
fn taken(root: &mut Value) -> Value
    ensures txns { view result ≡ txns (view root.old) }
    ensures report { field (codes "report") (view root.new) ≡ field (codes "report") (view root.old) }
{
    let (others, txns) = set_apart(root.take());
    *root = others;
    txns
}

// The root without its transactions, and these.
fn set_apart(root: Value) -> (Value, Value)
    ensures report { field (codes "report") (view result.0) ≡ field (codes "report") (view root) }
    ensures txns { view result.1 ≡ txns (view root) }
{
    match root {
        Value::Object(mut fields) => {
            let txns = fields.remove("txns").unwrap_or(Value::Null);
            (Value::Object(fields), txns)
        }
        other => (other, Value::Null),
    }
}

// The transactions, each of which is let go once it is read.
fn transactions_in(alloc: Global, txns: Value, version: u8) -> Result<Transactions, PlanError>
    ensures { Gives (transactions_fault version (view txns))
        (λ all. (all.names ≡ names_of (view txns)) × (all.bodies ≡ bodies_of version (view txns))) result }
{
    let items = items_in(alloc, txns)?;
    let mut all = Transactions {
        names: NameTable::new(alloc),
        bodies: Sequence::new(alloc),
    };
    let mut place = 0;
    for item in items {
        let body = transaction(alloc, &item, place, version, &mut all.names)?;
        all.bodies.push(body)?;
        place += 1;
    }
    Ok(all)
}

// The elements of the list of transactions, of which there are not too many.
fn items_in(alloc: Global, txns: Value) -> Result<Vec<Value>, PlanError>
    ensures { Gives (list_fault 10000 (field_path (codes "txns")) (view txns))
        (λ list. (map view list.items ≡ items (view txns)) × (length list.items ≤ 10000)) result }
{
    let Some(items) = into_elements(txns) else {
        return Err(wrong(alloc, PlanKind::Shape, &[Part::Field("txns")]));
    };
    if items.len() > MOST_TRANSACTIONS {
        return Err(wrong(alloc, PlanKind::Limit, &[Part::Field("txns")]));
    }
    Ok(items)
}

// The body of a transaction, whose name is added to those before it.
fn transaction(
    alloc: Global,
    item: &Value,
    place: usize,
    version: u8,
    names: &mut NameTable,
) -> Result<Body, PlanError>
    ensures { Gives (transaction_fault version names.old place (view item.now))
        (λ body. (body ≡ body_of version (view item.now)) × (names.new ≡ names.old ++ name_of (view item.now) ∷ [])) result }
{
    let path = [Part::Field("txns"), Part::Place(place)];
    object(alloc, item, &["name", "text"], &[], &path)?;
    name(alloc, item, place, names)?;
    let body = body(alloc, item, place, version)?;
    Ok(body)
}

// The lines of a report.
fn lines_in(alloc: Global, text: &str) -> Result<PlacedLines<'_>, PlanError>
    ensures { GivesLines text.now result }
{
    match read_report(alloc, text.as_bytes()) {
        Ok(lines) => Ok(lines),
        Err(ReportError::Line { number }) => Err(detailed(
            alloc,
            PlanKind::Report,
            &[Part::Field("report")],
            1,
            number,
        )),
        Err(ReportError::OutOfMemory) => Err(PlanError::OutOfMemory),
    }
}
