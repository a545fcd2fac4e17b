//! What a body comes to on cells.
ghost use Rattle.std.specs.Prelude.{◌≡◌, map, Some, IfOk};
ghost use Rattle.std.specs.Option.{option_copied};
ghost use Rattle.acc_value.specs.Cells.{cell_of};
ghost use Rattle.acc_txn.specs.Meaning.{bound_cells, named, term_cell, summand, plus, total_of, as_cell, sum_of, compares, text_lt, compares_texts, compares_values, compares_cells, compared, condition_holds, all_hold, updated_cell, writes_of, final, selected, done, overflowed, outcome_with, outcome_of};

use crate::outcome::{Outcome, Reply, Verdict};
use crate::parts::{BodyParts, Condition, Let, Operator, Part, Select, Term, Update};
use acc_base::OutOfMemory;
use acc_value::{CellList, Cells, Value};
use std::alloc::Global;

/// A partial sum that doesn't fit 64 bits.
#[derive(Clone, Copy, Debug, PartialEq, Eq)]
pub struct Overflow;

/// The outcome of a body on the cells before it.
pub fn outcome(parts: &BodyParts, cells: &CellList) -> Result<Outcome, OutOfMemory>
    ensures { IfOk result (λ outcome. outcome ≡ outcome_of parts.now (cell_of cells.now)) }
{
    let bound = bind(parts.lets.allocator(), parts.lets.as_slice(), cells)?;
    decide(&bound, parts, cells)
}

/// The outcome of a body whose names stand for these cells.
fn decide(
    bound: &[Option<Value>],
    parts: &BodyParts,
    cells: &CellList,
) -> Result<Outcome, OutOfMemory>
    ensures { IfOk result (λ outcome. outcome ≡ outcome_with bound.now parts.now (cell_of cells.now)) }
{
    let alloc = parts.lets.allocator();
    match hold(bound, parts.guards.as_slice())? {
        Ok(true) => outcome_of_updates(bound, parts, cells),
        Ok(false) => Ok(Outcome {
            reply: Reply {
                verdict: Verdict::Skipped,
                values: select(alloc, bound, cells, &parts.select)?,
            },
            writes: CellList::new(alloc),
        }),
        Err(Overflow) => Ok(overflow_outcome(alloc)),
    }
}

/// The outcome of a body whose conditions hold.
fn outcome_of_updates(
    bound: &[Option<Value>],
    parts: &BodyParts,
    cells: &CellList,
) -> Result<Outcome, OutOfMemory>
    ensures { IfOk result (λ outcome. outcome ≡ done (selected bound.now (cell_of cells.now) parts.now.select) (final (writes_of bound.now parts.now.updates))) }
{
    let alloc = parts.lets.allocator();
    match write(alloc, bound, parts.updates.as_slice())? {
        Ok(writes) => Ok(Outcome {
            reply: Reply {
                verdict: Verdict::Ok,
                values: select(alloc, bound, cells, &parts.select)?,
            },
            writes,
        }),
        Err(Overflow) => Ok(overflow_outcome(alloc)),
    }
}

fn overflow_outcome(alloc: Global) -> Outcome
    ensures { result ≡ overflowed }
{
    Outcome {
        reply: Reply {
            verdict: Verdict::Overflow,
            values: Cells::new(alloc),
        },
        writes: CellList::new(alloc),
    }
}

/// The cells that the names stand for.
fn bind(alloc: Global, lets: &[Let], cells: &CellList) -> Result<Vec<Option<Value>>, OutOfMemory>
    ensures { IfOk result (λ bound. bound.items ≡ bound_cells lets.now (cell_of cells.now)) }
{
    let mut bound = Vec::with_capacity(alloc, lets.len())?;
    for binding in lets {
        bound.push(copy_of(cells.get(&binding.key))?)?;
    }
    Ok(bound)
}

/// An equal cell, in memory of its own.
fn copy_of(cell: Option<&Value>) -> Result<Option<Value>, OutOfMemory>
    ensures { IfOk result (λ copy. copy ≡ option_copied cell.entry) }
{
    match cell {
        Some(value) => Ok(Some(value.copy()?)),
        None => Ok(None),
    }
}

/// The cells that are selected.
fn select(
    alloc: Global,
    bound: &[Option<Value>],
    cells: &CellList,
    select: &Select,
) -> Result<Cells, OutOfMemory>
    ensures { IfOk result (λ values. values ≡ selected bound.now (cell_of cells.now) select.now) }
{
    match select {
        Select::Nothing => Ok(Cells::new(alloc)),
        Select::Names(names) => cells_named(alloc, bound, names.as_slice()),
        Select::Get(key) => {
            let mut values = Cells::new(alloc);
            values.push(copy_of(cells.get(key))?)?;
            Ok(values)
        }
    }
}

fn cells_named(alloc: Global, bound: &[Option<Value>], names: &[u8]) -> Result<Cells, OutOfMemory>
    ensures { IfOk result (λ values. values ≡ map (named bound.now) names.now) }
{
    let mut values = Vec::with_capacity(alloc, names.len())?;
    for name in names {
        values.push(copy_of(cell_named(bound, *name))?)?;
    }
    Ok(Cells::from_vec(alloc, values)?)
}

/// The cell of a name, by its number.
fn cell_named(bound: &[Option<Value>], name: u8) -> Option<&Value>
    ensures { option_copied result ≡ named bound.now name }
{
    match bound.get(name as usize) {
        Some(cell) => cell.as_ref(),
        None => None,
    }
}

/// Whether all conditions hold, as far as the first that doesn't.
fn hold(
    bound: &[Option<Value>],
    guards: &[Condition],
) -> Result<Result<bool, Overflow>, OutOfMemory>
    ensures { IfOk result (λ holds. holds ≡ all_hold bound.now guards.now) }
{
    for guard in guards {
        match holds(bound, guard)? {
            Ok(true) => {}
            Ok(false) => return Ok(Ok(false)),
            Err(Overflow) => return Ok(Err(Overflow)),
        }
    }
    Ok(Ok(true))
}

fn holds(bound: &[Option<Value>], guard: &Condition) -> Result<Result<bool, Overflow>, OutOfMemory>
    ensures { IfOk result (λ holds. holds ≡ condition_holds bound.now guard.now) }
{
    match guard {
        Condition::Compare { op, left, right } => {
            let left = sum(bound, left.as_slice())?;
            let right = sum(bound, right.as_slice())?;
            Ok(compare_sums(*op, &left, &right))
        }
        Condition::IsNull(name) => Ok(Ok(cell_named(bound, *name).is_none())),
        Condition::IsNotNull(name) => Ok(Ok(cell_named(bound, *name).is_some())),
    }
}

/// Compares two sums, where both fit.
fn compare_sums(
    op: Operator,
    left: &Result<Option<Value>, Overflow>,
    right: &Result<Option<Value>, Overflow>,
) -> Result<bool, Overflow>
    ensures { result ≡ compared op left.now right.now }
{
    match (left, right) {
        (Ok(left), Ok(right)) => Ok(compare_cells(op, left, right)),
        _ => Err(Overflow),
    }
}

/// Compares two cells, which is false where one of them is null.
fn compare_cells(op: Operator, left: &Option<Value>, right: &Option<Value>) -> bool
    ensures { result ≡ compares_cells op left.now right.now }
{
    match (left, right) {
        (Some(a), Some(b)) => compare_values(op, a, b),
        _ => false,
    }
}

/// Compares two values, which is false of a text and a number.
fn compare_values(op: Operator, left: &Value, right: &Value) -> bool
    ensures { result ≡ compares_values op left.now right.now }
{
    match (left, right) {
        (Value::Number(a), Value::Number(b)) => compare(op, *a, *b),
        (Value::Text(a), Value::Text(b)) => compare_texts(op, a.as_slice(), b.as_slice()),
        _ => false,
    }
}

fn compare_texts(op: Operator, a: &[u8], b: &[u8]) -> bool
    ensures { result ≡ compares_texts op a.now b.now }
{
    match op {
        Operator::Equal => a == b,
        Operator::Differs => a != b,
        Operator::Less => stands_before(a, b),
        Operator::AtMost => !stands_before(b, a),
        Operator::More => stands_before(b, a),
        Operator::AtLeast => !stands_before(a, b),
    }
}

fn compare(op: Operator, a: i64, b: i64) -> bool
    ensures { result ≡ compares op a b }
{
    match op {
        Operator::Equal => a == b,
        Operator::Differs => a != b,
        Operator::Less => a < b,
        Operator::AtMost => a <= b,
        Operator::More => a > b,
        Operator::AtLeast => a >= b,
    }
}

/// Whether the first text stands before the second, byte by byte.
fn stands_before(a: &[u8], b: &[u8]) -> bool
    ensures { result ≡ text_lt a.now b.now }
{
    a.cmp(b).is_lt()
}

/// The writes of the updates, sorted by key; the last update of a key counts.
fn write(
    alloc: Global,
    bound: &[Option<Value>],
    updates: &[Update],
) -> Result<Result<CellList, Overflow>, OutOfMemory>
    ensures { IfOk result (λ writes. writes ≡ final (writes_of bound.now updates.now)) }
{
    let mut writes = CellList::new(alloc);
    for update in updates {
        match new_cell(bound, update)? {
            Ok(cell) => writes.set(update.key().copy()?, cell)?,
            Err(Overflow) => return Ok(Err(Overflow)),
        }
    }
    Ok(Ok(writes))
}

/// The cell that an update gives its key.
fn new_cell(
    bound: &[Option<Value>],
    update: &Update,
) -> Result<Result<Option<Value>, Overflow>, OutOfMemory>
    ensures { IfOk result (λ cell. cell ≡ updated_cell bound.now update.now) }
{
    match update {
        Update::Set { value, .. } => sum(bound, value.as_slice()),
        Update::Delete { .. } => Ok(Ok(None)),
    }
}

/// The value of an expression: that of its one term, or the sum of several.
fn sum(
    bound: &[Option<Value>],
    terms: &[Part],
) -> Result<Result<Option<Value>, Overflow>, OutOfMemory>
    ensures { IfOk result (λ value. value ≡ sum_of bound.now terms.now) }
{
    match terms.split_first() {
        Some((first, rest)) => {
            if rest.is_empty() {
                Ok(Ok(term_value(bound, &first.term)?))
            } else {
                Ok(number_cell(total(bound, first, rest)))
            }
        }
        None => Ok(Ok(None)),
    }
}

fn number_cell(total: Result<Option<i64>, Overflow>) -> Result<Option<Value>, Overflow>
    ensures { result ≡ as_cell total }
{
    match total {
        Ok(Some(number)) => Ok(Some(Value::Number(number))),
        Ok(None) => Ok(None),
        Err(Overflow) => Err(Overflow),
    }
}

/// A sum from the left, which is null from the first null or text on.
fn total(bound: &[Option<Value>], first: &Part, rest: &[Part]) -> Result<Option<i64>, Overflow>
    ensures { result ≡ total_of bound.now first.now rest.now }
{
    let mut total = term_number(bound, &first.term);
    for part in rest {
        total = add(total, part.minus, term_number(bound, &part.term))?;
    }
    Ok(total)
}

fn term_value(bound: &[Option<Value>], term: &Term) -> Result<Option<Value>, OutOfMemory>
    ensures { IfOk result (λ cell. cell ≡ term_cell bound.now term.now) }
{
    match term {
        Term::Number(number) => Ok(Some(Value::Number(*number))),
        Term::Name(name) => copy_of(cell_named(bound, *name)),
        Term::Null => Ok(None),
        Term::Text(text) => Ok(Some(Value::Text(text.copy()?))),
    }
}

/// The number of a term; None where it is null or a text.
fn term_number(bound: &[Option<Value>], term: &Term) -> Option<i64>
    ensures { result ≡ summand (term_cell bound.now term.now) }
{
    match term {
        Term::Number(number) => Some(*number),
        Term::Name(name) => number_in(cell_named(bound, *name)),
        Term::Null | Term::Text(_) => None,
    }
}

fn number_in(cell: Option<&Value>) -> Option<i64>
    ensures { result ≡ summand (option_copied cell.entry) }
{
    match cell {
        Some(Value::Number(number)) => Some(*number),
        Some(Value::Text(_)) | None => None,
    }
}

fn add(total: Option<i64>, minus: bool, term: Option<i64>) -> Result<Option<i64>, Overflow>
    ensures { result ≡ plus total minus term }
{
    match (total, term) {
        (Some(a), Some(b)) => add_number(a, minus, b),
        _ => Ok(None),
    }
}

fn add_number(a: i64, minus: bool, b: i64) -> Result<Option<i64>, Overflow>
    ensures { result ≡ plus (Some a) minus (Some b) }
{
    let next = if minus {
        a.checked_sub(b)
    } else {
        a.checked_add(b)
    };
    match next {
        Some(number) => Ok(Some(number)),
        None => Err(Overflow),
    }
}
