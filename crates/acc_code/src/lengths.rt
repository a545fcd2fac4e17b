//! How many bytes keys, cells, lists of cells and outcomes take.
ghost use Rattle.std.specs.Prelude.{◌≡◌, ◌<◌, ◌≤◌, ◌*◌, ◌^◌, length};
ghost use Rattle.std.specs.List.{flat_map, AllByRecursion};
ghost use Rattle.acc_code.specs.Spelling.{listed, cell_bytes, pair_bytes, cells_bytes, outcome_bytes};
ghost use Rattle.acc_code.specs.Short.{IsShortKey, HoldsText, AreShortCells, IsShortOutcome};

use acc_txn::{Outcome, key_length, text_length};
use acc_value::{CellList, Cells, Key, Value};

#[tactic(auto, using(acc_txn::proofs::BodyShortness::short_text), unfolding(crate::specs::Spelling::cell_bytes, acc_wire::specs::Spelling::i64_bytes, acc_wire::specs::Spelling::u64_bytes))]
fn cell_length(cell: &Option<Value>) -> u64
    requires { HoldsText cell.now }
    ensures exact { result ≡ length (cell_bytes cell.now) }
    ensures most { result ≤ 257 }
{
    match cell {
        None => 1,
        Some(Value::Number(_)) => 9,
        Some(Value::Text(text)) => 1 + text_length(text.as_slice()),
    }
}

#[tactic(auto, unfolding(crate::specs::Spelling::pair_bytes))]
fn pair_length(key: &Key, cell: &Option<Value>) -> u64
    requires key { IsShortKey key.now }
    requires text { HoldsText cell.now }
    ensures exact { result ≡ length (pair_bytes (key.now, cell.now)) }
    ensures most { result ≤ 769 }
{
    key_length(key) + cell_length(cell)
}

fn pairs_length(pairs: &[(Key, Option<Value>)]) -> u64
    requires count { length pairs.now < 256 }
    requires short { AllByRecursion (λ p. IsShortKey p.0) pairs.now }
    requires texts { AllByRecursion (λ p. HoldsText p.1) pairs.now }
    ensures exact { result ≡ length (flat_map pair_bytes pairs.now) }
    ensures most { result ≤ 769 * length pairs.now }
{
    let mut total = 0;
    for (key, cell) in pairs {
        total += pair_length(key, cell);
    }
    total
}

/// How many bytes a list of cells takes.
#[tactic(auto, unfolding(crate::specs::Spelling::cells_bytes, acc_txn::specs::BodySpelling::listed))]
pub fn cells_length(cells: &CellList) -> u64
    requires { AreShortCells cells.now }
    ensures exact { result ≡ length (cells_bytes cells.now) }
    ensures most { result < 2 ^ 18 }
{
    1 + pairs_length(cells.pairs())
}

fn each_cell_length(cells: &[Option<Value>]) -> u64
    requires count { length cells.now < 256 }
    requires texts { AllByRecursion HoldsText cells.now }
    ensures exact { result ≡ length (flat_map cell_bytes cells.now) }
    ensures most { result ≤ 257 * length cells.now }
{
    let mut total = 0;
    for cell in cells {
        total += cell_length(cell);
    }
    total
}

/// How many bytes the selected cells take.
#[tactic(auto, unfolding(acc_txn::specs::BodySpelling::listed))]
fn values_length(values: &Cells) -> u64
    requires count { length values.now < 256 }
    requires texts { AllByRecursion HoldsText values.now }
    ensures exact { result ≡ length (listed cell_bytes values.now) }
    ensures most { result < 2 ^ 17 }
{
    1 + each_cell_length(values.as_slice())
}

/// How many bytes an outcome takes.
#[tactic(auto, unfolding(crate::specs::Spelling::outcome_bytes))]
pub fn outcome_length(outcome: &Outcome) -> u64
    requires { IsShortOutcome outcome.now }
    ensures exact { result ≡ length (outcome_bytes outcome.now) }
    ensures most { result < 2 ^ 19 }
{
    1 + values_length(&outcome.reply.values) + cells_length(&outcome.writes)
}
