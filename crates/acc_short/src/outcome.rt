//! Whether cells and outcomes fit their format.
ghost use Rattle.std.specs.Prelude.{◌≡◌};
ghost use Rattle.std.specs.List.{list_all};
ghost use Rattle.acc_short.specs.Tests.{is_short_key, holds_text, is_short_pair, are_short_cells, is_short_outcome};

use acc_txn::{CellList, Key, Outcome, Value, is_free_text_value};

fn key_is_short(key: &Key) -> bool
    ensures { result ≡ is_short_key key.now }
{
    key.table.len() < 256 && key.key.len() < 256
}

fn cell_is_short(cell: &Option<Value>) -> bool
    ensures { result ≡ holds_text cell.now }
{
    match cell {
        None | Some(Value::Number(_)) => true,
        Some(Value::Text(text)) => is_free_text_value(text.as_slice()),
    }
}

fn pair_is_short(pair: &(Key, Option<Value>)) -> bool
    ensures { result ≡ is_short_pair pair.now }
{
    key_is_short(&pair.0) && cell_is_short(&pair.1)
}

fn each_pair_is_short(pairs: &[(Key, Option<Value>)]) -> bool
    ensures { result ≡ list_all is_short_pair pairs.now }
{
    pairs.iter().all(|pair| pair_is_short(pair))
}

fn pairs_are_short(pairs: &[(Key, Option<Value>)]) -> bool
    ensures { result ≡ are_short_cells pairs.now }
{
    pairs.len() < 256 && each_pair_is_short(pairs)
}

fn values_are_short(values: &[Option<Value>]) -> bool
    ensures { result ≡ list_all holds_text values.now }
{
    values.iter().all(|cell| cell_is_short(cell))
}

pub(crate) fn cells_are_short(cells: &CellList) -> bool
    ensures { result ≡ are_short_cells cells.now }
{
    pairs_are_short(cells.pairs())
}

pub(crate) fn outcome_is_short(outcome: &Outcome) -> bool
    ensures { result ≡ is_short_outcome outcome.now }
{
    outcome.reply.values.len() < 256
        && (values_are_short(outcome.reply.values.as_slice()) && cells_are_short(&outcome.writes))
}
