//! Text values in messages to stores.
ghost use Rattle.std.specs.Prelude.{◌≡◌, Option};
ghost use Rattle.acc_value.specs.declared.key.Key.{Key};
ghost use Rattle.acc_value.specs.declared.value.Value.{Value};
ghost use Rattle.std.specs.List.{list_any};
ghost use Rattle.acc_txn.specs.Rules.{condition_has, update_has};
ghost use Rattle.acc_lang.specs.Texts.{is_text_term, has_text_term, has_text_value};
ghost use Rattle.acc_payloads.specs.Texts.{is_text_cell as is_text_in_cell, outcome_has_text as has_text_in_outcome, has_text as has_text_in_message};

use acc_message::Message;
use acc_txn::{BodyParts, Condition, Outcome, Part, Term, Update};
use acc_value::{Key, Value};

/// Whether a message to a store has a text value, in its body or in its outcome.
pub fn has_text(m: &Message) -> bool
    ensures { result ≡ has_text_in_message m.now }
{
    match m {
        Message::PreAccept { body, .. }
        | Message::Accept { body, .. }
        | Message::Commit { body, .. }
        | Message::Stable { body, .. }
        | Message::Recover { body, .. } => body_has_text(body.parts()),
        Message::Apply { body, outcome, .. } => {
            body_has_text(body.parts()) || outcome_has_text(outcome.outcome())
        }
        _ => false,
    }
}

fn body_has_text(parts: &BodyParts) -> bool
    ensures { result ≡ has_text_value parts.now }
{
    guards_have_text(parts.guards.as_slice()) || updates_have_text(parts.updates.as_slice())
}

fn guards_have_text(guards: &[Condition]) -> bool
    ensures { result ≡ list_any (condition_has has_text_term) guards.now }
{
    guards.iter().any(|guard| condition_has_text(guard))
}

fn updates_have_text(updates: &[Update]) -> bool
    ensures { result ≡ list_any (update_has has_text_term) updates.now }
{
    updates.iter().any(|update| update_has_text(update))
}

fn condition_has_text(guard: &Condition) -> bool
    ensures { result ≡ condition_has has_text_term guard.now }
{
    match guard {
        Condition::Compare { left, right, .. } => {
            sum_has_text(left.as_slice()) || sum_has_text(right.as_slice())
        }
        Condition::IsNull(_) | Condition::IsNotNull(_) => false,
    }
}

fn update_has_text(update: &Update) -> bool
    ensures { result ≡ update_has has_text_term update.now }
{
    match update {
        Update::Set { value, .. } => sum_has_text(value.as_slice()),
        Update::Delete { .. } => false,
    }
}

fn sum_has_text(sum: &[Part]) -> bool
    ensures { result ≡ has_text_term sum.now }
{
    sum.iter().any(|part| is_text(&part.term))
}

fn is_text(term: &Term) -> bool
    ensures { result ≡ is_text_term term.now }
{
    matches!(term, Term::Text(_))
}

fn outcome_has_text(outcome: &Outcome) -> bool
    ensures { result ≡ has_text_in_outcome outcome.now }
{
    values_have_text(outcome.reply.values.as_slice()) || writes_have_text(outcome.writes.pairs())
}

fn values_have_text(values: &[Option<Value>]) -> bool
    ensures { result ≡ list_any is_text_in_cell values.now }
{
    values.iter().any(|cell| is_text_cell(cell))
}

fn writes_have_text(writes: &[(Key, Option<Value>)]) -> bool
    ensures { result ≡ list_any (λ (pair : Key × Option Value). is_text_in_cell pair.1) writes.now }
{
    writes.iter().any(|pair| is_text_cell(&pair.1))
}

fn is_text_cell(cell: &Option<Value>) -> bool
    ensures { result ≡ is_text_in_cell cell.now }
{
    matches!(cell, Some(Value::Text(_)))
}
