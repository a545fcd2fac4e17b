//! How many bytes a body takes.
ghost use Rattle.std.specs.Prelude.{◌≡◌, ◌<◌, ◌≤◌, ◌*◌, ◌^◌, length};
ghost use Rattle.std.specs.List.{flat_map, AllByRecursion};
ghost use Rattle.acc_wire.specs.Spelling.{u8_bytes, text_bytes, IsShortText};
ghost use Rattle.acc_txn.specs.BodySpelling.{listed, key_bytes, let_bytes, select_bytes, term_bytes, part_bytes, sum_bytes, condition_bytes, update_bytes, body_bytes};
ghost use Rattle.acc_txn.specs.Short.{IsShortKey, IsShortLet, IsShortSelect, IsShortTerm, IsShortSum, IsShortCondition, IsShortUpdate, IsShortBody};

use crate::parts::{BodyParts, Condition, Expr, Let, Numbers, Part, Select, Term, Update};
use acc_value::Key;

/// How many bytes a text takes.
#[tactic(auto, unfolding(acc_wire::specs::Spelling::text_bytes))]
pub fn text_length(text: &[u8]) -> u64
    requires { IsShortText text.now }
    ensures exact { result ≡ length (text_bytes text.now) }
    ensures most { result ≤ 256 }
{
    1 + text.len() as u64
}

/// How many bytes a key takes.
#[tactic(auto, unfolding(crate::specs::BodySpelling::key_bytes))]
pub fn key_length(key: &Key) -> u64
    requires { IsShortKey key.now }
    ensures exact { result ≡ length (key_bytes key.now) }
    ensures most { result ≤ 512 }
{
    text_length(key.table.as_slice()) + text_length(key.key.as_slice())
}

#[tactic(auto, using(crate::proofs::BodyShortness::short_text), unfolding(crate::specs::BodySpelling::term_bytes, acc_wire::specs::Spelling::i64_bytes, acc_wire::specs::Spelling::u64_bytes))]
fn term_length(term: &Term) -> u64
    requires { IsShortTerm term.now }
    ensures exact { result ≡ length (term_bytes term.now) }
    ensures most { result ≤ 257 }
{
    match term {
        Term::Number(_) => 9,
        Term::Name(_) => 2,
        Term::Null => 1,
        Term::Text(text) => 1 + text_length(text.as_slice()),
    }
}

#[tactic(auto, unfolding(crate::specs::BodySpelling::part_bytes))]
fn part_length(part: &Part) -> u64
    requires { IsShortTerm part.now.term }
    ensures exact { result ≡ length (part_bytes part.now) }
    ensures most { result ≤ 258 }
{
    1 + term_length(&part.term)
}

fn each_part_length(parts: &[Part]) -> u64
    requires count { length parts.now < 256 }
    requires short { AllByRecursion (λ part. IsShortTerm part.term) parts.now }
    ensures exact { result ≡ length (flat_map part_bytes parts.now) }
    ensures most { result ≤ 258 * length parts.now }
{
    let mut total = 0;
    for part in parts {
        total += part_length(part);
    }
    total
}

/// How many bytes a sum takes.
#[tactic(auto, unfolding(crate::specs::BodySpelling::sum_bytes, crate::specs::BodySpelling::listed))]
fn sum_length(sum: &Expr) -> u64
    requires { IsShortSum sum.now }
    ensures exact { result ≡ length (sum_bytes sum.now) }
    ensures most { result < 2 ^ 17 }
{
    1 + each_part_length(sum.as_slice())
}

#[tactic(auto, unfolding(crate::specs::BodySpelling::let_bytes))]
fn let_length(binding: &Let) -> u64
    requires { IsShortLet binding.now }
    ensures exact { result ≡ length (let_bytes binding.now) }
    ensures most { result ≤ 768 }
{
    text_length(binding.name.as_slice()) + key_length(&binding.key)
}

fn lets_length(lets: &[Let]) -> u64
    requires count { length lets.now < 256 }
    requires short { AllByRecursion IsShortLet lets.now }
    ensures exact { result ≡ length (flat_map let_bytes lets.now) }
    ensures most { result ≤ 768 * length lets.now }
{
    let mut total = 0;
    for binding in lets {
        total += let_length(binding);
    }
    total
}

#[tactic(auto, unfolding(crate::specs::BodySpelling::listed))]
fn names_length(names: &Numbers) -> u64
    requires { length names.now < 256 }
    ensures exact { result ≡ length (listed u8_bytes names.now) }
    ensures most { result ≤ 256 }
{
    1 + names.len() as u64
}

#[tactic(auto, unfolding(crate::specs::BodySpelling::select_bytes))]
fn select_length(select: &Select) -> u64
    requires { IsShortSelect select.now }
    ensures exact { result ≡ length (select_bytes select.now) }
    ensures most { result ≤ 513 }
{
    match select {
        Select::Nothing => 1,
        Select::Names(names) => 1 + names_length(names),
        Select::Get(key) => 1 + key_length(key),
    }
}

#[tactic(auto, unfolding(crate::specs::BodySpelling::condition_bytes))]
fn condition_length(guard: &Condition) -> u64
    requires { IsShortCondition guard.now }
    ensures exact { result ≡ length (condition_bytes guard.now) }
    ensures most { result ≤ 262144 }
{
    match guard {
        Condition::Compare { left, right, .. } => 1 + sum_length(left) + sum_length(right),
        Condition::IsNull(_) | Condition::IsNotNull(_) => 2,
    }
}

fn conditions_length(guards: &[Condition]) -> u64
    requires count { length guards.now < 256 }
    requires short { AllByRecursion IsShortCondition guards.now }
    ensures exact { result ≡ length (flat_map condition_bytes guards.now) }
    ensures most { result ≤ 262144 * length guards.now }
{
    let mut total = 0;
    for guard in guards {
        total += condition_length(guard);
    }
    total
}

#[tactic(auto, unfolding(crate::specs::BodySpelling::update_bytes))]
fn update_length(update: &Update) -> u64
    requires { IsShortUpdate update.now }
    ensures exact { result ≡ length (update_bytes update.now) }
    ensures most { result ≤ 262144 }
{
    match update {
        Update::Set { key, value } => 1 + key_length(key) + sum_length(value),
        Update::Delete { key } => 1 + key_length(key),
    }
}

fn updates_length(updates: &[Update]) -> u64
    requires count { length updates.now < 256 }
    requires short { AllByRecursion IsShortUpdate updates.now }
    ensures exact { result ≡ length (flat_map update_bytes updates.now) }
    ensures most { result ≤ 262144 * length updates.now }
{
    let mut total = 0;
    for update in updates {
        total += update_length(update);
    }
    total
}

#[tactic(auto, unfolding(crate::specs::BodySpelling::body_bytes, crate::specs::BodySpelling::listed))]
pub(crate) fn parts_length(parts: &BodyParts) -> u64
    requires { IsShortBody parts.now }
    ensures exact { result ≡ length (body_bytes parts.now) }
    ensures most { result < 2 ^ 27 }
{
    3 + lets_length(parts.lets.as_slice())
        + select_length(&parts.select)
        + conditions_length(parts.guards.as_slice())
        + updates_length(parts.updates.as_slice())
}
