//! The bytes of a body. Numbers have their highest byte first.
ghost use Rattle.std.specs.Prelude.{◌≡◌, ◌<◌, ◌+◌, ◌≤◌, ◌++◌, length, vec_len, vec_capacity, OnOk, OnErr, IfOk};
ghost use Rattle.std.specs.List.{flat_map, AllByRecursion};
ghost use Rattle.acc_wire.specs.Spelling.{u8_bytes};
ghost use Rattle.acc_txn.specs.Rules.{IsBody};
ghost use Rattle.acc_txn.specs.BodySpelling.{listed, key_bytes, let_bytes, select_bytes, term_bytes, part_bytes, sum_bytes, operator_number, condition_bytes, update_bytes, body_bytes};
ghost use Rattle.acc_txn.specs.Short.{IsShortKey, IsShortLet, IsShortSelect, IsShortTerm, IsShortSum, IsShortCondition, IsShortUpdate, IsShortBody, IsTerm, AreTerms, HasTerms, SetsTerms, IsCodeOf};
ghost use Rattle.acc_txn.specs.Writing.{Keeps};

use crate::lengths::parts_length;
use crate::parts::{
    BodyParts, Condition, Conditions, Expr, Let, Lets, Numbers, Operator, Part, Select, Term,
    Update, Updates,
};
use acc_base::{Bytes, OutOfMemory};
use acc_value::Key;
use acc_wire::{push_text, put_marked_i64, put_text, put_u8};
use std::mem;

/// The vector of some bytes, to append to it in place.
#[inline(always)]
fn taken_out(out: &mut Bytes) -> Vec<u8>
    ensures { result.items ≡ out.old }
{
    let alloc = out.allocator();
    mem::replace(out, Bytes::new(alloc)).into_vec()
}

/// The room that a key takes.
#[inline(always)]
fn key_room(key: &Key) -> usize
    requires { IsShortKey key.now }
    ensures exact { result ≡ 2 + length key.now.table + length key.now.key }
    ensures most { result ≤ 512 }
{
    2 + key.table.len() + key.key.len()
}

/// Appends a key where there is room for it.
#[inline(always)]
#[tactic(auto, unfolding(crate::specs::BodySpelling::key_bytes))]
fn push_key(out: &mut Vec<u8>, key: &Key)
    requires short { IsShortKey key.now }
    requires room { vec_len out.old + (2 + length key.now.table + length key.now.key) ≤ vec_capacity out.old }
    ensures { out.new.items ≡ out.old.items ++ key_bytes key.now }
{
    push_text(out, key.table.as_slice());
    push_text(out, key.key.as_slice());
}

#[inline(always)]
fn append_key(out: &mut Vec<u8>, key: &Key) -> Result<(), OutOfMemory>
    requires { IsShortKey key.now }
    ensures ok { OnOk result (out.new.items ≡ out.old.items ++ key_bytes key.now) }
    ensures err { OnErr result (out.new.items ≡ out.old.items) }
{
    out.reserve(key_room(key))?;
    push_key(out, key);
    Ok(())
}

/// Appends a key: its table and its text.
#[tactic(auto, using(crate::proofs::Kept::keeps_all))]
pub fn put_key(out: &mut Bytes, key: &Key) -> Result<(), OutOfMemory>
    requires { IsShortKey key.now }
    ensures ok { OnOk result (out.new ≡ out.old ++ key_bytes key.now) }
    ensures kept { OnErr result (Keeps out.old out.new) }
{
    let mut bytes = taken_out(out);
    let appended = append_key(&mut bytes, key);
    *out = Bytes::from_vec(bytes);
    appended
}

#[inline(always)]
fn append_marked_key(out: &mut Vec<u8>, mark: u8, key: &Key) -> Result<(), OutOfMemory>
    requires { IsShortKey key.now }
    ensures ok { OnOk result (out.new.items ≡ out.old.items ++ u8_bytes mark ++ key_bytes key.now) }
    ensures err { OnErr result (out.new.items ≡ out.old.items) }
{
    out.reserve(1 + key_room(key))?;
    out.push_reserved(mark);
    push_key(out, key);
    Ok(())
}

/// Appends a byte and a key at once.
#[tactic(auto, using(crate::proofs::Kept::keeps_all))]
fn put_marked_key(out: &mut Bytes, mark: u8, key: &Key) -> Result<(), OutOfMemory>
    requires { IsShortKey key.now }
    ensures ok { OnOk result (out.new ≡ out.old ++ u8_bytes mark ++ key_bytes key.now) }
    ensures kept { OnErr result (Keeps out.old out.new) }
{
    let mut bytes = taken_out(out);
    let appended = append_marked_key(&mut bytes, mark, key);
    *out = Bytes::from_vec(bytes);
    appended
}

#[tactic(auto, using(crate::proofs::Kept::keeps_all, crate::proofs::Kept::keeps_front, crate::proofs::Kept::keeps_more, crate::proofs::BodyShortness::short_text), unfolding(crate::specs::BodySpelling::term_bytes))]
fn put_term(out: &mut Bytes, term: &Term) -> Result<(), OutOfMemory>
    requires { IsShortTerm term.now }
    ensures ok { OnOk result (out.new ≡ out.old ++ term_bytes term.now) }
    ensures kept { OnErr result (Keeps out.old out.new) }
    ensures fits { OnOk result (IsTerm term.now) }
{
    match term {
        Term::Number(number) => put_marked_i64(out, 0, *number),
        Term::Name(name) => {
            put_u8(out, 1)?;
            put_u8(out, *name)
        }
        Term::Null => put_u8(out, 2),
        Term::Text(text) => {
            put_u8(out, 3)?;
            put_text(out, text.as_slice())
        }
    }
}

#[tactic(auto, using(crate::proofs::Kept::keeps_all, crate::proofs::Kept::keeps_front, crate::proofs::Kept::keeps_more), unfolding(crate::specs::BodySpelling::part_bytes))]
fn put_part(out: &mut Bytes, part: &Part) -> Result<(), OutOfMemory>
    requires { IsShortTerm part.now.term }
    ensures ok { OnOk result (out.new ≡ out.old ++ part_bytes part.now) }
    ensures kept { OnErr result (Keeps out.old out.new) }
    ensures fits { OnOk result (IsTerm part.now.term) }
{
    put_u8(out, u8::from(part.minus))?;
    put_term(out, &part.term)
}

#[tactic(auto, using(crate::proofs::Kept::keeps_all, crate::proofs::Kept::keeps_front, crate::proofs::Kept::keeps_more))]
fn put_each_part(out: &mut Bytes, parts: &[Part]) -> Result<(), OutOfMemory>
    requires { AllByRecursion (λ part. IsShortTerm part.term) parts.now }
    ensures ok { OnOk result (out.new ≡ out.old ++ flat_map part_bytes parts.now) }
    ensures kept { OnErr result (Keeps out.old out.new) }
    ensures fits { OnOk result (AreTerms parts.now) }
{
    for part in parts {
        put_part(out, part)?;
    }
    Ok(())
}

/// Appends a sum: a count, and each term with its sign.
#[tactic(auto, using(crate::proofs::Kept::keeps_all, crate::proofs::Kept::keeps_front, crate::proofs::Kept::keeps_more), unfolding(crate::specs::BodySpelling::sum_bytes, crate::specs::BodySpelling::listed))]
fn put_sum(out: &mut Bytes, sum: &Expr) -> Result<(), OutOfMemory>
    requires { IsShortSum sum.now }
    ensures ok { OnOk result (out.new ≡ out.old ++ sum_bytes sum.now) }
    ensures kept { OnErr result (Keeps out.old out.new) }
    ensures fits { OnOk result (AreTerms sum.now) }
{
    put_u8(out, sum.len() as u8)?;
    put_each_part(out, sum.as_slice())
}

#[inline(always)]
#[tactic(auto, unfolding(crate::specs::BodySpelling::let_bytes))]
fn append_let(out: &mut Vec<u8>, binding: &Let) -> Result<(), OutOfMemory>
    requires { IsShortLet binding.now }
    ensures ok { OnOk result (out.new.items ≡ out.old.items ++ let_bytes binding.now) }
    ensures err { OnErr result (out.new.items ≡ out.old.items) }
{
    out.reserve(1 + binding.name.len() + key_room(&binding.key))?;
    push_text(out, binding.name.as_slice());
    push_key(out, &binding.key);
    Ok(())
}

#[tactic(auto, using(crate::proofs::Kept::keeps_all))]
fn put_let(out: &mut Bytes, binding: &Let) -> Result<(), OutOfMemory>
    requires { IsShortLet binding.now }
    ensures ok { OnOk result (out.new ≡ out.old ++ let_bytes binding.now) }
    ensures kept { OnErr result (Keeps out.old out.new) }
{
    let mut bytes = taken_out(out);
    let appended = append_let(&mut bytes, binding);
    *out = Bytes::from_vec(bytes);
    appended
}

#[tactic(auto, using(crate::proofs::Kept::keeps_all, crate::proofs::Kept::keeps_front, crate::proofs::Kept::keeps_more))]
fn put_each_let(out: &mut Bytes, lets: &[Let]) -> Result<(), OutOfMemory>
    requires { AllByRecursion IsShortLet lets.now }
    ensures ok { OnOk result (out.new ≡ out.old ++ flat_map let_bytes lets.now) }
    ensures kept { OnErr result (Keeps out.old out.new) }
{
    for binding in lets {
        put_let(out, binding)?;
    }
    Ok(())
}

/// Appends LETs: a count, and each a name and a key.
#[tactic(auto, using(crate::proofs::Kept::keeps_all, crate::proofs::Kept::keeps_front, crate::proofs::Kept::keeps_more), unfolding(crate::specs::BodySpelling::listed))]
fn put_lets(out: &mut Bytes, lets: &Lets) -> Result<(), OutOfMemory>
    requires count { length lets.now < 256 }
    requires short { AllByRecursion IsShortLet lets.now }
    ensures ok { OnOk result (out.new ≡ out.old ++ listed let_bytes lets.now) }
    ensures kept { OnErr result (Keeps out.old out.new) }
{
    put_u8(out, lets.len() as u8)?;
    put_each_let(out, lets.as_slice())
}

#[tactic(auto, using(crate::proofs::Kept::keeps_all, crate::proofs::Kept::keeps_front, crate::proofs::Kept::keeps_more))]
fn put_each_name(out: &mut Bytes, names: &[u8]) -> Result<(), OutOfMemory>
    ensures ok { OnOk result (out.new ≡ out.old ++ flat_map u8_bytes names.now) }
    ensures kept { OnErr result (Keeps out.old out.new) }
{
    for name in names {
        put_u8(out, *name)?;
    }
    Ok(())
}

#[tactic(auto, using(crate::proofs::Kept::keeps_all, crate::proofs::Kept::keeps_front, crate::proofs::Kept::keeps_more), unfolding(crate::specs::BodySpelling::listed))]
fn put_names(out: &mut Bytes, names: &Numbers) -> Result<(), OutOfMemory>
    requires { length names.now < 256 }
    ensures ok { OnOk result (out.new ≡ out.old ++ listed u8_bytes names.now) }
    ensures kept { OnErr result (Keeps out.old out.new) }
{
    put_u8(out, names.len() as u8)?;
    put_each_name(out, names.as_slice())
}

/// Appends a select: 0, or 1 and the numbers of LETs, or 2 and a key.
#[tactic(auto, using(crate::proofs::Kept::keeps_all, crate::proofs::Kept::keeps_front, crate::proofs::Kept::keeps_more), unfolding(crate::specs::BodySpelling::select_bytes))]
fn put_select(out: &mut Bytes, select: &Select) -> Result<(), OutOfMemory>
    requires { IsShortSelect select.now }
    ensures ok { OnOk result (out.new ≡ out.old ++ select_bytes select.now) }
    ensures kept { OnErr result (Keeps out.old out.new) }
{
    match select {
        Select::Nothing => put_u8(out, 0),
        Select::Names(names) => {
            put_u8(out, 1)?;
            put_names(out, names)
        }
        Select::Get(key) => put_marked_key(out, 2, key),
    }
}

/// The number of IS NULL, which follows those of the operators.
const IS_NULL: u8 = 7;

/// The number of IS NOT NULL.
const IS_NOT_NULL: u8 = 8;

fn number_of(op: Operator) -> u8
    ensures { result ≡ operator_number op }
{
    op as u8
}

#[tactic(auto, using(crate::proofs::Kept::keeps_all, crate::proofs::Kept::keeps_front, crate::proofs::Kept::keeps_more), unfolding(crate::specs::BodySpelling::condition_bytes))]
fn put_condition(out: &mut Bytes, guard: &Condition) -> Result<(), OutOfMemory>
    requires { IsShortCondition guard.now }
    ensures ok { OnOk result (out.new ≡ out.old ++ condition_bytes guard.now) }
    ensures kept { OnErr result (Keeps out.old out.new) }
    ensures fits { OnOk result (HasTerms guard.now) }
{
    match guard {
        Condition::Compare { op, left, right } => {
            put_u8(out, number_of(*op))?;
            put_sum(out, left)?;
            put_sum(out, right)
        }
        Condition::IsNull(name) => {
            put_u8(out, IS_NULL)?;
            put_u8(out, *name)
        }
        Condition::IsNotNull(name) => {
            put_u8(out, IS_NOT_NULL)?;
            put_u8(out, *name)
        }
    }
}

#[tactic(auto, using(crate::proofs::Kept::keeps_all, crate::proofs::Kept::keeps_front, crate::proofs::Kept::keeps_more))]
fn put_each_condition(out: &mut Bytes, guards: &[Condition]) -> Result<(), OutOfMemory>
    requires { AllByRecursion IsShortCondition guards.now }
    ensures ok { OnOk result (out.new ≡ out.old ++ flat_map condition_bytes guards.now) }
    ensures kept { OnErr result (Keeps out.old out.new) }
    ensures fits { OnOk result (AllByRecursion HasTerms guards.now) }
{
    for guard in guards {
        put_condition(out, guard)?;
    }
    Ok(())
}

/// Appends conditions: a count, and each condition. None stands for no IF.
#[tactic(auto, using(crate::proofs::Kept::keeps_all, crate::proofs::Kept::keeps_front, crate::proofs::Kept::keeps_more), unfolding(crate::specs::BodySpelling::listed))]
fn put_conditions(out: &mut Bytes, guards: &Conditions) -> Result<(), OutOfMemory>
    requires count { length guards.now < 256 }
    requires short { AllByRecursion IsShortCondition guards.now }
    ensures ok { OnOk result (out.new ≡ out.old ++ listed condition_bytes guards.now) }
    ensures kept { OnErr result (Keeps out.old out.new) }
    ensures fits { OnOk result (AllByRecursion HasTerms guards.now) }
{
    put_u8(out, guards.len() as u8)?;
    put_each_condition(out, guards.as_slice())
}

/// The number of an update that sets its key.
const SET: u8 = 1;

/// The number of an update that deletes its key.
const DELETE: u8 = 2;

#[tactic(auto, using(crate::proofs::Kept::keeps_all, crate::proofs::Kept::keeps_front, crate::proofs::Kept::keeps_more), unfolding(crate::specs::BodySpelling::update_bytes))]
fn put_update(out: &mut Bytes, update: &Update) -> Result<(), OutOfMemory>
    requires { IsShortUpdate update.now }
    ensures ok { OnOk result (out.new ≡ out.old ++ update_bytes update.now) }
    ensures kept { OnErr result (Keeps out.old out.new) }
    ensures fits { OnOk result (SetsTerms update.now) }
{
    match update {
        Update::Set { key, value } => {
            put_marked_key(out, SET, key)?;
            put_sum(out, value)
        }
        Update::Delete { key } => put_marked_key(out, DELETE, key),
    }
}

#[tactic(auto, using(crate::proofs::Kept::keeps_all, crate::proofs::Kept::keeps_front, crate::proofs::Kept::keeps_more))]
fn put_each_update(out: &mut Bytes, updates: &[Update]) -> Result<(), OutOfMemory>
    requires { AllByRecursion IsShortUpdate updates.now }
    ensures ok { OnOk result (out.new ≡ out.old ++ flat_map update_bytes updates.now) }
    ensures kept { OnErr result (Keeps out.old out.new) }
    ensures fits { OnOk result (AllByRecursion SetsTerms updates.now) }
{
    for update in updates {
        put_update(out, update)?;
    }
    Ok(())
}

/// Appends updates: a count, and each update.
#[tactic(auto, using(crate::proofs::Kept::keeps_all, crate::proofs::Kept::keeps_front, crate::proofs::Kept::keeps_more), unfolding(crate::specs::BodySpelling::listed))]
fn put_updates(out: &mut Bytes, updates: &Updates) -> Result<(), OutOfMemory>
    requires count { length updates.now < 256 }
    requires short { AllByRecursion IsShortUpdate updates.now }
    ensures ok { OnOk result (out.new ≡ out.old ++ listed update_bytes updates.now) }
    ensures kept { OnErr result (Keeps out.old out.new) }
    ensures fits { OnOk result (AllByRecursion SetsTerms updates.now) }
{
    put_u8(out, updates.len() as u8)?;
    put_each_update(out, updates.as_slice())
}

#[tactic(auto, using(crate::proofs::Kept::keeps_all, crate::proofs::Kept::keeps_front, crate::proofs::Kept::keeps_more), unfolding(crate::specs::BodySpelling::body_bytes))]
fn put_parts(out: &mut Bytes, parts: &BodyParts) -> Result<(), OutOfMemory>
    requires { IsShortBody parts.now }
    ensures ok { OnOk result (out.new ≡ out.old ++ body_bytes parts.now) }
    ensures kept { OnErr result (Keeps out.old out.new) }
    ensures guards { OnOk result (AllByRecursion HasTerms parts.now.guards) }
    ensures updates { OnOk result (AllByRecursion SetsTerms parts.now.updates) }
{
    put_lets(out, &parts.lets)?;
    put_select(out, &parts.select)?;
    put_conditions(out, &parts.guards)?;
    put_updates(out, &parts.updates)
}

/// The bytes of a body, in memory that is taken at once.
pub(crate) fn code_of(parts: &BodyParts) -> Result<Bytes, OutOfMemory>
    requires { IsBody parts.now }
    ensures { IfOk result (λ code. IsCodeOf parts.now code) }
{
    let room = parts_length(parts);
    let mut code = Bytes::new(parts.lets.allocator());
    code.reserve(room as usize)?;
    put_parts(&mut code, parts)?;
    Ok(code)
}
