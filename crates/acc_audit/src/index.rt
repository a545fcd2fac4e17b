//! The transactions by the keys that they use.
ghost use Rattle.std.specs.Prelude.{◌≡◌, ◌&&◌, ◌||◌, Bool, ℕ, length, map, IfOk, IsTrue, OnOk};
ghost use Rattle.std.specs.List.{list_all, list_any};
ghost use Rattle.acc_stamp.specs.declared.stamps.Stamp.{Stamp};
ghost use Rattle.acc_value.specs.declared.key.Key.{Key};
ghost use Rattle.acc_audit.specs.Rules.{Differ};
ghost use Rattle.acc_audit.specs.Users.{lacks_at, lacks_in, rises, rises_at, shown, stand_by, stands_at, touches, users_at, uses_at, AllRise, AllStoodRise, AreUsers, IsIndex, NoneAbove};

use crate::decisions::{least, ordered};
use crate::users::{Entry, Users, add, lack};
use acc_base::OutOfMemory;
use acc_document_fields::NameTable;
use acc_report_reader::PlacedLine;
use acc_stamp::Stamp;
use acc_txn::Body;
use acc_value::Key;
use std::alloc::Global;
use std::collections::BTreeMap;
use std::marker::Model;

/// The transactions that some line decides, by the keys that they use.
pub(crate) fn by_keys(
    alloc: Global,
    numbers: &NameTable,
    bodies: &[Body],
    lines: &[PlacedLine<'_>],
) -> Result<BTreeMap<Key, Users>, OutOfMemory>
    requires as_many { length numbers.now ≡ length bodies.now }
    requires differ { Differ numbers.now }
    ensures { IfOk result (IsIndex numbers.now bodies.now lines.now) }
{
    let least = least(alloc, numbers, lines)?;
    let order = ordered(alloc, least.as_slice())?;
    let users = users(alloc, bodies, order.as_slice())?;
    Ok(users)
}

/// By the numbers of transactions, what stands by the keys that they use. Each key is looked up once for each of its users.
#[derive(Drop)]
pub(crate) struct Lookup<'a> {
    stood: Vec<Vec<(Option<&'a Users>, bool)>>,
}

impl<'a> Model for Lookup<'a> {
    ghost use Rattle.std.specs.Prelude.{List};
    ghost use Rattle.acc_audit.specs.Users.{shown_all, Stood};

    ghost Value = { List (List Stood) };

    ghost view = { λ t. shown_all t.stood.items };
}

impl<'a> Lookup<'a> {
    /// What stands by the keys of transactions with these bodies.
    pub(crate) fn of(
        alloc: Global,
        bodies: &[Body],
        users: &'a BTreeMap<Key, Users>,
    ) -> Result<Lookup<'a>, OutOfMemory>
        ensures { IfOk result (λ lookup. lookup ≡ map (stand_by users.now) bodies.now) }
    {
        let mut stood = Vec::with_capacity(alloc, bodies.len())?;
        for body in bodies {
            stood.push(stand(alloc, users, body.uses().pairs())?)?;
        }
        Ok(Lookup { stood })
    }

    /// Whether the transaction conflicts with another that has a lesser timestamp and no mark.
    pub(crate) fn lacks(&self, number: usize, t: Stamp, marks: &[u64], mark: u64) -> bool
        requires { AllStoodRise self.now }
        ensures { result ≡ lacks_in self.now number t marks.now mark }
    {
        match self.stood.get(number) {
            Some(stood) => lack_some(stood.as_slice(), number, t, marks, mark),
            None => false,
        }
    }
}

// What stands by these keys.
fn stand<'a>(
    alloc: Global,
    users: &'a BTreeMap<Key, Users>,
    uses: &[(Key, bool)],
) -> Result<Vec<(Option<&'a Users>, bool)>, OutOfMemory>
    ensures { IfOk result (λ stood. map shown stood.items ≡ map (stands_at users.now) uses.now) }
{
    let mut stood = Vec::with_capacity(alloc, uses.len())?;
    for used in uses {
        stood.push((users.get(&used.0), used.1))?;
    }
    Ok(stood)
}

// Whether some of it has an entry that lacks.
fn lack_some(
    stood: &[(Option<&Users>, bool)],
    number: usize,
    t: Stamp,
    marks: &[u64],
    mark: u64,
) -> bool
    requires { IsTrue (list_all rises_at (map shown stood.now)) }
    ensures { result ≡ list_any (lacks_at number t marks.now mark) (map shown stood.now) }
{
    for one in stood {
        if lack_one(one, number, t, marks, mark) {
            return true;
        }
    }
    false
}

fn lack_one(one: &(Option<&Users>, bool), number: usize, t: Stamp, marks: &[u64], mark: u64) -> bool
    requires { IsTrue (rises_at (shown one.now)) }
    ensures { result ≡ lacks_at number t marks.now mark (shown one.now) }
{
    match one.0 {
        Some(users) => lack(users.against(one.1), number, t, marks, mark),
        None => false,
    }
}

// The transactions of a list by the keys that they use, each with the order of the list.
fn users(
    alloc: Global,
    bodies: &[Body],
    order: &[Entry],
) -> Result<BTreeMap<Key, Users>, OutOfMemory>
    requires { IsTrue (rises order.now) }
    ensures users { IfOk result (AreUsers bodies.now order.now) }
    ensures rise { IfOk result AllRise }
{
    let mut users = BTreeMap::new(alloc);
    for entry in order {
        add_entry(&mut users, alloc, bodies, *entry)?;
    }
    Ok(users)
}

// Appends an entry to those of each key that its transaction uses.
fn add_entry(
    users: &mut BTreeMap<Key, Users>,
    alloc: Global,
    bodies: &[Body],
    entry: Entry,
) -> Result<(), OutOfMemory>
    ensures users { OnOk result ((key : Key) (writes : Bool) (test : Stamp × ℕ → Bool) →
        list_any test (users_at users.new key writes) ≡ (list_any test (users_at users.old key writes) || (touches key writes (uses_at bodies.now entry.1) && test entry))) }
    ensures rise { OnOk result (AllRise users.old → NoneAbove entry.0 users.old → AllRise users.new) }
{
    match bodies.get(entry.1) {
        Some(body) => {
            add_uses(users, alloc, body.uses().pairs(), entry)?;
            Ok(())
        }
        None => Ok(()),
    }
}

// Appends an entry to those of each key that it uses.
fn add_uses(
    users: &mut BTreeMap<Key, Users>,
    alloc: Global,
    uses: &[(Key, bool)],
    entry: Entry,
) -> Result<(), OutOfMemory>
    ensures users { OnOk result ((key : Key) (writes : Bool) (test : Stamp × ℕ → Bool) →
        list_any test (users_at users.new key writes) ≡ (list_any test (users_at users.old key writes) || (touches key writes uses.now && test entry))) }
    ensures rise { OnOk result (AllRise users.old → NoneAbove entry.0 users.old → AllRise users.new) }
{
    for used in uses {
        add(users, alloc, &used.0, used.1, entry)?;
    }
    Ok(())
}
