//! The transactions that use a key.
ghost use Rattle.std.specs.Prelude.{◌≡◌, ◌||◌, ◌&&◌, Bool, false, List, [], ◌∷◌, ◌++◌, IsTrue, OnOk, Some, if◌then◌else◌};
ghost use Rattle.std.specs.List.{list_any};
ghost use Rattle.acc_value.specs.declared.key.Key.{Key};
ghost use Rattle.acc_value.specs.Key.{key_eq};
ghost use Rattle.acc_audit.specs.Users.{chosen, has_entry, has_mark, is_before as is_before_it, is_lacking, rises, users_at};

use acc_base::OutOfMemory;
use acc_stamp::Stamp;
use acc_value::Key;
use std::alloc::Global;
use std::collections::BTreeMap;

/// A transaction by its number, after the least timestamp that a line decides for it.
pub(crate) type Entry = (Stamp, usize);

/// The transactions that use a key, and those of them that write it, each rising by timestamp.
#[derive(Drop)]
pub(crate) struct Users {
    all: Vec<Entry>,
    writers: Vec<Entry>,
}

impl Users {
    /// Those that conflict over the key with a transaction that uses it so.
    pub(crate) fn against(&self, writes: bool) -> &[Entry]
        ensures { result.now ≡ chosen writes (Some self.now) }
    {
        if writes {
            self.all.as_slice()
        } else {
            self.writers.as_slice()
        }
    }

    // Appends an entry to all of them, and to the writers if it writes the key.
    fn push(&mut self, writes: bool, entry: Entry) -> Result<(), OutOfMemory>
        ensures all { OnOk result (self.new.all.items ≡ self.old.all.items ++ entry ∷ []) }
        ensures writers { OnOk result (self.new.writers.items ≡ (if writes then self.old.writers.items ++ entry ∷ [] else self.old.writers.items)) }
    {
        self.all.push(entry)?;
        if writes {
            self.writers.push(entry)?;
        }
        Ok(())
    }
}

/// Appends an entry to those that use the key.
pub(crate) fn add(
    users: &mut BTreeMap<Key, Users>,
    alloc: Global,
    key: &Key,
    writes: bool,
    entry: Entry,
) -> Result<(), OutOfMemory>
    ensures { OnOk result ((k : Key) (w : Bool) → users_at users.new k w
        ≡ (if key_eq k key.now && (w || writes) then users_at users.old k w ++ entry ∷ [] else users_at users.old k w)) }
{
    match users.get_mut(key) {
        Some(found) => {
            found.push(writes, entry)?;
            Ok(())
        }
        None => begin(users, alloc, key, writes, entry),
    }
}

// Appends an entry to those that use the key, which are none yet.
fn begin(
    users: &mut BTreeMap<Key, Users>,
    alloc: Global,
    key: &Key,
    writes: bool,
    entry: Entry,
) -> Result<(), OutOfMemory>
    requires { has_entry users.old key.now ≡ false }
    ensures { OnOk result ((k : Key) (w : Bool) → users_at users.new k w
        ≡ (if key_eq k key.now && (w || writes) then users_at users.old k w ++ entry ∷ [] else users_at users.old k w)) }
{
    let mut first = Users {
        all: Vec::new(alloc),
        writers: Vec::new(alloc),
    };
    first.push(writes, entry)?;
    users.insert(key.copy()?, first)?;
    Ok(())
}

/// Whether some entry below the timestamp is of another transaction and has no mark. Entries rise by timestamp.
pub(crate) fn lack(entries: &[Entry], number: usize, t: Stamp, marks: &[u64], mark: u64) -> bool
    requires { IsTrue (rises entries.now) }
    ensures { result ≡ list_any (is_lacking number t marks.now mark) entries.now }
{
    for entry in entries {
        if !is_before(*entry, t) {
            return false;
        }
        if lacks(*entry, number, t, marks, mark) {
            return true;
        }
    }
    false
}

// Whether the entry is below the timestamp, of another transaction and without the mark.
fn lacks(entry: Entry, number: usize, t: Stamp, marks: &[u64], mark: u64) -> bool
    ensures { result ≡ is_lacking number t marks.now mark entry }
{
    is_before(entry, t) && entry.1 != number && !is_marked(marks, entry.1, mark)
}

fn is_before(entry: Entry, t: Stamp) -> bool
    ensures { result ≡ is_before_it t entry }
{
    entry.0 < t
}

// Whether the transaction has this mark.
fn is_marked(marks: &[u64], number: usize, mark: u64) -> bool
    ensures { result ≡ has_mark marks.now number mark }
{
    match marks.get(number) {
        Some(held) => *held == mark,
        None => false,
    }
}
