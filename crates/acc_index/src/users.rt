//! For each key the places that use it.
ghost use Rattle.std.specs.Prelude.{◌≡◌, ◌++◌, [], ◌∷◌, Bool, true, false, ◌&&◌, if◌then◌else◌, IsTrue, OnOk};
ghost use Rattle.std.specs.Bool.{beq};
ghost use Rattle.acc_value.specs.declared.key.Key.{Key};
ghost use Rattle.acc_value.specs.Key.{key_eq};
ghost use Rattle.acc_value.specs.Pairs.{IsRising};
ghost use Rattle.acc_index.specs.Users.{places_in, room_in, places_at, has_room, HasRooms, placed};

use crate::columns::put;
use acc_base::OutOfMemory;
use acc_value::Key;
use std::alloc::Global;
use std::collections::HashMap;

/// The places that use a key, in the order noted: those that write it, and those that only read it.
#[derive(Debug, Drop)]
pub(crate) struct Users {
    pub writers: Vec<usize>,
    pub readers: Vec<usize>,
}

impl Users {
    fn new(alloc: Global) -> Users
        ensures { (w : Bool) → places_in result w ≡ [] }
    {
        Users {
            writers: Vec::new(alloc),
            readers: Vec::new(alloc),
        }
    }

    // Makes room for one more place of this kind.
    fn reserve(&mut self, writes: bool) -> Result<(), OutOfMemory>
        ensures same { (w : Bool) → places_in self.new w ≡ places_in self.old w }
        ensures kept { (w : Bool) → IsTrue (room_in self.old w) → IsTrue (room_in self.new w) }
        ensures made { OnOk result (IsTrue (room_in self.new writes)) }
    {
        if writes {
            self.writers.reserve(1)?;
        } else {
            self.readers.reserve(1)?;
        }
        Ok(())
    }

    // Adds a place of this kind.
    fn push(&mut self, writes: bool, place: usize)
        requires { IsTrue (room_in self.old writes) }
        ensures { (w : Bool) → places_in self.new w ≡ (if beq writes w then places_in self.old w ++ place ∷ [] else places_in self.old w) }
    {
        if writes {
            put(&mut self.writers, place);
        } else {
            put(&mut self.readers, place);
        }
    }
}

/// The places whose use of a key conflicts with a use that writes it or only reads it: those that write it, and the others too
/// where it is written.
#[inline(always)]
pub(crate) fn users_of<'a>(
    users: &'a HashMap<Key, Users>,
    key: &Key,
    writes: bool,
) -> (&'a [usize], &'a [usize])
    ensures writers { result.0.now ≡ places_at users.now key.now true }
    ensures readers { result.1.now ≡ (if writes then places_at users.now key.now false else []) }
{
    match users.get(key) {
        Some(users) if writes => (&users.writers, &users.readers),
        Some(users) => (&users.writers, &[]),
        None => (&[], &[]),
    }
}

/// Makes room for one more place at each of these keys. The places stay in any case.
pub(crate) fn reserve_all(
    users: &mut HashMap<Key, Users>,
    uses: &[(Key, bool)],
) -> Result<(), OutOfMemory>
    ensures same { (k : Key) → (w : Bool) → places_at users.new k w ≡ places_at users.old k w }
    ensures made { OnOk result (HasRooms users.new uses.now) }
{
    for (key, writes) in uses {
        reserve(users, key, *writes)?;
    }
    Ok(())
}

fn reserve(users: &mut HashMap<Key, Users>, key: &Key, writes: bool) -> Result<(), OutOfMemory>
    ensures same { (k : Key) → (w : Bool) → places_at users.new k w ≡ places_at users.old k w }
    ensures kept { (k : Key) → (w : Bool) → IsTrue (has_room users.old k w) → IsTrue (has_room users.new k w) }
    ensures made { OnOk result (IsTrue (has_room users.new key.now writes)) }
{
    if let Some(there) = users.get_mut(key) {
        return there.reserve(writes);
    }
    let key = key.copy()?;
    let mut there = Users::new(key.table.allocator());
    there.reserve(writes)?;
    users.insert(key, there)?;
    Ok(())
}

/// Adds a place that uses these keys.
pub(crate) fn add_all(users: &mut HashMap<Key, Users>, uses: &[(Key, bool)], place: usize)
    requires rises { IsRising uses.now }
    requires room { HasRooms users.old uses.now }
    ensures { (k : Key) → (w : Bool) → places_at users.new k w ≡ placed (places_at users.old k w) uses.now k w place }
{
    for (key, writes) in uses {
        add(users, key, *writes, place);
    }
}

fn add(users: &mut HashMap<Key, Users>, key: &Key, writes: bool, place: usize)
    requires { IsTrue (has_room users.old key.now writes) }
    ensures set { (k : Key) → (w : Bool) → places_at users.new k w ≡ (if key_eq key.now k && beq writes w then places_at users.old k w ++ place ∷ [] else places_at users.old k w) }
    ensures kept { (k : Key) → key_eq key.now k ≡ false → (w : Bool) → has_room users.new k w ≡ has_room users.old k w }
{
    if let Some(there) = users.get_mut(key) {
        there.push(writes, place);
    }
}
