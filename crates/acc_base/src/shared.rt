//! A list whose copies share their content.
ghost use Rattle.std.specs.Prelude.{◌≡◌, ◌==◌, ◌<◌, ◌≤◌, [], ◌∷◌, ◌++◌, length, insert, slice_set, IfOk, IfSome, IfNone, OnOk, OnErr};
ghost use Rattle.std.specs.Cmp.Lexicographic.{pointwise, lists_per, lists_equiv};
ghost use Rattle.std.specs.Arc.{arc_value};
ghost use Rattle.acc_base.specs.Shared.{items_of};

use crate::memory::{Duplicate, OutOfMemory};
use std::alloc::Global;
use std::marker::Model;
use std::sync::Arc;

/// A list of values that is copied without copying them: a copy counts one owner more. A list that has other owners takes a
/// content of its own before it changes. Contracts see the values in their order, and nothing of who else owns them.
#[derive(Debug, Drop)]
pub struct SharedSequence<T> {
    alloc: Global,
    /// None stands for no values, so that an empty list takes no memory.
    items: Option<Arc<Vec<T>, Global>>,
}

impl<T> Model for SharedSequence<T> {
    ghost use Rattle.std.specs.Prelude.{List};
    ghost use Rattle.acc_base.specs.Shared.{items_of};

    ghost Value = { List T };

    ghost view = { λ s. items_of s.items };
}

impl<T> SharedSequence<T> {
    /// An empty list, which takes no memory yet.
    pub fn new(alloc: Global) -> SharedSequence<T>
        ensures { result ≡ [] }
    {
        SharedSequence { alloc, items: None }
    }

    /// The allocator of the values, for a further list beside this one.
    pub fn allocator(&self) -> Global {
        self.alloc
    }

    /// The values as a slice.
    pub fn as_slice(&self) -> &[T]
        ensures { result.now ≡ self.now }
    {
        match &self.items {
            Some(items) => items.as_slice(),
            None => &[],
        }
    }

    /// How many values there are.
    pub fn len(&self) -> usize
        ensures { result ≡ length self.now }
    {
        self.as_slice().len()
    }

    /// Whether there is no value.
    pub fn is_empty(&self) -> bool
        ensures { result ≡ (length self.now == 0) }
    {
        self.as_slice().is_empty()
    }

    /// An equal list, which shares its values with this one. It takes no memory of its own.
    pub fn copy(&self) -> Result<SharedSequence<T>, OutOfMemory>
        ensures { IfOk result (λ copy. copy ≡ self.now) }
    {
        match &self.items {
            Some(items) => Ok(SharedSequence {
                alloc: self.alloc,
                items: Some(Arc::try_clone(items)?),
            }),
            None => Ok(SharedSequence::new(self.alloc)),
        }
    }
}

impl<T: Drop> SharedSequence<T> {
    /// The values of a vector, which becomes their content.
    pub fn from_vec(alloc: Global, items: Vec<T>) -> Result<SharedSequence<T>, OutOfMemory>
        ensures { IfOk result (λ list. list ≡ items.items) }
    {
        Ok(SharedSequence {
            alloc,
            items: Some(Arc::new(alloc, items)?),
        })
    }
}

impl<T: Duplicate> SharedSequence<T> {
    /// Appends a value. Without memory for it the list is as before.
    pub fn push(&mut self, value: T) -> Result<(), OutOfMemory>
        ensures ok { OnOk result (self.new ≡ self.old ++ value ∷ []) }
        ensures err { OnErr result (self.new ≡ self.old) }
    {
        let place = self.len();
        self.insert(place, value)
    }

    /// Puts a value at a place, with what stood from there on behind it. Without memory for it the list is as before.
    pub fn insert(&mut self, place: usize, value: T) -> Result<(), OutOfMemory>
        requires { place ≤ length self.old }
        ensures ok { OnOk result (self.new ≡ insert self.old place value) }
        ensures err { OnErr result (self.new ≡ self.old) }
    {
        let back = match &mut self.items {
            Some(items) => insert_alone(items, place, value)?,
            None => Some(value),
        };
        if let Some(value) = back {
            let mut own = copy_with_room(self.alloc, self.as_slice())?;
            own.insert(place, value)?;
            self.items = Some(Arc::new(self.alloc, own)?);
        }
        Ok(())
    }

    /// Writes a value in the place of another one. Without memory for a content of its own the list is as before.
    pub fn set(&mut self, place: usize, value: T) -> Result<(), OutOfMemory>
        requires { place < length self.old }
        ensures ok { OnOk result (self.new ≡ slice_set self.old place value) }
        ensures err { OnErr result (self.new ≡ self.old) }
    {
        let back = match &mut self.items {
            Some(items) => set_alone(items, place, value),
            None => Some(value),
        };
        if let Some(value) = back {
            let mut own = T::copy_all(self.alloc, self.as_slice())?;
            own[place] = value;
            self.items = Some(Arc::new(self.alloc, own)?);
        }
        Ok(())
    }
}

/// Puts a value at a place, where the content has one owner; else gives it back.
fn insert_alone<T: Drop>(
    items: &mut Arc<Vec<T>, Global>,
    place: usize,
    value: T,
) -> Result<Option<T>, OutOfMemory>
    requires { place ≤ length (arc_value items.old).items }
    ensures inserted { IfOk result (λ back. IfNone back ((arc_value items.new).items ≡ insert (arc_value items.old).items place value)) }
    ensures given_back { IfOk result (λ back. IfSome back (λ given. (given ≡ value) × ((arc_value items.new).items ≡ (arc_value items.old).items))) }
    ensures err { OnErr result ((arc_value items.new).items ≡ (arc_value items.old).items) }
{
    match Arc::get_mut(items) {
        Some(own) => {
            own.insert(place, value)?;
            Ok(None)
        }
        None => Ok(Some(value)),
    }
}

/// Writes a value in the place of another one, where the content has one owner; else gives it back.
fn set_alone<T: Drop>(items: &mut Arc<Vec<T>, Global>, place: usize, value: T) -> Option<T>
    requires { place < length (arc_value items.old).items }
    ensures set { IfNone result ((arc_value items.new).items ≡ slice_set (arc_value items.old).items place value) }
    ensures given_back { IfSome result (λ back. (back ≡ value) × ((arc_value items.new).items ≡ (arc_value items.old).items)) }
{
    match Arc::get_mut(items) {
        Some(own) => {
            own[place] = value;
            None
        }
        None => Some(value),
    }
}

/// Equal values in a vector that has room for one more.
fn copy_with_room<T: Duplicate>(alloc: Global, items: &[T]) -> Result<Vec<T>, OutOfMemory>
    ensures { IfOk result (λ copies. copies.items ≡ items.now) }
{
    let mut copies = T::copy_all(alloc, items)?;
    copies.reserve(1)?;
    Ok(copies)
}

impl<T: Duplicate> Duplicate for SharedSequence<T> {
    fn copy(&self) -> Result<SharedSequence<T>, OutOfMemory> {
        SharedSequence::copy(self)
    }
}

impl<T: PartialEq> PartialEq for SharedSequence<T> {
    ghost eq = { λ x y. pointwise T.eq x y };

    ghost laws = { lists_per T.laws };

    fn eq(&self, other: &SharedSequence<T>) -> bool {
        self.as_slice() == other.as_slice()
    }
}

impl<T: Eq> Eq for SharedSequence<T> {
    ghost laws = { lists_equiv T.Eq.laws };
}
