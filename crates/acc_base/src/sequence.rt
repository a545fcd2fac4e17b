//! A list that contracts see as a plain list.
ghost use Rattle.std.specs.Prelude.{◌≡◌, ◌==◌, ◌≤◌, List, [], ◌∷◌, ◌++◌, length, take, insert, option_to_list, IfOk, OnOk, OnErr};
ghost use Rattle.std.specs.Cmp.Lexicographic.{pointwise, lists_per, lists_equiv, slice_partial_cmp, lists_po, slice_cmp, lists_total, lists_agrees, lists_ties};

use crate::memory::{Duplicate, OutOfMemory};
use std::alloc::Global;
use std::cmp::Ordering;
use std::marker::Model;

/// A list of values. Contracts see the values in their order and nothing of the room that is kept for more.
#[derive(Debug, Drop)]
pub struct Sequence<T> {
    items: Vec<T>,
}

impl<T> Model for Sequence<T> {
    ghost use Rattle.std.specs.Prelude.{List};

    ghost Value = { List T };

    ghost view = { λ s. s.items.items };
}

impl<T> Sequence<T> {
    /// An empty list, which takes no memory yet.
    pub fn new(alloc: Global) -> Sequence<T>
        ensures { result ≡ [] }
    {
        Sequence {
            items: Vec::new(alloc),
        }
    }

    /// The values of a vector, in its own memory.
    pub fn from_vec(items: Vec<T>) -> Sequence<T>
        ensures { result ≡ items.items }
    {
        Sequence { items }
    }

    /// The vector that holds the values.
    pub fn into_vec(self) -> Vec<T>
        ensures { result.items ≡ self }
    {
        let Sequence { items } = self;
        items
    }

    /// The allocator of the values, for a further list beside this one.
    pub fn allocator(&self) -> Global {
        *self.items.allocator()
    }

    /// The values as a slice.
    pub fn as_slice(&self) -> &[T]
        ensures { result.now ≡ self.now }
    {
        self.items.as_slice()
    }

    /// How many values there are.
    pub fn len(&self) -> usize
        ensures { result ≡ length self.now }
    {
        self.items.len()
    }

    /// Whether there is no value.
    pub fn is_empty(&self) -> bool
        ensures { result ≡ (length self.now == 0) }
    {
        self.items.is_empty()
    }

    /// Asks for room for so many more values, so that pushing them takes no more memory. The values stay in any case;
    /// contracts don't see the room.
    pub fn reserve(&mut self, additional: usize) -> Result<(), OutOfMemory>
        ensures { self.new ≡ self.old }
    {
        self.items.reserve(additional)?;
        Ok(())
    }
}

impl<T: Drop> Sequence<T> {
    /// Appends a value. Without memory for it the list is as before.
    pub fn push(&mut self, value: T) -> Result<(), OutOfMemory>
        ensures ok { OnOk result (self.new ≡ self.old ++ value ∷ []) }
        ensures err { OnErr result (self.new ≡ self.old) }
    {
        self.items.push(value)?;
        Ok(())
    }

    /// Puts a value at a place, with what stood from there on behind it. Without memory for it the list is as before.
    pub fn insert(&mut self, place: usize, value: T) -> Result<(), OutOfMemory>
        requires { place ≤ length self.old }
        ensures ok { OnOk result (self.new ≡ insert self.old place value) }
        ensures err { OnErr result (self.new ≡ self.old) }
    {
        self.items.insert(place, value)?;
        Ok(())
    }

    /// Keeps the first values alone.
    pub fn truncate(&mut self, kept: usize)
        ensures { self.new ≡ take kept self.old }
    {
        self.items.truncate(kept);
    }
}

impl<T: Duplicate> Sequence<T> {
    /// A list of equal values.
    pub fn from_slice(alloc: Global, values: &[T]) -> Result<Sequence<T>, OutOfMemory>
        ensures { IfOk result (λ list. list ≡ values.now) }
    {
        Ok(Sequence {
            items: T::copy_all(alloc, values)?,
        })
    }

    /// An equal list, in memory of its own.
    pub fn copy(&self) -> Result<Sequence<T>, OutOfMemory>
        ensures { IfOk result (λ copy. copy ≡ self.now) }
    {
        Sequence::from_slice(self.allocator(), self.as_slice())
    }
}

impl<T: Copy> Sequence<T> {
    /// Appends values. Without memory for all of them the list is as before.
    pub fn extend_from_slice(&mut self, values: &[T]) -> Result<(), OutOfMemory>
        ensures ok { OnOk result (self.new ≡ self.old ++ values.now) }
        ensures err { OnErr result (self.new ≡ self.old) }
    {
        self.items.extend_from_slice(values)?;
        Ok(())
    }
}

impl<T: Duplicate> Duplicate for Sequence<T> {
    fn copy(&self) -> Result<Sequence<T>, OutOfMemory> {
        Sequence::copy(self)
    }
}

impl<T: PartialEq> PartialEq for Sequence<T> {
    ghost eq = { λ x y. pointwise T.eq x y };

    ghost laws = { lists_per T.laws };

    fn eq(&self, other: &Sequence<T>) -> bool {
        self.items == other.items
    }
}

impl<T: Eq> Eq for Sequence<T> {
    ghost laws = { lists_equiv T.Eq.laws };
}

impl<T: PartialOrd> PartialOrd for Sequence<T> {
    ghost partial_cmp = { λ x y. slice_partial_cmp T.partial_cmp x y };

    ghost laws = { lists_po T.PartialOrd.laws };

    fn partial_cmp(&self, other: &Sequence<T>) -> Option<Ordering> {
        self.items.partial_cmp(&other.items)
    }
}

impl<T: Ord> Ord for Sequence<T> {
    ghost cmp = { λ x y. slice_cmp T.cmp x y };

    ghost total = { lists_total T.total };

    ghost matches_partial_cmp = { λ x y. lists_agrees T.matches_partial_cmp x y };

    ghost matches_eq = { λ x y. lists_ties T.cmp T.matches_eq x y };

    fn cmp(&self, other: &Sequence<T>) -> Ordering {
        self.items.cmp(&other.items)
    }
}
