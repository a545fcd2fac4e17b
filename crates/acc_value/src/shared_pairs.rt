//! Pairs of a key and a cell, whose copies share them.
ghost use Rattle.std.specs.Prelude.{◌≡◌, ◌==◌, ◌<◌, ◌≤◌, [], ◌∷◌, length, insert, slice_set, IfOk, OnOk, OnErr};
ghost use Rattle.std.specs.Arc.{arc_value};
ghost use Rattle.acc_value.specs.SharedPairs.{pairs_of};

use crate::key::Key;
use crate::value::Value;
use acc_base::{Duplicate, OutOfMemory};
use std::alloc::Global;
use std::marker::Model;
use std::slice;
use std::sync::Arc;

#[derive(Debug, Drop)]
enum Form {
    Nothing,
    One(Arc<(Key, Option<Value>), Global>),
    Many(Arc<Vec<(Key, Option<Value>)>, Global>),
}

/// Pairs that are copied without copying them: a copy counts one owner more. Mostly there is one pair: it stands beside the
/// count of its owners, in the same memory. Pairs that have other owners take memory of their own before they change.
/// Contracts see the pairs in their order, and nothing of where they stand.
#[derive(Debug, Drop)]
pub(crate) struct SharedPairs {
    alloc: Global,
    form: Form,
}

impl Model for SharedPairs {
    ghost use Rattle.std.specs.Prelude.{List, Option};
    ghost use Rattle.acc_value.specs.declared.key.Key.{Key};
    ghost use Rattle.acc_value.specs.declared.value.Value.{Value as CellValue};
    ghost use Rattle.acc_value.specs.SharedPairs.{pairs_of};

    ghost Value = { List (Key × Option CellValue) };

    ghost view = { λ p. pairs_of p.form };
}

impl SharedPairs {
    /// No pairs, which take no memory yet.
    pub(crate) fn new(alloc: Global) -> SharedPairs
        ensures { result ≡ [] }
    {
        SharedPairs {
            alloc,
            form: Form::Nothing,
        }
    }

    /// The allocator of the pairs.
    pub(crate) fn allocator(&self) -> Global {
        self.alloc
    }

    /// The pairs as a slice.
    pub(crate) fn as_slice(&self) -> &[(Key, Option<Value>)]
        ensures { result.now ≡ self.now }
    {
        match &self.form {
            Form::Nothing => &[],
            Form::One(alone) => slice::from_ref(alone.as_ref()),
            Form::Many(pairs) => pairs.as_slice(),
        }
    }

    /// How many pairs there are.
    pub(crate) fn len(&self) -> usize
        ensures { result ≡ length self.now }
    {
        self.as_slice().len()
    }

    /// Whether there is no pair.
    pub(crate) fn is_empty(&self) -> bool
        ensures { result ≡ (length self.now == 0) }
    {
        self.as_slice().is_empty()
    }

    /// Puts a pair at a place, with what stood from there on behind it. Without memory for it the pairs are as before.
    pub(crate) fn insert(
        &mut self,
        place: usize,
        pair: (Key, Option<Value>),
    ) -> Result<(), OutOfMemory>
        requires { place ≤ length self.old }
        ensures ok { OnOk result (self.new ≡ insert self.old place pair) }
        ensures err { OnErr result (self.new ≡ self.old) }
    {
        match &mut self.form {
            Form::Nothing => {
                self.form = Form::One(Arc::new(self.alloc, pair)?);
                Ok(())
            }
            Form::One(alone) => {
                let more = with_more(self.alloc, slice::from_ref(&**alone), place, pair)?;
                self.form = Form::Many(more);
                Ok(())
            }
            Form::Many(pairs) => insert_among(self.alloc, pairs, place, pair),
        }
    }

    /// Writes a pair in the place of another one. Without memory for it the pairs are as before.
    pub(crate) fn set(
        &mut self,
        place: usize,
        pair: (Key, Option<Value>),
    ) -> Result<(), OutOfMemory>
        requires { place < length self.old }
        ensures ok { OnOk result (self.new ≡ slice_set self.old place pair) }
        ensures err { OnErr result (self.new ≡ self.old) }
    {
        match &mut self.form {
            Form::Nothing => Ok(()),
            Form::One(alone) => {
                *alone = Arc::new(self.alloc, pair)?;
                Ok(())
            }
            Form::Many(pairs) => set_among(self.alloc, pairs, place, pair),
        }
    }

    /// Equal pairs, which are shared with these. They take no memory of their own.
    pub(crate) fn copy(&self) -> Result<SharedPairs, OutOfMemory>
        ensures { IfOk result (λ copy. copy ≡ self.now) }
    {
        let form = match &self.form {
            Form::Nothing => Form::Nothing,
            Form::One(alone) => Form::One(Arc::try_clone(alone)?),
            Form::Many(pairs) => Form::Many(Arc::try_clone(pairs)?),
        };
        Ok(SharedPairs {
            alloc: self.alloc,
            form,
        })
    }
}

// Puts a pair at a place among others.
fn insert_among(
    alloc: Global,
    pairs: &mut Arc<Vec<(Key, Option<Value>)>, Global>,
    place: usize,
    pair: (Key, Option<Value>),
) -> Result<(), OutOfMemory>
    requires { place ≤ length (arc_value pairs.old).items }
    ensures ok { OnOk result ((arc_value pairs.new).items ≡ insert (arc_value pairs.old).items place pair) }
    ensures err { OnErr result ((arc_value pairs.new).items ≡ (arc_value pairs.old).items) }
{
    if let Some(own) = Arc::get_mut(pairs) {
        own.insert(place, pair)?;
        return Ok(());
    }
    *pairs = with_more(alloc, pairs.as_slice(), place, pair)?;
    Ok(())
}

// A copy of the pairs, with one more at a place.
fn with_more(
    alloc: Global,
    pairs: &[(Key, Option<Value>)],
    place: usize,
    pair: (Key, Option<Value>),
) -> Result<Arc<Vec<(Key, Option<Value>)>, Global>, OutOfMemory>
    requires { place ≤ length pairs.now }
    ensures { IfOk result (λ more. (arc_value more).items ≡ insert pairs.now place pair) }
{
    let mut more = Duplicate::copy_all(alloc, pairs)?;
    more.reserve(1)?;
    more.insert(place, pair)?;
    Ok(Arc::new(alloc, more)?)
}

// Writes a pair in the place of another one among others.
fn set_among(
    alloc: Global,
    pairs: &mut Arc<Vec<(Key, Option<Value>)>, Global>,
    place: usize,
    pair: (Key, Option<Value>),
) -> Result<(), OutOfMemory>
    requires { place < length (arc_value pairs.old).items }
    ensures ok { OnOk result ((arc_value pairs.new).items ≡ slice_set (arc_value pairs.old).items place pair) }
    ensures err { OnErr result ((arc_value pairs.new).items ≡ (arc_value pairs.old).items) }
{
    if let Some(own) = Arc::get_mut(pairs) {
        own[place] = pair;
        return Ok(());
    }
    let mut own = Duplicate::copy_all(alloc, pairs.as_slice())?;
    own[place] = pair;
    *pairs = Arc::new(alloc, own)?;
    Ok(())
}
