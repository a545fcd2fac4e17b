//! A list whose value stands in place if it is the only one.
ghost use Rattle.std.specs.Prelude.{◌≡◌, ◌==◌, ◌≤◌, [], ◌∷◌, ◌++◌, length, insert, IfOk, OnOk, OnErr, MatchOption};
ghost use Rattle.acc_base.specs.ShortList.{values_of};

use crate::memory::{Duplicate, OutOfMemory};
use std::alloc::Global;
use std::marker::Model;

#[derive(Debug, Drop)]
enum Form<T> {
    Nothing,
    One([T; 1]),
    Many(Box<Vec<T>>),
}

/// A list of values. Mostly there is none or one, which stands in place. Contracts see the values in their order, and nothing of
/// where they stand.
#[derive(Debug, Drop)]
pub struct ShortList<T> {
    alloc: Global,
    form: Form<T>,
}

impl<T> Model for ShortList<T> {
    ghost use Rattle.std.specs.Prelude.{List};
    ghost use Rattle.acc_base.specs.ShortList.{values_of};

    ghost Value = { List T };

    ghost view = { λ l. values_of l.form };
}

impl<T> ShortList<T> {
    /// No values. It takes no memory.
    pub fn new(alloc: Global) -> ShortList<T>
        ensures { result ≡ [] }
    {
        ShortList {
            alloc,
            form: Form::Nothing,
        }
    }

    /// The allocator of the values, for a list beside them.
    pub fn allocator(&self) -> Global {
        self.alloc
    }

    /// The values as a slice.
    pub fn as_slice(&self) -> &[T]
        ensures { result.now ≡ self.now }
    {
        match &self.form {
            Form::Nothing => &[],
            Form::One(alone) => &alone[..],
            Form::Many(values) => values.as_slice(),
        }
    }

    /// Whether there is no value.
    pub fn is_empty(&self) -> bool
        ensures { result ≡ (length self.now == 0) }
    {
        self.as_slice().is_empty()
    }
}

impl<T: Copy> ShortList<T> {
    /// Puts a value at a place, with what stood from there on after it. The first value takes no memory. Without memory for it
    /// the list is as before.
    pub fn insert(&mut self, place: usize, value: T) -> Result<(), OutOfMemory>
        requires { place ≤ length self.old }
        ensures ok { OnOk result (self.new ≡ insert self.old place value) }
        ensures err { OnErr result (self.new ≡ self.old) }
    {
        match &mut self.form {
            Form::Nothing => self.form = Form::One([value]),
            Form::One(alone) => {
                let mut values = with_room(self.alloc, alone[0])?;
                values.insert(place, value)?;
                self.form = Form::Many(Box::new(self.alloc, values)?);
            }
            Form::Many(values) => values.insert(place, value)?,
        }
        Ok(())
    }

    /// Puts a value after the others. The first one takes no memory. Without memory for it the list is as before.
    pub fn push(&mut self, value: T) -> Result<(), OutOfMemory>
        ensures ok { OnOk result (self.new ≡ self.old ++ value ∷ []) }
        ensures err { OnErr result (self.new ≡ self.old) }
    {
        match &mut self.form {
            Form::Nothing => self.form = Form::One([value]),
            Form::One(alone) => {
                let mut values = with_room(self.alloc, alone[0])?;
                values.push(value)?;
                self.form = Form::Many(Box::new(self.alloc, values)?);
            }
            Form::Many(values) => values.push(value)?,
        }
        Ok(())
    }

    /// Takes the first value away.
    pub fn take_first(&mut self) -> Option<T>
        ensures { MatchOption result (self.old ≡ []) (λ value. self.old ≡ value ∷ self.new) }
    {
        match &mut self.form {
            Form::Nothing => None,
            Form::One(alone) => {
                let value = alone[0];
                self.form = Form::Nothing;
                Some(value)
            }
            Form::Many(values) => first_of(values),
        }
    }
}

impl<T: Duplicate> ShortList<T> {
    /// An equal list. One value alone takes no more memory than its copy does.
    pub fn copy(&self) -> Result<ShortList<T>, OutOfMemory>
        ensures { IfOk result (λ copy. copy ≡ self.now) }
    {
        let form = match &self.form {
            Form::Nothing => Form::Nothing,
            Form::One(alone) => Form::One([alone[0].copy()?]),
            Form::Many(values) => {
                let values = T::copy_all(self.alloc, values.as_slice())?;
                Form::Many(Box::new(self.alloc, values)?)
            }
        };
        Ok(ShortList {
            alloc: self.alloc,
            form,
        })
    }
}

// A value, with room for one more beside it.
fn with_room<T: Copy>(alloc: Global, alone: T) -> Result<Vec<T>, OutOfMemory>
    ensures { IfOk result (λ values. values.items ≡ alone ∷ []) }
{
    let mut values = Vec::with_capacity(alloc, 2)?;
    values.push(alone)?;
    Ok(values)
}

fn first_of<T: Copy>(values: &mut Vec<T>) -> Option<T>
    ensures { MatchOption result (values.old.items ≡ []) (λ value. values.old.items ≡ value ∷ values.new.items) }
{
    if values.is_empty() {
        return None;
    }
    Some(values.remove(0))
}
