//! A value in a place of its own.
ghost use Rattle.std.specs.Prelude.{◌≡◌, IfOk};

use crate::memory::OutOfMemory;
use std::alloc::Global;
use std::marker::Model;

/// A value in a place of its own, which contracts see as the value. So what holds it stays small, and moving it doesn't move the
/// value.
#[derive(Debug, Drop)]
pub struct Kept<T> {
    place: Box<T>,
}

impl<T> Model for Kept<T> {
    ghost Value = { T };

    ghost coded = { T.code };

    ghost view = { λ k. k.place.value };
}

impl<T: Drop> Kept<T> {
    /// Puts a value in a place of its own.
    pub fn new(alloc: Global, value: T) -> Result<Kept<T>, OutOfMemory>
        ensures { IfOk result (λ kept. kept ≡ value) }
    {
        let place = Box::new(alloc, value)?;
        Ok(Kept { place })
    }
}

impl<T> Kept<T> {
    ghost use Rattle.std.specs.Borrow.{Lends, sem};
    ghost use Rattle.acc_base.specs.contracts.kept.Kept.{the_row};

    /// The value.
    pub fn get(&self) -> &T
        ensures { result.now ≡ self.now }
    {
        self.place.as_ref()
    }

    /// The value, to be changed.
    pub fn get_mut(&mut self) -> &mut T
        ensures value { result.now ≡ self.old }
        ensures* writes_back { sem 𝓛 (Lends (the_row T.row) T.row self.entry result (λ w. w)) }
    {
        self.place.as_mut()
    }
}
