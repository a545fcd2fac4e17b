//! The error of memory, and the trait behind `copy`.
ghost use Rattle.std.specs.Prelude.{◌≡◌, IfOk, IfSome};

use std::alloc::{AllocError, AllocFailed, Global};
use std::error::Error;
use std::fmt;

/// Memory was asked for and refused. Every call that takes memory may answer it, whatever else its contract says.
#[derive(Clone, Copy, Debug, PartialEq, Eq)]
pub struct OutOfMemory;

impl fmt::Display for OutOfMemory {
    fn fmt<W: fmt::Write>(&self, f: &mut fmt::Formatter<W>) -> fmt::Result {
        write!(f, "out of memory")
    }
}

impl Error for OutOfMemory {}

impl From<AllocError> for OutOfMemory {
    fn from(_error: AllocError) -> OutOfMemory {
        OutOfMemory
    }
}

impl<T: Drop> From<AllocFailed<T>> for OutOfMemory {
    fn from(_error: AllocFailed<T>) -> OutOfMemory {
        OutOfMemory
    }
}

/// A value that can be written down a second time, where there is memory for it.
pub trait Duplicate: Drop + Sized {
    /// An equal value, in memory of its own.
    fn copy(&self) -> Result<Self, OutOfMemory>
        ensures { IfOk result (λ copy. copy ≡ self.now) };

    /// Equal values in their order. A type whose values are plain numbers copies them at once.
    fn copy_all(alloc: Global, items: &[Self]) -> Result<Vec<Self>, OutOfMemory>
        ensures { IfOk result (λ copies. copies.items ≡ items.now) }
    {
        let mut copies = Vec::with_capacity(alloc, items.len())?;
        for item in items {
            copies.push(item.copy()?)?;
        }
        Ok(copies)
    }
}

impl Duplicate for u8 {
    fn copy(&self) -> Result<u8, OutOfMemory> {
        Ok(*self)
    }

    fn copy_all(alloc: Global, items: &[u8]) -> Result<Vec<u8>, OutOfMemory> {
        Ok(Vec::from_slice(alloc, items)?)
    }
}

impl Duplicate for u32 {
    fn copy(&self) -> Result<u32, OutOfMemory> {
        Ok(*self)
    }

    fn copy_all(alloc: Global, items: &[u32]) -> Result<Vec<u32>, OutOfMemory> {
        Ok(Vec::from_slice(alloc, items)?)
    }
}

impl Duplicate for u64 {
    fn copy(&self) -> Result<u64, OutOfMemory> {
        Ok(*self)
    }

    fn copy_all(alloc: Global, items: &[u64]) -> Result<Vec<u64>, OutOfMemory> {
        Ok(Vec::from_slice(alloc, items)?)
    }
}

impl Duplicate for i64 {
    fn copy(&self) -> Result<i64, OutOfMemory> {
        Ok(*self)
    }

    fn copy_all(alloc: Global, items: &[i64]) -> Result<Vec<i64>, OutOfMemory> {
        Ok(Vec::from_slice(alloc, items)?)
    }
}

impl Duplicate for bool {
    fn copy(&self) -> Result<bool, OutOfMemory> {
        Ok(*self)
    }
}

impl<A: Duplicate, B: Duplicate> Duplicate for (A, B) {
    fn copy(&self) -> Result<(A, B), OutOfMemory> {
        Ok((self.0.copy()?, self.1.copy()?))
    }
}

impl<T: Duplicate> Duplicate for Option<T> {
    fn copy(&self) -> Result<Option<T>, OutOfMemory> {
        match self {
            Some(value) => Ok(Some(value.copy()?)),
            None => Ok(None),
        }
    }
}
