//! Stamps, and the names of transactions and of attempts that are made of one.
use acc_base::{Duplicate, OutOfMemory};
use std::alloc::Global;

/// A logical timestamp. Stamps are ordered by `h`, and of equal `h` by `origin`.
#[derive(Clone, Copy, Debug, PartialEq, Eq, PartialOrd, Ord, Hash)]
pub struct Stamp {
    /// The count of the logical clock that drew it.
    pub h: u64,
    /// Who drew it: the number of the node times 64, plus 0 for the clock of the node and plus the number of the shard
    /// for one of its stores.
    pub origin: u32,
}

impl Stamp {
    /// The stamp that nobody draws. As a ballot it is that of a transaction's first attempt.
    pub const ZERO: Stamp = Stamp { h: 0, origin: 0 };
}

/// The name of a transaction, which is the stamp that its node drew at the begin, `t0`.
#[derive(Clone, Copy, Debug, PartialEq, Eq, PartialOrd, Ord, Hash)]
pub struct TxnId(pub Stamp);

/// The name of an attempt at a transaction: zero for the first one, and for a recovery the stamp that was drawn for it.
#[derive(Clone, Copy, Debug, PartialEq, Eq, PartialOrd, Ord)]
pub struct Ballot(pub Stamp);

impl Ballot {
    /// The ballot of a transaction's first attempt.
    pub const ZERO: Ballot = Ballot(Stamp::ZERO);
}

impl Duplicate for Stamp {
    fn copy(&self) -> Result<Stamp, OutOfMemory> {
        Ok(*self)
    }

    fn copy_all(alloc: Global, items: &[Stamp]) -> Result<Vec<Stamp>, OutOfMemory> {
        Ok(Vec::from_slice(alloc, items)?)
    }
}

impl Duplicate for TxnId {
    fn copy(&self) -> Result<TxnId, OutOfMemory> {
        Ok(*self)
    }

    fn copy_all(alloc: Global, items: &[TxnId]) -> Result<Vec<TxnId>, OutOfMemory> {
        Ok(Vec::from_slice(alloc, items)?)
    }
}

impl Duplicate for Ballot {
    fn copy(&self) -> Result<Ballot, OutOfMemory> {
        Ok(*self)
    }

    fn copy_all(alloc: Global, items: &[Ballot]) -> Result<Vec<Ballot>, OutOfMemory> {
        Ok(Vec::from_slice(alloc, items)?)
    }
}
