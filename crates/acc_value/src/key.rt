//! Keys and their order.
ghost use Rattle.std.specs.Prelude.{◌≡◌, IfOk};
ghost use Rattle.std.specs.Ordering.{as_partial_cmp};
ghost use Rattle.std.specs.Cmp.{partial_order_from_own_ties};
ghost use Rattle.std.specs.Cmp.Rules.{comparing};
ghost use Rattle.std.proofs.Common.{rules};
ghost use Rattle.acc_value.specs.Key.{key_cmp, key_eq};
ghost use Rattle.acc_value.specs.KeyHash.{hashed, hashed_alike};

use acc_base::{Duplicate, InlineText, OutOfMemory};
use std::alloc::AllocError;
use std::cmp::Ordering;
use std::hash::{Hash, Hasher};

/// The key of a cell: a table and a text in it. Keys are ordered by their texts and then by their tables, both by
/// bytes, so that the keys between two texts lie together whatever their tables are.
#[derive(Debug, Drop)]
pub struct Key {
    /// The name of the table.
    pub table: InlineText,
    /// The text that names the cell in its table.
    pub key: InlineText,
}

impl Key {
    /// An equal key, in memory of its own.
    pub fn copy(&self) -> Result<Key, OutOfMemory>
        ensures { IfOk result (λ copy. copy ≡ self.now) }
    {
        Ok(Key {
            table: self.table.copy()?,
            key: self.key.copy()?,
        })
    }
}

impl Duplicate for Key {
    fn copy(&self) -> Result<Key, OutOfMemory> {
        Key::copy(self)
    }
}

// For the maps of std that are copied with their keys.
impl Clone for Key {
    ghost is_clone = { λ key copy. copy ≡ key };

    fn clone(&self) -> Result<Key, AllocError> {
        match self.copy() {
            Ok(copy) => Ok(copy),
            Err(OutOfMemory) => Err(AllocError),
        }
    }
}

impl PartialEq for Key {
    ghost eq = { key_eq };

    ghost laws = { Prim.search (comparing, rules) };

    fn eq(&self, other: &Key) -> bool {
        self.key == other.key && self.table == other.table
    }
}

impl Eq for Key {
    ghost laws = { Prim.search (comparing, rules) };
}

impl Hash for Key {
    ghost hash_input = { hashed };

    ghost respects_eq = { hashed_alike };

    fn hash<H: Hasher>(&self, state: &mut H) {
        state.write(self.key.as_slice());
        state.write(self.table.as_slice());
    }
}

impl PartialOrd for Key {
    ghost partial_cmp = { as_partial_cmp key_cmp };

    ghost laws = { partial_order_from_own_ties (Prim.search (comparing, rules)) (Prim.search (comparing, rules)) };

    fn partial_cmp(&self, other: &Key) -> Option<Ordering> {
        Some(self.cmp(other))
    }
}

impl Ord for Key {
    ghost cmp = { key_cmp };

    ghost total = { Prim.search (comparing, rules) };

    ghost matches_partial_cmp = { Prim.search (comparing, rules) };

    ghost matches_eq = { Prim.search (comparing, rules) };

    fn cmp(&self, other: &Key) -> Ordering {
        self.key
            .cmp(&other.key)
            .then_with(|| self.table.cmp(&other.table))
    }
}
