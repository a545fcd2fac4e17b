//! Footprints, and when two of them conflict.
ghost use Rattle.std.specs.Prelude.{◌≡◌, ◌==◌, [], ◌∷◌, ◌++◌, length, IfOk, OnOk, OnErr};
ghost use Rattle.std.specs.Cmp.{partial_equiv_from_equiv};
ghost use Rattle.std.specs.Cmp.Rules.{comparing};
ghost use Rattle.std.proofs.Common.{rules};
ghost use Rattle.acc_value.specs.Pairs.{IsRising};
ghost use Rattle.acc_value.specs.Footprint.{used, uses_eq, clashes};

use crate::key::Key;
use crate::room::insert_pair;
use crate::search::place_of;
use acc_base::{Duplicate, OutOfMemory, SharedSequence};
use std::alloc::Global;
use std::cmp::Ordering;
use std::marker::Model;

/// The keys that a transaction reads or writes, and of each whether it is written, in the order of the keys. Contracts
/// see the pairs as a plain list.
#[derive(Debug, Drop)]
pub struct Footprint {
    uses: SharedSequence<(Key, bool)>,
}

impl Model for Footprint {
    ghost use Rattle.std.specs.Prelude.{List, Bool};
    ghost use Rattle.acc_value.specs.declared.key.Key.{Key};
    ghost use Rattle.acc_value.specs.Pairs.{IsRising};

    ghost Value = { List (Key × Bool) };

    ghost view = { λ f. f.uses };

    ghost invariant = { λ f. IsRising f.uses };
}

impl Footprint {
    /// The footprint of no key, which takes no memory yet.
    pub fn new(alloc: Global) -> Footprint
        ensures { result ≡ [] }
    {
        Footprint {
            uses: SharedSequence::new(alloc),
        }
    }

    /// The keys, rising, each with a flag that tells whether it is written.
    pub fn pairs(&self) -> &[(Key, bool)]
        ensures pairs { result.now ≡ self.now }
        ensures rising { IsRising self.now }
    {
        self.uses.as_slice()
    }

    /// How many keys there are.
    pub fn len(&self) -> usize
        ensures { result ≡ length self.now }
    {
        self.uses.len()
    }

    /// Whether there is no key.
    pub fn is_empty(&self) -> bool
        ensures { result ≡ (length self.now == 0) }
    {
        self.uses.is_empty()
    }

    /// Adds a use of a key: from now on the key is written where it was or this use writes it. Without memory for a
    /// new key the footprint is as before.
    pub fn add(&mut self, key: &Key, writes: bool) -> Result<(), OutOfMemory>
        ensures ok { OnOk result (self.new ≡ used self.old key.now writes) }
        ensures err { OnErr result (self.new ≡ self.old) }
    {
        match place_of(self.uses.as_slice(), key) {
            Ok(place) => {
                let pair = &self.uses.as_slice()[place];
                let joined = (pair.0.copy()?, pair.1 | writes);
                self.uses.set(place, joined)?;
                Ok(())
            }
            Err(place) => {
                insert_pair(&mut self.uses, place, (key.copy()?, writes))?;
                Ok(())
            }
        }
    }

    /// Appends a key that is greater than those before. Without memory for it the footprint is as before.
    pub fn push(&mut self, key: Key, writes: bool) -> Result<(), OutOfMemory>
        requires { IsRising (self.old ++ (key, writes) ∷ []) }
        ensures ok { OnOk result (self.new ≡ self.old ++ (key, writes) ∷ []) }
        ensures err { OnErr result (self.new ≡ self.old) }
    {
        let place = self.uses.len();
        insert_pair(&mut self.uses, place, (key, writes))
    }

    /// An equal footprint, which shares its keys with this one and takes no memory of its own.
    pub fn copy(&self) -> Result<Footprint, OutOfMemory>
        ensures { IfOk result (λ copy. copy ≡ self.now) }
    {
        Ok(Footprint {
            uses: self.uses.copy()?,
        })
    }
}

impl Duplicate for Footprint {
    fn copy(&self) -> Result<Footprint, OutOfMemory> {
        Footprint::copy(self)
    }
}

impl PartialEq for Footprint {
    ghost eq = { uses_eq };

    ghost laws = { partial_equiv_from_equiv (Prim.search (comparing, rules)) };

    fn eq(&self, other: &Footprint) -> bool {
        self.uses == other.uses
    }
}

impl Eq for Footprint {
    ghost laws = { Prim.search (comparing, rules) };
}

/// Whether two transactions conflict: they share a key that isn't merely read by both. Takes time linear in both
/// footprints, and no memory.
pub fn conflicts(a: &Footprint, b: &Footprint) -> bool
    ensures { result ≡ clashes a.now b.now }
{
    let mut left = a.pairs();
    let mut right = b.pairs();
    while let (Some((x, left_rest)), Some((y, right_rest))) = (
        left.split_first(),
        right.split_first(),
    ) {
        match x.0.cmp(&y.0) {
            Ordering::Less => left = left_rest,
            Ordering::Greater => right = right_rest,
            Ordering::Equal => {
                if x.1 || y.1 {
                    return true;
                }
                left = left_rest;
                right = right_rest;
            }
        }
    }
    false
}
