//! Questions about some places of the columns. Where enough of them lie close together, the lanes are asked for their block,
//! and else each place is looked at.
ghost use Rattle.std.specs.Prelude.{◌≡◌, ◌<◌, ◌≤◌, ◌++◌, [], ◌∷◌, List, length, take, IfOk, OnOk};
ghost use Rattle.acc_stamp.specs.declared.stamps.Stamp.{Stamp};
ghost use Rattle.acc_index.specs.Columns.{IsEven};
ghost use Rattle.acc_index.specs.Noted.{IsGreatestStamp};
ghost use Rattle.acc_index.specs.Places.{InRange, others, those_below, stamps_of, ids_of, later_of};

use crate::blocks::BLOCK;
use crate::columns::Columns;
use acc_base::OutOfMemory;
use acc_stamp::{Stamp, TxnId};

/// How many users make a block worth asking the lanes.
const ENOUGH: usize = 8;

impl Columns {
    /// The greatest of some stamp and of those of other transactions at these places.
    pub fn greatest_of(&self, places: &[usize], id: TxnId, so_far: Option<Stamp>) -> Option<Stamp>
        requires even { IsEven self.now }
        requires in_range { InRange self.now places.now }
        ensures { (earlier : List Stamp) → IsGreatestStamp earlier so_far → IsGreatestStamp (earlier ++ stamps_of self.now (others self.now id places.now)) result }
    {
        let mut greatest = so_far;
        let mut rest = places;
        while !rest.is_empty() {
            let (taken, found) = self.greatest_next(rest, id);
            greatest = later(greatest, found);
            rest = &rest[taken..];
        }
        greatest
    }

    /// Adds the other transactions at these places whose own stamp is smaller than the bound.
    pub fn collect_below(
        &self,
        places: &[usize],
        id: TxnId,
        bound: Stamp,
        found: &mut Vec<TxnId>,
    ) -> Result<(), OutOfMemory>
        requires even { IsEven self.now }
        requires in_range { InRange self.now places.now }
        ensures { OnOk result (found.new.items ≡ found.old.items ++ ids_of self.now (those_below self.now bound (others self.now id places.now))) }
    {
        let mut rest = places;
        while !rest.is_empty() {
            let taken = self.collect_next(rest, id, bound, found)?;
            rest = &rest[taken..];
        }
        Ok(())
    }

    /// Adds the other transactions at these places.
    pub fn collect_others(
        &self,
        places: &[usize],
        id: TxnId,
        found: &mut Vec<TxnId>,
    ) -> Result<(), OutOfMemory>
        requires even { IsEven self.now }
        requires in_range { InRange self.now places.now }
        ensures { OnOk result (found.new.items ≡ found.old.items ++ ids_of self.now (others self.now id places.now)) }
    {
        for place in places {
            if self.is_other(*place, id) {
                found.push(self.id(*place))?;
            }
        }
        Ok(())
    }

    /// Adds the transactions at these places.
    pub fn collect(&self, places: &[usize], found: &mut Vec<TxnId>) -> Result<(), OutOfMemory>
        requires even { IsEven self.now }
        requires in_range { InRange self.now places.now }
        ensures { OnOk result (found.new.items ≡ found.old.items ++ ids_of self.now places.now) }
    {
        for place in places {
            found.push(self.id(*place))?;
        }
        Ok(())
    }

    // The greatest stamp at the first of these places that are answered together, and how many these are.
    fn greatest_next(&self, places: &[usize], id: TxnId) -> (usize, Option<Stamp>)
        requires even { IsEven self.now }
        requires in_range { InRange self.now places.now }
        requires some { 0 < length places.now }
        ensures some { 0 < result.0 }
        ensures within { result.0 ≤ length places.now }
        ensures greatest { IsGreatestStamp (stamps_of self.now (others self.now id (take result.0 places.now))) result.1 }
    {
        if !is_dense(places) {
            return (1, self.greatest_at(places[0], id));
        }
        let block = self.block(places, id);
        let greatest = self.greatest_in(&block);
        (block.taken, greatest)
    }

    fn greatest_at(&self, place: usize, id: TxnId) -> Option<Stamp>
        requires even { IsEven self.now }
        requires in_range { place < length self.now.heights.items }
        ensures { IsGreatestStamp (stamps_of self.now (others self.now id (place ∷ []))) result }
    {
        if self.is_other(place, id) {
            Some(self.stamp(place))
        } else {
            None
        }
    }

    // Adds those at the first of these places that are answered together, and tells how many these are.
    fn collect_next(
        &self,
        places: &[usize],
        id: TxnId,
        bound: Stamp,
        found: &mut Vec<TxnId>,
    ) -> Result<usize, OutOfMemory>
        requires even { IsEven self.now }
        requires in_range { InRange self.now places.now }
        requires some { 0 < length places.now }
        ensures some { IfOk result (λ taken. 0 < taken) }
        ensures within { IfOk result (λ taken. taken ≤ length places.now) }
        ensures found { IfOk result (λ taken. found.new.items ≡ found.old.items ++ ids_of self.now (those_below self.now bound (others self.now id (take taken places.now)))) }
    {
        if !is_dense(places) {
            self.collect_at(places[0], id, bound, found)?;
            return Ok(1);
        }
        let block = self.block(places, id);
        let below = self.below_in(&block, bound);
        self.collect_in(&block, &below, &places[..block.taken], found)?;
        Ok(block.taken)
    }

    fn collect_at(
        &self,
        place: usize,
        id: TxnId,
        bound: Stamp,
        found: &mut Vec<TxnId>,
    ) -> Result<(), OutOfMemory>
        requires even { IsEven self.now }
        requires in_range { place < length self.now.heights.items }
        ensures { OnOk result (found.new.items ≡ found.old.items ++ ids_of self.now (those_below self.now bound (others self.now id (place ∷ [])))) }
    {
        let there = self.id(place);
        if there != id && there.0 < bound {
            found.push(there)?;
        }
        Ok(())
    }
}

// Whether the first of these places have enough others close behind.
fn is_dense(places: &[usize]) -> bool {
    match (places.first(), places.get(ENOUGH - 1)) {
        (Some(first), Some(last)) => last.saturating_sub(*first) < BLOCK,
        _ => false,
    }
}

// The greater of two stamps that may be missing.
fn later(a: Option<Stamp>, b: Option<Stamp>) -> Option<Stamp>
    ensures { result ≡ later_of a b }
{
    match (a, b) {
        (None, _) => b,
        (_, None) => a,
        (Some(x), Some(y)) => Some(if x < y { y } else { x }),
    }
}
