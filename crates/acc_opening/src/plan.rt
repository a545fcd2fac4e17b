//! The plan of a step.
ghost use Rattle.std.specs.Prelude.{◌≡◌, ◌&&◌, not, IsTrue, is_some, ◌<◌, ◌++◌, [], ◌∷◌, ◌+◌, length, drop, OnOk, IfOk};
ghost use Rattle.acc_opening.specs.Lookup.{lookup};
ghost use Rattle.acc_opening.specs.Touched.{watches_now};
ghost use Rattle.acc_opening.specs.State.{IsUnderWay};
ghost use Rattle.acc_opening.specs.Planned.{IsPlanned};
ghost use Rattle.acc_opening.specs.Known.{IsKnown, IsEmptyPlan};
ghost use Rattle.acc_opening.specs.Plan.{settled_in};
ghost use Rattle.acc_record.specs.Shelf.{record_at};

use crate::lookup::record_of;
use crate::queue::insert;
use crate::scan::last_held;
use crate::touched::{TouchedWaits, add_watch, take_watches};
use crate::turns::{Turn, turn_of};
use acc_base::{OutOfMemory, ShortList};
use acc_record::{Record, Records, Waits, Watch};
use acc_stamp::TxnId;
use std::alloc::Global;
use std::collections::BTreeMap;

/// What a step is planned by: what the store keeps, and the record that the step gives its own transaction.
#[derive(Clone, Copy, Debug)]
pub struct Known<'a> {
    /// The records before the step.
    pub records: &'a Records,
    /// The record of the step's transaction, with what the step brings.
    pub own: &'a Record,
    /// Who waits for whom before the step.
    pub waits: &'a Waits,
    /// The shard of the store.
    pub shard: u32,
}

/// The plan of a step.
#[derive(Debug, Drop)]
pub struct Plan {
    /// The turns.
    pub done: ShortList<Turn>,
    /// What changes in the lists of who waits for whom.
    pub touched: TouchedWaits,
}

/// The plan of a step, as far as it has come.
#[derive(Debug, Drop)]
pub(crate) struct Planning {
    /// The turns so far.
    done: ShortList<Turn>,
    /// The transactions whose turn comes.
    queue: ShortList<Turn>,
    /// What changes in the lists of who waits for whom.
    touched: TouchedWaits,
}

impl Planning {
    // Looks at one that no longer waits where it did: it waits for the last dependency that holds it back, or its turn comes.
    fn wake(&mut self, known: &Known<'_>, woken: &[Watch], place: usize) -> Result<(), OutOfMemory>
        requires one { place < length woken.now }
        requires before { IsUnderWay known.now.shard (lookup known.now.records.now known.now.own.now) (watches_now self.old.touched known.now.waits.now) (drop place woken.now) self.old.done self.old.queue }
        ensures after { OnOk result (IsUnderWay known.now.shard (lookup known.now.records.now known.now.own.now) (watches_now self.new.touched known.now.waits.now) (drop (place + 1) woken.now) self.new.done self.new.queue) }
        ensures done { self.new.done ≡ self.old.done }
    {
        let watch = woken[place];
        let Some(there) = record_of(known.records, known.own, watch.id) else {
            unreachable!()
        };
        let Some(settled) = &there.stable else {
            unreachable!()
        };
        let ids = settled.deps.of_shard(known.shard);
        match last_held(
            known.records,
            known.own,
            self.done.as_slice(),
            settled.t,
            ids,
            watch.place,
        ) {
            Some(held) => {
                let alloc = self.done.allocator();
                let watch = Watch {
                    id: watch.id,
                    place: held,
                };
                add_watch(alloc, &mut self.touched, ids[held], watch)
            }
            None => insert(&mut self.queue, turn_of(there, settled.t, watch.id)),
        }
    }

    // Looks at all that no longer wait where they did.
    fn wake_all(&mut self, known: &Known<'_>, woken: &[Watch]) -> Result<(), OutOfMemory>
        requires before { IsUnderWay known.now.shard (lookup known.now.records.now known.now.own.now) (watches_now self.old.touched known.now.waits.now) woken.now self.old.done self.old.queue }
        ensures after { OnOk result (IsUnderWay known.now.shard (lookup known.now.records.now known.now.own.now) (watches_now self.new.touched known.now.waits.now) [] self.new.done self.new.queue) }
        ensures done { self.new.done ≡ self.old.done }
    {
        for place in 0..woken.len() {
            self.wake(known, woken, place)?;
        }
        Ok(())
    }

    // The turn of a transaction is taken.
    fn advance(&mut self, known: &Known<'_>, turn: Turn) -> Result<(), OutOfMemory>
        requires { IsUnderWay known.now.shard (lookup known.now.records.now known.now.own.now) (watches_now self.old.touched known.now.waits.now) [] self.old.done (turn ∷ self.old.queue) }
        ensures after { OnOk result (IsUnderWay known.now.shard (lookup known.now.records.now known.now.own.now) (watches_now self.new.touched known.now.waits.now) [] self.new.done self.new.queue) }
        ensures done { OnOk result (self.new.done ≡ self.old.done ++ turn ∷ []) }
    {
        self.done.push(turn)?;
        if turn.applies {
            let alloc = self.done.allocator();
            let woken = take_watches(alloc, &mut self.touched, known.waits, turn.id)?;
            self.wake_all(known, &woken)?;
        }
        Ok(())
    }

    // All turns that come are taken, the least one first.
    fn run(&mut self, known: &Known<'_>) -> Result<(), OutOfMemory>
        requires { IsUnderWay known.now.shard (lookup known.now.records.now known.now.own.now) (watches_now self.old.touched known.now.waits.now) [] self.old.done self.old.queue }
        ensures { OnOk result (IsUnderWay known.now.shard (lookup known.now.records.now known.now.own.now) (watches_now self.new.touched known.now.waits.now) [] self.new.done []) }
    {
        while let Some(turn) = self.queue.take_first() {
            self.advance(known, turn)?;
        }
        Ok(())
    }

    // The own transaction becomes stable: it is looked at, and so are those that waited for it.
    fn arrive(&mut self, known: &Known<'_>) -> Result<(), OutOfMemory>
        requires starts { IsEmptyPlan self.old }
        requires known { IsKnown known.now.shard known.now.records.now known.now.own.now known.now.waits.now }
        requires fresh { settled_in (record_at known.now.records.now known.now.own.now.id) ≡ None }
        ensures { OnOk result (IsUnderWay known.now.shard (lookup known.now.records.now known.now.own.now) (watches_now self.new.touched known.now.waits.now) [] self.new.done self.new.queue) }
    {
        let Some(settled) = &known.own.stable else {
            unreachable!()
        };
        let place = settled.deps.of_shard(known.shard).len();
        let alloc = self.done.allocator();
        let id = known.own.id;
        let mut woken = take_watches(alloc, &mut self.touched, known.waits, id)?;
        let own = Watch { id, place };
        if woken.as_slice().is_empty() {
            return self.wake_all(known, &[own]);
        }
        woken.push(own)?;
        self.wake_all(known, &woken)
    }

    // The own transaction was stable before: if it was opened, and its outcome has come now, its turn comes.
    fn resume(&mut self, known: &Known<'_>) -> Result<(), OutOfMemory>
        requires starts { IsEmptyPlan self.old }
        requires known { IsKnown known.now.shard known.now.records.now known.now.own.now known.now.waits.now }
        requires stable { IsTrue (is_some (settled_in (record_at known.now.records.now known.now.own.now.id))) }
        ensures { OnOk result (IsUnderWay known.now.shard (lookup known.now.records.now known.now.own.now) (watches_now self.new.touched known.now.waits.now) [] self.new.done self.new.queue) }
    {
        let own = known.own;
        let Some(settled) = &own.stable else {
            unreachable!()
        };
        if !is_due(own) {
            return Ok(());
        }
        insert(&mut self.queue, turn_of(own, settled.t, own.id))
    }
}

// Whether an opened transaction has an outcome that isn't applied.
fn is_due(own: &Record) -> bool
    ensures { result ≡ ((own.now.opened && is_some own.now.outcome) && not own.now.applied) }
{
    own.opened && own.outcome.is_some() && !own.applied
}

/// Plans a step: what it opens and applies, in the order of the timestamps, and who waits for whom then. It is told whether the
/// transaction was stable before.
pub fn planned(alloc: Global, known: &Known<'_>, was_stable: bool) -> Result<Plan, OutOfMemory>
    requires was { was_stable ≡ is_some (settled_in (record_at known.now.records.now known.now.own.now.id)) }
    requires known { IsKnown known.now.shard known.now.records.now known.now.own.now known.now.waits.now }
    ensures { IfOk result (IsPlanned known.now.shard known.now.records.now known.now.own.now known.now.waits.now) }
{
    let mut plan = Planning {
        done: ShortList::new(alloc),
        queue: ShortList::new(alloc),
        touched: BTreeMap::new(alloc),
    };
    if was_stable {
        plan.resume(known)?;
    } else {
        plan.arrive(known)?;
    }
    plan.run(known)?;
    Ok(Plan {
        done: plan.done,
        touched: plan.touched,
    })
}
