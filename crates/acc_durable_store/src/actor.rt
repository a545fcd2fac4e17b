//! A store with its disk.
ghost use Rattle.std.specs.Prelude.{◌≡◌, IsTrue, Bool, true, false, not, List, [], ◌∷◌, ◌++◌, ℕ, Option as Maybe, None, Some, Ok, IfOk, OnOk, OnErr, IfSome, is_none};
ghost use Rattle.acc_topology.specs.Layout.{Layout};
ghost use Rattle.acc_ports.specs.Faults.{CountsFaults};
ghost use Rattle.acc_message.specs.declared.message.Message.{Message as Told};
ghost use Rattle.acc_payloads.specs.Stops.{Past, count_of, TellsByChoice};
ghost use Rattle.acc_durable_store.specs.Actor.{IsJournal, AreLeft, AreLeftByChoice, store_at, IsFound, disk_in, store_in, is_shut, sends};

use crate::{DurableStore, StepError, StoreName};
use acc_base::OutOfMemory;
use acc_journal::JournalError;
use acc_message::{Emitted, Event, Message, Messages, Notes};
use acc_payloads::stops::{put, take_all, told};
use acc_payloads::{Restarted, Unsent, Unsents};
use acc_ports::Rig;
use acc_stamp::Actor;
use acc_store::{Prepared, Store};
use acc_topology::Topology;
use std::alloc::Global;

/// A store that is up, or that is down since its disk failed. Where memory was refused and it is down, nothing is known of it but its
/// disk.
#[derive(Debug, Drop)]
pub struct StoreActor<D: Rig> {
    alloc: Global,
    name: StoreName,
    pub(crate) state: StoreState<D>,
    /// What is staged, or what was stopped where the store is down by it: the oldest first.
    unsent: Vec<Unsent>,
    /// How many messages the journal has besides, where the store is down.
    kept: u64,
}

/// The store is down where it is broken or shut.
#[derive(Debug, Drop)]
pub(crate) enum StoreState<D: Rig> {
    Open(DurableStore<D>),
    Shut(D),
}

impl<D: Rig> StoreActor<D> {
    ghost use Rattle.acc_payloads.specs.Items.{without_marks};
    ghost use Rattle.acc_message.specs.StoreRules.{replay};
    ghost use Rattle.acc_store.specs.Stands.{StandsFor as Stands, actor_of};
    ghost use Rattle.acc_durable_store.specs.Store.{StandsFor as Durable, name_in};
    ghost use Rattle.acc_payloads.specs.Stops.{kept_with, is_up, HoldsPayloads};
    ghost use Rattle.acc_durable_store.specs.Actor.{faults_of, IsStaging, StandsFor, OfEachPast, IsAsBefore, OfEachStaging, IsStrictAt, MayTake, MayStage, MaySettle, Steps, Settles, StepsStrictly, SettlesStrictly, RestartsStrictly, ArmsStrictly, StaysStrict, KeptIn, message_stop, past_after, disk_of, is_down};
    ghost use Rattle.acc_durable_store.specs.Weighing.{IsPreparedBy};

    /// The actor of a durable store of this name, which has nothing staged.
    pub fn opened(alloc: Global, name: StoreName, store: DurableStore<D>) -> StoreActor<D>
        requires sound { store.journal.broken ≡ false }
        requires named { name_in store ≡ name }
        requires none_staged { store.journal.group ≡ [] }
        ensures stands { (layout : Layout) (messages : List Told) → Durable layout store messages
            → StandsFor D.Disk layout name (record { acts = messages; held = without_marks store.journal.payloads; stopped = [] }) result }
        ensures up { is_down result ≡ false }
        ensures disk { disk_of result ≡ store.journal.disk }
        ensures strict { IsTrue (D.state store.journal.disk).strict → (layout : Layout) (passed : Maybe ℕ) (past : Past Told)
            → IsStrictAt D.Disk layout name (D.state store.journal.disk).armed passed past result }
    {
        let _sound = store.is_broken();
        StoreActor {
            alloc,
            name,
            state: StoreState::Open(store),
            unsent: Vec::new(alloc),
            kept: 0,
        }
    }

    /// Takes the message that has this number: it is staged and settled. `None` says that its disk failed, and it is down. After
    /// an error it is down where its journal broke, and else as before.
    pub fn take(
        &mut self,
        topology: &Topology,
        number: u64,
        m: &Message,
    ) -> Result<Option<Emitted>, OutOfMemory>
        requires up { is_down self.old ≡ false }
        requires may { MayTake D.Disk topology.now self.old [] m.now }

        ensures ok { IfOk result (λ given. OfEachPast D.Disk topology.now self.old (λ name past. Steps D.Disk topology.now name past (message_stop number m.now) self.new given)) }
        ensures down { IfOk result (λ given. is_down self.new ≡ is_none given) }
        ensures err { OnErr result (is_down self.new ≡ false → IsAsBefore D.Disk topology.now self.old self.new × (disk_of self.new ≡ disk_of self.old)) }
        ensures faults { CountsFaults (result ≡ Ok None) (faults_of D.Disk self.old) (faults_of D.Disk self.new) }

        ensures strict { StepsStrictly D.Disk topology.now self.old self.new (message_stop number m.now) result }
    {
        let prepared = self.prepare(topology, m)?;
        self.stage(topology, number, m, prepared)?;
        let Some(settled) = self.settle()? else {
            return Ok(None);
        };
        self.unsent = settled.into_vec();
        match self.unsent.pop() {
            Some(Unsent { event: _, emitted }) => Ok(Some(emitted)),
            None => unreachable!(),
        }
    }

    /// Plans the step that takes a message after what is staged. It can be weighed and staged as long as the store takes no other. It
    /// makes no call of the disk.
    pub fn prepare(&self, topology: &Topology, m: &Message) -> Result<Prepared, OutOfMemory>
        requires up { is_down self.now ≡ false }
        requires may { MayStage D.Disk topology.now self.now m.now }
        ensures { IfOk result (IsPreparedBy topology.now self.now m.now) }
    {
        let StoreState::Open(store) = &self.state else {
            unreachable!()
        };
        store.prepare(topology, m)
    }

    /// Takes the message that has this number as it was planned, after what is staged. It isn't on the disk before `settle`, which gives
    /// what the store sends for it. After an error all is as before. It makes no call of the disk.
    #[inline(always)]
    pub fn stage(
        &mut self,
        topology: &Topology,
        number: u64,
        m: &Message,
        prepared: Prepared,
    ) -> Result<(), OutOfMemory>
        requires up { is_down self.old ≡ false }
        requires may { MayStage D.Disk topology.now self.old m.now }
        requires prepared { IsPreparedBy topology.now self.old m.now prepared }

        ensures ok { OnOk result (OfEachStaging D.Disk topology.now self.old (λ name past staged. IsStaging D.Disk topology.now name past (staged ++ message_stop number m.now ∷ []) self.new)) }
        ensures err { OnErr result (OfEachStaging D.Disk topology.now self.old (λ name past staged. IsStaging D.Disk topology.now name past staged self.new)) }

        ensures up { is_down self.new ≡ false }
        ensures disk { disk_of self.new ≡ disk_of self.old }
        ensures strict { StaysStrict D.Disk topology.now self.old self.new }
    {
        self.unsent.reserve(1)?;
        let StoreState::Open(store) = &mut self.state else {
            unreachable!()
        };
        let out = store.stage(topology, m, prepared)?;
        let emitted = self.emitted(out);
        let event = Event::Message { number };
        put(&mut self.unsent, Unsent { event, emitted });
        Ok(())
    }

    /// Appends all that is staged as one group, and gives it: it may go out now. `None` says that the disk failed, and the store is down;
    /// what was staged is kept for a restart, which finds all of it on the disk or nothing. After an error it is down too.
    #[inline(always)]
    pub fn settle(&mut self) -> Result<Option<Unsents>, OutOfMemory>
        requires up { is_down self.old ≡ false }
        requires may { MaySettle D.Disk self.old }

        ensures ok { IfOk result (λ given. (layout : Layout) → OfEachStaging D.Disk layout self.old (λ name past staged. Settles D.Disk layout name past staged self.new given)) }
        ensures down { IfOk result (λ given. is_down self.new ≡ is_none given) }
        ensures err { OnErr result (is_down self.new ≡ true) }
        ensures faults { CountsFaults (result ≡ Ok None) (faults_of D.Disk self.old) (faults_of D.Disk self.new) }

        // However much is staged, it is one append.
        ensures strict { SettlesStrictly D.Disk self.old self.new result }
    {
        let StoreState::Open(store) = &mut self.state else {
            unreachable!()
        };
        let kept = store.kept();
        match store.settle() {
            Ok(()) => Ok(Some(take_all(self.alloc, &mut self.unsent))),
            Err(StepError::DiskFault { .. }) => {
                self.kept = kept;
                Ok(None)
            }
            Err(StepError::OutOfMemory) => Err(OutOfMemory),
        }
    }

    /// Crashes the disk, so that one of its images is left, and reopens the store from it. An honest journal is refused only by the disk.
    pub fn restart(
        self,
        topology: &Topology,
        choice: u8,
    ) -> (StoreActor<D>, Result<Restarted, OutOfMemory>)
        ensures ok { IfOk result.1 (λ found. OfEachPast D.Disk topology.now self (λ name past.
            KeptIn topology.now name.actor past found × StandsFor D.Disk topology.now name (past_after found past) result.0)) }
        ensures up { IfOk result.1 (λ found. is_down result.0 ≡ not (is_up found)) }
        ensures faults { CountsFaults (result.1 ≡ Ok Restarted.Down) (faults_of D.Disk self) (faults_of D.Disk result.0) }

        ensures strict { RestartsStrictly D.Disk topology.now choice self result.0 result.1 }
    {
        let kept = self.held();
        let StoreActor {
            alloc,
            name,
            state,
            unsent,
            kept: _,
        } = self;
        let (disk, earlier) = state.into_parts();
        let (state, found) = reopened(
            alloc,
            topology,
            name.actor,
            name.version,
            kept,
            choice,
            disk,
            earlier.as_ref(),
        );
        let (found, unsent) = told(alloc, found, unsent);
        let actor = StoreActor {
            alloc,
            name,
            state,
            unsent,
            kept,
        };
        (actor, found)
    }

    /// Arms a call of the disk: where that is strict, so many more pass and the next one fails.
    pub fn arm(&mut self, calls: u64)
        ensures stands { (layout : Layout) → OfEachStaging D.Disk layout self.old (λ name past staged. IsStaging D.Disk layout name past staged self.new) }
        ensures down { is_down self.new ≡ is_down self.old }
        ensures faults { faults_of D.Disk self.new ≡ faults_of D.Disk self.old }
        ensures strict { ArmsStrictly D.Disk calls self.old self.new }
    {
        match &mut self.state {
            StoreState::Open(store) => store.arm(calls),
            StoreState::Shut(disk) => disk.arm(calls),
        }
    }

    /// Whether it is down.
    pub fn is_down(&self) -> bool
        ensures { result ≡ is_down self.now }
    {
        match &self.state {
            StoreState::Open(store) => store.is_broken(),
            StoreState::Shut(_) => true,
        }
    }

    /// The store, where it is up: it has taken what is staged too.
    pub fn store(&self) -> Option<&Store>
        ensures some { is_none result ≡ is_down self.now }
        ensures stands { IfSome result (λ store. (layout : Layout) → OfEachStaging D.Disk layout self.now (λ name past staged.
            (actor_of store.now ≡ name.actor) × Stands layout store.now (replay layout name.actor (kept_with staged past).acts))) }
    {
        match &self.state {
            StoreState::Open(store) if !store.is_broken() => Some(store.store()),
            _ => None,
        }
    }

    /// Its disk, and the store over it where it isn't shut: also one that its disk's fault took down. Each image of the disk holds
    /// the payloads of the past, without what is staged, and breaks no rule on marks.
    pub fn into_parts(self) -> (D, Option<Store>)
        ensures disk { result.0 ≡ disk_of self }
        ensures store { result.1 ≡ store_in self.state }
        ensures holds { (layout : Layout) → OfEachStaging D.Disk layout self (λ name past staged. (image : List ℕ) → D.is_image result.0 image → HoldsPayloads name.version past image) }
    {
        let StoreActor {
            alloc: _,
            name: _,
            state,
            unsent: _,
            kept: _,
        } = self;
        state.into_parts()
    }
}

impl<D: Rig> StoreActor<D> {
    ghost use Rattle.acc_durable_store.specs.Actor.{OfEachPast};

    // A store notes nothing.
    fn emitted(&self, out: Messages) -> Emitted
        ensures { result ≡ sends out }
    {
        Emitted {
            notes: Notes::new(self.alloc),
            out,
        }
    }

    // How many messages the journal has, without one that was stopped.
    fn held(&self) -> u64
        ensures { (layout : Layout) → OfEachPast D.Disk layout self.now (λ name past. result ≡ count_of past) }
    {
        match &self.state {
            StoreState::Open(store) if !store.is_broken() => store.kept(),
            _ => self.kept,
        }
    }
}

impl<D: Rig> StoreState<D> {
    fn into_parts(self) -> (D, Option<Store>)
        ensures disk { result.0 ≡ disk_in self }
        ensures store { result.1 ≡ store_in self }
    {
        match self {
            StoreState::Open(store) => {
                let (disk, store) = store.into_parts();
                (disk, Some(store))
            }
            StoreState::Shut(disk) => (disk, None),
        }
    }
}

// Crashes the disk and reopens the store, which shares what an earlier one knows. Tells whether the journal has more messages than
// so many, or that the disk failed.
fn reopened<D: Rig>(
    alloc: Global,
    topology: &Topology,
    actor: Actor,
    version: u8,
    kept: u64,
    choice: u8,
    disk: D,
    earlier: Option<&Store>,
) -> (StoreState<D>, Result<Option<bool>, OutOfMemory>)
    ensures ok { IfOk result.1 (λ found. (past : Past Told) → AreLeft D.Disk disk (IsJournal topology.now (store_at actor version)) past → kept ≡ count_of past
        → IsFound D.Disk topology.now (store_at actor version) past found result.0) }
    ensures shut { IfOk result.1 (λ found. is_shut result.0 ≡ is_none found) }
    ensures faults { CountsFaults (result.1 ≡ Ok None) (D.state disk).faults (D.state (disk_in result.0)).faults }

    ensures kind { (D.state (disk_in result.0)).strict ≡ (D.state disk).strict }
    ensures strict { IsTrue (D.state disk).strict → (past : Past Told) (keeps : Bool)
        → AreLeftByChoice D.Disk disk choice (IsJournal topology.now (store_at actor version)) past keeps → kept ≡ count_of past
        → IfOk result.1 (TellsByChoice keeps past.stopped) }
    ensures unarmed { IsTrue (D.state disk).strict → OnOk result.1 ((D.state (disk_in result.0)).armed ≡ None) }
{
    let mut disk = disk;
    if kept == u64::MAX || disk.crash(choice).is_err() {
        return (StoreState::Shut(disk), Err(OutOfMemory));
    }
    match DurableStore::reopen(alloc, topology, actor, version, disk, earlier) {
        Ok(store) => {
            let more = store.kept() > kept;
            (StoreState::Open(store), Ok(Some(more)))
        }
        Err((JournalError::DiskFault, disk)) => (StoreState::Shut(disk), Ok(None)),
        Err((_, disk)) => (StoreState::Shut(disk), Err(OutOfMemory)),
    }
}
