//! A store over a journal.
ghost use Rattle.std.specs.Prelude.{◌≡◌, ◌≢◌, ◌^◌, ◌<◌, false, List, [], ◌∷◌, ◌++◌, ℕ, length, Ok, Err, IfOk, IfErr, OnOk, OnErr};
ghost use Rattle.acc_topology.specs.Layout.{Layout};
ghost use Rattle.acc_ports.specs.Disk.{IsAtRest};
ghost use Rattle.acc_ports.specs.Moments.{Arms};
ghost use Rattle.acc_message.specs.declared.message.Message.{Message as Told};
ghost use Rattle.acc_message.specs.Fields.{top_of};
ghost use Rattle.acc_message.specs.StoreRules.{store_answer, replay as replayed};
ghost use Rattle.acc_message_code.specs.Fitting.{FitsMessage};
ghost use Rattle.acc_message_code.specs.Weight.{weight_of_all};
ghost use Rattle.acc_record.specs.Stands.{IsFor};
ghost use Rattle.acc_store.specs.Stands.{greatest_in, IsStanding};
ghost use Rattle.acc_store.specs.Weighing.{SendsShort};
ghost use Rattle.acc_store.specs.Prepared.{IsPrepared};
ghost use Rattle.acc_payloads.specs.declared.store.StorePayload.{StorePayload as Payload};
ghost use Rattle.acc_payloads.specs.Journals.{marked_after};
ghost use Rattle.acc_payloads.specs.Store.{IsStoreJournal};
ghost use Rattle.acc_payloads.specs.Items.{without_marks};
ghost use Rattle.acc_journal.specs.Layout.{Reads};
ghost use Rattle.acc_journal.specs.Errors.{port_error};
ghost use Rattle.acc_journal.specs.Journal.{IsOfTheDisk};
ghost use Rattle.acc_journal.specs.Calls.{ReadsDisk};
ghost use Rattle.acc_durable_store.specs.Store.{AllRead, step_answer, actor_in, message_group, AppendsGroup, StandsFor, CanTake, HasTaken, IsAsBefore, IsUntouched, IsTheSame, IsReopened, IsRefusedBy, Refuses, FailsToSettle, IsStillStaged};

use crate::StepError;
use crate::replay::replay;
use crate::staging::StagedJournal;
use crate::taken::Taken;
use acc_base::OutOfMemory;
use acc_journal::{Journal, JournalError};
use acc_message::{Message, Messages};
use acc_ports::{Disk, Rig};
use acc_stamp::Actor;
use acc_store::{Prepared, Store};
use acc_topology::Topology;
use std::alloc::Global;

/// A store whose disk keeps the messages that it took. It is broken once a call of its disk failed or found no memory; then it
/// takes nothing any more, and only its disk is of use.
#[derive(Debug, Drop)]
pub struct DurableStore<D: Disk> {
    alloc: Global,
    store: Store,
    version: u8,
    /// What is staged goes to the disk as one group: payloads, a mark among them where one is due.
    journal: StagedJournal<D>,
    /// Whether the journal or what is staged has a mark.
    marked: bool,
    /// How many messages the journal has.
    kept: u64,
    /// How many messages are staged.
    staged: u64,
}

impl<D: Disk> DurableStore<D> {
    /// A store that has taken no message, on a disk that holds the bytes 1 and 0, synced. It journals as this version, 1 or 2. It
    /// makes no call of the disk and takes no memory.
    pub fn fresh(alloc: Global, actor: Actor, version: u8, disk: D) -> DurableStore<D>
        requires content { (D.state disk).content ≡ 1 ∷ 0 ∷ [] }
        requires rest { IsAtRest (D.state disk) (D.is_image disk) }
        ensures stands { (layout : Layout) → StandsFor layout result [] }
        ensures given { (actor_in result ≡ actor) × (result.version ≡ version) }
        ensures journal { (result.journal.disk ≡ disk) × (result.journal.payloads ≡ []) × (result.journal.group ≡ []) }
        ensures lasts { (image : List ℕ) → D.is_image result.journal.disk image → Reads image [] }
    {
        DurableStore {
            alloc,
            store: Store::new(alloc, actor),
            version,
            journal: StagedJournal::new(alloc, Journal::fresh(alloc, disk)),
            marked: false,
            kept: 0,
            staged: 0,
        }
    }

    /// Opens the store from the disk that a crash left. Its state is the replay of the journal. Every error hands the disk back.
    /// Besides the refusals of `Journal::reopen`, `BadRecord` comes exactly where a payload is no message to this store, is a mark that
    /// may not stand there, names an `h` of 2^62 or more, follows a vote of the replay whose `h` is 2^62 or more, or has a text value
    /// and no mark before it, with the place of its gate. Where the journal spells what an earlier store knows, which stood over this
    /// disk before the crash, say, the new one shares that; nothing else depends on it.
    pub fn reopen(
        alloc: Global,
        topology: &Topology,
        actor: Actor,
        version: u8,
        disk: D,
        earlier: Option<&Store>,
    ) -> Result<DurableStore<D>, (JournalError, D)>
        requires { IsAtRest (D.state disk) (D.is_image disk) }

        ensures ok { IfOk result (λ s. IsReopened topology.now s s.journal.payloads) }
        ensures reads { IfOk result (λ s. Reads (D.state disk).content s.journal.payloads) }
        ensures given { IfOk result (λ s. (actor_in s ≡ actor) × (s.version ≡ version)) }
        ensures kept { IfOk result (λ s. s.kept ≡ length (without_marks s.journal.payloads)) }
        ensures disk { IfOk result (λ s. ReadsDisk D.Disk disk s.journal.disk (Ok tt)) }
        ensures err_disk { IfErr result (λ e. ReadsDisk D.Disk disk e.1 (Err (port_error e.0))) }
        ensures err_rest { IfErr result (λ e. e.0 ≢ JournalError.OutOfMemory → IsAtRest (D.state e.1) (D.is_image e.1)) }
        ensures refused { IfErr result (λ e. IsRefusedBy topology.now (D.state disk).content version actor e.0) }
        ensures never { (payloads : List (List ℕ)) (items : List Payload) → Reads (D.state disk).content payloads → IsStoreJournal topology.now version actor payloads items
            → IfErr result (λ e. IsOfTheDisk e.0) }
    {
        let (journal, payloads) = match Journal::reopen(alloc, disk) {
            Ok(opened) => opened,
            Err(refused) => return Err(refused),
        };
        match replay(
            alloc,
            topology,
            actor,
            version,
            payloads.as_slice(),
            earlier,
        ) {
            Ok(replayed) => Ok(DurableStore {
                alloc,
                store: replayed.store,
                version,
                journal: StagedJournal::new(alloc, journal),
                marked: replayed.marked,
                kept: replayed.kept,
                staged: 0,
            }),
            Err(error) => Err((error, journal.into_disk())),
        }
    }

    /// Takes a message. It is on the disk, synced, before the answers are given. Nothing may be staged.
    pub fn step(&mut self, topology: &Topology, m: &Message) -> Result<Messages, StepError>
        requires can { CanTake topology.now self.old m.now }
        requires none_staged { self.old.journal.group ≡ [] }

        ensures ok { HasTaken topology.now self.old self.new m.now result }
        ensures none_staged { OnOk result (self.new.journal.group ≡ []) }
        ensures fits { result ≢ Err StepError.OutOfMemory → FitsMessage m.now }
        ensures err { IfErr result (Refuses topology.now self.old self.new m.now) }
        ensures same { IsTheSame self.old self.new }

        ensures appended { OnOk result (self.new.journal.payloads ≡ self.old.journal.payloads ++ message_group self.old m.now) }
        ensures appends { AppendsGroup D.Disk self.old self.new (message_group self.old m.now) (step_answer result) }
    {
        let _sound = self.journal.is_broken();
        let prepared = self.prepare(topology, m)?;
        let sent = self.stage(topology, m, prepared)?;
        match self.settle() {
            Ok(()) => Ok(sent),
            Err(StepError::DiskFault { .. }) => Err(StepError::DiskFault { unsent: sent }),
            Err(StepError::OutOfMemory) => Err(StepError::OutOfMemory),
        }
    }

    /// Plans the step that takes a message. It can be weighed and staged as long as the store takes no other. It makes no call of the disk.
    pub fn prepare(&self, topology: &Topology, m: &Message) -> Result<Prepared, OutOfMemory>
        requires store { IsFor (actor_in self.now) m.now }
        requires top { top_of m.now < 2 ^ 62 }
        requires greatest { greatest_in self.now.store < 2 ^ 62 }
        requires stands { IsStanding topology.now self.now.store }
        ensures { IfOk result (IsPrepared topology.now self.now.store m.now) }
    {
        self.store.prepare(topology, m)
    }

    /// Takes a message as it was planned, whose payload isn't on the disk yet: it is staged for `settle`. The answers may go out once that
    /// has succeeded. After an error all is as before. It makes no call of the disk.
    pub fn stage(
        &mut self,
        topology: &Topology,
        m: &Message,
        prepared: Prepared,
    ) -> Result<Messages, OutOfMemory>
        requires can { CanTake topology.now self.old m.now }
        requires prepared { IsPrepared topology.now self.old.store m.now prepared }
        ensures ok { HasTaken topology.now self.old self.new m.now result }
        ensures fits { OnOk result (FitsMessage m.now) }
        ensures journal { OnOk result (self.new.journal ≡ record self.old.journal { group = self.old.journal.group ++ message_group self.old m.now }) }
        ensures err { OnErr result (IsUntouched self.old self.new) }
        ensures same { IsTheSame self.old self.new }
    {
        let before = self.journal.count();
        self.journal
            .put(self.version, self.marked, &Taken { message: m })?;
        match self.store.take(topology, m, prepared) {
            Ok(sent) => {
                self.marked = is_marked(self.version, self.marked);
                self.staged = self.staged.saturating_add(1);
                Ok(sent)
            }
            Err(error) => {
                self.journal.cancel(before);
                Err(error)
            }
        }
    }

    /// Appends all that is staged as one group, in four calls of the disk. With nothing staged it makes none. A fault has nothing
    /// unsent, since `stage` gave the answers. After an error all that was staged still counts as staged.
    #[inline(always)]
    pub fn settle(&mut self) -> Result<(), StepError>
        requires sound { self.old.journal.broken ≡ false }

        ensures ok { OnOk result (IsAsBefore self.old self.new) }
        ensures none_staged { OnOk result (self.new.journal.group ≡ []) }
        ensures nothing { self.old.journal.group ≡ [] → (result ≡ Ok tt) × (self.new ≡ self.old) }
        ensures err { IfErr result (FailsToSettle self.new) }
        ensures err_staged { OnErr result (IsStillStaged self.old self.new) }
        ensures store { self.new.store ≡ self.old.store }
        ensures same { IsTheSame self.old self.new }

        ensures appended { OnOk result (self.new.journal.payloads ≡ self.old.journal.payloads ++ self.old.journal.group) }
        ensures lasts { OnOk result (AllRead D.Disk self.new) }
        ensures appends { self.old.journal.group ≢ [] → AppendsGroup D.Disk self.old self.new self.old.journal.group (step_answer result) }
    {
        let _sound = self.journal.is_broken();
        if self.journal.count() == 0 {
            return Ok(());
        }
        match self.journal.append() {
            Ok(()) => {
                self.kept = self.kept.saturating_add(self.staged);
                self.staged = 0;
                Ok(())
            }
            Err(JournalError::DiskFault) => Err(StepError::DiskFault {
                unsent: Messages::new(self.alloc),
            }),
            Err(JournalError::OutOfMemory) => Err(StepError::OutOfMemory),
            Err(_) => unreachable!(),
        }
    }

    /// How many messages are staged. Takes no memory.
    pub fn staged(&self) -> u64
        ensures { result ≡ self.now.staged }
    {
        self.staged
    }

    /// How many bytes of encoded messages the step that was planned would send. It makes no call of the disk.
    pub fn weigh(
        &self,
        topology: &Topology,
        m: &Message,
        prepared: &Prepared,
    ) -> Result<u64, OutOfMemory>
        requires store { IsFor (actor_in self.now) m.now }
        requires top { top_of m.now < 2 ^ 62 }
        requires greatest { greatest_in self.now.store < 2 ^ 62 }
        requires short { SendsShort topology.now self.now.store m.now }
        requires prepared { IsPrepared topology.now self.now.store m.now prepared.now }
        ensures { IfOk result (λ weight. (messages : List Told) → StandsFor topology.now self.now messages → weight ≡ weight_of_all (store_answer topology.now (actor_in self.now) (replayed topology.now (actor_in self.now) messages) m.now)) }
    {
        self.store.weigh(topology, m, prepared)
    }

    /// The store as it stands after what is journalled and staged. Takes no memory.
    pub fn store(&self) -> &Store
        ensures { result.now ≡ self.now.store }
    {
        &self.store
    }

    /// How many messages the journal has. Neither a mark nor what is staged is counted.
    pub fn kept(&self) -> u64
        ensures { result ≡ self.now.kept }
    {
        self.kept
    }

    /// Whether a call of the disk failed or found no memory.
    pub fn is_broken(&self) -> bool
        ensures value { result ≡ self.now.journal.broken }
        ensures sound { self.now.journal.broken ≡ false → AllRead D.Disk self.now }
    {
        self.journal.is_broken()
    }

    /// The disk under the journal.
    pub fn into_disk(self) -> D
        ensures { result ≡ self.journal.disk }
    {
        let (disk, _store) = self.into_parts();
        disk
    }

    /// The disk under the journal, and the store over it.
    pub fn into_parts(self) -> (D, Store)
        ensures disk { result.0 ≡ self.journal.disk }
        ensures store { result.1 ≡ self.store }
    {
        let DurableStore {
            alloc: _,
            store,
            version: _,
            journal,
            marked: _,
            kept: _,
            staged: _,
        } = self;
        (journal.into_disk(), store)
    }
}

impl<D: Rig> DurableStore<D> {
    /// Arms a call of the disk: where that is strict, so many more pass and the next one fails. It makes no call of the disk and takes no
    /// memory.
    pub fn arm(&mut self, calls: u64)
        ensures arms { Arms D.Disk calls self.old.journal.disk self.new.journal.disk }
        ensures as_before { IsAsBefore self.old self.new }
        ensures same { IsTheSame self.old self.new }
        ensures store { self.new.store ≡ self.old.store }
        ensures journal { self.new.journal ≡ record self.old.journal { disk = self.new.journal.disk } }
    {
        self.journal.arm(calls);
    }
}

// Whether there is a mark once a store of this version has appended a message.
fn is_marked(version: u8, marked: bool) -> bool
    ensures { result ≡ marked_after version marked }
{
    marked || version == 2
}
