//! A disk in memory.
ghost use Rattle.std.specs.Prelude.{◌≡◌, ◌+◌, ◌≤◌, [], ◌∷◌, ◌++◌, length, take, drop, Some, None, Ok, IfOk, OnOk, OnErr};
ghost use Rattle.acc_ports.specs.Disk.{Torn, Follows, NoFurther, EachCall, OnlyReads, Writes, Syncs};
ghost use Rattle.acc_ports.specs.MemoryDisk.{IsCounted, KeepsBytes, WritesBytes, SyncsBytes};

use crate::disk_calls::DiskCalls;
use crate::surface::Surface;
use crate::{Calls as Listed, Disk, History, PortError, Rig};
use acc_base::{Bytes, OutOfMemory, Sequence};
use std::alloc::Global;
use std::marker::Model;

/// A disk in memory. A write that fails changes no content. A call that finds no memory changes nothing and isn't counted. Only
/// disks without a list of calls that fail are strict.
#[derive(Debug, Drop)]
pub struct MemDisk {
    surface: Surface,
    past: History<Surface>,
    calls: DiskCalls,
}

impl Model for MemDisk {
    ghost use Rattle.acc_ports.specs.MemoryDisk.{MemoryDisk, IsImageOf};
    ghost use Rattle.acc_ports.specs.Disk.{Stands};

    ghost Value = { MemoryDisk };

    ghost view = { λ d. record { now = d.surface; past = d.past.items; armed = d.calls.armed; fails = d.calls.fails; calls = d.calls.calls; faults = d.calls.faults } };

    ghost invariant = { λ d. Stands d.surface.content (IsImageOf d.surface) };
}

impl MemDisk {
    ghost use Rattle.acc_ports.specs.Disk.{Only};
    ghost use Rattle.acc_ports.specs.MemoryDisk.{IsImageOf, settled_on};

    /// A disk that holds these bytes, all synced. Nothing is armed, and it is strict.
    pub fn of(alloc: Global, bytes: Bytes) -> Result<MemDisk, OutOfMemory>
        ensures only { IfOk result (λ disk. Only bytes (IsImageOf disk.now)) }
        ensures value { IfOk result (λ disk. disk ≡ record { now = settled_on bytes; past = []; armed = None; fails = None; calls = 0; faults = 0 }) }
    {
        Ok(MemDisk {
            surface: Surface::holding(alloc, bytes),
            past: History::new(),
            calls: DiskCalls::new(None),
        })
    }

    /// A disk that holds the two bytes 1 and 0, synced. Nothing is armed, and it is strict.
    pub fn new(alloc: Global) -> Result<MemDisk, OutOfMemory>
        ensures only { IfOk result (λ disk. Only (1 ∷ 0 ∷ []) (IsImageOf disk.now)) }
        ensures value { IfOk result (λ disk. disk ≡ record { now = settled_on (1 ∷ 0 ∷ []); past = []; armed = None; fails = None; calls = 0; faults = 0 }) }
    {
        MemDisk::of(alloc, Sequence::from_slice(alloc, &[1, 0])?)
    }

    /// A disk as of `new` whose calls of these numbers fail besides the armed one. Calls of `Disk` are counted from 0. It
    /// isn't strict.
    pub fn listed(alloc: Global, fails: Listed) -> Result<MemDisk, OutOfMemory>
        ensures only { IfOk result (λ disk. Only (1 ∷ 0 ∷ []) (IsImageOf disk.now)) }
        ensures value { IfOk result (λ disk. disk ≡ record { now = settled_on (1 ∷ 0 ∷ []); past = []; armed = None; fails = Some fails; calls = 0; faults = 0 }) }
    {
        let bytes = Sequence::from_slice(alloc, &[1, 0])?;
        Ok(MemDisk {
            surface: Surface::holding(alloc, bytes),
            past: History::new(),
            calls: DiskCalls::new(Some(fails)),
        })
    }
}

impl MemDisk {
    /// What a read gives.
    pub fn content(&self) -> &[u8]
        ensures { result.now ≡ self.now.now.content }
    {
        self.surface.content()
    }
}

impl Disk for MemDisk {
    ghost use Rattle.acc_ports.specs.MemoryDisk.{state_of, IsImageOf, WasImage, counts_now, only_now};

    ghost state = { state_of };

    ghost is_image = { λ d. IsImageOf d.now };

    ghost was_image = { WasImage };

    ghost counts_now = { counts_now };

    ghost only_now = { only_now };

    fn len(&mut self) -> Result<u64, PortError>
        ensures value { IfOk result (λ count. count ≡ length self.old.now.content) }
        ensures reads { OnlyReads (state_of self.old) (state_of self.new) result }
        ensures images { NoFurther (IsImageOf self.old.now) (IsImageOf self.new.now) }
        ensures call { EachCall (state_of self.old) (state_of self.new) (WasImage self.old) (WasImage self.new) (IsImageOf self.new.now) result }
        ensures counted { IsCounted self.old self.new result }
        ensures same { KeepsBytes self.old self.new }
    {
        self.calls.enter()?;
        Ok(self.surface.content().len() as u64)
    }

    /// After an error `into` is as before.
    fn read(&mut self, at: u64, into: &mut [u8]) -> Result<(), PortError>
        requires { at + length into.old ≤ length self.old.now.content }
        ensures bytes { OnOk result (into.new ≡ take (length into.old) (drop at self.old.now.content)) }
        ensures reads { OnlyReads (state_of self.old) (state_of self.new) result }
        ensures images { NoFurther (IsImageOf self.old.now) (IsImageOf self.new.now) }
        ensures call { EachCall (state_of self.old) (state_of self.new) (WasImage self.old) (WasImage self.new) (IsImageOf self.new.now) result }
        ensures counted { IsCounted self.old self.new result }
        ensures same { KeepsBytes self.old self.new }
        ensures untouched { OnErr result (into.new ≡ into.old) }
    {
        let content = self.surface.content();
        self.calls.enter()?;
        let at = at as usize;
        into.copy_from_slice(&content[at..at + into.len()]);
        Ok(())
    }

    fn write_at(&mut self, at: u64, bytes: &[u8]) -> Result<(), PortError>
        requires { at ≤ length self.old.now.content }
        ensures writes { Writes at bytes.now (state_of self.old) (state_of self.new) result }
        ensures images { Follows (Torn at (length bytes.now)) (IsImageOf self.old.now) (IsImageOf self.new.now) }
        ensures call { EachCall (state_of self.old) (state_of self.new) (WasImage self.old) (WasImage self.new) (IsImageOf self.new.now) result }
        ensures counted { IsCounted self.old self.new result }
        ensures bytes { WritesBytes at bytes.now self.old self.new result }
    {
        let at = at as usize;
        let before = self.past.and(&self.surface);
        if self.calls.next_fails() {
            self.surface.fail_at(at, bytes.len())?;
            self.past = before;
            return Err(self.calls.fail());
        }
        self.surface.write_at(at, bytes)?;
        self.past = before;
        self.calls.pass();
        Ok(())
    }

    fn sync(&mut self) -> Result<(), PortError>
        ensures syncs { Syncs (state_of self.old) (state_of self.new) (IsImageOf self.new.now) result }
        ensures images { NoFurther (IsImageOf self.old.now) (IsImageOf self.new.now) }
        ensures call { EachCall (state_of self.old) (state_of self.new) (WasImage self.old) (WasImage self.new) (IsImageOf self.new.now) result }
        ensures counted { IsCounted self.old self.new result }
        ensures bytes { SyncsBytes self.old self.new result }
    {
        if self.calls.next_fails() {
            return Err(self.calls.fail());
        }
        self.calls.pass();
        self.past = self.past.and(&self.surface);
        self.surface.sync();
        Ok(())
    }
}

impl Rig for MemDisk {
    ghost use Rattle.acc_ports.specs.MemoryDisk.{settled_on};
    ghost use Rattle.acc_ports.specs.Strict.{LeftByChoice};
    ghost use Rattle.acc_ports.specs.Moments.{Crashes, Arms};

    /// Crashes as the choice says, also a disk that isn't strict. It needs no memory. The calls that fail by their number, and
    /// the number of the next call, stay.
    fn crash(&mut self, choice: u8) -> Result<(), OutOfMemory>
        ensures crashes { Crashes ⟦<MemDisk as Disk>⟧ choice self.old self.new result }
        ensures ok { result ≡ Ok tt }
        ensures left { LeftByChoice choice self.old.now.content self.old.now.synced self.old.now.written self.new.now.content }
        ensures settled { self.new.now ≡ settled_on self.new.now.content }
        ensures past { self.new.past ≡ self.old.past ++ self.old.now ∷ [] }
        ensures disarmed { self.new.armed ≡ None }
        ensures listed { self.new.fails ≡ self.old.fails }
        ensures calls { self.new.calls ≡ self.old.calls }
    {
        self.past = self.past.and(&self.surface);
        self.surface.crash(choice);
        self.calls.disarm();
        Ok(())
    }

    /// Arms a call, also of a disk that isn't strict: so many more pass unless they fail by their number, and the next one fails.
    fn arm(&mut self, calls: u64)
        ensures arms { Arms ⟦<MemDisk as Disk>⟧ calls self.old self.new }
        ensures value { self.new ≡ record self.old { armed = Some calls } }
    {
        self.calls.arm(calls);
    }
}
