//! The calls of a disk in memory.
ghost use Rattle.std.specs.Prelude.{◌≡◌, ◌≤◌, ◌↔◌, IsTrue, Some, None, IfErr, OnOk, OnErr, IsErr};
ghost use Rattle.acc_ports.specs.Faults.{next_count, Rose};
ghost use Rattle.acc_ports.specs.MemoryDisk.{MustFail};
ghost use Rattle.acc_ports.specs.Strict.{after_call};

use crate::{Calls, PortError};

/// How many calls there were, how many failed, and which are to fail.
#[derive(Debug, Drop)]
pub(crate) struct DiskCalls {
    /// How many calls still pass before the armed one, where one is armed.
    pub(crate) armed: Option<u64>,
    /// The numbers of the calls that fail besides, where they are listed.
    pub(crate) fails: Option<Calls>,
    pub(crate) calls: u64,
    pub(crate) faults: u64,
}

impl DiskCalls {
    pub(crate) fn new(fails: Option<Calls>) -> DiskCalls
        ensures { result ≡ record { armed = None; fails = fails; calls = 0; faults = 0 } }
    {
        DiskCalls {
            armed: None,
            fails,
            calls: 0,
            faults: 0,
        }
    }

    /// Whether the next call is to fail.
    pub(crate) fn next_fails(&self) -> bool
        ensures { IsTrue result ↔ MustFail self.now.armed self.now.fails self.now.calls }
    {
        if self.armed == Some(0) {
            return true;
        }
        match &self.fails {
            Some(fails) => fails.as_slice().contains(&self.calls),
            None => false,
        }
    }

    /// Counts a call that needs no memory. The error says that it fails.
    #[inline(always)]
    pub(crate) fn enter(&mut self) -> Result<(), PortError>
        ensures fails { IsErr result ↔ MustFail self.old.armed self.old.fails self.old.calls }
        ensures error { IfErr result (λ error. error ≡ PortError.Failed) }
        ensures passed { OnOk result (self.new ≡ record self.old { armed = after_call self.old.armed; calls = next_count self.old.calls }) }
        ensures failed { OnErr result (self.new ≡ record self.old { armed = after_call self.old.armed; calls = next_count self.old.calls; faults = next_count self.old.faults }) }
        ensures later { self.old.faults ≤ self.new.faults }
        ensures rose { OnErr result (Rose self.old.faults self.new.faults) }
    {
        if self.next_fails() {
            return Err(self.fail());
        }
        self.pass();
        Ok(())
    }

    /// Counts a call that did its work.
    pub(crate) fn pass(&mut self)
        ensures { self.new ≡ record self.old { armed = after_call self.old.armed; calls = next_count self.old.calls } }
    {
        self.armed = match self.armed {
            None | Some(0) => None,
            Some(calls) => Some(calls - 1),
        };
        self.calls = self.calls.saturating_add(1);
    }

    /// Counts a call that failed, and gives its error.
    pub(crate) fn fail(&mut self) -> PortError
        ensures error { result ≡ PortError.Failed }
        ensures counted { self.new ≡ record self.old { armed = after_call self.old.armed; calls = next_count self.old.calls; faults = next_count self.old.faults } }
        ensures later { self.old.faults ≤ self.new.faults }
        ensures rose { Rose self.old.faults self.new.faults }
    {
        self.pass();
        self.faults = self.faults.saturating_add(1);
        PortError::Failed
    }

    /// From now on no call is armed.
    pub(crate) fn disarm(&mut self)
        ensures { self.new ≡ record self.old { armed = None } }
    {
        self.armed = None;
    }

    /// Arms a call: so many more pass, and the next one fails.
    pub(crate) fn arm(&mut self, calls: u64)
        ensures { self.new ≡ record self.old { armed = Some calls } }
    {
        self.armed = Some(calls);
    }
}
