//! The calls of a port over memory.
ghost use Rattle.std.specs.Prelude.{◌≡◌, ◌≤◌, ◌↔◌, IsTrue, Contains};
ghost use Rattle.acc_ports.specs.Faults.{next_count, Rose};

use crate::PortError;
use acc_base::Sequence;

/// Numbers of calls, counted from 0.
pub type Calls = Sequence<u64>;

/// How many calls there were, how many failed, and which are to fail.
#[derive(Debug, Drop)]
pub(crate) struct CallLog {
    pub(crate) fails: Calls,
    pub(crate) calls: u64,
    pub(crate) faults: u64,
}

impl CallLog {
    pub(crate) fn new(fails: Calls) -> CallLog
        ensures { result ≡ record { fails = fails; calls = 0; faults = 0 } }
    {
        CallLog {
            fails,
            calls: 0,
            faults: 0,
        }
    }

    /// Whether the next call is to fail.
    pub(crate) fn next_fails(&self) -> bool
        ensures { IsTrue result ↔ Contains self.now.fails self.now.calls }
    {
        self.fails.as_slice().contains(&self.calls)
    }

    /// Counts a call that did its work.
    pub(crate) fn pass(&mut self)
        ensures { self.new ≡ record self.old { calls = next_count self.old.calls } }
    {
        self.calls = self.calls.saturating_add(1);
    }

    /// Counts a call that failed, and gives its error.
    pub(crate) fn fail(&mut self) -> PortError
        ensures error { result ≡ PortError.Failed }
        ensures counted { self.new ≡ record self.old { calls = next_count self.old.calls; faults = next_count self.old.faults } }
        ensures later { self.old.faults ≤ self.new.faults }
        ensures rose { Rose self.old.faults self.new.faults }
    {
        self.calls = self.calls.saturating_add(1);
        self.faults = self.faults.saturating_add(1);
        PortError::Failed
    }
}
