//! The bell of a worker.
use std::hint::spin_loop;
use std::sync::Wait;
use std::sync::atomic::{AtomicU64, Ordering};

// How often a worker looks for a call before it sleeps.
const LOOKS: u32 = 100;

// What stands for a worker that takes no part.
const GONE: u64 = u64::MAX;

/// How others call a worker, and see that it rests.
#[derive(Drop)]
pub(crate) struct Bell {
    /// How often it was called.
    calls: AtomicU64,
    /// One more than the calls that it had heard when it last rested, or 0 where it never did.
    rested: AtomicU64,
    /// One more than the calls that it had heard when it went to sleep, or 0 where it is awake. Only the worker writes this, so that
    /// nobody whose call it has heard already can make it look awake.
    asleep: AtomicU64,
}

impl Bell {
    /// The worker was never called, and doesn't rest.
    pub(crate) fn new() -> Bell {
        Bell {
            calls: AtomicU64::new(0),
            rested: AtomicU64::new(0),
            asleep: AtomicU64::new(0),
        }
    }

    /// Calls the worker. Where it sleeps, the first call that it hasn't heard wakes it.
    pub(crate) fn ring(&self) {
        let before = self.calls.fetch_add(1, Ordering::SeqCst);
        if self.asleep.load(Ordering::SeqCst) == before.wrapping_add(1) {
            self.calls.wake_all();
        }
    }

    /// How often the worker was called.
    pub(crate) fn calls(&self) -> u64 {
        self.calls.load(Ordering::SeqCst)
    }

    /// The worker rests, unless it was called more often than this.
    pub(crate) fn rest(&self, heard: u64) {
        self.rested.store(heard.wrapping_add(1), Ordering::SeqCst);
    }

    /// The worker takes no part any more.
    pub(crate) fn leave(&self) {
        self.rested.store(GONE, Ordering::SeqCst);
    }

    /// How often the worker was called, where it rests or takes no part.
    pub(crate) fn calls_at_rest(&self) -> Option<u64> {
        let rested = self.rested.load(Ordering::SeqCst);
        let calls = self.calls();
        if rested == GONE || rested == calls.wrapping_add(1) {
            Some(calls)
        } else {
            None
        }
    }

    /// Waits until the worker was called more often than this.
    pub(crate) fn wait<W: Wait>(&self, rt: &W, heard: u64) {
        for _ in 0..LOOKS {
            if self.calls() != heard {
                return;
            }
            spin_loop();
        }
        for _ in rt.forever() {
            self.asleep.store(heard.wrapping_add(1), Ordering::SeqCst);
            if self.calls() != heard {
                break;
            }
            self.calls.park(rt, (heard % (1 << 32)) as u32);
        }
        self.asleep.store(0, Ordering::SeqCst);
    }
}
