//! A gate at which the first store may wait for a second one.
use acc_ports::Gate;
use std::sync::atomic::{AtomicBool, AtomicU64, Ordering};
use std::thread::yield_now;

/// How often the first store looks for another before it goes on alone.
const LOOKS: u32 = 1_000_000;

/// Whether the first store waits, which one it is, whether another came after it, and whether the first one saw that while it waited.
#[derive(Drop)]
pub struct Meeting {
    waits: bool,
    first: AtomicU64,
    second: AtomicBool,
    met: AtomicBool,
}

impl Meeting {
    /// Nobody has come.
    pub fn new(waits: bool) -> Meeting {
        Meeting {
            waits,
            first: AtomicU64::new(0),
            second: AtomicBool::new(false),
            met: AtomicBool::new(false),
        }
    }

    /// Whether a second store came while the first one waited, or none had to wait.
    pub fn is_over(&self) -> bool {
        !self.waits || self.met.load(Ordering::SeqCst)
    }

    // Waits for another store, but not for ever.
    fn wait(&self) {
        for _ in 0..LOOKS {
            if self.second.load(Ordering::SeqCst) {
                self.met.store(true, Ordering::SeqCst);
                return;
            }
            yield_now();
        }
    }
}

impl Gate for Meeting {
    fn enter(&self, actor: u32, _turn: u64) {
        // A node's number is a multiple of 64.
        if !self.waits || actor % 64 == 0 {
            return;
        }
        let actor = u64::from(actor);
        match self
            .first
            .compare_exchange(0, actor, Ordering::SeqCst, Ordering::SeqCst)
        {
            Ok(_) => self.wait(),
            Err(first) if first != actor => self.second.store(true, Ordering::SeqCst),
            Err(_) => {}
        }
    }
}
