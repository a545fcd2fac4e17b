//! The logical clock of a node.
ghost use Rattle.std.specs.Prelude.{◌≡◌, ◌≤◌, ◌<◌, ◌^◌};
ghost use Rattle.acc_stamp.specs.Clock.{new_clock, next_stamp, after_draw, after_seeing, after_restart};

use crate::stamps::Stamp;
use std::marker::Model;

/// The clock of a node, which draws a stamp greater than each that it drew before, and greater than each `h` that it saw
/// since the last restart.
#[derive(Debug, Drop)]
pub struct Clock {
    node: u32,
    start: u64,
    drawn: u64,
    seen: u64,
}

impl Model for Clock {
    ghost use Rattle.std.specs.Prelude.{◌≤◌};
    ghost use Rattle.acc_stamp.specs.Clock.{ClockState};

    ghost Value = { ClockState };

    ghost view = { λ c. record { node = c.node; start = c.start; drawn = c.drawn; seen = c.seen } };

    ghost invariant = { λ c. c.node ≤ 15 };
}

impl Clock {
    /// A clock that has drawn and seen nothing above `start`.
    pub fn new(node: u32, start: u64) -> Clock
        requires node_in_range { node ≤ 15 }
        requires start_in_range { start ≤ 10 ^ 12 }
        ensures { result ≡ new_clock node start }
    {
        Clock {
            node,
            start,
            drawn: start,
            seen: start,
        }
    }

    /// The number of the node.
    pub fn node(&self) -> u32
        ensures { result ≡ self.now.node }
    {
        self.node
    }

    /// Where it began.
    pub fn start(&self) -> u64
        ensures { result ≡ self.now.start }
    {
        self.start
    }

    /// The stamp that the next draw gives, unless a greater `h` is seen before.
    pub fn peek(&self) -> Stamp
        requires drawn_in_range { self.now.drawn < 2 ^ 62 }
        requires seen_in_range { self.now.seen < 2 ^ 62 }
        ensures { result ≡ next_stamp self.now }
    {
        Stamp {
            h: 1 + self.drawn.max(self.seen),
            origin: self.node * 64,
        }
    }

    /// Draws a stamp, which is never drawn again.
    pub fn draw(&mut self) -> Stamp
        requires drawn_in_range { self.old.drawn < 2 ^ 62 }
        requires seen_in_range { self.old.seen < 2 ^ 62 }
        ensures stamp { result ≡ next_stamp self.old }
        ensures after { self.new ≡ after_draw self.old }
    {
        let stamp = self.peek();
        self.drawn = stamp.h;
        stamp
    }

    /// Takes note of an `h` that came in a message. Every later draw is above it, up to a restart.
    pub fn saw(&mut self, h: u64)
        requires { h < 2 ^ 62 }
        ensures { self.new ≡ after_seeing self.old h }
    {
        self.seen = self.seen.max(h);
    }

    /// Forgets what was seen and keeps what was drawn, as a journal of draws gives the clock back after a crash.
    pub fn restart(&mut self)
        ensures { self.new ≡ after_restart self.old }
    {
        self.seen = self.drawn;
    }
}
