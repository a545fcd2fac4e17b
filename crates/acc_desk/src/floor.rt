//! What workers tell one another: to whom messages went, and who has nothing to do.
use crate::bell::Bell;
use acc_base::OutOfMemory;
use acc_message::Message;
use acc_stamp::Actor;
use std::alloc::Global;
use std::sync::Wait;
use std::sync::atomic::{AtomicBool, AtomicU64, Ordering};

// The messages to actors whose numbers are equal modulo this are counted together. The actors of a cluster have smaller numbers.
const LANES: usize = 1024;

// The actors of a lane.
#[derive(Drop)]
struct Lane {
    /// How many messages to them were sent.
    sent: AtomicU64,
    /// The bit of the worker that serves them, and all bits before that is told.
    keeper: AtomicU64,
}

/// Where workers call one another, and see that none has anything to do. Nothing is said of what stands there.
///
/// A worker is called once for each entered item that has something for its desks. It rests once it found nothing to do and wasn't called
/// since. Where all rest, nothing can come any more, and the floor has ended.
#[derive(Drop)]
pub struct Floor {
    bells: Vec<Bell>,
    lanes: Vec<Lane>,
    /// The bits of the workers that want to hear of begins.
    waiting: AtomicU64,
    ended: AtomicBool,
}

// The bit of a worker.
fn bit(worker: usize) -> u64 {
    1 << (worker as u64 % 64)
}

impl Floor {
    /// A floor for so many workers, of which none rests.
    pub fn new(alloc: Global, workers: usize) -> Result<Floor, OutOfMemory> {
        let mut bells = Vec::with_capacity(alloc, workers)?;
        for _ in 0..workers {
            bells.push(Bell::new())?;
        }
        let mut lanes = Vec::with_capacity(alloc, LANES)?;
        for _ in 0..LANES {
            lanes.push(Lane {
                sent: AtomicU64::new(0),
                keeper: AtomicU64::new(u64::MAX),
            })?;
        }
        Ok(Floor {
            bells,
            lanes,
            waiting: AtomicU64::new(0),
            ended: AtomicBool::new(false),
        })
    }

    /// How many workers there are.
    pub fn workers(&self) -> usize {
        self.bells.len()
    }

    fn lane(&self, actor: Actor) -> Option<&Lane> {
        self.lanes.get(actor.0 as usize % LANES)
    }

    /// The worker serves the actor from now on.
    pub(crate) fn keep(&self, worker: usize, actor: Actor) {
        if let Some(lane) = self.lane(actor) {
            lane.keeper.store(bit(worker), Ordering::SeqCst);
        }
    }

    /// The worker wants to hear of begins from now on.
    pub(crate) fn await_begins(&self, worker: usize) {
        let _before = self.waiting.fetch_or(bit(worker), Ordering::SeqCst);
    }

    /// Calls the workers that want to hear of begins, since one was entered.
    pub(crate) fn call_waiting(&self) {
        self.call(self.waiting.load(Ordering::SeqCst));
    }

    /// How many messages were sent to an actor.
    pub(crate) fn sent_to(&self, actor: Actor) -> u64 {
        match self.lane(actor) {
            Some(lane) => lane.sent.load(Ordering::SeqCst),
            None => 0,
        }
    }

    /// Counts messages that are about to be entered. Answers the bits of the workers that serve those to whom they go.
    pub(crate) fn send(&self, messages: &[Message]) -> u64 {
        let mut keepers = 0;
        for message in messages {
            if let Some(lane) = self.lane(message.to()) {
                let _before = lane.sent.fetch_add(1, Ordering::SeqCst);
                keepers |= lane.keeper.load(Ordering::SeqCst);
            }
        }
        keepers
    }

    /// Calls the workers with these bits.
    pub(crate) fn call(&self, workers: u64) {
        for worker in 0..self.bells.len() {
            if workers & bit(worker) != 0 {
                self.bells[worker].ring();
            }
        }
    }

    /// How often the worker was called.
    pub(crate) fn calls(&self, worker: usize) -> u64 {
        match self.bells.get(worker) {
            Some(bell) => bell.calls(),
            None => 0,
        }
    }

    /// The worker found nothing to do in a round before which it had been called so often. It waits for another call.
    pub(crate) fn rest<W: Wait>(&self, rt: &W, worker: usize, heard: u64) {
        let Some(bell) = self.bells.get(worker) else {
            return;
        };
        bell.rest(heard);
        self.end();
        bell.wait(rt, heard);
    }

    /// Whether all workers rested.
    pub(crate) fn has_ended(&self) -> bool {
        self.ended.load(Ordering::SeqCst)
    }

    /// The worker takes no part, or no more.
    pub fn clear(&self, worker: usize) {
        if let Some(bell) = self.bells.get(worker) {
            bell.leave();
            self.end();
        }
    }

    // Ends the floor if all rest.
    fn end(&self) {
        if self.is_quiet() {
            self.ended.store(true, Ordering::SeqCst);
            for bell in &self.bells {
                bell.ring();
            }
        }
    }

    // Whether all rest at one moment. Calls are only added, so they did between two looks that found as many.
    fn is_quiet(&self) -> bool {
        match self.calls_at_rest() {
            Some(calls) => self.calls_at_rest() == Some(calls),
            None => false,
        }
    }

    // How many calls there were, where each worker rests.
    fn calls_at_rest(&self) -> Option<u64> {
        let mut calls: u64 = 0;
        for bell in &self.bells {
            calls = calls.wrapping_add(bell.calls_at_rest()?);
        }
        Some(calls)
    }
}
