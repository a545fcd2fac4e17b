//! The messages that wait.
ghost use Rattle.std.specs.Prelude.{◌≡◌, ◌≢◌, ℕ, ◌+◌, ◌-◌, ◌^◌, ◌<◌, ◌≤◌, [], ◌∷◌, ◌++◌, length, not, IfOk, OnOk, OnErr, MatchOption, slice_set, true};
ghost use Rattle.acc_message_index.specs.Mail.{posting_at, taken};
ghost use Rattle.acc_message_index.specs.Trees.{leaf, IsTree};
ghost use Rattle.acc_message_index.specs.Standing.{Standing, is_down_at, waits_in, NothingWaits, IsOldest};
ghost use Rattle.acc_message_index.specs.Heads.{IsHead, IsNextWaiting, AreCovered};

use crate::least::{NOTHING, grown, least, set_leaf};
use crate::{Posting, Posts};
use acc_base::OutOfMemory;
use std::alloc::Global;
use std::marker::Model;

/// For so many actors room is made at first. Where more are named it is at least doubled.
const FEWEST: usize = 16;

/// The messages that were sent, which of them are open, and which actors are down. A message waits while it is open and
/// its actor is up. The oldest one that waits is known at once. A change takes constant time, and time logarithmic in the
/// greatest number of an actor where it concerns a late message, counted over many calls.
///
/// A message is known that waits itself, and before which only late ones wait: those that were passed over while their
/// actors were down. It never goes back. For each actor that came up again the first late message to it is known, and the
/// least of these is the oldest. An actor that is down keeps its messages in their order.
#[derive(Debug, Drop)]
pub struct Waiting {
    posts: Posts,
    // For each actor, by its number, whether it is down.
    downs: Vec<bool>,
    // The tree over the first late messages to these actors.
    heads: Vec<u64>,
    // The first message that waits and isn't late, or the number behind all messages.
    first: u64,
}

impl Model for Waiting {
    ghost use Rattle.acc_message_index.specs.Standing.{Standing};
    ghost use Rattle.acc_message_index.specs.Heads.{Kept};

    ghost Value = { Standing };

    ghost view = { λ w. record { sent = w.posts.sent; room = w.posts.room; downs = w.downs.items } };

    ghost invariant = { λ w. Kept w.posts w.downs.items w.heads.items w.first };
}

// The first late message to an actor, if it is up.
fn head_of(posts: &mut Posts, is_down: bool, first: u64, actor: u32) -> u64
    ensures same { posts.new ≡ posts.old }
    ensures head { IsHead posts.old.sent first actor is_down result }
{
    if is_down {
        return NOTHING;
    }
    let Some(post) = posts.next_for(actor) else {
        return NOTHING;
    };
    if post.number >= first {
        return NOTHING;
    }
    post.number
}

// Looks the first late message to an actor up again.
#[inline(never)]
fn refresh(posts: &mut Posts, downs: &[bool], heads: &mut Vec<u64>, first: u64, actor: u32)
    requires tree { IsTree (length downs.now) heads.old.items }
    requires within { actor < length downs.now }
    ensures same { posts.new ≡ posts.old }
    ensures tree { IsTree (length downs.now) heads.new.items }
    ensures head { IsHead posts.old.sent first actor (is_down_at downs.now actor) (leaf (length downs.now) heads.new.items actor) }
    ensures others { (other : ℕ) → other ≢ actor → leaf (length downs.now) heads.new.items other ≡ leaf (length downs.now) heads.old.items other }
{
    let head = head_of(posts, downs[actor as usize], first, actor);
    set_leaf(heads, downs.len(), actor as usize, head);
}

// Behind a message that was closed the first late one to its actor is looked up again, if it was this one.
fn note_closed(
    posts: &mut Posts,
    downs: &[bool],
    heads: &mut Vec<u64>,
    first: u64,
    actor: u32,
    number: u64,
)
    requires tree { IsTree (length downs.now) heads.old.items }
    requires within { actor < length downs.now }
    requires head { leaf (length downs.now) heads.old.items actor ≢ number → IsHead posts.old.sent first actor (is_down_at downs.now actor) (leaf (length downs.now) heads.old.items actor) }
    ensures same { posts.new ≡ posts.old }
    ensures tree { IsTree (length downs.now) heads.new.items }
    ensures head { IsHead posts.old.sent first actor (is_down_at downs.now actor) (leaf (length downs.now) heads.new.items actor) }
    ensures others { (other : ℕ) → other ≢ actor → leaf (length downs.now) heads.new.items other ≡ leaf (length downs.now) heads.old.items other }
{
    if heads[downs.len() + actor as usize] == number {
        refresh(posts, downs, heads, first, actor);
    }
}

// Whether a message is open and its actor is up.
fn waits(posts: &Posts, downs: &[bool], number: u64) -> bool
    requires sent { number < length posts.now.sent }
    requires covered { (posting_at posts.now.sent number).to < length downs.now }
    ensures { result ≡ waits_in posts.now.sent downs.now number }
{
    let posting = posts.posting(number);
    posting.is_open && !downs[posting.to as usize]
}

// The first message that waits, or the number behind all, where this was it before the last message was added.
#[inline(always)]
fn first_behind(posts: &Posts, downs: &[bool], first: u64) -> u64
    requires within { first ≤ length posts.now.sent }
    requires covered { AreCovered posts.now.sent (length downs.now) }
    requires waits { first + 1 < length posts.now.sent → waits_in posts.now.sent downs.now first ≡ true }
    ensures next { IsNextWaiting posts.now.sent downs.now first result }
{
    let count = posts.len();
    if first + 1 < count {
        return first;
    }
    next_waiting(posts, downs, first)
}

// The first message from a number on that waits, or the number behind all messages.
fn next_waiting(posts: &Posts, downs: &[bool], from: u64) -> u64
    requires within { from ≤ length posts.now.sent }
    requires covered { AreCovered posts.now.sent (length downs.now) }
    ensures next { IsNextWaiting posts.now.sent downs.now from result }
{
    let mut number = from;
    while number < posts.len() && !waits(posts, downs, number) {
        number += 1;
    }
    number
}

impl Waiting {
    /// No messages, and no actor is down.
    pub fn new(alloc: Global) -> Result<Waiting, OutOfMemory>
        ensures { IfOk result (λ waiting. waiting ≡ record { sent = []; room = 0; downs = [] }) }
    {
        Ok(Waiting {
            posts: Posts::new(alloc)?,
            downs: Vec::new(alloc),
            heads: Vec::new(alloc),
            first: 0,
        })
    }

    /// How many messages were sent.
    pub fn len(&self) -> u64
        ensures { result ≡ length self.now.sent }
    {
        self.posts.len()
    }

    /// The message with this number.
    pub fn posting(&self, number: u64) -> Posting
        requires { number < length self.now.sent }
        ensures { result ≡ posting_at self.now.sent number }
    {
        self.posts.posting(number)
    }

    /// Whether an actor is down.
    pub fn is_down(&self, actor: u32) -> bool
        ensures { result ≡ is_down_at self.now.downs actor }
    {
        if actor as usize >= self.downs.len() {
            return false;
        }
        self.downs[actor as usize]
    }

    /// Makes room for an actor, so that it can go down, and messages can be sent to it. In any case nothing else changes.
    #[inline(always)]
    pub fn cover(&mut self, actor: u32) -> Result<(), OutOfMemory>
        ensures same { (self.new.sent ≡ self.old.sent) × (self.new.room ≡ self.old.room) }
        ensures downs { (other : ℕ) → is_down_at self.new.downs other ≡ is_down_at self.old.downs other }
        ensures more { length self.old.downs ≤ length self.new.downs }
        ensures covered { OnOk result (actor < length self.new.downs) }
    {
        if (actor as usize) < self.downs.len() {
            return Ok(());
        }
        self.grow(actor)
    }

    #[cold]
    #[inline(never)]
    fn grow(&mut self, actor: u32) -> Result<(), OutOfMemory>
        requires { length self.old.downs ≤ actor }
        ensures same { (self.new.sent ≡ self.old.sent) × (self.new.room ≡ self.old.room) }
        ensures downs { (other : ℕ) → is_down_at self.new.downs other ≡ is_down_at self.old.downs other }
        ensures more { length self.old.downs ≤ length self.new.downs }
        ensures covered { OnOk result (actor < length self.new.downs) }
    {
        let alloc = *self.downs.allocator();
        let count = self.downs.len();
        let more = (actor as usize + 1).max(2 * count).max(FEWEST);
        let heads = grown(alloc, self.heads.as_slice(), count, more)?;
        self.downs.resize(more, false)?;
        self.heads = heads;
        Ok(())
    }

    /// Makes room for so many more messages. Without memory for it, and where the messages and the room for more would be 2^32 or
    /// more, all is as before.
    #[inline(always)]
    pub fn reserve(&mut self, messages: u64) -> Result<(), OutOfMemory>
        ensures ok { OnOk result (self.new ≡ record self.old { room = self.old.room + messages }) }
        ensures err { OnErr result (self.new ≡ self.old) }
        ensures most { OnOk result (messages < 2 ^ 32) }
    {
        if messages == 0 {
            return Ok(());
        }
        self.posts.reserve(messages, 1)?;
        self.posts.release(0, 1);
        Ok(())
    }

    /// Gives up room for so many messages.
    pub fn release(&mut self, messages: u64)
        requires { messages ≤ self.old.room }
        ensures { self.new ≡ record self.old { room = self.old.room - messages } }
    {
        self.posts.release(messages, 0);
    }

    /// Notes a message, the next by number, which the item at `place` sent as its message `index`. A lost one is never open.
    #[inline(always)]
    pub fn add(&mut self, to: u32, place: u32, index: u32, is_lost: bool)
        requires room { 0 < self.old.room }
        requires covered { to < length self.old.downs }
        ensures { self.new ≡ record self.old { sent = self.old.sent ++ record { to = to; place = place; index = index; is_open = not is_lost } ∷ []; room = self.old.room - 1 } }
    {
        self.posts.add(to, place, index, is_lost);
        self.first = first_behind(&self.posts, self.downs.as_slice(), self.first);
    }

    /// Notes that the message with this number is open no more.
    #[inline(always)]
    pub fn close(&mut self, number: u64)
        requires { number < length self.old.sent }
        ensures { self.new ≡ record self.old { sent = taken number self.old.sent } }
    {
        let to = self.posts.posting(number).to;
        self.posts.close(number);
        note_closed(
            &mut self.posts,
            self.downs.as_slice(),
            &mut self.heads,
            self.first,
            to,
            number,
        );
        self.first = next_waiting(&self.posts, self.downs.as_slice(), self.first);
    }

    /// An actor goes down or comes up.
    pub fn set_down(&mut self, actor: u32, is_down: bool)
        requires { actor < length self.old.downs }
        ensures { self.new ≡ record self.old { downs = slice_set self.old.downs actor is_down } }
    {
        self.downs[actor as usize] = is_down;
        refresh(
            &mut self.posts,
            self.downs.as_slice(),
            &mut self.heads,
            self.first,
            actor,
        );
        self.first = next_waiting(&self.posts, self.downs.as_slice(), self.first);
    }

    /// The oldest message that waits.
    pub fn oldest(&self) -> Option<u64>
        ensures { MatchOption result (NothingWaits self.now) (IsOldest self.now) }
    {
        let late = least(self.heads.as_slice(), self.downs.len());
        if late < self.first {
            return Some(late);
        }
        if self.first >= self.posts.len() {
            return None;
        }
        Some(self.first)
    }
}
