//! The index of messages.
ghost use Rattle.std.specs.Prelude.{◌≡◌, true, ℕ, ◌+◌, ◌-◌, ◌%◌, ◌^◌, ◌<◌, ◌≤◌, ◌==◌, [], ◌∷◌, ◌++◌, length, not, ◌&&◌, IfOk, OnOk, OnErr, MatchOption, nat_lt, if◌then◌else◌, vec_len, vec_capacity};
ghost use Rattle.std.specs.List.{list_any};
ghost use Rattle.acc_message_index.specs.Mail.{Mail, posting_at, taken, early_after, IsOpenTo, IsNext, HasNone};
ghost use Rattle.acc_message_index.specs.Indexed.{lane_at};

use crate::lanes::{LANES, NOWHERE, join_lane, lane_of, no_places};
use crate::posting::{Post, Posting};
use acc_base::OutOfMemory;
use std::alloc::Global;
use std::marker::Model;

/// The messages that were sent, by the actors to which they go, and which of them are still to be taken. Room for more is
/// asked for ahead, so that noting what an item sent and took can't be refused.
///
/// Each message knows the next one of its lane, and each lane where its open messages may begin. So the oldest open
/// message to an actor is found in constant time, counted over many calls, as long as no two actors share a lane.
#[derive(Debug, Drop)]
pub struct Posts {
    postings: Vec<Posting>,
    // For each message the next one of its lane.
    links: Vec<u32>,
    // For each lane a message before which none of the lane is open, and the lane's last message.
    firsts: Vec<u32>,
    lasts: Vec<u32>,
    // The numbers of messages that were taken before they were sent, which happens in no run.
    early: Vec<u64>,
    // How many more messages and takings there is room for.
    room: usize,
    takings: usize,
}

impl Model for Posts {
    ghost use Rattle.std.specs.Prelude.{◌+◌, ◌≤◌, length};
    ghost use Rattle.std.specs.Vec.{vec_len, vec_capacity};
    ghost use Rattle.acc_message_index.specs.Mail.{Mail};
    ghost use Rattle.acc_message_index.specs.Indexed.{none, Indexed};

    ghost Value = { Mail };

    ghost view = { λ p. record { sent = p.postings.items; early = p.early.items; room = p.room; takings = p.takings } };

    ghost invariant = { λ p. Indexed p.postings.items p.links.items p.firsts.items p.lasts.items × (vec_len p.postings + p.room ≤ vec_capacity p.postings) × (vec_len p.postings + p.room ≤ vec_capacity p.links) × (vec_len p.postings + p.room ≤ none) × (vec_len p.early + p.takings ≤ vec_capacity p.early) };
}

// Whether there is room for so many more.
#[inline(always)]
fn has_room<T>(list: &Vec<T>, more: usize) -> bool
    ensures { result ≡ true → vec_len list.now + more ≤ vec_capacity list.now }
{
    more <= list.capacity() - list.len()
}

// Makes room for so many more messages and takings.
#[cold]
#[inline(never)]
fn make_room(
    postings: &mut Vec<Posting>,
    links: &mut Vec<u32>,
    early: &mut Vec<u64>,
    room: usize,
    takings: usize,
) -> Result<(), OutOfMemory>
    ensures postings { (postings.new.items ≡ postings.old.items) × (vec_len postings.new ≡ vec_len postings.old) }
    ensures links { (links.new.items ≡ links.old.items) × (vec_len links.new ≡ vec_len links.old) }
    ensures early { (early.new.items ≡ early.old.items) × (vec_len early.new ≡ vec_len early.old) }
    ensures more { (vec_capacity postings.old ≤ vec_capacity postings.new) × (vec_capacity links.old ≤ vec_capacity links.new) × (vec_capacity early.old ≤ vec_capacity early.new) }
    ensures room { OnOk result ((vec_len postings.new + room ≤ vec_capacity postings.new) × (vec_len links.new + room ≤ vec_capacity links.new) × (vec_len early.new + takings ≤ vec_capacity early.new)) }
{
    postings.reserve(room)?;
    links.reserve(room)?;
    early.reserve(takings)?;
    Ok(())
}

// Makes room for so many more messages and takings, if it isn't there.
#[inline(always)]
fn ensure_room(
    postings: &mut Vec<Posting>,
    links: &mut Vec<u32>,
    early: &mut Vec<u64>,
    room: usize,
    takings: usize,
) -> Result<(), OutOfMemory>
    ensures postings { (postings.new.items ≡ postings.old.items) × (vec_len postings.new ≡ vec_len postings.old) }
    ensures links { (links.new.items ≡ links.old.items) × (vec_len links.new ≡ vec_len links.old) }
    ensures early { (early.new.items ≡ early.old.items) × (vec_len early.new ≡ vec_len early.old) }
    ensures more { (vec_capacity postings.old ≤ vec_capacity postings.new) × (vec_capacity links.old ≤ vec_capacity links.new) × (vec_capacity early.old ≤ vec_capacity early.new) }
    ensures room { OnOk result ((vec_len postings.new + room ≤ vec_capacity postings.new) × (vec_len links.new + room ≤ vec_capacity links.new) × (vec_len early.new + takings ≤ vec_capacity early.new)) }
{
    if has_room(postings, room) && has_room(links, room) && has_room(early, takings) {
        return Ok(());
    }
    make_room(postings, links, early, room, takings)
}

// Closes the message at a place.
fn mark_taken(postings: &mut Vec<Posting>, place: usize)
    requires { place < length postings.old.items }
    ensures postings { postings.new.items ≡ taken place postings.old.items }
    ensures room { (vec_len postings.new ≡ vec_len postings.old) × (vec_capacity postings.new ≡ vec_capacity postings.old) }
{
    let posting = &mut postings[place];
    posting.is_open = false;
}

// Closes the message with this number, or notes the number where no message has it yet.
fn note_taken(postings: &mut Vec<Posting>, early: &mut Vec<u64>, number: u64)
    requires { vec_len early.old < vec_capacity early.old }
    ensures postings { postings.new.items ≡ taken number postings.old.items }
    ensures early { early.new.items ≡ (if nat_lt number (length postings.old.items) then early.old.items else early.old.items ++ number ∷ []) }
    ensures counts { (vec_len postings.new ≡ vec_len postings.old) × (vec_len early.new ≤ vec_len early.old + 1) }
    ensures room { (vec_capacity postings.new ≡ vec_capacity postings.old) × (vec_capacity early.new ≡ vec_capacity early.old) }
{
    let place = number as usize;
    if place < postings.len() {
        mark_taken(postings, place);
    } else {
        early.push_reserved(number);
    }
}

// Whether the message with this number was taken before it was sent.
#[inline(always)]
fn is_early(early: &[u64], number: u64) -> bool
    ensures { result ≡ list_any (λ n. n == number) early.now }
{
    !early.is_empty() && early.contains(&number)
}

impl Posts {
    /// An index of no messages.
    pub fn new(alloc: Global) -> Result<Posts, OutOfMemory>
        ensures { IfOk result (λ posts. posts ≡ record { sent = []; early = []; room = 0; takings = 0 }) }
    {
        Ok(Posts {
            postings: Vec::new(alloc),
            links: Vec::new(alloc),
            firsts: no_places(alloc, LANES)?,
            lasts: no_places(alloc, LANES)?,
            early: Vec::new(alloc),
            room: 0,
            takings: 0,
        })
    }

    /// Makes room for so many more messages and takings. Without memory for it, and where the messages and the room for more
    /// would be 2^32 or more, all is as before.
    #[inline(always)]
    pub fn reserve(&mut self, messages: u64, takings: u64) -> Result<(), OutOfMemory>
        ensures ok { OnOk result (self.new ≡ record self.old { room = self.old.room + messages; takings = self.old.takings + takings }) }
        ensures err { OnErr result (self.new ≡ self.old) }
        ensures most { OnOk result (messages < 2 ^ 32) }
    {
        let room = self.room.checked_add(messages as usize).ok_or(OutOfMemory)?;
        if room > NOWHERE as usize - self.postings.len() {
            return Err(OutOfMemory);
        }
        let takings = self
            .takings
            .checked_add(takings as usize)
            .ok_or(OutOfMemory)?;
        ensure_room(
            &mut self.postings,
            &mut self.links,
            &mut self.early,
            room,
            takings,
        )?;
        self.room = room;
        self.takings = takings;
        Ok(())
    }

    /// Gives up room for so many messages and takings. What there is room for is only counted: no memory goes back. The messages
    /// and the room for more are always fewer than 2^32.
    pub fn release(&mut self, messages: u64, takings: u64)
        requires { (messages ≤ self.old.room) × (takings ≤ self.old.takings) }
        ensures released { self.new ≡ record self.old { room = self.old.room - messages; takings = self.old.takings - takings } }
        ensures most { length self.new.sent + self.new.room < 2 ^ 32 }
    {
        self.room -= messages as usize;
        self.takings -= takings as usize;
    }

    /// Notes that the message with this number is taken, whether it was sent already or not.
    pub fn take(&mut self, number: u64)
        requires { 0 < self.old.takings }
        ensures { self.new ≡ record self.old { sent = taken number self.old.sent; early = early_after number self.old; takings = self.old.takings - 1 } }
    {
        note_taken(&mut self.postings, &mut self.early, number);
        self.takings -= 1;
    }

    /// Notes a message, the next by number, which the item at `place` sent as its message `index`. A lost one is never
    /// open, nor is one that was taken before.
    #[inline(always)]
    pub fn add(&mut self, to: u32, place: u32, index: u32, is_lost: bool)
        requires { 0 < self.old.room }
        ensures { self.new ≡ record self.old { sent = self.old.sent ++ record { to = to; place = place; index = index; is_open = not is_lost && not (list_any (λ n. n == length self.old.sent) self.old.early) } ∷ []; room = self.old.room - 1 } }
    {
        let number = self.postings.len() as u64;
        let posting = Posting {
            to,
            place,
            index,
            is_open: !is_lost & !is_early(self.early.as_slice(), number),
        };
        join_lane(
            &mut self.links,
            &mut self.firsts,
            &mut self.lasts,
            lane_of(to),
        );
        self.postings.push_reserved(posting);
        self.room -= 1;
    }

    /// How many messages were noted, of which the next has this number.
    pub fn len(&self) -> u64
        ensures count { result ≡ length self.now.sent }
        ensures most { result < 2 ^ 63 }
    {
        self.postings.len() as u64
    }

    /// The message with this number.
    pub fn posting(&self, number: u64) -> Posting
        requires { number < length self.now.sent }
        ensures { result ≡ posting_at self.now.sent number }
    {
        self.postings[number as usize]
    }

    /// Notes that the message with this number is still to be taken no more. It was noted already, so that no room is
    /// wanted.
    pub fn close(&mut self, number: u64)
        requires { number < length self.old.sent }
        ensures { self.new ≡ record self.old { sent = taken number self.old.sent } }
    {
        mark_taken(&mut self.postings, number as usize);
    }

    /// The oldest open message to an actor.
    pub fn next_for(&mut self, actor: u32) -> Option<Post>
        ensures same { self.new ≡ self.old }
        ensures next { MatchOption result (HasNone self.old.sent actor 0) (IsNext self.old.sent actor 0) }
    {
        self.skip(lane_of(actor));
        self.find(actor, 0)
    }

    /// The oldest open message to an actor that has a greater number.
    pub fn next_after(&mut self, actor: u32, number: u64) -> Option<Post>
        ensures same { self.new ≡ self.old }
        ensures next { MatchOption result (HasNone self.old.sent actor (number + 1)) (IsNext self.old.sent actor (number + 1)) }
    {
        self.skip(lane_of(actor));
        self.find_after(actor, number)
    }

    // Moves the first message of a lane past those that aren't open.
    fn skip(&mut self, lane: usize)
        requires { lane < 1024 }
        ensures { self.new ≡ self.old }
    {
        let mut first = self.firsts[lane];
        while (first as usize) < self.postings.len() && !self.postings[first as usize].is_open {
            first = self.links[first as usize];
        }
        self.firsts[lane] = first;
    }

    // A message of the actor's lane from which on all open ones whose number is at least `from` stand.
    fn start(&self, actor: u32, from: u64) -> usize
        ensures lane { result < length self.now.sent → lane_at self.now.sent result ≡ actor % 1024 }
        ensures before { (number : ℕ) → from ≤ number → number < result → ¬ IsOpenTo self.now.sent actor number }
    {
        let lane = lane_of(actor);
        let first = self.firsts[lane] as usize;
        let place = from as usize;
        if place == 0 || self.postings.len() < place {
            return first;
        }
        if lane_of(self.postings[place - 1].to) != lane {
            return first;
        }
        first.max(self.links[place - 1] as usize)
    }

    fn find_after(&self, actor: u32, number: u64) -> Option<Post>
        ensures { MatchOption result (HasNone self.now.sent actor (number + 1)) (IsNext self.now.sent actor (number + 1)) }
    {
        if number >= self.postings.len() as u64 {
            return None;
        }
        self.find(actor, number + 1)
    }

    fn find(&self, actor: u32, from: u64) -> Option<Post>
        ensures { MatchOption result (HasNone self.now.sent actor from) (IsNext self.now.sent actor from) }
    {
        let mut at = self.start(actor, from);
        while at < self.postings.len() {
            let posting = self.postings[at];
            if at as u64 >= from && posting.to == actor && posting.is_open {
                return Some(Post {
                    number: at as u64,
                    place: u64::from(posting.place),
                    index: u64::from(posting.index),
                });
            }
            at = self.links[at] as usize;
        }
        None
    }
}
