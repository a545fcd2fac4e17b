//! A seat with what it holds.
ghost use Rattle.std.specs.Prelude.{◌≡◌, ◌≤◌, All, sum_by, IfOk, IfSome};
ghost use Rattle.acc_tape_tables.specs.Halls.{IsChair};
ghost use Rattle.acc_tape_tables.specs.Samples.{bytes_of};

use crate::sample::{Anything, Sample};
use acc_base::OutOfMemory;
use acc_tape::{Seat, Tape, TapeError};
use std::alloc::Global;
use std::sync::Wait;

/// A tape of the table.
pub type Reel = Tape<Sample, Anything>;

/// The seat of an actor, how many items and bytes are reserved for it, and how many items it entered.
#[derive(Drop)]
pub struct Chair {
    pub actor: u32,
    pub seat: Seat<Sample, Anything>,
    pub items: u64,
    pub bytes: u64,
    pub entered: u64,
}

/// What is to be entered: the bytes of the item, the message that it takes, the actors to which its messages go, and
/// whether these are lost.
#[derive(Drop)]
pub struct Draft {
    pub bytes: u64,
    pub taken: Option<u64>,
    pub to: Vec<u32>,
    pub is_lost: bool,
}

impl Chair {
    /// Reserves so many items and bytes.
    pub fn reserve<W: Wait>(
        &mut self,
        rt: &W,
        tape: &Reel,
        items: u64,
        bytes: u64,
    ) -> Result<(), TapeError>
        requires { IsChair tape.now self.old }
        ensures { IsChair tape.now self.new }
    {
        let all_items = self.items.checked_add(items).ok_or(OutOfMemory)?;
        let all_bytes = self.bytes.checked_add(bytes).ok_or(OutOfMemory)?;
        tape.reserve(rt, &mut self.seat, items, bytes)?;
        self.items = all_items;
        self.bytes = all_bytes;
        Ok(())
    }

    /// Gives up so much of what is reserved, and tells whether there was so much.
    pub fn release<W: Wait>(&mut self, rt: &W, tape: &Reel, items: u64, bytes: u64) -> bool
        requires { IsChair tape.now self.old }
        ensures { IsChair tape.now self.new }
    {
        if self.items < items || self.bytes < bytes {
            return false;
        }
        tape.release(rt, &mut self.seat, items, bytes);
        self.items -= items;
        self.bytes -= bytes;
        true
    }

    /// Enters an item in place of one and so many bytes that are reserved, and tells whether there was so much and the item weighs no
    /// more.
    pub fn enter<W: Wait>(&mut self, rt: &W, tape: &Reel, weight: u64, draft: Draft) -> bool
        requires { IsChair tape.now self.old }
        ensures { IsChair tape.now self.new }
    {
        if self.items < 1 || self.bytes < weight {
            return false;
        }
        let Some(sample) = sample(self.actor, self.entered, weight, draft) else {
            return false;
        };
        tape.put(rt, &mut self.seat, 1, weight, sample);
        self.items -= 1;
        self.bytes -= weight;
        self.entered = self.entered.saturating_add(1);
        true
    }

    /// Enters items one after another in place of so much that is reserved, and tells whether there was so much and they are and weigh
    /// no more.
    pub fn enter_all<W: Wait>(
        &mut self,
        rt: &W,
        alloc: Global,
        tape: &Reel,
        items: u64,
        weight: u64,
        drafts: Vec<Draft>,
    ) -> Result<bool, OutOfMemory>
        requires { IsChair tape.now self.old }
        ensures { IsChair tape.now self.new }
    {
        if self.items < items || self.bytes < weight {
            return Ok(false);
        }
        let Some(samples) = samples(alloc, self.actor, self.entered, weight, drafts)? else {
            return Ok(false);
        };
        let count = samples.len() as u64;
        if items < count {
            return Ok(false);
        }
        tape.put_all(rt, &mut self.seat, items, weight, samples);
        self.items -= items;
        self.bytes -= weight;
        self.entered = self.entered.saturating_add(count);
        Ok(true)
    }
}

// The item of a draft, where it weighs no more than this.
fn sample(actor: u32, number: u64, weight: u64, draft: Draft) -> Option<Sample>
    ensures { IfSome result (λ sample. (sample.actor ≡ actor) × (bytes_of sample ≤ weight)) }
{
    let Draft {
        bytes,
        taken,
        to,
        is_lost,
    } = draft;
    let more = bytes.checked_sub(to.len() as u64)?;
    if bytes > weight {
        return None;
    }
    Some(Sample {
        actor,
        number,
        taken,
        to,
        is_lost,
        more,
    })
}

// The items of drafts, where they weigh no more than this in all.
fn samples(
    alloc: Global,
    actor: u32,
    number: u64,
    weight: u64,
    drafts: Vec<Draft>,
) -> Result<Option<Vec<Sample>>, OutOfMemory>
    ensures { IfOk result (λ samples. IfSome samples (λ all. All (λ sample. sample.actor ≡ actor) all.items × (sum_by bytes_of all.items ≤ weight))) }
{
    let mut all = Vec::new(alloc);
    let mut left = weight;
    let mut number = number;
    for draft in drafts {
        let bytes = draft.bytes;
        let Some(sample) = sample(actor, number, left.min(bytes), draft) else {
            return Ok(None);
        };
        left -= left.min(bytes);
        number = number.saturating_add(1);
        all.push(sample)?;
    }
    Ok(Some(all))
}
