//! A tape with all its seats.
ghost use Rattle.std.specs.Prelude.{◌≡◌, ◌<◌, length, All, IfOk, OnOk, IfSome};
ghost use Rattle.acc_tape_tables.specs.Halls.{IsChair, IsHall};

use crate::chair::{Chair, Reel};
use crate::sample::{Anything, Sample, Samples};
use acc_base::Sequence;
use acc_tape::{Seat, Seats, Tape};
use anyhow::{Result, bail, ensure};
use std::alloc::Global;
use std::sync::Wait;

/// A tape, its first seat, and a chair for each actor for which a seat was split from that.
#[derive(Drop)]
pub struct Hall {
    pub tape: Reel,
    pub first: Seat<Sample, Anything>,
    pub made: Vec<u32>,
    pub chairs: Vec<Chair>,
}

impl Hall {
    /// An empty tape that may hold so many items and bytes.
    pub fn new(alloc: Global, items: u64, bytes: u64) -> Result<Hall>
        ensures { IfOk result IsHall }
    {
        let (tape, first) = Tape::new(alloc, items, bytes)?;
        Ok(Hall {
            tape,
            first,
            made: Vec::new(alloc),
            chairs: Vec::new(alloc),
        })
    }

    /// Splits a seat for an actor that has none.
    pub fn add<W: Wait>(&mut self, rt: &W, alloc: Global, actor: u32) -> Result<()>
        requires { IsHall self.old }
        ensures { OnOk result (IsHall self.new) }
    {
        ensure!(actor != 0, "the first seat is of no actor");
        ensure!(!self.made.contains(&actor), "a second seat of an actor");
        let seat = self.tape.split(rt, &mut self.first, actor)?;
        self.made.push(actor)?;
        self.chairs.push(Chair {
            actor,
            seat,
            items: 0,
            bytes: 0,
            entered: 0,
        })?;
        Ok(())
    }

    /// Where the chair of an actor stands.
    pub fn place(&self, actor: u32) -> Option<usize>
        ensures { IfSome result (λ place. place < length self.now.chairs.items) }
    {
        self.chairs.iter().position(|chair| chair.actor == actor)
    }

    /// All items. No seat may hold a reservation.
    pub fn close(self, alloc: Global) -> Result<Samples>
        requires { IsHall self }
    {
        let Hall {
            tape,
            first,
            made: _,
            chairs,
        } = self;
        let seats = seats(alloc, &tape, chairs)?;
        match tape.close(first, seats) {
            Ok(samples) => Ok(samples),
            Err(_) => bail!("a tape that stays"),
        }
    }
}

// The seats of chairs that hold nothing.
fn seats(alloc: Global, tape: &Reel, chairs: Vec<Chair>) -> Result<Seats<Sample, Anything>>
    requires { All (IsChair tape.now) chairs.items }
    ensures { IfOk result (λ seats. (length seats ≡ length chairs.items) × All (λ seat. (seat.tape ≡ tape.now) × (seat.held_items ≡ 0) × (seat.held_weight ≡ 0)) seats) }
{
    let mut seats = Sequence::new(alloc);
    for chair in chairs {
        let Some(seat) = free_seat(tape, chair) else {
            bail!("a reservation is left");
        };
        seats.push(seat)?;
    }
    Ok(seats)
}

// The seat of a chair that holds nothing.
fn free_seat(tape: &Reel, chair: Chair) -> Option<Seat<Sample, Anything>>
    requires { IsChair tape.now chair }
    ensures { IfSome result (λ seat. (seat.tape ≡ tape.now) × (seat.held_items ≡ 0) × (seat.held_weight ≡ 0)) }
{
    let Chair {
        seat,
        items,
        bytes,
        ..
    } = chair;
    if items > 0 || bytes > 0 {
        return None;
    }
    Some(seat)
}
