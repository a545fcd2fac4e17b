//! Actors on threads of their own.
ghost use Rattle.std.specs.Prelude.{◌≡◌, length, All, IfOk, OnOk};
ghost use Rattle.acc_tape_tables.specs.Halls.{IsChair, IsHall};

use crate::chair::{Chair, Draft, Reel};
use crate::hall::Hall;
use crate::sample::{Sample, Samples};
use acc_tape::TapeError;
use anyhow::{Result, ensure};
use std::alloc::Global;
use std::sync::Wait;
use std::thread::Threads;
use std::{mem, thread};

/// The limits of a tape, and what so many actors do with it.
#[derive(Clone, Copy)]
pub struct Crowd {
    pub items: u64,
    pub bytes: u64,
    pub actors: u32,
    pub each: u64,
    pub weight: u64,
    pub given: u64,
}

/// A chair after its work: how many reservations were refused, and whether memory was.
#[derive(Drop)]
pub struct Worked {
    pub chair: Chair,
    pub refused: u64,
    pub is_short: bool,
}

/// Lets the actors work, and tells how many items were entered and how many reservations refused.
pub fn told<R: Threads + Wait + Sync>(rt: &R, alloc: Global, crowd: &Crowd) -> Result<String> {
    let mut hall = opened(rt, alloc, crowd)?;
    match put_to_work(rt, alloc, &mut hall, crowd) {
        Ok(refused) => counted(alloc, crowd, &hall.close(alloc)?, refused),
        Err(error) => {
            drop(hall);
            Err(error)
        }
    }
}

// Lets the actors of a hall work, and gives how many reservations were refused.
fn put_to_work<R: Threads + Wait + Sync>(
    rt: &R,
    alloc: Global,
    hall: &mut Hall,
    crowd: &Crowd,
) -> Result<u64>
    requires { IsHall hall.old }
    ensures { OnOk result (IsHall hall.new) }
{
    let Hall { tape, chairs, .. } = hall;
    let seated = mem::replace(chairs, Vec::new(alloc));
    let worked = side_by_side(rt, tape, crowd, seated)?;
    let (left, refused) = left(alloc, tape, worked)?;
    drop(mem::replace(chairs, left));
    Ok(refused)
}

// How many items were entered, each in its order, and how many reservations were refused.
fn counted(alloc: Global, crowd: &Crowd, entered: &Samples, refused: u64) -> Result<String> {
    let items = entered.items.as_slice();
    ensure!(
        (1..=crowd.actors).all(|actor| are_in_order(items, actor)),
        "the items of an actor are out of order"
    );
    let count = items.len();
    Ok(format!(in alloc; "entered {count} refused {refused}")?)
}

// A tape with a seat for each actor.
fn opened<W: Wait>(rt: &W, alloc: Global, crowd: &Crowd) -> Result<Hall>
    ensures { IfOk result IsHall }
{
    let mut hall = Hall::new(alloc, crowd.items, crowd.bytes)?;
    for actor in 1..=crowd.actors {
        hall.add(rt, alloc, actor)?;
    }
    Ok(hall)
}

// The chairs after their work, each on a thread of its own.
fn side_by_side<R: Threads + Wait + Sync>(
    rt: &R,
    tape: &Reel,
    crowd: &Crowd,
    chairs: Vec<Chair>,
) -> Result<Vec<Worked>>
    requires { All (IsChair tape.now) chairs.items }
    ensures { IfOk result (λ all. (length all.items ≡ length chairs.items) × All (λ worked. IsChair tape.now worked.chair) all.items) }
{
    let alloc = *chairs.allocator();
    Ok(thread::map_vec(
        rt,
        chairs,
        &|chair: Chair| -> Worked
            requires { IsChair tape.now chair }
            ensures { IsChair tape.entry.now result.chair }
        { work(rt, alloc, tape, crowd, chair) },
    )?)
}

// Lets a chair try as often as it should.
fn work<W: Wait>(rt: &W, alloc: Global, tape: &Reel, crowd: &Crowd, chair: Chair) -> Worked
    requires { IsChair tape.now chair }
    ensures { IsChair tape.now result.chair }
{
    let mut chair = chair;
    let mut refused: u64 = 0;
    for number in 0..crowd.each {
        match attempt(rt, alloc, tape, crowd, number, &mut chair) {
            Ok(()) => {}
            Err(TapeError::Full { .. }) => refused = refused.saturating_add(1),
            Err(TapeError::OutOfMemory) => {
                return Worked {
                    chair,
                    refused,
                    is_short: true,
                };
            }
        }
    }
    Worked {
        chair,
        refused,
        is_short: false,
    }
}

// Reserves an item, gives it up and reserves again where that is due, and enters it.
fn attempt<W: Wait>(
    rt: &W,
    alloc: Global,
    tape: &Reel,
    crowd: &Crowd,
    number: u64,
    chair: &mut Chair,
) -> Result<(), TapeError>
    requires { IsChair tape.now chair.old }
    ensures { IsChair tape.now chair.new }
{
    let weight = crowd.weight;
    chair.reserve(rt, tape, 1, weight)?;
    if crowd.given > 0 && number % crowd.given == 0 {
        chair.release(rt, tape, 1, weight);
        chair.reserve(rt, tape, 1, weight)?;
    }
    let taken = tape
        .next_for(rt, &mut chair.seat, chair.actor)
        .map(|post| post.number);
    let next = if chair.actor < crowd.actors {
        chair.actor + 1
    } else {
        1
    };
    let mut to = Vec::new(alloc);
    if to.push(next).is_err() {
        chair.release(rt, tape, 1, weight);
        return Err(TapeError::OutOfMemory);
    }
    let draft = Draft {
        bytes: weight,
        taken,
        to,
        is_lost: false,
    };
    match chair.enter(rt, tape, weight, draft) {
        true => Ok(()),
        false => Err(TapeError::OutOfMemory),
    }
}

// The chairs, and how many reservations were refused in all.
#[tactic(auto, using(crate::proofs::Chairs::next_worked))]
fn left(alloc: Global, tape: &Reel, worked: Vec<Worked>) -> Result<(Vec<Chair>, u64)>
    requires { All (λ work. IsChair tape.now work.chair) worked.items }
    ensures { IfOk result (λ left. (length left.0.items ≡ length worked.items) × All (IsChair tape.now) left.0.items) }
{
    let mut chairs = Vec::new(alloc);
    let mut all: u64 = 0;
    for work in worked {
        let Worked {
            chair,
            refused,
            is_short,
        } = work;
        ensure!(!is_short, "out of memory");
        all = all.saturating_add(refused);
        chairs.push(chair)?;
    }
    Ok((chairs, all))
}

// Whether the items of an actor are numbered in their order, and the messages that they took rise.
fn are_in_order(items: &[Sample], actor: u32) -> bool {
    let mut next: u64 = 0;
    let mut least: u64 = 0;
    for item in items {
        if item.actor != actor {
            continue;
        }
        if item.number != next {
            return false;
        }
        next = next.saturating_add(1);
        if let Some(taken) = item.taken {
            if taken < least {
                return false;
            }
            least = taken.saturating_add(1);
        }
    }
    true
}
