//! What a seat does, and what is told of it.
ghost use Rattle.std.specs.Prelude.{◌≡◌};
ghost use Rattle.acc_tape_tables.specs.Halls.{IsChair};

use crate::chair::{Chair, Draft, Reel};
use crate::sample::Name;
use acc_base::OutOfMemory;
use acc_tape::{PlaceError, Post, TapeError};
use anyhow::{Context, Result};
use std::alloc::Global;
use std::sync::Wait;

/// What a seat does.
#[derive(Drop)]
pub enum Act {
    Reserve {
        items: u64,
        bytes: u64,
    },
    Release {
        items: u64,
        bytes: u64,
    },
    Enter {
        weight: u64,
        draft: Draft,
    },
    EnterAll {
        items: u64,
        weight: u64,
        drafts: Vec<Draft>,
    },
    Fetch {
        place: u64,
    },
    Next {
        to: u32,
    },
    After {
        to: u32,
        number: u64,
    },
    Collect {
        to: u32,
        most: usize,
    },
}

/// Lets a seat act, and tells the answer.
pub fn take<W: Wait>(
    rt: &W,
    alloc: Global,
    tape: &Reel,
    chair: &mut Chair,
    act: Act,
) -> Result<String>
    requires { IsChair tape.now chair.old }
    ensures { IsChair tape.now chair.new }
{
    match act {
        Act::Reserve { items, bytes } => { reserved(alloc, chair.reserve(rt, tape, items, bytes)) }
        Act::Release { items, bytes } => given(alloc, chair.release(rt, tape, items, bytes)),
        Act::Enter { weight, draft } => given(alloc, chair.enter(rt, tape, weight, draft)),
        Act::EnterAll {
            items,
            weight,
            drafts,
        } => entered(
            alloc,
            chair.enter_all(rt, alloc, tape, items, weight, drafts),
        ),
        Act::Fetch { place } => fetched(alloc, tape.fetch(rt, &mut chair.seat, place)),
        Act::Next { to } => post(alloc, tape.next_for(rt, &mut chair.seat, to)),
        Act::After { to, number } => {
            post(alloc, tape.next_after(rt, &mut chair.seat, to, number))
        }
        Act::Collect { to, most } => collect(rt, alloc, tape, chair, to, most),
    }
}

// Collects at most so many messages, and tells each.
fn collect<W: Wait>(
    rt: &W,
    alloc: Global,
    tape: &Reel,
    chair: &mut Chair,
    to: u32,
    most: usize,
) -> Result<String>
    requires { IsChair tape.now chair.old }
    ensures { IsChair tape.now chair.new }
{
    let mut found = Vec::with_capacity(alloc, most)?;
    tape.collect(rt, &mut chair.seat, to, &mut found)?;
    collected(alloc, found.as_slice())
}

// Messages with the items that sent them.
fn collected(alloc: Global, found: &[(Post, Name)]) -> Result<String> {
    if found.is_empty() {
        return told(alloc, "none");
    }
    let mut told = String::new(alloc);
    for (post, name) in found {
        add(alloc, &mut told, *post, *name)?;
    }
    Ok(told)
}

fn add(alloc: Global, told: &mut String, post: Post, name: Name) -> Result<()> {
    if !told.is_empty() {
        told.push_str(", ")?;
    }
    told.push_str(&with_item(alloc, post, name)?)?;
    Ok(())
}

/// An item: its actor, a dot, and how many that entered before.
pub fn named(alloc: Global, name: Name) -> Result<String> {
    let Name { actor, number } = name;
    Ok(format!(in alloc; "{actor}.{number}")?)
}

/// A text alone.
pub fn told(alloc: Global, text: &str) -> Result<String> {
    Ok(text.to_string(alloc)?)
}

fn given(alloc: Global, was_held: bool) -> Result<String> {
    match was_held {
        true => told(alloc, "ok"),
        false => told(alloc, "not held"),
    }
}

fn reserved(alloc: Global, came: Result<(), TapeError>) -> Result<String> {
    match came {
        Ok(()) => told(alloc, "ok"),
        Err(TapeError::Full { which, number }) => Ok(format!(in alloc; "full {which} {number}")?),
        Err(TapeError::OutOfMemory) => None.context("out of memory"),
    }
}

fn entered(alloc: Global, came: Result<bool, OutOfMemory>) -> Result<String> {
    given(alloc, came?)
}

fn fetched(alloc: Global, came: Result<Name, PlaceError>) -> Result<String> {
    match came {
        Ok(name) => named(alloc, name),
        Err(PlaceError::NoPlace) => told(alloc, "none"),
    }
}

fn post(alloc: Global, post: Option<Post>) -> Result<String> {
    match post {
        Some(
            Post {
                number,
                place,
                index,
            },
        ) => Ok(format!(in alloc; "{number} at {place}.{index}")?),
        None => told(alloc, "none"),
    }
}

fn with_item(alloc: Global, post: Post, name: Name) -> Result<String> {
    let Post {
        number,
        place,
        index,
    } = post;
    let Name {
        actor,
        number: before,
    } = name;
    Ok(format!(in alloc; "{number} at {place}.{index} of {actor}.{before}")?)
}
