//! A line of the table.
ghost use Rattle.std.specs.Prelude.{◌≡◌, ◌<◌, length, All, OnOk};
ghost use Rattle.acc_tape_tables.specs.Halls.{IsChair, IsHall};

use crate::act::{self, Act, named};
use crate::chair::{Chair, Draft, Reel};
use crate::hall::Hall;
use crate::sample::{Sample, name_of};
use crate::threads::{self, Crowd};
use anyhow::{Context, Result};
use serde_json::Value;
use std::alloc::Global;
use std::sync::Wait;
use std::thread::Threads;

/// Whether the answers of a line are the wanted ones. None for a heading.
pub fn agrees<R: Threads + Wait + Sync>(
    rt: &R,
    alloc: Global,
    line: &Value,
) -> Result<Option<bool>> {
    match kind_of(line) {
        Some(("part", [_])) => Ok(None),
        Some(("tape", [items, bytes, steps @ ..])) => tape(rt, alloc, items, bytes, steps),
        Some(("threads", [parts @ .., wanted])) => crowded(rt, alloc, parts, wanted),
        _ => None.context("a line of another form"),
    }
}

// The word with which an array begins, and what stands after it.
fn kind_of(list: &Value) -> Option<(&str, &[Value])> {
    match list.as_array()?.as_slice() {
        [kind, parts @ ..] => Some((kind.as_str()?, parts)),
        [] => None,
    }
}

// Whether the steps on a tape with these limits go as wanted.
fn tape<W: Wait>(
    rt: &W,
    alloc: Global,
    items: &Value,
    bytes: &Value,
    steps: &[Value],
) -> Result<Option<bool>> {
    match (items.as_u64(), bytes.as_u64()) {
        (Some(items), Some(bytes)) => {
            Ok(Some(goes(rt, alloc, Hall::new(alloc, items, bytes)?, steps)?))
        }
        _ => None.context("no limit"),
    }
}

// Whether threads tell what is wanted.
fn crowded<R: Threads + Wait + Sync>(
    rt: &R,
    alloc: Global,
    parts: &[Value],
    wanted: &Value,
) -> Result<Option<bool>> {
    let crowd = crowd(parts).context("threads of another form")?;
    let told = threads::told(rt, alloc, &crowd)?;
    Ok(Some(wanted.as_str() == Some(told.as_str())))
}

// What threads do.
fn crowd(parts: &[Value]) -> Option<Crowd> {
    match parts {
        [items, bytes, actors, each, weight, given] => Some(Crowd {
            items: items.as_u64()?,
            bytes: bytes.as_u64()?,
            actors: number(actors)?,
            each: each.as_u64()?,
            weight: weight.as_u64()?,
            given: given.as_u64()?,
        }),
        _ => None,
    }
}

// How the steps of a tape went.
#[derive(Clone, Copy)]
enum Course<'l> {
    // Up to a close, of which this is wanted.
    Closes(&'l Value),
    // All of them as wanted, or up to one that wasn't.
    Ends(bool),
}

// Whether steps go as wanted. They end with a close, or leave the tape.
fn goes<W: Wait>(rt: &W, alloc: Global, hall: Hall, steps: &[Value]) -> Result<bool>
    requires { IsHall hall }
{
    let mut hall = hall;
    match go_on(rt, alloc, &mut hall, steps) {
        Ok(Course::Closes(wanted)) => { Ok(wanted.as_str() == Some(closed(alloc, hall)?.as_str())) }
        Ok(Course::Ends(as_wanted)) => {
            drop(hall);
            Ok(as_wanted)
        }
        Err(error) => {
            drop(hall);
            Err(error)
        }
    }
}

// Takes steps up to a close, or to one whose answer isn't the wanted one.
fn go_on<'l, W: Wait>(
    rt: &W,
    alloc: Global,
    hall: &mut Hall,
    steps: &'l [Value],
) -> Result<Course<'l>>
    requires { IsHall hall.old }
    ensures { OnOk result (IsHall hall.new) }
{
    for step in steps {
        match kind_of(step) {
            Some(("close", [wanted])) => return Ok(Course::Closes(wanted)),
            Some((kind, [parts @ .., wanted])) => {
                if !moves(rt, alloc, hall, kind, parts, wanted)? {
                    return Ok(Course::Ends(false));
                }
            }
            _ => return None.context("a step of another form"),
        }
    }
    Ok(Course::Ends(true))
}

// Takes a step, and tells whether the answer is the wanted one.
fn moves<W: Wait>(
    rt: &W,
    alloc: Global,
    hall: &mut Hall,
    kind: &str,
    parts: &[Value],
    wanted: &Value,
) -> Result<bool>
    requires { IsHall hall.old }
    ensures { OnOk result (IsHall hall.new) }
{
    let told = moved(rt, alloc, hall, kind, parts)?;
    Ok(wanted.as_str() == Some(told.as_str()))
}

// Takes a step, and tells the answer.
fn moved<W: Wait>(
    rt: &W,
    alloc: Global,
    hall: &mut Hall,
    kind: &str,
    parts: &[Value],
) -> Result<String>
    requires { IsHall hall.old }
    ensures { OnOk result (IsHall hall.new) }
{
    let [actor, parts @ ..] = parts else {
        return None.context("a step without an actor");
    };
    let actor = number(actor).context("no actor")?;
    if kind == "seat" {
        return seated(rt, alloc, hall, actor);
    }
    acted(rt, alloc, hall, actor, read(alloc, kind, parts)?)
}

// Adds a seat.
fn seated<W: Wait>(rt: &W, alloc: Global, hall: &mut Hall, actor: u32) -> Result<String>
    requires { IsHall hall.old }
    ensures { OnOk result (IsHall hall.new) }
{
    hall.add(rt, alloc, actor)?;
    act::told(alloc, "ok")
}

// Lets the seat of an actor act, and tells the answer.
fn acted<W: Wait>(
    rt: &W,
    alloc: Global,
    hall: &mut Hall,
    actor: u32,
    act: Option<Act>,
) -> Result<String>
    requires { IsHall hall.old }
    ensures { OnOk result (IsHall hall.new) }
{
    let place = hall.place(actor);
    let Hall { tape, chairs, .. } = hall;
    match (act, place) {
        (Some(act), Some(place)) => act_at(rt, alloc, tape, chairs, place, act),
        _ => None.context("a step of another form, or an actor without a seat"),
    }
}

// Lets the seat of a chair act, and tells the answer.
#[tactic(auto, using(crate::proofs::Chairs::chairs_written))]
fn act_at<W: Wait>(
    rt: &W,
    alloc: Global,
    tape: &Reel,
    chairs: &mut Vec<Chair>,
    place: usize,
    act: Act,
) -> Result<String>
    requires place { place < length chairs.old.items }
    requires chairs { All (IsChair tape.now) chairs.old.items }
    ensures chairs { All (IsChair tape.now) chairs.new.items }
    ensures count { length chairs.new.items ≡ length chairs.old.items }
{
    act::take(rt, alloc, tape, &mut chairs[place], act)
}

fn read(alloc: Global, kind: &str, parts: &[Value]) -> Result<Option<Act>> {
    match (kind, parts) {
        ("enter", [weight, parts @ ..]) => {
            let draft = draft(alloc, parts)?;
            Ok(weight.as_u64().map(|weight| Act::Enter { weight, draft }))
        }
        ("enter all", [items, weight, drafts @ ..]) => {
            Ok(entering_all(items, weight, drafted(alloc, drafts)?))
        }
        (_, [first]) => Ok(short_act(kind, first.as_u64())),
        (_, [first, second]) => Ok(long_act(kind, first.as_u64(), second.as_u64())),
        _ => Ok(None),
    }
}

// The act with one number.
fn short_act(kind: &str, number: Option<u64>) -> Option<Act> {
    let number = number?;
    match kind {
        "reserve" => Some(Act::Reserve {
            items: 1,
            bytes: number,
        }),
        "release" => Some(Act::Release {
            items: 1,
            bytes: number,
        }),
        "fetch" => Some(Act::Fetch { place: number }),
        _ => received(kind, u32::try_from(number).ok()?),
    }
}

// The act that asks for the oldest message to an actor.
fn received(kind: &str, to: u32) -> Option<Act> {
    match kind {
        "next" => Some(Act::Next { to }),
        "item" => Some(Act::Collect { to, most: 1 }),
        _ => None,
    }
}

// The act with two numbers.
fn long_act(kind: &str, first: Option<u64>, second: Option<u64>) -> Option<Act> {
    match (kind, first, second) {
        ("reserve", Some(items), Some(bytes)) => Some(Act::Reserve { items, bytes }),
        ("release", Some(items), Some(bytes)) => Some(Act::Release { items, bytes }),
        (_, Some(to), Some(number)) => messages(kind, u32::try_from(to).ok()?, number),
        _ => None,
    }
}

// The act that asks for messages to an actor, after a number or so many.
fn messages(kind: &str, to: u32, number: u64) -> Option<Act> {
    match kind {
        "after" => Some(Act::After { to, number }),
        "collect" => Some(Act::Collect {
            to,
            most: usize::try_from(number).ok()?,
        }),
        _ => None,
    }
}

fn entering_all(items: &Value, weight: &Value, drafts: Vec<Draft>) -> Option<Act> {
    Some(Act::EnterAll {
        items: items.as_u64()?,
        weight: weight.as_u64()?,
        drafts,
    })
}

fn drafted(alloc: Global, lists: &[Value]) -> Result<Vec<Draft>> {
    let mut drafts = Vec::new(alloc);
    for list in lists {
        let parts = list.as_array().context("no list of an item's parts")?;
        drafts.push(draft(alloc, parts.as_slice())?)?;
    }
    Ok(drafts)
}

fn draft(alloc: Global, parts: &[Value]) -> Result<Draft> {
    let [bytes, taken, to, is_lost] = parts else {
        return None.context("an item of another form");
    };
    let taken = match taken.is_null() {
        true => None,
        false => Some(taken.as_u64().context("no number of a message")?),
    };
    Ok(Draft {
        bytes: bytes.as_u64().context("no bytes")?,
        taken,
        to: actors(alloc, to)?,
        is_lost: is_lost
            .as_bool()
            .context("not told whether messages are lost")?,
    })
}

fn actors(alloc: Global, list: &Value) -> Result<Vec<u32>> {
    let mut actors = Vec::new(alloc);
    for actor in list.as_array().context("no list of actors")?.as_slice() {
        actors.push(number(actor).context("no actor")?)?;
    }
    Ok(actors)
}

fn number(value: &Value) -> Option<u32> {
    u32::try_from(value.as_u64()?).ok()
}

// All items of a tape.
fn closed(alloc: Global, hall: Hall) -> Result<String>
    requires { IsHall hall }
{
    let samples = hall.close(alloc)?;
    let mut told = String::new(alloc);
    for item in samples.items.as_slice() {
        add(alloc, &mut told, item)?;
    }
    Ok(told)
}

fn add(alloc: Global, told: &mut String, item: &Sample) -> Result<()> {
    if !told.is_empty() {
        told.push_str(" ")?;
    }
    told.push_str(&named(alloc, name_of(item))?)?;
    Ok(())
}
