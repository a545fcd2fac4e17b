//! Answers of stores to an attempt.
use crate::stamps::stamp;
use acc_deps::Deps;
use acc_stamp::{Actor, Stamp};
use acc_tally::Tally;
use anyhow::{Context, Result, bail};
use std::alloc::Global;

/// For each answer of a list whether it is the first of its store, and the greatest stamp.
pub fn answer(alloc: Global, text: &str) -> Result<String> {
    let mut tally = Tally::new(alloc, 0);
    let mut told = String::new(alloc);
    for word in text.split(',') {
        told.push_str(taken(alloc, &mut tally, word)?)?;
    }
    match tally.greatest() {
        Some(Stamp { h, origin }) => told.push_str(&format!(in alloc; "{h}.{origin}")?)?,
        None => told.push_str("none")?,
    }
    Ok(told)
}

fn taken(alloc: Global, tally: &mut Tally, word: &str) -> Result<&'static str> {
    let (store, t) = word.split_once(' ').context("no stamp")?;
    let t = stamp(t)?;
    match store.parse::<u32>() {
        Ok(store) => first(alloc, tally, Actor(store), t),
        Err(_) => bail!("no store"),
    }
}

fn first(alloc: Global, tally: &mut Tally, store: Actor, t: Stamp) -> Result<&'static str> {
    if store.shard() > 15 || store.node() > 15 {
        bail!("no store");
    }
    match tally.first(store, true, t, &Deps::new(alloc)) {
        Ok(true) => Ok("first "),
        Ok(false) => Ok("again "),
        Err(_) => bail!("out of memory"),
    }
}
