//! Stamps as texts.
use acc_stamp::Stamp;
use anyhow::{Context, Result};

/// The stamp of two numbers with a point in between.
pub fn stamp(word: &str) -> Result<Stamp> {
    parsed(word).context("no stamp")
}

fn parsed(word: &str) -> Option<Stamp> {
    let (h, origin) = word.split_once('.')?;
    Some(Stamp {
        h: h.parse().ok()?,
        origin: origin.parse().ok()?,
    })
}
