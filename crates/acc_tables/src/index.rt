//! Indexes, and scans of their columns.
ghost use Rattle.std.specs.Prelude.{◌≡◌, length};

use crate::stamps::stamp;
use acc_base::OutOfMemory;
use acc_index::{Index, Share};
use acc_lanes::{below, greatest, has};
use acc_lang::parse;
use acc_stamp::{Stamp, TxnId};
use acc_txn::Body;
use anyhow::{Context, Result, bail};
use std::alloc::{AllocError, Global};

/// A transaction of the key that all of the index use, and one of another key.
const SAME: &str = "BEGIN TRANSACTION UPDATE t SET v = 1 WHERE k = 'x'; COMMIT TRANSACTION";

const OTHER: &str = "BEGIN TRANSACTION UPDATE t SET v = 1 WHERE k = 'y'; COMMIT TRANSACTION";

/// What an index of stamps tells, given as the stamps, a bound and a stamp to look for.
pub fn answer(alloc: Global, text: &str) -> Result<String> {
    let (listed, rest) = text.split_once(' ').context("no bound")?;
    let (bound, sought) = rest.split_once(' ').context("no stamp to look for")?;
    let (bound, sought) = (stamp(bound)?, stamp(sought)?);
    let same = share(alloc, SAME)?;
    let index = noted(alloc, &same, listed)?;
    let mut told = scanned(alloc, &index, bound, sought)?;
    told.push_str(&rival(alloc, &index, &same, sought)?)?;
    told.push_str(&rival(alloc, &index, &share(alloc, OTHER)?, sought)?)?;
    told.push_str(&writers(alloc, &index, &same)?)?;
    Ok(told)
}

/// The keys of a transaction.
fn share(alloc: Global, text: &str) -> Result<Share> {
    let body = body(alloc, text).context("no transaction")?;
    Ok(keys(&body)?)
}

fn body(alloc: Global, text: &str) -> Option<Body> {
    match parse(alloc, text) {
        Ok(body) => Some(body),
        Err(_) => None,
    }
}

fn keys(body: &Body) -> Result<Share, OutOfMemory> {
    Ok(Share::whole(body.footprint()?))
}

fn noted(alloc: Global, share: &Share, listed: &str) -> Result<Index> {
    let mut index = Index::new(alloc);
    for word in listed.split(',') {
        note(&mut index, share, word)?;
    }
    Ok(index)
}

fn note(index: &mut Index, share: &Share, word: &str) -> Result<()> {
    let stamp = stamp(word)?;
    index.note(TxnId(stamp), share, stamp)?;
    Ok(())
}

/// Which stamps are below the bound, the greatest of these, and whether the other one is there.
fn scanned(alloc: Global, index: &Index, bound: Stamp, sought: Stamp) -> Result<String> {
    let (h, origins) = (index.heights(), index.origins());
    if origins.len() != h.len() {
        bail!("columns of different lengths");
    }
    let mask = mask(alloc, h, origins, bound)?;
    if mask.len() != h.len() {
        bail!("a mask of another length");
    }
    let greatest = greatest(h, origins, mask.as_slice());
    let is_there = has(h, origins, (sought.h, sought.origin));
    let mut told = flags(alloc, mask.as_slice())?;
    told.push_str(&pair(alloc, greatest)?)?;
    told.push_str(if is_there { " there" } else { " missing" })?;
    Ok(told)
}

/// Of each stamp whether it is below the bound.
fn mask(alloc: Global, h: &[u64], origins: &[u32], bound: Stamp) -> Result<Vec<bool>, AllocError>
    requires { length origins.now ≡ length h.now }
{
    let mut mask = vec![in alloc; false; h.len()]?;
    below(h, origins, (bound.h, bound.origin), mask.as_mut_slice());
    Ok(mask)
}

/// A `1` for each true one and a `0` for each other.
fn flags(alloc: Global, mask: &[bool]) -> Result<String, AllocError> {
    let mut told = String::new(alloc);
    for flag in mask {
        told.push(if *flag { '1' } else { '0' })?;
    }
    Ok(told)
}

/// The greatest stamp of another transaction that conflicts with the sought one, where it uses these keys.
fn rival(alloc: Global, index: &Index, share: &Share, sought: Stamp) -> Result<String> {
    match index.greatest_conflict(TxnId(sought), share) {
        Some(Stamp { h, origin }) => Ok(pair(alloc, Some((h, origin)))?),
        None => Ok(pair(alloc, None)?),
    }
}

/// How many transactions write the first of these keys.
fn writers(alloc: Global, index: &Index, share: &Share) -> Result<String> {
    match share.pairs().first() {
        Some((key, _)) => Ok(format!(in alloc; " {}", index.writers(key)?.len())?),
        None => bail!("no key"),
    }
}

/// The two numbers after a space, or `none`.
fn pair(alloc: Global, stamp: Option<(u64, u32)>) -> Result<String, AllocError> {
    match stamp {
        Some((h, origin)) => format!(in alloc; " {h}.{origin}"),
        None => " none".to_string(alloc),
    }
}
