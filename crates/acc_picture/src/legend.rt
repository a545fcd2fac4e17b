//! The legend: the colour and the shape of each transaction that is drawn, with its name and its text.
use crate::pieces::{Piece, put};
use crate::scene::Scene;
use acc_base::OutOfMemory;
use acc_print::print;
use acc_schedule::Plan;
use std::alloc::Global;

/// How many colours there are, and how many shapes.
const KINDS: u32 = 8;

/// How many names a row of the legend has.
const ROW: u64 = 6;

/// The number of a transaction's colour.
pub(crate) fn colour(txn: u32) -> u64 {
    u64::from(txn % KINDS)
}

/// The number of a transaction's shape. Of 64 transactions in a row no two have the same colour and shape.
pub(crate) fn shape(txn: u32) -> u64 {
    u64::from((txn % KINDS).saturating_add(txn / KINDS % KINDS) % KINDS)
}

/// The numbers of the transactions that are drawn, each once and in order: those of which an item is drawn.
pub(crate) fn drawn_txns(alloc: Global, scene: &Scene<'_>) -> Result<Vec<u32>, OutOfMemory> {
    let plan = scene.plan;
    let mut drawn = vec![in alloc; false; plan.names.len()]?;
    for place in 0..scene.items.len() {
        if let Some(column) = scene.columns.get(place) {
            if column.drawn {
                mark(&mut drawn, scene.txn(scene.items.shown(place)));
            }
        }
    }
    let mut txns = Vec::new(alloc);
    let mut txn: u32 = 0;
    for is in drawn.as_slice() {
        if *is {
            txns.push(txn)?;
        }
        txn = txn.saturating_add(1);
    }
    Ok(txns)
}

fn mark(drawn: &mut Vec<bool>, txn: Option<u32>) {
    if let Some(txn) = txn {
        let at = txn as usize;
        if at < drawn.len() {
            drawn[at] = true;
        }
    }
}

/// How high the legend of so many transactions is.
pub(crate) fn height(count: usize) -> u64 {
    (count as u64).div_ceil(ROW).saturating_mul(20)
}

/// Appends the legend of these transactions.
pub(crate) fn push_legend(
    text: &mut Vec<u8>,
    alloc: Global,
    plan: &Plan,
    txns: &[u32],
) -> Result<(), OutOfMemory> {
    put(text, &[Piece::Raw("<g class='legend'>\n")])?;
    let mut at: u64 = 0;
    for txn in txns {
        push_entry(text, alloc, plan, *txn, at)?;
        at = at.saturating_add(1);
    }
    put(text, &[Piece::Raw("</g>\n")])
}

fn push_entry(
    text: &mut Vec<u8>,
    alloc: Global,
    plan: &Plan,
    txn: u32,
    at: u64,
) -> Result<(), OutOfMemory> {
    let x = (at % ROW).saturating_mul(140).saturating_add(20);
    let y = (at / ROW).saturating_mul(20).saturating_add(20);
    let name = match plan.names.as_slice().get(txn as usize) {
        Some(name) => name.as_slice(),
        None => b"",
    };
    put(
        text,
        &[
            Piece::Raw("<g class='t"),
            Piece::Number(colour(txn)),
            Piece::Raw("'><use href='#k"),
            Piece::Number(shape(txn)),
            Piece::Raw("' x='"),
            Piece::Number(x),
            Piece::Raw("' y='"),
            Piece::Number(y),
            Piece::Raw("'/><text x='"),
            Piece::Number(x.saturating_add(12)),
            Piece::Raw("' y='"),
            Piece::Number(y.saturating_add(4)),
            Piece::Raw("'>"),
            Piece::Escaped(name),
            Piece::Raw("</text>"),
        ],
    )?;
    push_text(text, alloc, plan, txn)?;
    put(text, &[Piece::Raw("</g>\n")])
}

// Appends the text of a transaction, in a tag of its own.
fn push_text(text: &mut Vec<u8>, alloc: Global, plan: &Plan, txn: u32) -> Result<(), OutOfMemory> {
    if let Some(body) = plan.bodies.as_slice().get(txn as usize) {
        let body = print(alloc, body)?;
        put(
            text,
            &[
                Piece::Raw("<title>"),
                Piece::Escaped(body.as_slice()),
                Piece::Raw("</title>"),
            ],
        )?;
    }
    Ok(())
}
