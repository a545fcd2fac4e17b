//! A document as a whole.
ghost use Rattle.std.specs.Prelude.{◌≡◌, ◌≤◌, IfOk, OnOk};
ghost use Rattle.acc_schedule.specs.Document.{Means};
ghost use Rattle.acc_generator.specs.Document.{document as document_data, document_text};
ghost use Rattle.acc_generator.specs.Plan.{plan};
ghost use Rattle.acc_generator.specs.Tokens.{Adds};

use crate::cluster::{write_nodes, write_shards};
use crate::schedule::write_schedule;
use crate::transactions::write_transactions;
use acc_base::{Bytes, OutOfMemory};
use json::Writer;
use std::alloc::{AllocError, Global};

/// The document of a seed with so many transactions, as compact JSON and a line feed: the text that `serde_json` has of it.
///
/// It is written token by token by the writer of `serde_json`, into memory that is taken at once.
pub fn generate(alloc: Global, seed: u64, txns: u32) -> Result<Bytes, OutOfMemory>
    requires some { 1 ≤ txns }
    requires few { txns ≤ 2000 }
    ensures text { IfOk result (λ bytes. bytes ≡ document_text seed txns) }
    ensures accepted { IfOk result (λ bytes. Means bytes (plan seed txns)) }
{
    let room = 1024 + 192 * txns as usize;
    let mut out = Writer::new(Vec::with_capacity(alloc, room)?);
    write_document(alloc, &mut out, seed, txns)?;
    let mut text = out.into_inner();
    text.push(b'\n')?;
    Ok(Bytes::from_vec(text))
}

fn write_document(alloc: Global, out: &mut Writer, seed: u64, txns: u32) -> Result<(), AllocError>
    ensures { OnOk result (Adds out.old (document_data seed txns) out.new) }
{
    out.begin_object()?;
    out.key("nodes")?;
    write_nodes(out)?;
    out.key("print")?;
    out.string("summary")?;
    out.key("schedule")?;
    write_schedule(alloc, out, txns)?;
    out.key("shards")?;
    write_shards(out)?;
    out.key("txns")?;
    write_transactions(alloc, out, seed, txns)?;
    out.key("version")?;
    out.u64(1)?;
    out.end_object()
}
