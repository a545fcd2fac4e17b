//! The transactions of a document.
ghost use Rattle.std.specs.Prelude.{◌≡◌, map, OnOk};
ghost use Rattle.acc_generator.specs.Document.{list, numbers, transaction as transaction_data, transaction_with};
ghost use Rattle.acc_generator.specs.Tokens.{Adds};

use crate::draws::Draws;
use crate::names::set_name;
use crate::texts::set_text;
use json::Writer;
use std::alloc::{AllocError, Global};

/// So many transactions, with the draws of the seed.
pub(crate) fn write_transactions(
    alloc: Global,
    out: &mut Writer,
    seed: u64,
    count: u32,
) -> Result<(), AllocError>
    ensures { OnOk result (Adds out.old (list (map (transaction_data seed) (numbers count))) out.new) }
{
    let mut draws = Draws::new(seed);
    let mut name = String::new(alloc);
    let mut text = String::new(alloc);
    out.begin_array()?;
    for number in 0..count {
        set_text(&mut text, number, &mut draws)?;
        write_transaction(out, &mut name, number, text.as_str())?;
    }
    out.end_array()
}

// A transaction with its text. Its name is made in `name`.
#[tactic(auto, unfolding(crate::specs::Document::transaction_with))]
fn write_transaction(
    out: &mut Writer,
    name: &mut String,
    number: u32,
    text: &str,
) -> Result<(), AllocError>
    ensures { OnOk result (Adds out.old (transaction_with number text.now) out.new) }
{
    set_name(name, number)?;
    out.begin_object()?;
    out.key("name")?;
    out.string(name.as_str())?;
    out.key("node")?;
    out.u64(u64::from(1 + number % 3))?;
    out.key("text")?;
    out.string(text)?;
    out.end_object()
}
