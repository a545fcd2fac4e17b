//! The schedule of a document.
ghost use Rattle.std.specs.Prelude.{◌≡◌, OnOk};
ghost use Rattle.acc_generator.specs.Document.{begin as begin_data, drain as drain_data, list, schedule as schedule_data, steps_at};
ghost use Rattle.acc_generator.specs.Tokens.{AddsAll, Adds};

use crate::names::set_name;
use json::Writer;
use std::alloc::{AllocError, Global};

/// Begins so many transactions, with a drain after each sixteen of them and one more at the end.
pub(crate) fn write_schedule(alloc: Global, out: &mut Writer, count: u32) -> Result<(), AllocError>
    ensures { OnOk result (Adds out.old (list (schedule_data count)) out.new) }
{
    let mut name = String::new(alloc);
    out.begin_array()?;
    for number in 0..count {
        write_steps(out, &mut name, number)?;
    }
    write_drain(out)?;
    out.end_array()
}

// The transaction begins, and each sixteenth is drained. Its name is made in `name`.
#[tactic(auto, unfolding(crate::specs::Document::steps_at))]
fn write_steps(out: &mut Writer, name: &mut String, number: u32) -> Result<(), AllocError>
    ensures { OnOk result (AddsAll out.old (steps_at number) out.new) }
{
    write_begin(out, name, number)?;
    if number % 16 == 15 {
        write_drain(out)?;
    }
    Ok(())
}

#[tactic(auto, unfolding(crate::specs::Document::begin))]
fn write_begin(out: &mut Writer, name: &mut String, number: u32) -> Result<(), AllocError>
    ensures { OnOk result (Adds out.old (begin_data number) out.new) }
{
    set_name(name, number)?;
    out.begin_array()?;
    out.string("begin")?;
    out.string(name.as_str())?;
    out.end_array()
}

#[tactic(auto, unfolding(crate::specs::Document::drain))]
fn write_drain(out: &mut Writer) -> Result<(), AllocError>
    ensures { OnOk result (Adds out.old drain_data out.new) }
{
    out.begin_array()?;
    out.string("drain")?;
    out.end_array()
}
