//! Answers to a Stable.
ghost use Rattle.std.specs.Prelude.{◌≡◌, ◌==◌, ◌++◌, OnOk, OnErr};
ghost use Rattle.acc_code.specs.Reading.{Reads};
ghost use Rattle.acc_message_code.specs.Short.{IsShortAnswer};
ghost use Rattle.acc_message_code.specs.Fitting.{FitsAnswer};
ghost use Rattle.acc_message_code.specs.MessageSpelling.{answer_bytes};
ghost use Rattle.acc_message_code.specs.MessageReading.{answer_behind, answer_at};
ghost use Rattle.acc_txn.specs.Writing.{Keeps};

use acc_base::{Bytes, OutOfMemory};
use acc_code::{CodeError, put_cells, put_outcome, take_between, take_cells, take_outcome};
use acc_message::ReadAnswer;
use acc_wire::{Reader, put_u8};
use std::alloc::Global;

/// The number of an answer that holds cells.
const VALUES: u8 = 1;

/// The number of an answer that holds an outcome.
const KNOWN: u8 = 2;

/// Appends an answer: 1 and cells, or 2 and an outcome.
#[tactic(auto, using(acc_txn::proofs::Kept::keeps_all, acc_txn::proofs::Kept::keeps_front, acc_txn::proofs::Kept::keeps_more), unfolding(crate::specs::MessageSpelling::answer_bytes))]
pub(crate) fn put_answer(out: &mut Bytes, answer: &ReadAnswer) -> Result<(), OutOfMemory>
    requires { IsShortAnswer answer.now }
    ensures spelled { OnOk result (out.new ≡ out.old ++ answer_bytes answer.now) }
    ensures kept { OnErr result (Keeps out.old out.new) }
    ensures fits { OnOk result (FitsAnswer answer.now) }
{
    match answer {
        ReadAnswer::Values(cells) => {
            put_u8(out, VALUES)?;
            put_cells(out, cells)
        }
        ReadAnswer::Known(outcome) => {
            put_u8(out, KNOWN)?;
            put_outcome(out, outcome)
        }
    }
}

fn take_answer_behind(
    alloc: Global,
    reader: &mut Reader<'_>,
    number: u8,
) -> Result<ReadAnswer, CodeError>
    ensures { Reads result reader.new (answer_behind (number == 1) reader.old) }
{
    if number == VALUES {
        Ok(ReadAnswer::Values(take_cells(alloc, reader)?))
    } else {
        Ok(ReadAnswer::Known(take_outcome(alloc, reader)?))
    }
}

/// An answer.
#[tactic(auto, unfolding(crate::specs::MessageReading::answer_at))]
pub(crate) fn take_answer(alloc: Global, reader: &mut Reader<'_>) -> Result<ReadAnswer, CodeError>
    ensures { Reads result reader.new (answer_at reader.old) }
{
    let number = take_between(reader, VALUES, KNOWN)?;
    take_answer_behind(alloc, reader, number)
}
