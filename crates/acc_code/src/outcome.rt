//! Outcomes.
ghost use Rattle.std.specs.Prelude.{◌≡◌, ◌++◌, OnOk, OnErr, IfOk};
ghost use Rattle.acc_wire.specs.Reading.{Unread, Passes, AreBytes};
ghost use Rattle.acc_txn.specs.declared.outcome.Outcome.{Outcome};
ghost use Rattle.acc_code.specs.Spelling.{verdict_number, outcome_bytes};
ghost use Rattle.acc_code.specs.Short.{IsShortOutcome, IsOutcome};
ghost use Rattle.acc_code.specs.Reading.{Reads};
ghost use Rattle.acc_txn.specs.Writing.{Keeps};
ghost use Rattle.acc_code.specs.CellReading.{verdict_of, outcome_at};

use crate::cells::{put_cells, put_values, take_cells, take_values};
use crate::error::CodeError;
use crate::fields::take_between;
use acc_base::{Bytes, OutOfMemory};
use acc_txn::{Outcome, Reply, Verdict};
use acc_wire::{Reader, put_u8};
use std::alloc::Global;

fn number_of(verdict: Verdict) -> u8
    ensures { result ≡ verdict_number verdict }
{
    verdict as u8
}

#[tactic(auto, using(acc_txn::proofs::Kept::keeps_all, acc_txn::proofs::Kept::keeps_front, acc_txn::proofs::Kept::keeps_more), unfolding(crate::specs::Spelling::outcome_bytes))]
fn put_fields(out: &mut Bytes, outcome: &Outcome) -> Result<(), OutOfMemory>
    requires { IsShortOutcome outcome.now }
    ensures ok { OnOk result (out.new ≡ out.old ++ outcome_bytes outcome.now) }
    ensures kept { OnErr result (Keeps out.old out.new) }
    ensures fits { OnOk result (IsOutcome outcome.now) }
{
    put_u8(out, number_of(outcome.reply.verdict))?;
    put_values(out, &outcome.reply.values)?;
    put_cells(out, &outcome.writes)
}

/// Appends an outcome: its verdict, the selected cells and the writes. Without memory for it the bytes are as before.
pub fn put_outcome(out: &mut Bytes, outcome: &Outcome) -> Result<(), OutOfMemory>
    requires { IsShortOutcome outcome.now }
    ensures ok { OnOk result (out.new ≡ out.old ++ outcome_bytes outcome.now) }
    ensures err { OnErr result (out.new ≡ out.old) }
    // What is written can be read.
    ensures fits { OnOk result (IsOutcome outcome.now) }
{
    let before = out.len();
    let appended = put_fields(out, outcome);
    if appended.is_err() {
        out.truncate(before);
    }
    appended
}

fn verdict(number: u8) -> Verdict
    ensures { result ≡ verdict_of number }
{
    match number {
        1 => Verdict::Ok,
        2 => Verdict::Skipped,
        _ => Verdict::Overflow,
    }
}

#[tactic(auto, unfolding(crate::specs::CellReading::outcome_at))]
fn take_fields(alloc: Global, reader: &mut Reader<'_>) -> Result<Outcome, CodeError>
    ensures exact { Reads result reader.new (outcome_at reader.old) }
    ensures kept { OnErr result (reader.new ≡ reader.old) }
    ensures bytes { AreBytes reader.old.bytes }
{
    let mut ahead = reader.fork();
    let number = take_between(&mut ahead, 1, 3)?;
    let values = take_values(alloc, &mut ahead)?;
    let writes = take_cells(alloc, &mut ahead)?;
    *reader = ahead;
    Ok(Outcome {
        reply: Reply {
            verdict: verdict(number),
            values,
        },
        writes,
    })
}

/// An outcome. The error is that of the first field at fault, with the place of its first byte: Short where the bytes end
/// inside the field, and Range where it holds what isn't allowed, which is a verdict other than 1, 2 and 3, or what
/// `take_cells` doesn't allow. After an error the reader is unchanged.
pub fn take_outcome(alloc: Global, reader: &mut Reader<'_>) -> Result<Outcome, CodeError>
    // What is read is spelled so.
    ensures found { IfOk result (λ outcome. Passes reader.old reader.new (outcome_bytes outcome)) }
    ensures fits { IfOk result IsOutcome }
    // What is spelled so is read, unless memory runs out.
    ensures only { (outcome : Outcome) (rest : Unread) → IsOutcome outcome → Passes reader.old rest (outcome_bytes outcome)
        → Reads result reader.new (Ok (outcome, rest)) }
    // Which fault it is.
    ensures exact { Reads result reader.new (outcome_at reader.old) }
    ensures kept { OnErr result (reader.new ≡ reader.old) }
{
    take_fields(alloc, reader)
}
