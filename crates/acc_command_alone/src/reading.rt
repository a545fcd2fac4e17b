//! Reads the plan of a document, whose bytes are let go.
ghost use Rattle.std.specs.Prelude.{IfOk, IfErr};
ghost use Rattle.acc_schedule.specs.Document.{IsCause, Means};
ghost use Rattle.acc_schedule.specs.Faults.{IsOfRule};
ghost use Rattle.acc_schedule.specs.Plan.{IsPlan};

use acc_base::Bytes;
use acc_schedule::{Plan, PlanError, read};
use std::alloc::Global;

/// The plan of a document, or the first rule that it breaks; `OutOfMemory` says nothing of the document. None of them keeps the bytes,
/// which are let go before the plan is run.
pub fn read_plan(alloc: Global, bytes: Bytes) -> Result<Plan, PlanError>
    ensures accepted { IfOk result (Means bytes) }
    ensures sound { IfOk result IsPlan }
    ensures refused { IfErr result (IsCause bytes) }
    ensures built { IfErr result IsOfRule }
{
    read(alloc, bytes.as_slice())
}
