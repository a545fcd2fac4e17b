//! The command `check`.
ghost use Rattle.std.specs.Prelude.{◌≡◌, ◌≤◌, length, IfOk};
ghost use Rattle.acc_command_alone.specs.declared.words.Command.TheVariants.{Check};
ghost use Rattle.acc_command_alone.specs.Ends.{document_limit};
ghost use Rattle.acc_command_alone.specs.Command.{no_run, IsDue};

use crate::lines::{ok_line, refusal_line};
use crate::reading::read_plan;
use crate::reply::Reply;
use crate::status::Status;
use acc_base::{Bytes, OutOfMemory};
use std::alloc::Global;

/// Tells of a document what it has, or why it is refused.
pub(crate) fn check(alloc: Global, bytes: Bytes) -> Result<Reply, OutOfMemory>
    requires { length bytes ≤ document_limit }
    ensures { IfOk result (λ reply. IsDue no_run Check bytes reply.status reply.text) }
{
    match read_plan(alloc, bytes) {
        Ok(plan) => Ok(Reply {
            status: Status::Done,
            text: ok_line(alloc, &plan)?,
        }),
        Err(error) => Ok(Reply {
            status: Status::BadInput,
            text: refusal_line(alloc, &error)?,
        }),
    }
}
