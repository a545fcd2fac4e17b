//! The ids that journals begin.
ghost use Rattle.std.specs.Prelude.{IfOk};
ghost use Rattle.acc_left.specs.Leaves.{DoRise};
ghost use Rattle.acc_left.specs.Rolls.{IsRoll};
ghost use Rattle.acc_left.specs.Rules.{AreLeft};

use crate::image::Images;
use crate::rules::drawn_in;
use acc_base::OutOfMemory;
use acc_message::Roll;
use acc_schedule::Plan;
use std::alloc::Global;

/// The ids of the transactions that these journals begin, rising, each with the number of its transaction. The plan
/// and the journals are those that `read_left` gave.
pub fn roll(alloc: Global, plan: &Plan, images: &Images) -> Result<Roll, OutOfMemory>
    requires left { AreLeft plan.now images.now }
    requires rise { DoRise images.now }
    ensures { IfOk result (IsRoll plan.now images.now) }
{
    match drawn_in(alloc, plan, images.as_slice()) {
        Ok(drawn) => Ok(Roll::from_vec(drawn.begins(alloc)?)),
        Err(_) => Err(OutOfMemory),
    }
}
