//! Laws of items that are those of a plan's run and its healing. Each is the contract of a function that only calls other laws.
ghost use Rattle.std.specs.Prelude.{◌≡◌, ◌++◌, List};
ghost use Rattle.acc_message.specs.declared.item.Item.{Item};
ghost use Rattle.acc_message.specs.Run.{IsRun};
ghost use Rattle.acc_safety.specs.Agreement.{Agreement};
ghost use Rattle.acc_safety.specs.Coverage.{Coverage};
ghost use Rattle.acc_safety.specs.SerialOutcomes.{SerialOutcomes};
ghost use Rattle.acc_schedule.specs.Content.{Content};
ghost use Rattle.acc_schedule.specs.Plan.{IsPlan};
ghost use Rattle.acc_schedule_runs.specs.Laws.{NobodyIsDown};
ghost use Rattle.acc_schedule_runs.specs.Moves.{Answers};
ghost use Rattle.acc_schedule_runs.specs.Schedules.{cluster_of};
ghost use Rattle.acc_heal_laws.specs.Healed.{IsHealed};
ghost use Rattle.acc_heal.specs.Healed.{HealsTo, HealsStrictlyTo};

use acc_heal_laws::laws::{healing_goes_on, healing_heals, strict_disks_heal};
use acc_plan_laws::laws::plans_are_valid;
use acc_safety_laws::every_run::{agreement, coverage, serial};

/// Whatever the disks answer, the items of a plan's run and its healing are a safe run: two decisions of a transaction have one timestamp and
/// those of different ones differ, a decision names each conflicting transaction that is decided below it, and the first outcomes are those
/// of a serial run.
pub fn healed_runs_are_safe()
    ensures run { (plan : Content) (answers : Answers) (items : List Item) → IsPlan plan → HealsTo plan answers items → IsRun (cluster_of plan) items }
    ensures agreement { (plan : Content) (answers : Answers) (items : List Item) → IsPlan plan → HealsTo plan answers items → Agreement items }
    ensures coverage { (plan : Content) (answers : Answers) (items : List Item) → IsPlan plan → HealsTo plan answers items → Coverage (cluster_of plan) items }
    ensures serial { (plan : Content) (answers : Answers) (items : List Item) → IsPlan plan → HealsTo plan answers items → SerialOutcomes (cluster_of plan) items }
{
    plans_are_valid();
    healing_goes_on();
    agreement();
    coverage();
    serial();
}

/// Where none of the items after the plan's own is a down, each transaction that was begun is decided, has its outcome and is applied at each
/// of its stores. Over strict disks it is so without a condition.
pub fn healings_heal()
    ensures healed { (plan : Content) (answers : Answers) (items later : List Item) → IsPlan plan → (heals : HealsTo plan answers items) →
        items ≡ later ++ heals.between.own → NobodyIsDown later → IsHealed (cluster_of plan) items }
    ensures strictly { (plan : Content) (items : List Item) → IsPlan plan → HealsStrictlyTo plan items → IsHealed (cluster_of plan) items }
{
    healing_heals();
    strict_disks_heal();
}
