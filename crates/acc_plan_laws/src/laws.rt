//! What holds of plans and of the items that obey them. Each law is the contract of a function that does nothing, or only calls another law.
ghost use Rattle.std.specs.Prelude.{◌≡◌, ℕ, List, count_by};
ghost use Rattle.acc_message.specs.declared.item.Item.{Item};
ghost use Rattle.acc_message.specs.Items.{notes_of};
ghost use Rattle.acc_message.specs.Run.{IsRun};
ghost use Rattle.acc_safety.specs.Agreement.{Agreement};
ghost use Rattle.acc_safety.specs.Calm.{EachBegunIsAnswered};
ghost use Rattle.acc_safety.specs.Coverage.{Coverage};
ghost use Rattle.acc_safety.specs.SerialOutcomes.{SerialOutcomes};
ghost use Rattle.acc_safety.specs.Valid.{IsValidCluster};
ghost use Rattle.acc_run_laws.specs.Sends.{HasFewBodies};
ghost use Rattle.acc_report.specs.Report.{is_begin, is_reply, last_line};
ghost use Rattle.acc_report_line.specs.declared.line.Line.{Line};
ghost use Rattle.acc_schedule.specs.Content.{Content};
ghost use Rattle.acc_schedule.specs.Plan.{IsPlan};
ghost use Rattle.acc_schedule_runs.specs.Laws.{NeverFails, EndsWithDrain};
ghost use Rattle.acc_schedule_runs.specs.Moves.{Answers};
ghost use Rattle.acc_schedule_runs.specs.Schedules.{cluster_of, Obeys};
ghost use Rattle.acc_schedule_runs.specs.StrictSchedules.{ObeysStrictly};

use acc_calm::laws::calm;

/// The cluster of a plan is valid: the layout is one that is accepted, each node has its start, and each transaction has its home and a
/// body that keeps the rules of bodies.
pub fn plans_are_valid()
    ensures { (plan : Content) → IsPlan plan → IsValidCluster (cluster_of plan) }
{}

/// A plan has at most 10,000 transactions, so that its cluster's messages fit their format.
pub fn plans_have_few_bodies()
    ensures { (plan : Content) → IsPlan plan → HasFewBodies (cluster_of plan) }
{}

/// Whatever the disks answer, items that obey a plan are a safe run: two decisions of a transaction have one timestamp and those of
/// different ones differ, a decision names each conflicting transaction that is decided below it, and the first outcomes are those of a
/// serial run.
pub fn plans_run_safely()
    ensures run { (plan : Content) (answers : Answers) (items : List Item) → IsPlan plan → Obeys plan answers items → IsRun (cluster_of plan) items }
    ensures agreement { (plan : Content) (answers : Answers) (items : List Item) → IsPlan plan → Obeys plan answers items → Agreement items }
    ensures coverage { (plan : Content) (answers : Answers) (items : List Item) → IsPlan plan → Obeys plan answers items →
        Coverage (cluster_of plan) items }
    ensures serial { (plan : Content) (answers : Answers) (items : List Item) → IsPlan plan → Obeys plan answers items →
        SerialOutcomes (cluster_of plan) items }
{}

/// A schedule of begins and drains that ends with a drain, over disks that don't fail, answers each transaction that it begins, and its
/// report says that none is open.
pub fn calm_plans_are_answered()
    ensures answered { (plan : Content) (answers : Answers) (items : List Item) → IsPlan plan → NeverFails answers → EndsWithDrain plan.steps →
        Obeys plan answers items → EachBegunIsAnswered items }
    ensures none_open { (plan : Content) (answers : Answers) (items : List Item) → IsPlan plan → NeverFails answers → EndsWithDrain plan.steps →
        Obeys plan answers items →
        last_line (notes_of items) ≡ Line.End (count_by is_begin (notes_of items)) (count_by is_reply (notes_of items)) 0 }
{
    calm();
}

/// The same over strict disks: what obeys a plan there is a safe run, and a schedule of begins and drains that ends with a drain meets no
/// fault, so that it answers each transaction that it begins.
pub fn plans_run_safely_over_strict_disks()
    ensures run { (plan : Content) (items : List Item) → IsPlan plan → ObeysStrictly plan items → IsRun (cluster_of plan) items }
    ensures agreement { (plan : Content) (items : List Item) → IsPlan plan → ObeysStrictly plan items → Agreement items }
    ensures coverage { (plan : Content) (items : List Item) → IsPlan plan → ObeysStrictly plan items → Coverage (cluster_of plan) items }
    ensures serial { (plan : Content) (items : List Item) → IsPlan plan → ObeysStrictly plan items → SerialOutcomes (cluster_of plan) items }
    ensures answered { (plan : Content) (items : List Item) → IsPlan plan → EndsWithDrain plan.steps → ObeysStrictly plan items →
        EachBegunIsAnswered items }
    ensures none_open { (plan : Content) (items : List Item) → IsPlan plan → EndsWithDrain plan.steps → ObeysStrictly plan items →
        last_line (notes_of items) ≡ Line.End (count_by is_begin (notes_of items)) (count_by is_reply (notes_of items)) 0 }
{
    calm();
}
