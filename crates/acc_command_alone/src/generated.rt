//! What holds of how many transactions are begun and answered. Each law is the contract of a function that does nothing, or only calls
//! other laws.
ghost use Rattle.std.specs.Prelude.{◌≡◌, ◌≤◌, ℕ, List, [], ◌++◌, length};
ghost use Rattle.acc_message.specs.declared.item.Item.{Item};
ghost use Rattle.acc_message.specs.Run.{Cluster, IsRun};
ghost use Rattle.acc_schedule.specs.Content.{Content};
ghost use Rattle.acc_schedule.specs.Plan.{IsPlan};
ghost use Rattle.acc_schedule_runs.specs.Laws.{NeverFails, EndsWithDrain};
ghost use Rattle.acc_schedule_runs.specs.Moves.{Answers};
ghost use Rattle.acc_schedule_runs.specs.Schedules.{Obeys};
ghost use Rattle.acc_schedule_runs.specs.StrictSchedules.{ObeysStrictly};
ghost use Rattle.acc_report.specs.Report.{report_text};
ghost use Rattle.acc_generator.specs.Plan.{plan as plan_of};
ghost use Rattle.acc_command_alone.specs.Counts.{AreApart, AreAnswered, answered_text, begins_in, begun_by, replies_in};

use acc_generator::laws::generated_plans_keep_the_rules;
use acc_plan_laws::laws::{calm_plans_are_answered, plans_run_safely_over_strict_disks};

/// No run gives more replies than it begins transactions: a reply closes the client that its begin opened.
pub fn replies_are_few()
    ensures { (cluster : Cluster) (items : List Item) → IsRun cluster items → replies_in items ≤ begins_in items }
{}

/// A schedule of begins and drains that ends with a drain, and begins no transaction twice, over disks that don't fail: each of its begins
/// begins a transaction, each transaction has one reply, and the last line of the report says so. The same over strict disks.
pub fn calm_plans_count_their_begins()
    ensures answered { (plan : Content) (answers : Answers) (items : List Item) → IsPlan plan → NeverFails answers → EndsWithDrain plan.steps →
        AreApart (begun_by plan.steps) → Obeys plan answers items → AreAnswered (length (begun_by plan.steps)) items }
    ensures strictly { (plan : Content) (items : List Item) → IsPlan plan → EndsWithDrain plan.steps → AreApart (begun_by plan.steps) →
        ObeysStrictly plan items → AreAnswered (length (begun_by plan.steps)) items }
{
    calm_plans_are_answered();
    plans_run_safely_over_strict_disks();
}

/// Over disks that don't fail, and over strict ones, the run of a generated document begins each of its transactions once, each has one
/// reply, and its report ends with the line that says so.
pub fn generated_documents_are_answered()
    ensures answered { (seed count : ℕ) (answers : Answers) (items : List Item) → count ≤ 2000 → NeverFails answers →
        Obeys (plan_of seed count) answers items → AreAnswered count items }
    ensures strictly { (seed count : ℕ) (items : List Item) → count ≤ 2000 → ObeysStrictly (plan_of seed count) items → AreAnswered count items }
    ensures report { (seed count : ℕ) (items : List Item) → count ≤ 2000 → ObeysStrictly (plan_of seed count) items →
        (front : List ℕ) × (report_text (plan_of seed count).print (plan_of seed count).names [] items ≡ front ++ answered_text count) }
{
    generated_plans_keep_the_rules();
    calm_plans_count_their_begins();
}
