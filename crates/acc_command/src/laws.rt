//! What holds of the reports of `free` over strict disks. Each law is the contract of a function that does nothing.
ghost use Rattle.std.specs.Prelude.{◌≡◌, ℕ, true, List, [], ◌∷◌, ◌++◌};
ghost use Rattle.acc_schedule.specs.Content.{Content};
ghost use Rattle.acc_schedule.specs.Document.{Means};
ghost use Rattle.acc_schedule.specs.Plan.{IsPlan};
ghost use Rattle.acc_message.specs.declared.item.Item.{Item};
ghost use Rattle.acc_safety.specs.Calm.{EachBegunIsAnswered};
ghost use Rattle.acc_free_laws.specs.Served.{HasNoRecover, IsBegunIn};
ghost use Rattle.std.specs.List.{AllByRecursion};
ghost use Rattle.acc_command_alone.specs.Counts.{answered_text};
ghost use Rattle.acc_report_line.specs.declared.line.Line.{Line};
ghost use Rattle.acc_report_line.specs.Texts.{lines_text};
ghost use Rattle.acc_command_alone.specs.declared.words.Command.TheVariants.{Run};
ghost use Rattle.acc_command_alone.specs.declared.status.Status.{Status};
ghost use Rattle.acc_command_alone.specs.Command.{IsDue, IsGenerated, IsReport};
ghost use Rattle.acc_command_alone.specs.Words.{IsGenerateLine};
ghost use Rattle.acc_command.specs.Free.{HasNoRestart, OverThreads, ServesOver};

use acc_command_alone::generated::replies_are_few;
use acc_free_laws::laws::{served_commands_are_taken, served_runs_are_answered};
use acc_generator::laws::{generated_documents_are_accepted, generated_plans_keep_the_rules};
use acc_ports::DiskMaker;

/// Over strict disks the actors of a schedule without a recover and a restart begin each transaction that it begins and answer it, on
/// however many threads, and the report of `free` says that none is open.
pub fn free_reports_leave_none_open<M: DiskMaker>()
    ensures answered { (before after : List (ℕ × M.D)) (plan : Content) (items : List Item) → IsPlan plan → HasNoRecover plan.steps →
        HasNoRestart plan.steps → ServesOver M.D.Disk true before after plan items →
        AllByRecursion (IsBegunIn items) plan.steps × EachBegunIsAnswered items }
    ensures report { (before after : List (ℕ × M.D)) (bytes text : List ℕ) (plan : Content) → IsPlan plan → Means bytes plan →
        HasNoRecover plan.steps → HasNoRestart plan.steps → IsReport (OverThreads M.D.Disk true before after) bytes text →
        (begun : ℕ) × (replied : ℕ) × (front : List ℕ) × (text ≡ front ++ lines_text (Line.End begun replied 0 ∷ [])) }
{
    served_commands_are_taken();
    served_runs_are_answered();
}

/// What `gen --seed N --txns M` writes, given to `free` over strict disks, on however many threads: where the status is 0, the report ends
/// with the line `end txns=M replied=M open=0`.
pub fn generated_reports_of_free_leave_none_open<M: DiskMaker>()
    ensures { (before after : List (ℕ × M.D)) (words : List (List ℕ)) (seed txns : ℕ) (bytes text : List ℕ) → IsGenerateLine words seed txns →
        IsGenerated seed txns Status.Done bytes → IsDue (OverThreads M.D.Disk true before after) Run bytes Status.Done text →
        (front : List ℕ) × (text ≡ front ++ answered_text txns) }
{
    generated_documents_are_accepted();
    generated_plans_keep_the_rules();
    replies_are_few();
    served_commands_are_taken();
    served_runs_are_answered();
}
