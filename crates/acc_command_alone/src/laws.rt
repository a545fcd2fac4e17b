//! What holds of the reports of runs over strict disks. Each law is the contract of a function that does nothing.
ghost use Rattle.std.specs.Prelude.{◌≡◌, ℕ, true, List, [], ◌∷◌, ◌++◌};
ghost use Rattle.acc_schedule.specs.Content.{Content};
ghost use Rattle.acc_schedule.specs.Document.{Means};
ghost use Rattle.acc_schedule.specs.Plan.{IsPlan};
ghost use Rattle.acc_schedule.specs.declared.plan.Print.{Print};
ghost use Rattle.acc_schedule_runs.specs.Laws.{EndsWithDrain};
ghost use Rattle.acc_command_alone.specs.Counts.{answered_text};
ghost use Rattle.acc_report_line.specs.declared.line.Line.{Line};
ghost use Rattle.acc_report_line.specs.Texts.{lines_text};
ghost use Rattle.acc_command_alone.specs.declared.words.Command.TheVariants.{Run};
ghost use Rattle.acc_command_alone.specs.declared.status.Status.{Status};
ghost use Rattle.acc_command_alone.specs.Command.{IsDue, IsGenerated, IsReport, OverDisks};
ghost use Rattle.acc_command_alone.specs.Finished.{FinishesBegins};
ghost use Rattle.acc_command_alone.specs.Glancing.{IsGlanceDue, SeesOver};
ghost use Rattle.acc_command_alone.specs.Healing.{OverHealing};
ghost use Rattle.acc_command_alone.specs.Words.{IsGenerateLine};

use crate::generated::generated_documents_are_answered;
use acc_generator::laws::generated_documents_are_accepted;
use acc_glance::laws::one_sight_over_strict_disks;
use acc_heal_laws::laws::{one_healing, one_healing_limit_over_strict_disks};
use acc_plan_laws::laws::plans_run_safely_over_strict_disks;
use acc_ports::DiskMaker;
use acc_schedule_runs::limits::{
    a_limit_or_the_whole_over_strict_disks, one_limit_over_strict_disks,
};
use acc_schedule_runs::strict::one_strict_run;

/// Over strict disks the document alone fixes what `run` writes, and with which status, unless a port fails or memory runs out.
pub fn one_report_over_strict_disks<M: DiskMaker>()
    ensures { (before after other_before other_after : List (ℕ × M.D)) (bytes text other_text : List ℕ) (status other : Status) →
        IsDue (OverDisks M.D.Disk true before after) Run bytes status text →
        IsDue (OverDisks M.D.Disk true other_before other_after) Run bytes other other_text →
        (status ≡ other) × (text ≡ other_text) }
{
    one_strict_run();
    one_limit_over_strict_disks();
    a_limit_or_the_whole_over_strict_disks();
}

/// Over strict disks the document alone fixes what `heal` writes too, and with which status, unless a port fails or memory runs out.
pub fn one_healed_report_over_strict_disks<M: DiskMaker>()
    ensures { (before after other_before other_after : List (ℕ × M.D)) (bytes text other_text : List ℕ) (status other : Status) →
        IsDue (OverHealing M.D.Disk true before after) Run bytes status text →
        IsDue (OverHealing M.D.Disk true other_before other_after) Run bytes other other_text →
        (status ≡ other) × (text ≡ other_text) }
{
    one_healing();
    one_healing_limit_over_strict_disks();
}

/// Over strict disks the document alone fixes what `glance` writes too, and with which status, unless a port fails or memory runs out.
pub fn one_glance_over_strict_disks<M: DiskMaker>()
    ensures { (before after other_before other_after : List (ℕ × M.D)) (bytes text other_text : List ℕ) (status other : Status) →
        IsGlanceDue (OverDisks M.D.Disk true before after) (SeesOver M.D.Disk true before after) bytes status text →
        IsGlanceDue (OverDisks M.D.Disk true other_before other_after) (SeesOver M.D.Disk true other_before other_after) bytes other other_text →
        (status ≡ other) × (text ≡ other_text) }
{
    one_strict_run();
    one_limit_over_strict_disks();
    a_limit_or_the_whole_over_strict_disks();
    one_sight_over_strict_disks();
}

/// Over strict disks the report in lines that `heal` writes has, of each transaction that a line begins, a line of its decision and one of its
/// outcome.
pub fn healed_reports_finish_what_they_begin<M: DiskMaker>()
    ensures { (before after : List (ℕ × M.D)) (bytes text : List ℕ) (plan : Content) → Means bytes plan → plan.print ≡ Print.Lines →
        IsDue (OverHealing M.D.Disk true before after) Run bytes Status.Done text →
        (lines : List Line) × (text ≡ lines_text lines) × FinishesBegins lines }
{}

/// Over strict disks the report of a schedule of begins and drains that ends with a drain says that as many are answered as begun, and
/// none is open.
pub fn calm_reports_leave_none_open<M: DiskMaker>()
    ensures { (before after : List (ℕ × M.D)) (bytes text : List ℕ) (plan : Content) → IsPlan plan → Means bytes plan → EndsWithDrain plan.steps →
        IsReport (OverDisks M.D.Disk true before after) bytes text →
        (begun : ℕ) × (replied : ℕ) × (front : List ℕ) × (text ≡ front ++ lines_text (Line.End begun replied 0 ∷ [])) }
{
    plans_run_safely_over_strict_disks();
}

/// What `gen --seed N --txns M` writes, given to `run` over strict disks: where the status is 0, the report ends with the line
/// `end txns=M replied=M open=0`.
pub fn generated_reports_leave_none_open<M: DiskMaker>()
    ensures { (before after : List (ℕ × M.D)) (words : List (List ℕ)) (seed txns : ℕ) (bytes text : List ℕ) → IsGenerateLine words seed txns →
        IsGenerated seed txns Status.Done bytes → IsDue (OverDisks M.D.Disk true before after) Run bytes Status.Done text →
        (front : List ℕ) × (text ≡ front ++ answered_text txns) }
{
    generated_documents_are_accepted();
    generated_documents_are_answered();
}
