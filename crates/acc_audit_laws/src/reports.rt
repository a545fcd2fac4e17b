//! That the reports of this program are passed by its own judge.
ghost use Rattle.std.specs.Prelude.{ℕ, Bool, List};
ghost use Rattle.acc_message.specs.declared.item.Item.{Item};
ghost use Rattle.acc_schedule.specs.Content.{Content};
ghost use Rattle.acc_schedule.specs.Document.{Means};
ghost use Rattle.acc_schedule.specs.declared.plan.Step.{Step};
ghost use Rattle.acc_schedule_runs.specs.Moves.{Answers};
ghost use Rattle.acc_schedule_runs.specs.Schedules.{Obeys};
ghost use Rattle.acc_schedule_runs.specs.Situations.{Situation};
ghost use Rattle.acc_free_laws.specs.FreeRun.{IsFreeRun};
ghost use Rattle.acc_heal_laws.specs.Healings.{IsHealing};
ghost use Rattle.acc_report_line.specs.declared.line.Line.{Line};
ghost use Rattle.acc_report_reader.specs.Report.{IsReport as IsReportOf};
ghost use Rattle.acc_audit.specs.Cases.{MeansCase};
ghost use Rattle.acc_command_alone.specs.Command.{OverDisks};
ghost use Rattle.acc_command_alone.specs.Healing.{OverHealing};
ghost use Rattle.acc_audit_laws.specs.Made.{CasesGetYes, IsMadeOf, ReportsInLines, WritesLines};

use crate::runs::runs_are_passed;
use acc_plan_laws::laws::plans_are_valid;
use acc_ports::DiskMaker;
use acc_report_laws::documents::numbers_of_documents_fit;
use acc_report_laws::runs::{reports_of_runs_are_read_again, runs_can_be_told};

/// A document that says a plan and a report with a reading make a case, which says the names and the bodies of the plan and the lines of
/// the report.
pub fn documents_make_cases()
    ensures { (document report bytes : List ℕ) (plan : Content) (lines : List Line) → Means document plan → IsReportOf report lines →
        IsMadeOf document report bytes → MeansCase bytes plan.names plan.bodies lines }
{}

/// What `run`, `heal` or `free` writes with status 0 for a document that prints lines, put into a case with the document's version and the
/// names and texts of its transactions, gets yes with its number of lines, and nothing else. It is said of the items of the plan's schedule,
/// with any answers of the disks, of those that follow them while a cluster heals, and of the items of actors that step freely; and once more
/// of what the contracts of `run` and `heal` say that these write.
pub fn our_reports_get_yes<M: DiskMaker>()
    ensures schedule { (document text : List ℕ) (plan : Content) (answers : Answers) (items : List Item) → Obeys plan answers items →
        ReportsInLines document text plan items → CasesGetYes document text }
    ensures healing { (document text : List ℕ) (plan : Content) (answers : Answers) (steps : List Step) (between last : Situation) →
        IsHealing plan answers steps between last → ReportsInLines document text plan last.own → CasesGetYes document text }
    ensures free { (document text : List ℕ) (plan : Content) (items : List Item) → IsFreeRun plan items →
        ReportsInLines document text plan items → CasesGetYes document text }
    ensures run { (strict : Bool) (before after : List (ℕ × M.D)) (document text : List ℕ) →
        WritesLines (OverDisks M.D.Disk strict before after) document text → CasesGetYes document text }
    ensures heal { (strict : Bool) (before after : List (ℕ × M.D)) (document text : List ℕ) →
        WritesLines (OverHealing M.D.Disk strict before after) document text → CasesGetYes document text }
{
    plans_are_valid();
    numbers_of_documents_fit();
    runs_can_be_told();
    reports_of_runs_are_read_again();
    runs_are_passed();
}
