//! What holds of the plans that documents say, and of the reports of their runs. Each law is the contract of a function that does nothing
//! but call other laws.
ghost use Rattle.std.specs.Prelude.{ℕ, List, [], Result};
ghost use Rattle.acc_message.specs.declared.item.Item.{Item};
ghost use Rattle.acc_schedule.specs.Content.{Content};
ghost use Rattle.acc_schedule.specs.Document.{Means};
ghost use Rattle.acc_schedule.specs.Plan.{IsPlan};
ghost use Rattle.acc_schedule.specs.declared.plan.Print.{Print};
ghost use Rattle.acc_schedule_runs.specs.Moves.{Answers};
ghost use Rattle.acc_schedule_runs.specs.Schedules.{Obeys};
ghost use Rattle.acc_schedule_runs.specs.Limits.{IsWithin};
ghost use Rattle.acc_report.specs.Report.{report_lines, report_text};
ghost use Rattle.acc_report_line.specs.declared.line.Line.{Line};
ghost use Rattle.acc_report_line.specs.Forms.{HaveForms};
ghost use Rattle.acc_report_reader.specs.declared.error.ReportError.{ReportError};
ghost use Rattle.acc_report_reader.specs.Report.{GivesBack, Reads};
ghost use Rattle.acc_report_laws.specs.Numbers.{IsNumbered};

use crate::runs::reports_of_plans_are_read_again;
use acc_lang::laws::what_is_read_is_spelled;

/// The numbers of a plan that a document says are those of 64 bits: the language has no greater ones, and JSON's are read so.
pub fn numbers_of_documents_fit()
    ensures { (bytes : List ℕ) (plan : Content) → IsPlan plan → Means bytes plan → IsNumbered plan }
{
    what_is_read_is_spelled();
}

/// So the lines of the report of each run of a document within the limits have forms, whatever the disks answer, and of its text
/// `read_report` answers these lines, or that memory was refused, and no fault.
pub fn reports_of_documents_are_read_again()
    ensures forms { (bytes : List ℕ) (plan : Content) (answers : Answers) (items : List Item) (print : Print) → IsPlan plan → Means bytes plan →
        Obeys plan answers items → IsWithin items → HaveForms (report_lines print plan.names [] items) }
    ensures read { (bytes : List ℕ) (plan : Content) (answers : Answers) (items : List Item) (print : Print) (answer : Result (List Line) ReportError) →
        IsPlan plan → Means bytes plan → Obeys plan answers items → IsWithin items →
        Reads answer (report_text print plan.names [] items) → GivesBack (report_lines print plan.names [] items) answer }
{
    numbers_of_documents_fit();
    reports_of_plans_are_read_again();
}
