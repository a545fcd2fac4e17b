//! What holds of the reports of runs. Each law is the contract of a function that does nothing but call other laws.
ghost use Rattle.std.specs.Prelude.{◌+◌, ◌<◌, ◌^◌, List, [], length, Result};
ghost use Rattle.std.specs.List.{AllByRecursion};
ghost use Rattle.acc_message.specs.declared.item.Item.{Item};
ghost use Rattle.acc_message.specs.Items.{notes_of};
ghost use Rattle.acc_schedule.specs.Content.{Content};
ghost use Rattle.acc_schedule.specs.Plan.{IsPlan, IsStep};
ghost use Rattle.acc_schedule.specs.declared.plan.Print.{Print};
ghost use Rattle.acc_schedule.specs.declared.plan.Step.{Step};
ghost use Rattle.acc_schedule_runs.specs.Moves.{Answers};
ghost use Rattle.acc_schedule_runs.specs.Schedules.{cluster_of, Follows, Obeys};
ghost use Rattle.acc_schedule_runs.specs.Situations.{Situation, opened};
ghost use Rattle.acc_free_laws.specs.FreeRun.{IsFreeRun};
ghost use Rattle.acc_schedule_runs.specs.Limits.{IsWithin};
ghost use Rattle.acc_report.specs.Report.{report_lines, report_text};
ghost use Rattle.acc_report_line.specs.declared.line.Line.{Line};
ghost use Rattle.acc_report_line.specs.Forms.{AreNames, HaveForms};
ghost use Rattle.acc_report_reader.specs.declared.error.ReportError.{ReportError};
ghost use Rattle.acc_report_reader.specs.Report.{GivesBack, Reads};
ghost use Rattle.acc_report_laws.specs.Fits.{ItemsFit};
ghost use Rattle.acc_report_laws.specs.Numbers.{IsNumbered, NumbersMessage};
ghost use Rattle.acc_report_laws.specs.Told.{CanBeTold};

use crate::laws::{a_report_is_read_again, the_lines_have_forms};
use acc_plan_laws::laws::{plans_are_valid, plans_run_safely};
use acc_safety_laws::every_run::serial;

/// Of a run that can be told, whatever made it, each item can: each transaction that it names has a name, its actors and stamps have such
/// numbers as a line may have, and what it answers are replies that have forms. It has fewer than 2^64 notes.
pub fn items_of_runs_can_be_told()
    ensures items { (plan : Content) (items : List Item) → CanBeTold plan items → ItemsFit plan.names [] items }
    ensures notes { (plan : Content) (items : List Item) → CanBeTold plan items → length (notes_of items) < 2 ^ 64 }
{
    plans_are_valid();
    serial();
}

/// So the lines of its report have forms, and of its text `read_report` answers the lines of the items with the last line, or that memory
/// was refused, and no fault.
pub fn reports_of_runs_are_read_again()
    ensures forms { (plan : Content) (items : List Item) (print : Print) → CanBeTold plan items →
        HaveForms (report_lines print plan.names [] items) }
    ensures read { (plan : Content) (items : List Item) (print : Print) (answer : Result (List Line) ReportError) → CanBeTold plan items →
        Reads answer (report_text print plan.names [] items) → GivesBack (report_lines print plan.names [] items) answer }
{
    items_of_runs_can_be_told();
    the_lines_have_forms();
    a_report_is_read_again();
}

/// Within the limits these runs can be told, whatever the disks answer: the items of a plan's schedule; those of more steps after it, which
/// speak of the plan's actors and transactions; and those of a free run. The numbers of the plan are those of 64 bits.
pub fn runs_can_be_told()
    ensures schedule { (plan : Content) (answers : Answers) (items : List Item) → IsPlan plan → IsNumbered plan → Obeys plan answers items →
        IsWithin items → CanBeTold plan items }
    ensures more { (plan : Content) (answers : Answers) (steps : List Step) (between last : Situation) → IsPlan plan → IsNumbered plan →
        Follows (cluster_of plan) answers 0 plan.steps (opened []) between →
        Follows (cluster_of plan) answers (length plan.steps) steps between last →
        AllByRecursion (IsStep (length plan.names) plan.topology) steps → AllByRecursion NumbersMessage steps →
        length plan.steps + length steps < 2 ^ 64 → IsWithin last.own → CanBeTold plan last.own }
    ensures free { (plan : Content) (items : List Item) → IsPlan plan → IsNumbered plan → IsFreeRun plan items → IsWithin items →
        CanBeTold plan items }
{
    plans_are_valid();
}

/// The items of every run of a plan within the limits can be told, whatever the disks answer: each transaction that they name has a name,
/// which has its form, their actors and stamps have such numbers as a line may have, and what they answer are replies that have forms.
/// The numbers of the plan are those of 64 bits.
pub fn items_of_plans_can_be_told()
    ensures names { (plan : Content) → IsPlan plan → AreNames plan.names }
    ensures items { (plan : Content) (answers : Answers) (items : List Item) → IsPlan plan → IsNumbered plan → Obeys plan answers items →
        IsWithin items → ItemsFit plan.names [] items }
    ensures notes { (plan : Content) (answers : Answers) (items : List Item) → IsPlan plan → Obeys plan answers items → IsWithin items →
        length (notes_of items) < 2 ^ 64 }
{
    plans_run_safely();
    runs_can_be_told();
    items_of_runs_can_be_told();
}

/// So the lines of their report have forms, and of its text `read_report` answers the lines of the items with the last line, or that
/// memory was refused, and no fault.
pub fn reports_of_plans_are_read_again()
    ensures forms { (plan : Content) (answers : Answers) (items : List Item) (print : Print) → IsPlan plan → IsNumbered plan →
        Obeys plan answers items → IsWithin items → HaveForms (report_lines print plan.names [] items) }
    ensures read { (plan : Content) (answers : Answers) (items : List Item) (print : Print) (answer : Result (List Line) ReportError) →
        IsPlan plan → IsNumbered plan → Obeys plan answers items → IsWithin items →
        Reads answer (report_text print plan.names [] items) → GivesBack (report_lines print plan.names [] items) answer }
{
    runs_can_be_told();
    reports_of_runs_are_read_again();
}
