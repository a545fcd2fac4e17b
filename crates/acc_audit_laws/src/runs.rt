//! That the report of a run breaks no rule.
ghost use Rattle.std.specs.Prelude.{List, []};
ghost use Rattle.acc_message.specs.declared.item.Item.{Item};
ghost use Rattle.acc_message.specs.Run.{IsRun};
ghost use Rattle.acc_schedule.specs.Content.{Content};
ghost use Rattle.acc_schedule.specs.Plan.{IsPlan};
ghost use Rattle.acc_schedule.specs.declared.plan.Print.{Print};
ghost use Rattle.acc_schedule_runs.specs.Schedules.{cluster_of};
ghost use Rattle.acc_report.specs.Report.{report_lines};
ghost use Rattle.acc_report_laws.specs.Fits.{ItemsFit};
ghost use Rattle.acc_report_laws.specs.Told.{CanBeTold};
ghost use Rattle.acc_audit.specs.Rules.{KeepsRules};

use acc_command_alone::generated::replies_are_few;
use acc_plan_laws::laws::plans_are_valid;
use acc_report_laws::runs::items_of_runs_can_be_told;
use acc_safety_laws::every_run::{agreement, coverage, serial};

/// No line of the report of a run of a plan's cluster breaks a rule against the names and bodies of the plan, whatever made the run, where
/// each item can be told: so it is of every run within the limits whose parts besides the notes have their forms.
pub fn runs_are_passed()
    ensures fit { (plan : Content) (items : List Item) → IsPlan plan → IsRun (cluster_of plan) items → ItemsFit plan.names [] items →
        KeepsRules plan.names plan.bodies (report_lines Print.Lines plan.names [] items) }
    ensures told { (plan : Content) (items : List Item) → CanBeTold plan items →
        KeepsRules plan.names plan.bodies (report_lines Print.Lines plan.names [] items) }
{
    plans_are_valid();
    agreement();
    coverage();
    serial();
    replies_are_few();
    items_of_runs_can_be_told();
}
