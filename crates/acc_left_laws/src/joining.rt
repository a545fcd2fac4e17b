//! Laws that join a run which leaves its journals and the run that goes on from them. Each is the contract of a
//! function that does nothing, or only calls other laws.
ghost use Rattle.acc_left_laws.specs.Joining.{BodiesOfDocumentsAreNumbered, JournalsAreSaidOnce, JournalsLeftAreBytes, JournalsSaidAreOfActors, SchedulesKeepJournals, WhatIsLeftGoesOn, WhoIsDownAfterFreeRuns, WhoIsDownAfterMore, WhoIsDownAfterMoreStrictly, WhoIsDownAfterSteps, WhoIsDownAfterStepsAndMore};

use crate::laws::{leave_leaves, left_lines_are_texts};
use acc_lang::laws::what_is_read_is_spelled;
use acc_plan_laws::laws::{plans_are_valid, plans_have_few_bodies, plans_run_safely};
use acc_schedule_runs::strict::strict_disks_give_answers;

/// In the plan of a document each number of a body has 64 bits: the language has no greater ones.
pub fn bodies_of_documents_are_numbered()
    ensures { BodiesOfDocumentsAreNumbered }
{
    what_is_read_is_spelled();
}

/// Only actors of the plan go down: in the items of its schedule, whatever the disks answer, and in those of a free run.
/// More steps, which speak of the plan's actors, let no other actor go down, whether they come after the schedule or after
/// anything else, as in a cluster that was opened after an earlier run.
pub fn only_actors_of_plans_go_down()
    ensures schedule { WhoIsDownAfterSteps }
    ensures schedule_and_more { WhoIsDownAfterStepsAndMore }
    ensures more { WhoIsDownAfterMore }
    ensures strictly { WhoIsDownAfterMoreStrictly }
    ensures free { WhoIsDownAfterFreeRuns }
{
    plans_are_valid();
    strict_disks_give_answers();
}

/// Where the layout of its cluster is one, the journals that a document says are those of actors of this cluster, each of
/// another, and rise.
pub fn journals_said_are_of_actors()
    ensures { JournalsSaidAreOfActors }
{}

/// Bytes say one plan and the same journals.
pub fn journals_are_said_once()
    ensures { JournalsAreSaidOnce }
{}

/// Another schedule in a document with journals changes the steps of its plan alone, and none of its journals.
pub fn schedules_keep_journals()
    ensures { SchedulesKeepJournals }
{}

/// The journals that are taken from the items of a run are bytes.
pub fn journals_left_are_bytes()
    ensures { JournalsLeftAreBytes }
{
    plans_are_valid();
    plans_have_few_bodies();
}

/// What is written of the items of a document's plan, within the limits, is read as this plan without steps with the
/// journals of its actors, and every plan that differs in its steps alone goes on from them.
pub fn what_is_left_goes_on()
    ensures { WhatIsLeftGoesOn }
{
    bodies_of_documents_are_numbered();
    only_actors_of_plans_go_down();
    journals_left_are_bytes();
    plans_are_valid();
    plans_have_few_bodies();
    plans_run_safely();
    leave_leaves();
    left_lines_are_texts();
}
