//! Laws of journals that a run left. Each is the contract of a function that does nothing.
ghost use Rattle.acc_left_laws.specs.Laws.{ItemsLeaveTheirJournals, LeftDocumentsAreRead, LeftJournalsAreAccepted, LeftJournalsHaveNoFault, LeftLinesAreTexts, LeftRunsGoOn, ReopenedActorsStand};

use acc_plan_laws::laws::{plans_are_valid, plans_have_few_bodies};
use acc_run_laws::numbers_alone::messages_have_numbers_alone;

/// Where a run left journals, the run with each actor opened again in turn is a run, and nobody is down there: what a
/// journal kept of the steps that a fault stopped stands as lost entries in front of the restart of its actor.
pub fn left_runs_go_on()
    ensures { LeftRunsGoOn }
{}

/// Where a run left journals and has room for a million items more, each actor that is opened from its journal stands
/// for its part in the run that goes on: a node for all that it did there up to its restart, and a store for the
/// messages that it took.
pub fn reopened_actors_stand()
    ensures { ReopenedActorsStand }
{}

/// Journals that a run left break no rule, where the run has room for a million items more.
pub fn left_journals_are_accepted()
    ensures { LeftJournalsAreAccepted }
{}

/// Journals none of which breaks a rule have no first one that breaks one.
pub fn accepted_journals_have_no_fault()
    ensures { LeftJournalsHaveNoFault }
{}

/// What `leave` takes from the items of a run are journals that this run left.
pub fn leave_leaves()
    ensures { ItemsLeaveTheirJournals }
{
    messages_have_numbers_alone();
}

/// A document that is written with journals that break no rule is read as its plan without steps, with these journals.
pub fn left_documents_are_read()
    ensures { LeftDocumentsAreRead }
{}

/// What is written of the items of a run is the text of a document: it is read as the plan without steps, with the
/// journals of these items.
pub fn left_lines_are_texts()
    ensures { LeftLinesAreTexts }
{
    plans_are_valid();
    plans_have_few_bodies();
    messages_have_numbers_alone();
}
