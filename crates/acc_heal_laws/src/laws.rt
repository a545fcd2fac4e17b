//! Laws of healings. Each is the contract of a function that does nothing, or only calls other laws.
ghost use Rattle.acc_message.specs.Run.{Cluster};
ghost use Rattle.acc_schedule.specs.Content.{Content};
ghost use Rattle.acc_schedule_runs.specs.Moves.{Answers};
ghost use Rattle.acc_heal_laws.specs.FrontLaws.{DueStepsAreKnown, StrictDueStepsAreKnown, GoesOneStepMore, AnswersCountAtItems, AnswersCountAtItemsReached, StandInLine, HealedIsLongest, StrictlyHealedIsLongest, OneHealingLimit, OneStrictHealingLimit, LimitOrHealed, LimitOrStrictlyHealed, StrictLimitsAreAnswered, OneStrictEnd};
ghost use Rattle.acc_heal_laws.specs.HealingFronts.{IsFrontWithHealing, IsStrictFrontWithHealing};
ghost use Rattle.acc_heal_laws.specs.Healings.{moving_with, moving_strictly};
ghost use Rattle.acc_heal_laws.specs.Laws.{RoundsAreNotBlocked, StableIsApplied, TurnedIsHealed, HealingTurns, HealingHeals, HealedItemsTell, OneHealing, OneStrictHealing, HealingGoesOn, StrictHealingsAreAnswered, StrictHealingGoesOn, StrictDisksHeal, HealingRecoversTwiceAtMost, WhoWaitsIsAnswered};

use acc_plan_laws::laws::plans_are_valid;
use acc_run_laws::receivers::{messages_go_to_actors, nodes_are_actors};
use acc_schedule_runs::limits::{
    a_limit_or_the_whole, a_limit_or_the_whole_over_strict_disks, fronts_are_made_step_by_step,
    fronts_stand_in_line, one_limit, one_limit_over_strict_disks,
};
use acc_schedule_runs::strict::armed_calls_are_counted;

/// A round isn't blocked where each older transaction was stable at its stores before. Where each transaction is stable at its stores, and
/// these take its Apply once they have all opened it, it is applied at each. So items in which each begun transaction has had its turn are
/// healed.
pub fn turns_heal()
    ensures unblocked { (cluster : Cluster) → RoundsAreNotBlocked cluster }
    ensures applied { (cluster : Cluster) → StableIsApplied cluster }
    ensures healed { (cluster : Cluster) → TurnedIsHealed cluster }
{}

/// Over any disks, for a plan and whatever its run came to: where the healing comes to an end and no item after the plan's own is a down,
/// each begun transaction has its turn in the healing, and the items after it are healed.
pub fn healing_heals()
    ensures turned { HealingTurns }
    ensures healed { HealingHeals }
{
    plans_are_valid();
    messages_go_to_actors();
    nodes_are_actors();
}

/// So the report of healed items, which prints their notes, has a decision and an outcome of each transaction whose begin it has.
pub fn healed_items_tell()
    ensures { HealedItemsTell }
{}

/// A plan and the answers of its disks fix the steps and the items of its healing, and over strict disks the plan alone does.
pub fn one_healing()
    ensures given { OneHealing }
    ensures strict { OneStrictHealing }
{}

/// The items before a healing are the oldest of those after it, which are one run, that of the plan's steps and of the healing's. A healing
/// over strict disks is one with some answers of the disks, so that each law of these holds of it, and its steps and the plan's are one
/// schedule there.
pub fn healing_goes_on()
    ensures run { HealingGoesOn }
    ensures answered { StrictHealingsAreAnswered }
    ensures strict { StrictHealingGoesOn }
{
    plans_are_valid();
}

/// Each step that is due in a healing speaks of transactions, nodes and actors of the plan, so that a cluster can take it. One due step more
/// goes on from where the others lead. Answers of the disks count only at the places of items, so what they answer later may be anything.
pub fn healings_go_step_by_step()
    ensures known { DueStepsAreKnown }
    ensures strictly_known { StrictDueStepsAreKnown }
    ensures step { (plan : Content) (answers : Answers) → GoesOneStepMore (moving_with plan answers) }
    ensures strict_step { (plan : Content) → GoesOneStepMore (moving_strictly plan) }
    ensures answers { AnswersCountAtItems }
    ensures reached { AnswersCountAtItemsReached }
{
    plans_are_valid();
    fronts_are_made_step_by_step();
}

/// The fronts of a plan's run and of the healing after it stand in one line: of two, the longer one begins with the other. Where the healing
/// comes to an end, its items are the longest. So plan and answers fix the front that a limit ends, which limit it is, and its number. A
/// healing that comes to an end is within the limits, or a limit ends a front, and never both.
pub fn one_healing_limit()
    ensures line { (plan : Content) (answers : Answers) → StandInLine (IsFrontWithHealing plan answers) }
    ensures longest { HealedIsLongest }
    ensures one { OneHealingLimit }
    ensures either { LimitOrHealed }
{
    fronts_are_made_step_by_step();
    fronts_stand_in_line();
    one_limit();
    a_limit_or_the_whole();
}

/// The same over strict disks, where the plan alone fixes them. A limit there is one with some answers of the disks. So over strict disks a
/// plan alone fixes how its run and healing end: with which items, and whether a limit ended them, and which.
pub fn one_healing_limit_over_strict_disks()
    ensures line { (plan : Content) → StandInLine (IsStrictFrontWithHealing plan) }
    ensures longest { StrictlyHealedIsLongest }
    ensures one { OneStrictHealingLimit }
    ensures either { LimitOrStrictlyHealed }
    ensures answered { StrictLimitsAreAnswered }
    ensures end { OneStrictEnd }
{
    one_limit_over_strict_disks();
    a_limit_or_the_whole_over_strict_disks();
}

/// Over strict disks nobody goes down in a healing and no entry is lost, so the items after it are healed: an actor whose disk may be armed is
/// restarted, or it is a node that is up, whose disk is armed for a call that it never comes to.
pub fn strict_disks_heal()
    ensures { StrictDisksHeal }
{
    healing_heals();
    armed_calls_are_counted();
}

/// After the plan's items a healing recovers each transaction at most twice, each time at the node of its id. Not counted are recovers that a
/// fault had stopped before and that a journal kept, which a restart enters as lost. Over strict disks there are none of these.
pub fn healing_recovers_twice_at_most()
    ensures { HealingRecoversTwiceAtMost }
{
    plans_are_valid();
}

/// After a healing in which nobody goes down, a transaction that one of its turns recovered has its reply, where the node that began it hasn't
/// restarted since: a client that waits for it is answered.
pub fn who_waits_is_answered()
    ensures { WhoWaitsIsAnswered }
{
    plans_are_valid();
    messages_go_to_actors();
    nodes_are_actors();
}
