//! Small lists of items of which a promise of a run holds, and some of which it doesn't. Each is the contract of a function that
//! does nothing.
ghost use Rattle.std.specs.Prelude.{◌≡◌, []};
ghost use Rattle.acc_safety.specs.Decisions.{firsts_after};
ghost use Rattle.acc_safety.specs.Agreement.{Agreement};
ghost use Rattle.acc_safety.specs.Coverage.{Coverage};
ghost use Rattle.acc_safety.specs.SerialOutcomes.{SerialOutcomes};
ghost use Rattle.acc_safety.specs.Calm.{IsCalm, EachBegunIsAnswered};
ghost use Rattle.acc_examples.specs.Refusals.{HoldsOfEach, HoldsOfNone};
ghost use Rattle.acc_examples.specs.DecidedOnce.{agreeing, disagreeing};
ghost use Rattle.acc_examples.specs.ConflictsCovered as conflicts_covered_row;
ghost use Rattle.acc_examples.specs.OutcomesInTurn as outcomes_in_turn_row;
ghost use Rattle.acc_examples.specs.CalmOnes.{calm_ones, not_calm_ones, answered_ones, unanswered_ones};

/// Decisions of one transaction have one timestamp, those of different ones different timestamps.
pub fn decided_once()
    ensures holds { HoldsOfEach Agreement agreeing }
    ensures fails { HoldsOfNone Agreement disagreeing }
{}

/// Each decision names the conflicting transactions that were decided at smaller timestamps.
pub fn conflicts_covered()
    ensures holds { HoldsOfEach (Coverage conflicts_covered_row.cluster) conflicts_covered_row.covered }
    ensures fails { HoldsOfNone (Coverage conflicts_covered_row.cluster) conflicts_covered_row.uncovered }
{}

/// The first outcomes are those of one serial map, each after its begin and not after its reply; all others equal them.
pub fn outcomes_in_turn()
    ensures holds { HoldsOfEach (SerialOutcomes outcomes_in_turn_row.cluster) outcomes_in_turn_row.serial_ones }
    ensures fails { HoldsOfNone (SerialOutcomes outcomes_in_turn_row.cluster) outcomes_in_turn_row.not_serial_ones }
    ensures first_ones { firsts_after [] outcomes_in_turn_row.outcomes ≡ outcomes_in_turn_row.first_ones }
{}

/// Nothing is restarted, recovered or slowed down, and each message is taken.
pub fn calm_runs()
    ensures holds { HoldsOfEach IsCalm calm_ones }
    ensures fails { HoldsOfNone IsCalm not_calm_ones }
{}

/// Each begun transaction has a reply.
pub fn replies_to_all()
    ensures holds { HoldsOfEach EachBegunIsAnswered answered_ones }
    ensures fails { HoldsOfNone EachBegunIsAnswered unanswered_ones }
{}
