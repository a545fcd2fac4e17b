//! Facts of every store, over its whole history. Each is the contract of a function that does nothing.
ghost use Rattle.acc_safety.specs.StoreFactStatements.{OfEachStore, VotesOnce, VotesAreMade, VotesAreOwnOrDrawn, VotesDiffer, VotesNameKnown, AcceptsNameKnown, LateVotesAbove, AcceptedIsSeen, CommittedIsSeen};

/// A store votes once for a transaction, in a step about it, for its own timestamp or for one that the store draws.
pub fn stores_vote_once()
    ensures once { OfEachStore VotesOnce }
    ensures made { OfEachStore VotesAreMade }
    ensures own_or_drawn { OfEachStore VotesAreOwnOrDrawn }
{}

/// A store never votes for two transactions at one timestamp.
pub fn votes_differ()
    ensures { OfEachStore VotesDiffer }
{}

/// A vote and an AcceptOk name each known rival below the transaction's own timestamp, or below the one that is accepted.
pub fn known_rivals_are_named()
    ensures votes { OfEachStore VotesNameKnown }
    ensures accepts { OfEachStore AcceptsNameKnown }
{}

/// A store that hears of a conflicting transaction late votes for it above what it met of the other.
pub fn late_votes_are_above()
    ensures { OfEachStore LateVotesAbove }
{}

/// What a store accepted or committed is in each view of a greater ballot, or a record between the two is.
pub fn records_are_seen()
    ensures accepted { OfEachStore AcceptedIsSeen }
    ensures committed { OfEachStore CommittedIsSeen }
{}
