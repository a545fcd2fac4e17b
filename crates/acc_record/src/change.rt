//! What a step that opens nothing makes of the record of its transaction.
ghost use Rattle.std.specs.Prelude.{◌≡◌};
ghost use Rattle.acc_message.specs.BallotRules.{greater_ballot};
ghost use Rattle.acc_record.specs.Changes.{with_vote, promising, changed};

use crate::record::Record;
use crate::vote::Vote;
use acc_deps::SharedAccepted;
use acc_stamp::Ballot;

/// What a step that opens nothing makes of the record of its transaction.
#[derive(Debug, Drop)]
pub enum Change {
    /// The record stays.
    Stays,
    /// It has this vote, unless it had one.
    Votes(Vote),
    /// It has this vote, unless it had one, and promises the ballot.
    Grants {
        /// The ballot.
        ballot: Ballot,
        /// The vote.
        vote: Vote,
    },
    /// It has accepted this last, and promises the ballot of it.
    Accepts(SharedAccepted),
    /// This was committed at it last, and it promises the ballot of it.
    Commits(SharedAccepted),
}

impl Change {
    /// Makes the change.
    pub(crate) fn make(self, there: &mut Record)
        ensures { there.new ≡ changed self there.old }
    {
        match self {
            Change::Stays => {}
            Change::Votes(vote) => keep_vote(there, vote),
            Change::Grants { ballot, vote } => {
                keep_vote(there, vote);
                promise(there, ballot);
            }
            Change::Accepts(accepted) => {
                promise(there, accepted.accepted().ballot);
                there.accepted = Some(accepted);
            }
            Change::Commits(committed) => {
                promise(there, committed.accepted().ballot);
                there.committed = Some(committed);
            }
        }
    }
}

fn keep_vote(there: &mut Record, vote: Vote)
    ensures { there.new ≡ with_vote vote there.old }
{
    if there.vote.is_none() {
        there.vote = Some(vote.stamp);
        there.vote_deps = vote.deps;
    }
}

// Promises a ballot, where that is greater than the one that was promised.
fn promise(there: &mut Record, ballot: Ballot)
    ensures { there.new ≡ promising ballot there.old }
{
    if there.promised < ballot {
        there.promised = ballot;
    }
}
