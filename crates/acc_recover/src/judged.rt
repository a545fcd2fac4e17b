//! What a recovery makes of a message.
use acc_deps::Choice;
use acc_stamp::{Ballot, Ids};

/// What a recovery makes of a message.
#[derive(Debug, Drop)]
pub enum Judged {
    /// It waits for more answers.
    Wait,
    /// A majority of every shard has answered, and the attempt goes on with this choice.
    Go(Choice),
    /// A majority of every shard has answered, and the attempt ends, since it would have to wait for these transactions.
    Blocked(Ids),
    /// A store has promised this greater ballot, which ends the attempt.
    Ended(Ballot),
}
