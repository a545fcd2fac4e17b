//! A line of a report.
use acc_base::{Sequence, Text};
use acc_message::Path;
use acc_stamp::{Actor, Stamp};
use acc_txn::Reply;

/// The names of transactions.
pub type Names = Sequence<Text>;

/// A line of a report, with the words of its form in their order. Transactions are named. A list of no names is written as
/// a hyphen.
#[derive(Debug, PartialEq, Eq, Drop)]
pub enum Line {
    /// A transaction was begun with this id.
    Begin {
        name: Text,
        id: Stamp,
    },
    /// An attempt with this ballot takes a transaction over.
    Recover {
        name: Text,
        ballot: Stamp,
    },
    /// A recovery ended, since it would have to wait for others.
    Blocked {
        name: Text,
        ballot: Stamp,
        by: Names,
    },
    /// An attempt ended, since a store promised a greater ballot.
    Ended {
        name: Text,
        ballot: Stamp,
        by: Stamp,
    },
    /// A transaction is decided.
    Decide {
        name: Text,
        t: Stamp,
        path: Path,
        deps: Names,
    },
    /// What a transaction comes to is known.
    Outcome {
        name: Text,
        reply: Reply,
    },
    /// A client has its answer.
    Reply {
        name: Text,
        reply: Reply,
    },
    /// A step of the schedule was passed over, since no message has the number. So many were sent.
    SkipNoMessage {
        step: u64,
        number: u64,
        sent: u64,
    },
    /// A step was passed over, since the actor is down.
    SkipDown {
        step: u64,
        actor: Actor,
    },
    /// A step was passed over, since the transaction was begun before.
    SkipBegun {
        step: u64,
        name: Text,
    },
    /// A step was passed over, since there is no such transaction or attempt.
    SkipUnknown {
        step: u64,
        name: Text,
    },
    /// A step was passed over, since some shard has no majority of answers.
    SkipNoQuorum {
        step: u64,
        name: Text,
    },
    /// An actor went down.
    Down {
        actor: Actor,
    },
    /// An actor came back, and its journal had kept so many entries.
    Restart {
        actor: Actor,
        kept: u64,
    },
    /// How many decisions were made by each path.
    Decided {
        fast: u64,
        slow: u64,
        recovered: u64,
        adopted: u64,
    },
    /// The last line: how many transactions were begun, how many have their reply, and how many don't.
    End {
        txns: u64,
        replied: u64,
        unreplied: u64,
    },
}

/// The lines of a report, in their order.
pub type Lines = Sequence<Line>;
