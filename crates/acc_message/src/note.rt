//! Notes: what a node did that its clients or a reader of the run may know.
ghost use Rattle.std.specs.Prelude.{◌≡◌, IfOk};

use acc_base::{Duplicate, OutOfMemory, Sequence};
use acc_deps::Deps;
use acc_stamp::{Ballot, Ids, Stamp, TxnId};
use acc_txn::Reply;

/// How an attempt came to its decision.
#[derive(Clone, Copy, Debug, PartialEq, Eq)]
pub enum Path {
    /// By unchanged votes of a fast quorum in every shard.
    Fast,
    /// By an accepted proposal of the first coordinator.
    Slow,
    /// By an accepted proposal of a recovery.
    Recovered,
    /// By a decision that a store had already.
    Adopted,
}

/// What a node did.
#[derive(Debug, PartialEq, Eq, Drop)]
pub enum Note {
    /// It drew the transaction's id and opened its client.
    Begin {
        id: TxnId,
    },

    /// It drew the ballot of an attempt that takes the transaction over.
    Recover {
        id: TxnId,
        ballot: Ballot,
    },

    /// Its recovery ended, since it would have to wait for the transactions in `by`.
    Blocked {
        id: TxnId,
        ballot: Ballot,
        by: Ids,
    },

    /// Its attempt ended, since a store promised the greater ballot `by`.
    Ended {
        id: TxnId,
        ballot: Ballot,
        by: Ballot,
    },

    /// It knows the timestamp at which the transaction executes, and what has to come before.
    Decide {
        id: TxnId,
        t: Stamp,
        path: Path,
        deps: Deps,
    },

    /// It knows what the transaction does and answers.
    Outcome {
        id: TxnId,
        reply: Reply,
    },

    /// The client has its answer and is closed.
    Reply {
        id: TxnId,
        reply: Reply,
    },
}

/// A list of notes.
pub type Notes = Sequence<Note>;

impl Note {
    /// An equal note, in memory of its own.
    pub fn copy(&self) -> Result<Note, OutOfMemory>
        ensures { IfOk result (λ copy. copy ≡ self.now) }
    {
        match self {
            Note::Begin { id } => Ok(Note::Begin { id: *id }),
            Note::Recover { id, ballot } => Ok(Note::Recover {
                id: *id,
                ballot: *ballot,
            }),
            Note::Ended { id, ballot, by } => Ok(Note::Ended {
                id: *id,
                ballot: *ballot,
                by: *by,
            }),
            Note::Blocked { id, ballot, by } => Ok(Note::Blocked {
                id: *id,
                ballot: *ballot,
                by: by.copy()?,
            }),
            Note::Decide { id, t, path, deps } => Ok(Note::Decide {
                id: *id,
                t: *t,
                path: *path,
                deps: deps.copy()?,
            }),
            Note::Outcome { id, reply } => Ok(Note::Outcome {
                id: *id,
                reply: reply.copy()?,
            }),
            Note::Reply { id, reply } => Ok(Note::Reply {
                id: *id,
                reply: reply.copy()?,
            }),
        }
    }
}

impl Duplicate for Note {
    fn copy(&self) -> Result<Note, OutOfMemory> {
        Note::copy(self)
    }
}
