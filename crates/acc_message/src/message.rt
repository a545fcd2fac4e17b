//! The messages of the protocol.
ghost use Rattle.std.specs.Prelude.{◌≡◌, IfOk};

use crate::answer::ReadAnswer;
use crate::shared_outcome::SharedOutcome;
use acc_base::{Duplicate, OutOfMemory, Sequence};
use acc_deps::{Deps, SharedView};
use acc_stamp::{Actor, Ballot, Stamp, TxnId};
use acc_txn::Body;

/// A message between a node and a store, or between two nodes. Each names its sender, the actor that it goes to, the
/// transaction, and the attempt at it, by the attempt's ballot. An answer repeats the ballot of what it answers.
#[derive(Debug, Drop)]
pub enum Message {
    /// A node asks a store for its vote.
    PreAccept {
        from: Actor,
        to: Actor,
        id: TxnId,
        ballot: Ballot,
        body: Body,
    },

    /// A store's vote, and the transactions that it knows and that may have to come before.
    PreAcceptOk {
        from: Actor,
        to: Actor,
        id: TxnId,
        ballot: Ballot,
        vote: Stamp,
        deps: Deps,
    },

    /// A node proposes a timestamp and dependencies.
    Accept {
        from: Actor,
        to: Actor,
        id: TxnId,
        ballot: Ballot,
        body: Body,
        t: Stamp,
        deps: Deps,
    },

    /// A store has accepted the proposal; the transactions that it knows and that may have to come before.
    AcceptOk {
        from: Actor,
        to: Actor,
        id: TxnId,
        ballot: Ballot,
        deps: Deps,
    },

    /// A node fixes the timestamp and the dependencies.
    Commit {
        from: Actor,
        to: Actor,
        id: TxnId,
        ballot: Ballot,
        body: Body,
        t: Stamp,
        deps: Deps,
    },

    /// A store has committed them.
    CommitOk {
        from: Actor,
        to: Actor,
        id: TxnId,
        ballot: Ballot,
    },

    /// The decided timestamp and dependencies; it asks for the cells that the transaction reads.
    Stable {
        from: Actor,
        to: Actor,
        id: TxnId,
        ballot: Ballot,
        body: Body,
        t: Stamp,
        deps: Deps,
    },

    /// A store's answer to a Stable, once the transaction may execute there.
    ReadOk {
        from: Actor,
        to: Actor,
        id: TxnId,
        ballot: Ballot,
        answer: ReadAnswer,
    },

    /// The outcome, whose writes the store makes.
    Apply {
        from: Actor,
        to: Actor,
        id: TxnId,
        ballot: Ballot,
        body: Body,
        t: Stamp,
        deps: Deps,
        outcome: SharedOutcome,
    },

    /// A node that takes a transaction over asks a store what it knows of it.
    Recover {
        from: Actor,
        to: Actor,
        id: TxnId,
        ballot: Ballot,
        body: Body,
    },

    /// What a store knows of the transaction.
    RecoverOk {
        from: Actor,
        to: Actor,
        id: TxnId,
        ballot: Ballot,
        view: SharedView,
    },

    /// A store refuses, since it has promised a greater ballot.
    Nack {
        from: Actor,
        to: Actor,
        id: TxnId,
        ballot: Ballot,
        promised: Ballot,
    },

    /// A store answers that the transaction is decided already.
    Decided {
        from: Actor,
        to: Actor,
        id: TxnId,
        ballot: Ballot,
        t: Stamp,
        deps: Deps,
    },

    /// A node that took a transaction over tells its outcome to the node that began it.
    Inform {
        from: Actor,
        to: Actor,
        id: TxnId,
        ballot: Ballot,
        outcome: SharedOutcome,
    },
}

/// A list of messages.
pub type Messages = Sequence<Message>;

impl Message {
    /// An equal message, which shares its content with this one and takes no memory of its own.
    pub fn copy(&self) -> Result<Message, OutOfMemory>
        ensures { IfOk result (λ copy. copy ≡ self.now) }
    {
        let envelope = self.envelope();
        match self {
            Message::PreAccept { body, .. } => Ok(envelope.pre_accept(body.copy()?)),
            Message::PreAcceptOk { vote, deps, .. } => Ok(envelope.pre_accept_ok(
                *vote,
                deps.copy()?,
            )),
            Message::Accept { body, t, deps, .. } => Ok(envelope.accept(
                body.copy()?,
                *t,
                deps.copy()?,
            )),
            Message::AcceptOk { deps, .. } => Ok(envelope.accept_ok(deps.copy()?)),
            Message::Commit { body, t, deps, .. } => Ok(envelope.commit(
                body.copy()?,
                *t,
                deps.copy()?,
            )),
            Message::CommitOk { .. } => Ok(envelope.commit_ok()),
            Message::Stable { body, t, deps, .. } => Ok(envelope.stable(
                body.copy()?,
                *t,
                deps.copy()?,
            )),
            Message::ReadOk { answer, .. } => Ok(envelope.read_ok(answer.copy()?)),
            Message::Apply {
                body,
                t,
                deps,
                outcome,
                ..
            } => Ok(envelope.apply(body.copy()?, *t, deps.copy()?, outcome.copy()?)),
            Message::Recover { body, .. } => Ok(envelope.recover(body.copy()?)),
            Message::RecoverOk { view, .. } => Ok(envelope.recover_ok(view.copy()?)),
            Message::Nack { promised, .. } => Ok(envelope.nack(*promised)),
            Message::Decided { t, deps, .. } => Ok(envelope.decided(*t, deps.copy()?)),
            Message::Inform { outcome, .. } => Ok(envelope.inform(outcome.copy()?)),
        }
    }
}

impl Duplicate for Message {
    fn copy(&self) -> Result<Message, OutOfMemory> {
        Message::copy(self)
    }
}
