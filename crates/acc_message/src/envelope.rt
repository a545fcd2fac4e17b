//! The fields that all messages have.
ghost use Rattle.std.specs.Prelude.{◌≡◌};
ghost use Rattle.acc_message.specs.Fields.{from_of, to_of, id_of, ballot_of, envelope_of};

use crate::answer::ReadAnswer;
use crate::message::Message;
use crate::shared_outcome::SharedOutcome;
use acc_deps::{Deps, SharedView};
use acc_stamp::{Actor, Ballot, Stamp, TxnId};
use acc_txn::Body;

/// What all messages name: the sender, the actor that the message goes to, the transaction, and the attempt at it.
#[derive(Clone, Copy, Debug, PartialEq, Eq)]
pub struct Envelope {
    /// The sender.
    pub from: Actor,
    /// The actor that the message goes to.
    pub to: Actor,
    /// The transaction.
    pub id: TxnId,
    /// The ballot of the attempt, which is zero for the first coordinator.
    pub ballot: Ballot,
}

impl Message {
    /// What the message has in common with all others.
    pub fn envelope(&self) -> Envelope
        ensures { result ≡ envelope_of self.now }
    {
        Envelope {
            from: self.from(),
            to: self.to(),
            id: self.id(),
            ballot: self.ballot(),
        }
    }

    /// The sender.
    pub fn from(&self) -> Actor
        ensures { result ≡ from_of self.now }
    {
        match self {
            Message::PreAccept { from, .. }
            | Message::PreAcceptOk { from, .. }
            | Message::Accept { from, .. }
            | Message::AcceptOk { from, .. }
            | Message::Commit { from, .. }
            | Message::CommitOk { from, .. }
            | Message::Stable { from, .. }
            | Message::ReadOk { from, .. }
            | Message::Apply { from, .. }
            | Message::Recover { from, .. }
            | Message::RecoverOk { from, .. }
            | Message::Nack { from, .. }
            | Message::Decided { from, .. }
            | Message::Inform { from, .. } => *from,
        }
    }

    /// The actor that the message goes to.
    pub fn to(&self) -> Actor
        ensures { result ≡ to_of self.now }
    {
        match self {
            Message::PreAccept { to, .. }
            | Message::PreAcceptOk { to, .. }
            | Message::Accept { to, .. }
            | Message::AcceptOk { to, .. }
            | Message::Commit { to, .. }
            | Message::CommitOk { to, .. }
            | Message::Stable { to, .. }
            | Message::ReadOk { to, .. }
            | Message::Apply { to, .. }
            | Message::Recover { to, .. }
            | Message::RecoverOk { to, .. }
            | Message::Nack { to, .. }
            | Message::Decided { to, .. }
            | Message::Inform { to, .. } => *to,
        }
    }

    /// The transaction that it is about.
    pub fn id(&self) -> TxnId
        ensures { result ≡ id_of self.now }
    {
        match self {
            Message::PreAccept { id, .. }
            | Message::PreAcceptOk { id, .. }
            | Message::Accept { id, .. }
            | Message::AcceptOk { id, .. }
            | Message::Commit { id, .. }
            | Message::CommitOk { id, .. }
            | Message::Stable { id, .. }
            | Message::ReadOk { id, .. }
            | Message::Apply { id, .. }
            | Message::Recover { id, .. }
            | Message::RecoverOk { id, .. }
            | Message::Nack { id, .. }
            | Message::Decided { id, .. }
            | Message::Inform { id, .. } => *id,
        }
    }

    /// The ballot of the attempt that it belongs to.
    pub fn ballot(&self) -> Ballot
        ensures { result ≡ ballot_of self.now }
    {
        match self {
            Message::PreAccept { ballot, .. }
            | Message::PreAcceptOk { ballot, .. }
            | Message::Accept { ballot, .. }
            | Message::AcceptOk { ballot, .. }
            | Message::Commit { ballot, .. }
            | Message::CommitOk { ballot, .. }
            | Message::Stable { ballot, .. }
            | Message::ReadOk { ballot, .. }
            | Message::Apply { ballot, .. }
            | Message::Recover { ballot, .. }
            | Message::RecoverOk { ballot, .. }
            | Message::Nack { ballot, .. }
            | Message::Decided { ballot, .. }
            | Message::Inform { ballot, .. } => *ballot,
        }
    }
}

impl Envelope {
    /// A node asks a store for its vote.
    pub fn pre_accept(self, body: Body) -> Message
        ensures { result ≡ Message.PreAccept self.from self.to self.id self.ballot body }
    {
        let Envelope {
            from,
            to,
            id,
            ballot,
        } = self;
        Message::PreAccept {
            from,
            to,
            id,
            ballot,
            body,
        }
    }

    /// A store's vote, and the transactions that it knows and that may have to come before.
    pub fn pre_accept_ok(self, vote: Stamp, deps: Deps) -> Message
        ensures { result ≡ Message.PreAcceptOk self.from self.to self.id self.ballot vote deps }
    {
        let Envelope {
            from,
            to,
            id,
            ballot,
        } = self;
        Message::PreAcceptOk {
            from,
            to,
            id,
            ballot,
            vote,
            deps,
        }
    }

    /// A node proposes a timestamp and dependencies.
    pub fn accept(self, body: Body, t: Stamp, deps: Deps) -> Message
        ensures { result ≡ Message.Accept self.from self.to self.id self.ballot body t deps }
    {
        let Envelope {
            from,
            to,
            id,
            ballot,
        } = self;
        Message::Accept {
            from,
            to,
            id,
            ballot,
            body,
            t,
            deps,
        }
    }

    /// A store has accepted the proposal; the transactions that it knows and that may have to come before.
    pub fn accept_ok(self, deps: Deps) -> Message
        ensures { result ≡ Message.AcceptOk self.from self.to self.id self.ballot deps }
    {
        let Envelope {
            from,
            to,
            id,
            ballot,
        } = self;
        Message::AcceptOk {
            from,
            to,
            id,
            ballot,
            deps,
        }
    }

    /// A node fixes the timestamp and the dependencies.
    pub fn commit(self, body: Body, t: Stamp, deps: Deps) -> Message
        ensures { result ≡ Message.Commit self.from self.to self.id self.ballot body t deps }
    {
        let Envelope {
            from,
            to,
            id,
            ballot,
        } = self;
        Message::Commit {
            from,
            to,
            id,
            ballot,
            body,
            t,
            deps,
        }
    }

    /// A store has committed them.
    pub fn commit_ok(self) -> Message
        ensures { result ≡ Message.CommitOk self.from self.to self.id self.ballot }
    {
        let Envelope {
            from,
            to,
            id,
            ballot,
        } = self;
        Message::CommitOk {
            from,
            to,
            id,
            ballot,
        }
    }

    /// The decided timestamp and dependencies; it asks for the cells that the transaction reads.
    pub fn stable(self, body: Body, t: Stamp, deps: Deps) -> Message
        ensures { result ≡ Message.Stable self.from self.to self.id self.ballot body t deps }
    {
        let Envelope {
            from,
            to,
            id,
            ballot,
        } = self;
        Message::Stable {
            from,
            to,
            id,
            ballot,
            body,
            t,
            deps,
        }
    }

    /// A store's answer to a Stable, once the transaction may execute there.
    pub fn read_ok(self, answer: ReadAnswer) -> Message
        ensures { result ≡ Message.ReadOk self.from self.to self.id self.ballot answer }
    {
        let Envelope {
            from,
            to,
            id,
            ballot,
        } = self;
        Message::ReadOk {
            from,
            to,
            id,
            ballot,
            answer,
        }
    }

    /// The outcome, whose writes the store makes.
    pub fn apply(self, body: Body, t: Stamp, deps: Deps, outcome: SharedOutcome) -> Message
        ensures { result ≡ Message.Apply self.from self.to self.id self.ballot body t deps outcome }
    {
        let Envelope {
            from,
            to,
            id,
            ballot,
        } = self;
        Message::Apply {
            from,
            to,
            id,
            ballot,
            body,
            t,
            deps,
            outcome,
        }
    }

    /// A node that takes a transaction over asks a store what it knows of it.
    pub fn recover(self, body: Body) -> Message
        ensures { result ≡ Message.Recover self.from self.to self.id self.ballot body }
    {
        let Envelope {
            from,
            to,
            id,
            ballot,
        } = self;
        Message::Recover {
            from,
            to,
            id,
            ballot,
            body,
        }
    }

    /// What a store knows of the transaction.
    pub fn recover_ok(self, view: SharedView) -> Message
        ensures { result ≡ Message.RecoverOk self.from self.to self.id self.ballot view }
    {
        let Envelope {
            from,
            to,
            id,
            ballot,
        } = self;
        Message::RecoverOk {
            from,
            to,
            id,
            ballot,
            view,
        }
    }

    /// A store refuses, since it has promised a greater ballot.
    pub fn nack(self, promised: Ballot) -> Message
        ensures { result ≡ Message.Nack self.from self.to self.id self.ballot promised }
    {
        let Envelope {
            from,
            to,
            id,
            ballot,
        } = self;
        Message::Nack {
            from,
            to,
            id,
            ballot,
            promised,
        }
    }

    /// A store answers that the transaction is decided already.
    pub fn decided(self, t: Stamp, deps: Deps) -> Message
        ensures { result ≡ Message.Decided self.from self.to self.id self.ballot t deps }
    {
        let Envelope {
            from,
            to,
            id,
            ballot,
        } = self;
        Message::Decided {
            from,
            to,
            id,
            ballot,
            t,
            deps,
        }
    }

    /// A node that took a transaction over tells its outcome to the node that began it.
    pub fn inform(self, outcome: SharedOutcome) -> Message
        ensures { result ≡ Message.Inform self.from self.to self.id self.ballot outcome }
    {
        let Envelope {
            from,
            to,
            id,
            ballot,
        } = self;
        Message::Inform {
            from,
            to,
            id,
            ballot,
            outcome,
        }
    }
}
