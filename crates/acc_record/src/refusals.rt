//! Refusals.
ghost use Rattle.std.specs.Prelude.{◌≡◌, IfOk};
ghost use Rattle.std.specs.Option.{option_copied};
ghost use Rattle.acc_stamp.specs.Actor.{home_of};
ghost use Rattle.acc_record.specs.Shelf.{record_at};
ghost use Rattle.acc_record.specs.Refusal.{refusal_of};

use crate::{Record, Shelf};
use acc_base::OutOfMemory;
use acc_message::{Envelope, Message};
use acc_stamp::{Ballot, TxnId, home};

/// The refusal of a message about a transaction, if it is refused: the news of the decision, where the transaction is decided
/// here, and else the promise, where it is above the ballot `least`. The transaction has this record, if any.
pub fn refusal(
    shelf: &Shelf,
    there: Option<&Record>,
    id: TxnId,
    ballot: Ballot,
    least: Ballot,
) -> Result<Option<Message>, OutOfMemory>
    requires { option_copied there ≡ record_at shelf.now.records id }
    ensures { IfOk result (λ refusal. refusal ≡ refusal_of shelf.now.actor id ballot least (record_at shelf.now.records id)) }
{
    let Some(record) = there else {
        return Ok(None);
    };
    let envelope = answering(shelf, id, ballot);
    if let Some(stable) = &record.stable {
        return Ok(Some(envelope.decided(stable.t, stable.deps.copy()?)));
    }
    if least < record.promised {
        return Ok(Some(envelope.nack(record.promised)));
    }
    Ok(None)
}

/// What all answers of a store about an attempt have in common.
pub fn answering(shelf: &Shelf, id: TxnId, ballot: Ballot) -> Envelope
    ensures { result ≡ record { from = shelf.now.actor; to = home_of id ballot; id = id; ballot = ballot } }
{
    Envelope {
        from: shelf.actor,
        to: home(id, ballot),
        id,
        ballot,
    }
}
