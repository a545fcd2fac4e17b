//! Turns: what a step does to a transaction, in the order of the timestamps.
ghost use Rattle.std.specs.Prelude.{◌≡◌, MatchResult};
ghost use Rattle.acc_stamp.specs.Rising.{IsRisingBy, IsPlaceOf, IsGapFor};
ghost use Rattle.acc_opening.specs.Turns.{turn_lt, key_lt, key_of, is_applied_at, turn_of};

use acc_record::Record;
use acc_stamp::{Stamp, TxnId};

/// What a step does to a transaction.
#[derive(Clone, Copy, Debug, PartialEq, Eq)]
pub struct Turn {
    /// The timestamp at which the transaction executes.
    pub t: Stamp,
    /// The transaction.
    pub id: TxnId,
    /// Whether it is opened.
    pub opens: bool,
    /// Whether its writes are made.
    pub applies: bool,
}

/// The turn of a transaction that has its turn now.
pub(crate) fn turn_of(there: &Record, t: Stamp, id: TxnId) -> Turn
    ensures { result ≡ turn_of there.now t id }
{
    Turn {
        t,
        id,
        opens: !there.opened,
        applies: there.outcome.is_some() && !there.applied,
    }
}

/// Where the turn of a transaction with this timestamp stands, or would stand.
pub(crate) fn place_of(turns: &[Turn], t: Stamp, id: TxnId) -> Result<usize, usize>
    requires { IsRisingBy turn_lt turns.now }
    ensures { MatchResult result (IsPlaceOf key_of turns.now (t, id)) (IsGapFor key_lt key_of turns.now (t, id)) }
{
    turns.binary_search_by_key(&(t, id), |turn| (turn.t, turn.id))
}

/// Whether one of these turns applies a transaction with this timestamp.
pub(crate) fn is_applied_at(turns: &[Turn], t: Stamp, id: TxnId) -> bool
    requires { IsRisingBy turn_lt turns.now }
    ensures { result ≡ is_applied_at turns.now t id }
{
    match place_of(turns, t, id) {
        Ok(place) => turns[place].applies,
        Err(_) => false,
    }
}
