//! The recovery decision: how a recovery goes on once a majority of every shard has told what it knows.
ghost use Rattle.std.specs.Prelude.{◌≡◌, ◌∷◌, ℕ, List, IfOk};
ghost use Rattle.acc_topology.specs.Layout.{Layout};
ghost use Rattle.acc_quorum.specs.Answers.{Answer, greatest, union_of};
ghost use Rattle.acc_tally.specs.Stands.{StandsFor, HasShards};
ghost use Rattle.acc_txn.specs.declared.parts.BodyParts.{BodyParts};
ghost use Rattle.acc_message.specs.declared.message.Message.{Message};
ghost use Rattle.acc_message.specs.Shares.{shards_used};
ghost use Rattle.acc_message.specs.Attempts.{plainly};
ghost use Rattle.acc_message.specs.RecoveryDecision.{views_in, unless_blocked, without_records, recovery_decision};
ghost use Rattle.acc_recover.specs.Rulings.{judged_of, proposes};

use crate::adopted::adopted_choice;
use crate::judged::Judged;
use crate::waits::{is_superseded, waits_of, with_waits};
use acc_base::OutOfMemory;
use acc_deps::{Choice, Settled, View};
use acc_stamp::{Ids, Stamp, TxnId};
use acc_tally::Tally;
use acc_topology::Topology;

/// How a recovery goes on, whose answers are counted with the last one, by the view of this one and the earlier ones, which are
/// given newest first. It depends on nothing else.
pub(crate) fn ruling(
    topology: &Topology,
    id: TxnId,
    tally: &Tally,
    view: &View,
    earlier: &[View],
) -> Result<Judged, OutOfMemory>
    ensures { IfOk result (λ judged. (body : BodyParts) → (answers : List Message) → StandsFor tally.now (shards_used topology.now body) (plainly id answers)
        → HasShards topology.now (shards_used topology.now body) → views_in answers ≡ view.now ∷ earlier.now
        → judged ≡ judged_of (recovery_decision topology.now id body answers)) }
{
    match adopted_choice(view, earlier)? {
        Some(choice) => Ok(Judged::Go(choice)),
        None => ruling_without_records(topology, id, tally, view, earlier),
    }
}

// How it goes on where no view shows a record.
fn ruling_without_records(
    topology: &Topology,
    id: TxnId,
    tally: &Tally,
    view: &View,
    earlier: &[View],
) -> Result<Judged, OutOfMemory>
    ensures { IfOk result (λ judged. (body : BodyParts) → (answers : List Message) → StandsFor tally.now (shards_used topology.now body) (plainly id answers)
        → HasShards topology.now (shards_used topology.now body) → views_in answers ≡ view.now ∷ earlier.now
        → judged ≡ judged_of (without_records topology.now id body answers)) }
{
    if !tally.may_be_fast(topology) || is_superseded(view, earlier) {
        return proposal(greatest_of(tally), tally);
    }
    let waits = with_waits(waits_of(view.waits.allocator(), earlier)?, view)?;
    proposal_unless_blocked(id, tally, waits)
}

// The transaction's own timestamp, unless there is something to wait for.
fn proposal_unless_blocked(id: TxnId, tally: &Tally, waits: Ids) -> Result<Judged, OutOfMemory>
    ensures { IfOk result (λ judged. (shards : List ℕ) → (answers : List Message) → StandsFor tally.now shards (plainly id answers)
        → judged ≡ judged_of (unless_blocked id answers waits)) }
{
    if waits.is_empty() {
        proposal(id.0, tally)
    } else {
        Ok(Judged::Blocked(waits))
    }
}

// A timestamp is proposed again, with the dependencies of all answers.
fn proposal(t: Stamp, tally: &Tally) -> Result<Judged, OutOfMemory>
    ensures { IfOk result (λ judged. (shards : List ℕ) → (answers : List Answer) → StandsFor tally.now shards answers
        → judged ≡ judged_of (proposes t (union_of answers))) }
{
    Ok(Judged::Go(Choice::Accept(Settled {
        t,
        deps: tally.deps().copy()?,
    })))
}

// The greatest vote of all answers, which is zero where there is none.
fn greatest_of(tally: &Tally) -> Stamp
    ensures { (shards : List ℕ) → (answers : List Answer) → StandsFor tally.now shards answers → result ≡ greatest answers }
{
    match tally.greatest() {
        Some(t) => t,
        None => Stamp::ZERO,
    }
}
