//! The record that a step gives its own transaction before anything is opened or applied.
ghost use Rattle.std.specs.Prelude.{◌≡◌, drop, Some, IfOk, OnOk};
ghost use Rattle.std.specs.Option.{option_copied};
ghost use Rattle.acc_stamp.specs.Stamp.{ballot_lt};
ghost use Rattle.acc_stamp.specs.Rising.{ballots_with};
ghost use Rattle.acc_record.specs.Learning.{known_or_fresh};
ghost use Rattle.acc_execute.specs.Owned.{with_proposed, with_decided, with_settled, with_waiter, with_outcome, is_first, IsSplit};

use acc_base::{Duplicate, OutOfMemory, ShortList};
use acc_deps::{Deps, Settled};
use acc_message::SharedOutcome;
use acc_record::{KeptRecord, Record, fresh};
use acc_stamp::{Ballot, Stamp, TxnId};
use acc_txn::Body;

/// The record with which a step begins, in the place where it will be kept: a copy of the one that is kept, or else one that
/// knows the body alone.
#[inline(always)]
pub(crate) fn begun(
    there: Option<&Record>,
    id: TxnId,
    body: &Body,
) -> Result<KeptRecord, OutOfMemory>
    ensures { IfOk result (λ own. own ≡ known_or_fresh (option_copied there.entry) id body.now) }
{
    match there {
        Some(there) => copy_of(there),
        None => fresh(id, body),
    }
}

#[inline(always)]
fn copy_of(there: &Record) -> Result<KeptRecord, OutOfMemory>
    ensures { IfOk result (λ copy. copy ≡ there.now) }
{
    let mut copy = fresh(there.id, &there.body)?;
    copy_all(copy.get_mut(), there)?;
    Ok(copy)
}

// Takes over all but the transaction and its body.
fn copy_all(copy: &mut Record, there: &Record) -> Result<(), OutOfMemory>
    ensures { OnOk result (copy.new ≡ with_decided there.now (with_proposed there.now copy.old)) }
{
    copy_proposed(copy, there)?;
    copy_decided(copy, there)
}

// Takes over the vote, the promise, and what was accepted and committed.
fn copy_proposed(copy: &mut Record, there: &Record) -> Result<(), OutOfMemory>
    ensures { OnOk result (copy.new ≡ with_proposed there.now copy.old) }
{
    copy.vote = there.vote;
    copy.promised = there.promised;
    copy.vote_deps = there.vote_deps.copy()?;
    copy.accepted = there.accepted.copy()?;
    copy.committed = there.committed.copy()?;
    Ok(())
}

// Takes over what is stable, the outcome, and how far the transaction has come.
fn copy_decided(copy: &mut Record, there: &Record) -> Result<(), OutOfMemory>
    ensures { OnOk result (copy.new ≡ with_decided there.now copy.old) }
{
    copy.opened = there.opened;
    copy.applied = there.applied;
    copy.stable = there.stable.copy()?;
    copy.waiters = there.waiters.copy()?;
    copy.outcome = there.outcome.copy()?;
    Ok(())
}

/// Puts down what is decided, unless that is known.
pub(crate) fn settle(own: &mut Record, t: Stamp, deps: &Deps) -> Result<(), OutOfMemory>
    ensures { OnOk result (own.new ≡ with_settled (record { t = t; deps = deps.now }) own.old) }
{
    if own.stable.is_none() {
        let deps = deps.copy()?;
        own.stable = Some(Settled { t, deps });
    }
    Ok(())
}

/// Puts down the outcome, unless that is known.
pub(crate) fn decide(own: &mut Record, outcome: &SharedOutcome) -> Result<(), OutOfMemory>
    ensures { OnOk result (own.new ≡ with_outcome outcome.now own.old) }
{
    if own.outcome.is_none() {
        own.outcome = Some(outcome.copy()?);
    }
    Ok(())
}

/// Adds an attempt that waits for the cells, unless the transaction is opened.
pub(crate) fn wait(own: &mut Record, ballot: Ballot) -> Result<(), OutOfMemory>
    ensures { OnOk result (own.new ≡ with_waiter ballot own.old) }
{
    if !own.opened {
        add_waiter(&mut own.waiters, ballot)?;
    }
    Ok(())
}

// Adds a ballot in its place, unless it is there.
fn add_waiter(waiters: &mut ShortList<Ballot>, ballot: Ballot) -> Result<(), OutOfMemory>
    ensures { OnOk result (waiters.new ≡ ballots_with ballot waiters.old) }
{
    let place = place_of(waiters.as_slice(), ballot);
    if is_at(waiters.as_slice(), place, ballot) {
        return Ok(());
    }
    waiters.insert(place, ballot)?;
    Ok(())
}

// Whether this ballot stands at a place.
fn is_at(ballots: &[Ballot], place: usize, ballot: Ballot) -> bool
    ensures { result ≡ is_first ballot (drop place ballots.now) }
{
    match ballots.get(place) {
        Some(there) => *there == ballot,
        None => false,
    }
}

fn is_below(a: Ballot, b: Ballot) -> bool
    ensures { result ≡ ballot_lt a b }
{
    a < b
}

// How many ballots in front are smaller.
fn place_of(ballots: &[Ballot], ballot: Ballot) -> usize
    ensures { IsSplit ballot ballots.now result }
{
    let mut place = 0;
    while place < ballots.len() {
        if !is_below(ballots[place], ballot) {
            return place;
        }
        place += 1;
    }
    place
}
