//! The view whose record a recovery adopts.
ghost use Rattle.std.specs.Prelude.{◌≡◌, ◌∷◌, List, MatchOption};
ghost use Rattle.acc_deps.specs.Records.{store_lt, Claim, claims_in, highest_claim, outranks};
ghost use Rattle.acc_deps.specs.declared.records.View.{View};
ghost use Rattle.acc_recover.specs.Rank.{has_record, goes_before, claim_before, HasNone, GoesFirst, claim_at, precedence_of, precedence_if};

use acc_deps::{Accepted, View};
use acc_stamp::{Actor, Ballot};

/// How much a committed or an accepted record counts.
#[derive(Clone, Copy)]
pub(crate) struct Precedence {
    pub ballot: Ballot,
    pub is_committed: bool,
    pub store: Actor,
}

/// The view whose record a recovery adopts from views, which are given newest first: of those that show a stable record that of
/// the first store, and else the one that shows the committed or accepted record of the greatest ballot, of equal ballots a
/// committed one before an accepted one, and then that of the first store. Stores stand by their shards, and in a shard by their
/// nodes. There is none exactly where no view shows a record. It takes no memory.
pub fn rank(views: &[View]) -> Option<&View>
    ensures { MatchOption result (HasNone views.now) (λ first. GoesFirst views.now first.now) }
{
    match views {
        [] => None,
        [view, earlier @ ..] => first_of(view, rank(earlier)),
    }
}

/// The view that goes first of one and of some earlier ones, of which the first is given where one of them shows a record.
pub(crate) fn first_of<'a>(view: &'a View, earlier: Option<&'a View>) -> Option<&'a View>
    ensures { (views : List View) → MatchOption earlier.entry (HasNone views) (λ first. GoesFirst views first.now) →
        MatchOption result (HasNone (view.now ∷ views)) (λ first. GoesFirst (view.now ∷ views) first.now) }
{
    match earlier {
        Some(first) if goes_before(first, view) => Some(first),
        _ if has_record(view) => Some(view),
        _ => None,
    }
}

fn has_record(view: &View) -> bool
    ensures { result ≡ has_record view.now }
{
    view.stable.is_some() || view.committed.is_some() || view.accepted.is_some()
}

// Whether the record of a view counts before that of another.
fn goes_before(view: &View, other: &View) -> bool
    ensures { result ≡ goes_before view.now other.now }
{
    match (&view.stable, &other.stable) {
        (None, None) => claims_before(view, other),
        (None, Some(_)) => false,
        (Some(_), None) => true,
        (Some(_), Some(_)) => is_store_before(view.store, other.store),
    }
}

fn claims_before(view: &View, other: &View) -> bool
    ensures { result ≡ claim_before (highest_claim (claims_in view.now)) (highest_claim (claims_in other.now)) }
{
    match (precedence_in(view), precedence_in(other)) {
        (None, _) => false,
        (Some(_), None) => true,
        (Some(kept), Some(other)) => outranks(kept, other),
    }
}

fn outranks(kept: Precedence, other: Precedence) -> bool
    ensures { (c d : Claim) → kept ≡ precedence_of c → other ≡ precedence_of d → result ≡ outranks c d }
{
    if kept.ballot != other.ballot {
        return other.ballot < kept.ballot;
    }
    if kept.is_committed != other.is_committed {
        return kept.is_committed;
    }
    is_store_before(kept.store, other.store)
}

// Whether a store stands before another: by the shard, and then by the node.
fn is_store_before(store: Actor, other: Actor) -> bool
    ensures { result ≡ store_lt store other }
{
    store.shard() < other.shard() || (store.shard() == other.shard() && store.node() < other.node())
}

fn precedence_in(view: &View) -> Option<Precedence>
    ensures { result ≡ precedence_if (highest_claim (claims_in view.now)) }
{
    match kept_in(view) {
        Some((record, is_committed)) => Some(Precedence {
            ballot: record.ballot,
            is_committed,
            store: view.store,
        }),
        None => None,
    }
}

/// The committed or accepted record of a view that counts before the other one, and whether it was committed.
pub(crate) fn kept_in(view: &View) -> Option<(&Accepted, bool)>
    ensures { MatchOption result (highest_claim (claims_in view.now) ≡ None)
        (λ kept. highest_claim (claims_in view.now) ≡ Some (claim_at view.now.store kept.0.now kept.1)) }
{
    match (&view.committed, &view.accepted) {
        (Some(committed), Some(accepted))
            if committed.accepted().ballot < accepted.accepted().ballot => {
            Some((accepted.accepted(), false))
        }
        (Some(committed), _) => Some((committed.accepted(), true)),
        (None, Some(accepted)) => Some((accepted.accepted(), false)),
        (None, None) => None,
    }
}
