//! How a recovery goes on with the record that it adopts.
ghost use Rattle.std.specs.Prelude.{◌≡◌, ◌∷◌, IfOk};
ghost use Rattle.acc_recover.specs.Rank.{adopted, shown_choice, claimed_choice};
ghost use Rattle.acc_deps.specs.Records.{claims_in, highest_claim};

use crate::ranking::{first_of, kept_in, rank};
use acc_base::OutOfMemory;
use acc_deps::{Choice, Settled, View};

/// What a recovery adopts from a view and earlier ones, where one of them shows a record.
pub(crate) fn adopted_choice(view: &View, earlier: &[View]) -> Result<Option<Choice>, OutOfMemory>
    ensures { IfOk result (λ choice. choice ≡ adopted (view.now ∷ earlier.now)) }
{
    match first_of(view, rank(earlier)) {
        Some(first) => choice_in(first),
        None => Ok(None),
    }
}

// What is adopted from one view.
fn choice_in(view: &View) -> Result<Option<Choice>, OutOfMemory>
    ensures { IfOk result (λ choice. choice ≡ shown_choice view.now) }
{
    match &view.stable {
        Some(settled) => Ok(Some(Choice::Stable(settled.copy()?))),
        None => claimed_choice(view),
    }
}

fn claimed_choice(view: &View) -> Result<Option<Choice>, OutOfMemory>
    ensures { IfOk result (λ choice. choice ≡ claimed_choice (highest_claim (claims_in view.now))) }
{
    match kept_in(view) {
        Some((record, is_committed)) => {
            let settled = Settled {
                t: record.t,
                deps: record.deps.copy()?,
            };
            Ok(Some(if is_committed {
                Choice::Commit(settled)
            } else {
                Choice::Accept(settled)
            }))
        }
        None => Ok(None),
    }
}
