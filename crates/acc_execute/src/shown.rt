//! What the record of a transaction tells before the step.
ghost use Rattle.std.specs.Prelude.{◌≡◌, is_some};
ghost use Rattle.std.specs.Option.{option_copied};
ghost use Rattle.acc_opening.specs.Plan.{settled_in};
ghost use Rattle.acc_record.specs.Learning.{is_below_settled};
ghost use Rattle.acc_execute.specs.Executed.{is_vote, shows};

use acc_deps::Settled;
use acc_record::Record;
use acc_stamp::Stamp;

/// Whether a record shows a timestamp: as the vote, or after the timestamp that is decided. Mostly it does, since a fast decision
/// is what was voted.
pub(crate) fn is_shown(there: Option<&Record>, t: Stamp) -> bool
    ensures { result ≡ shows (option_copied there.entry) t }
{
    match there {
        Some(there) => is_vote(there.vote, t) || is_below_settled(t, &there.stable),
        None => false,
    }
}

/// Whether a record is stable.
pub(crate) fn is_stable(there: Option<&Record>) -> bool
    ensures { result ≡ is_some (settled_in (option_copied there.entry)) }
{
    match there {
        Some(there) => there.stable.is_some(),
        None => false,
    }
}

fn is_vote(vote: Option<Stamp>, t: Stamp) -> bool
    ensures { result ≡ is_vote vote t }
{
    match vote {
        Some(vote) => vote == t,
        None => false,
    }
}

fn is_below_settled(t: Stamp, settled: &Option<Settled>) -> bool
    ensures { result ≡ is_below_settled t settled.now }
{
    match settled {
        Some(settled) => t <= settled.t,
        None => false,
    }
}
