//! The lines of notes, as they are read from after their first word on.
ghost use Rattle.std.specs.Prelude.{◌≡◌};
ghost use Rattle.acc_report_reader.specs.Gives.{Gives};
ghost use Rattle.acc_report_reader.specs.Reading.{stamped_in, blocked_in, ended_in, decide_in, replied_in};

use crate::cells::reply;
use crate::fields::{name, names, path};
use crate::numbers::stamp;
use crate::parts::{both_parts, rest_behind};
use crate::placed::{PlacedForm, PlacedLine};
use crate::refusal::Refusal;
use acc_stamp::Stamp;
use acc_txn::Reply;
use std::alloc::Global;

/// A name and a timestamp.
#[tactic(auto, unfolding(crate::specs::Reading::stamped_in))]
pub(crate) fn stamped(bytes: &[u8]) -> Result<(&[u8], Stamp), Refusal>
    ensures { Gives (λ p. (p.0.now, p.1)) result (stamped_in bytes.now) }
{
    let (first, rest) = both_parts(bytes, b' ')?;
    let name = name(first)?;
    let stamp = stamp(rest)?;
    Ok((name, stamp))
}

#[tactic(auto, unfolding(crate::specs::Reading::blocked_in))]
pub(crate) fn blocked(bytes: &[u8]) -> Result<PlacedLine<'_>, Refusal>
    ensures { Gives (λ line. line) result (blocked_in bytes.now) }
{
    let (first, rest) = both_parts(bytes, b' ')?;
    let name = name(first)?;
    let (second, rest) = both_parts(rest, b' ')?;
    let ballot = stamp(second)?;
    let by = names(rest_behind(rest, b"by")?)?;
    Ok(PlacedLine {
        form: PlacedForm::Blocked { name, ballot, by },
    })
}

#[tactic(auto, unfolding(crate::specs::Reading::ended_in))]
pub(crate) fn ended(bytes: &[u8]) -> Result<PlacedLine<'_>, Refusal>
    ensures { Gives (λ line. line) result (ended_in bytes.now) }
{
    let (first, rest) = both_parts(bytes, b' ')?;
    let name = name(first)?;
    let (second, rest) = both_parts(rest, b' ')?;
    let ballot = stamp(second)?;
    let by = stamp(rest_behind(rest, b"by")?)?;
    Ok(PlacedLine {
        form: PlacedForm::Ended { name, ballot, by },
    })
}

#[tactic(auto, unfolding(crate::specs::Reading::decide_in))]
pub(crate) fn decide(bytes: &[u8]) -> Result<PlacedLine<'_>, Refusal>
    ensures { Gives (λ line. line) result (decide_in bytes.now) }
{
    let (first, rest) = both_parts(bytes, b' ')?;
    let name = name(first)?;
    let (second, rest) = both_parts(rest, b' ')?;
    let t = stamp(second)?;
    let (third, rest) = both_parts(rest, b' ')?;
    let path = path(third)?;
    let deps = names(rest_behind(rest, b"deps")?)?;
    Ok(PlacedLine {
        form: PlacedForm::Decide {
            name,
            t,
            path,
            deps,
        },
    })
}

/// A name and a reply.
#[tactic(auto, unfolding(crate::specs::Reading::replied_in))]
pub(crate) fn replied(alloc: Global, bytes: &[u8]) -> Result<(&[u8], Reply), Refusal>
    ensures { Gives (λ p. (p.0.now, p.1)) result (replied_in bytes.now) }
{
    let (first, rest) = both_parts(bytes, b' ')?;
    let name = name(first)?;
    let reply = reply(alloc, rest)?;
    Ok((name, reply))
}
