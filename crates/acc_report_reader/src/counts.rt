//! The lines of restarts and counts, as they are read from after their first word on.
ghost use Rattle.std.specs.Prelude.{◌≡◌};
ghost use Rattle.acc_report_reader.specs.Gives.{Gives};
ghost use Rattle.acc_report_reader.specs.Reading.{restart_in, decided_in, end_in};

use crate::numbers::{actor, count, number};
use crate::parts::{both_parts, rest_behind};
use crate::placed::{PlacedForm, PlacedLine};
use crate::refusal::Refusal;

#[tactic(auto, unfolding(crate::specs::Reading::restart_in))]
pub(crate) fn restart(bytes: &[u8]) -> Result<PlacedLine<'_>, Refusal>
    ensures { Gives (λ line. line) result (restart_in bytes.now) }
{
    let (first, rest) = both_parts(bytes, b' ')?;
    let actor = actor(first)?;
    let kept = number(rest_behind(rest, b"kept")?)?;
    Ok(PlacedLine {
        form: PlacedForm::Restart { actor, kept },
    })
}

#[tactic(auto, unfolding(crate::specs::Reading::decided_in))]
pub(crate) fn decided(bytes: &[u8]) -> Result<PlacedLine<'_>, Refusal>
    ensures { Gives (λ line. line) result (decided_in bytes.now) }
{
    let (first, rest) = both_parts(bytes, b' ')?;
    let fast = count(first, b"fast")?;
    let (second, rest) = both_parts(rest, b' ')?;
    let slow = count(second, b"slow")?;
    let (third, rest) = both_parts(rest, b' ')?;
    let recovered = count(third, b"recovered")?;
    let adopted = count(rest, b"adopted")?;
    Ok(PlacedLine {
        form: PlacedForm::Decided {
            fast,
            slow,
            recovered,
            adopted,
        },
    })
}

#[tactic(auto, unfolding(crate::specs::Reading::end_in))]
pub(crate) fn end(bytes: &[u8]) -> Result<PlacedLine<'_>, Refusal>
    ensures { Gives (λ line. line) result (end_in bytes.now) }
{
    let (first, rest) = both_parts(bytes, b' ')?;
    let txns = count(first, b"txns")?;
    let (second, rest) = both_parts(rest, b' ')?;
    let replied = count(second, b"replied")?;
    let unreplied = count(rest, b"open")?;
    Ok(PlacedLine {
        form: PlacedForm::End {
            txns,
            replied,
            unreplied,
        },
    })
}
