//! The lines of steps that were passed over, as they are read from after their first word on.
ghost use Rattle.std.specs.Prelude.{◌≡◌};
ghost use Rattle.acc_report_reader.specs.Gives.{Gives};
ghost use Rattle.acc_report_reader.specs.Reading.{no_message_in, cause_in, skip_in};

use crate::fields::name;
use crate::numbers::{actor, number};
use crate::parts::{both_parts, is_word};
use crate::placed::{PlacedForm, PlacedLine};
use crate::refusal::Refusal;

#[tactic(auto, unfolding(crate::specs::Reading::skip_in))]
pub(crate) fn skip(bytes: &[u8]) -> Result<PlacedLine<'_>, Refusal>
    ensures { Gives (λ line. line) result (skip_in bytes.now) }
{
    let (first, rest) = both_parts(bytes, b' ')?;
    let step = number(first)?;
    let (word, rest) = both_parts(rest, b' ')?;
    cause(step, word, rest)
}

/// Why a step was passed over.
#[tactic(auto, unfolding(crate::specs::Reading::cause_in))]
fn cause<'r>(step: u64, word: &[u8], bytes: &'r [u8]) -> Result<PlacedLine<'r>, Refusal>
    ensures { Gives (λ line. line) result (cause_in step word.now bytes.now) }
{
    if is_word(word, b"nomessage") {
        no_message(step, bytes)
    } else if is_word(word, b"down") {
        let actor = actor(bytes)?;
        Ok(PlacedLine {
            form: PlacedForm::SkipDown { step, actor },
        })
    } else if is_word(word, b"begun") {
        let name = name(bytes)?;
        Ok(PlacedLine {
            form: PlacedForm::SkipBegun { step, name },
        })
    } else if is_word(word, b"unknown") {
        let name = name(bytes)?;
        Ok(PlacedLine {
            form: PlacedForm::SkipUnknown { step, name },
        })
    } else if is_word(word, b"noquorum") {
        let name = name(bytes)?;
        Ok(PlacedLine {
            form: PlacedForm::SkipNoQuorum { step, name },
        })
    } else {
        Err(Refusal::Form)
    }
}

#[tactic(auto, unfolding(crate::specs::Reading::no_message_in))]
fn no_message(step: u64, bytes: &[u8]) -> Result<PlacedLine<'_>, Refusal>
    ensures { Gives (λ line. line) result (no_message_in step bytes.now) }
{
    let (first, rest) = both_parts(bytes, b' ')?;
    let number_said = number(first)?;
    let sent = number(rest)?;
    Ok(PlacedLine {
        form: PlacedForm::SkipNoMessage {
            step,
            number: number_said,
            sent,
        },
    })
}
