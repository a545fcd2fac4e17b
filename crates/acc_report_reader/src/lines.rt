//! A line, as it is read without its line feed.
ghost use Rattle.std.specs.Prelude.{◌≡◌};
ghost use Rattle.acc_report_reader.specs.Gives.{Gives};
ghost use Rattle.acc_report_reader.specs.Reading.{note_in, kind_in, line_in};

use crate::counts::{decided, end, restart};
use crate::notes::{blocked, decide, ended, replied, stamped};
use crate::numbers::actor;
use crate::parts::{both_parts, is_word};
use crate::placed::{PlacedForm, PlacedLine};
use crate::refusal::Refusal;
use crate::skips::skip;
use std::alloc::Global;

/// A line without its line feed.
#[tactic(auto, unfolding(crate::specs::Reading::line_in))]
pub(crate) fn line(alloc: Global, bytes: &[u8]) -> Result<PlacedLine<'_>, Refusal>
    ensures { Gives (λ line. line) result (line_in bytes.now) }
{
    let (word, rest) = both_parts(bytes, b' ')?;
    kind(alloc, word, rest)
}

/// A line that begins with this word.
#[tactic(auto, unfolding(crate::specs::Reading::kind_in))]
fn kind<'r>(alloc: Global, word: &[u8], bytes: &'r [u8]) -> Result<PlacedLine<'r>, Refusal>
    ensures { Gives (λ line. line) result (kind_in word.now bytes.now) }
{
    if is_word(word, b"skip") {
        skip(bytes)
    } else if is_word(word, b"down") {
        let actor = actor(bytes)?;
        Ok(PlacedLine {
            form: PlacedForm::Down { actor },
        })
    } else if is_word(word, b"restart") {
        restart(bytes)
    } else if is_word(word, b"decided") {
        decided(bytes)
    } else if is_word(word, b"end") {
        end(bytes)
    } else {
        note(alloc, word, bytes)
    }
}

/// The line of a note that begins with this word.
#[tactic(auto, unfolding(crate::specs::Reading::note_in))]
fn note<'r>(alloc: Global, word: &[u8], bytes: &'r [u8]) -> Result<PlacedLine<'r>, Refusal>
    ensures { Gives (λ line. line) result (note_in word.now bytes.now) }
{
    if is_word(word, b"begin") {
        let (name, id) = stamped(bytes)?;
        Ok(PlacedLine {
            form: PlacedForm::Begin { name, id },
        })
    } else if is_word(word, b"recover") {
        let (name, ballot) = stamped(bytes)?;
        Ok(PlacedLine {
            form: PlacedForm::Recover { name, ballot },
        })
    } else if is_word(word, b"blocked") {
        blocked(bytes)
    } else if is_word(word, b"ended") {
        ended(bytes)
    } else if is_word(word, b"decide") {
        decide(bytes)
    } else if is_word(word, b"outcome") {
        let (name, reply) = replied(alloc, bytes)?;
        Ok(PlacedLine {
            form: PlacedForm::Outcome { name, reply },
        })
    } else if is_word(word, b"reply") {
        let (name, reply) = replied(alloc, bytes)?;
        Ok(PlacedLine {
            form: PlacedForm::Reply { name, reply },
        })
    } else {
        Err(Refusal::Form)
    }
}
