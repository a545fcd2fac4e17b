//! How a journal is refused.
ghost use Rattle.std.specs.Prelude.{List, ℕ};
ghost use Rattle.acc_journal.specs.Journal.{IsRefused};
ghost use Rattle.acc_left.specs.Answers.{IsRefusal, Refuses};
ghost use Rattle.acc_left.specs.Rules.{IsUnreadable};

use crate::actors::actor_text;
use crate::members::JOURNALS;
use acc_document_fields::{Part, detailed};
use acc_journal::JournalError;
use acc_schedule::{PlanError, PlanKind};
use acc_stamp::Actor;
use std::alloc::Global;

/// What is wrong with a journal.
#[derive(Clone, Copy, Debug, PartialEq, Eq)]
pub(crate) enum JournalFault {
    /// Its first byte, which is this one, isn't the version of journals.
    Version(u8),
    /// Its bytes are cut, at this place.
    Cut(u64),
    /// A payload breaks a rule, and the gate in front of it stands at this place.
    Payload(u64),
}

/// The refusal of the journal of this actor.
pub(crate) fn refusal(alloc: Global, actor: Actor, fault: JournalFault) -> PlanError
    ensures { IsRefusal actor fault result }
{
    let (detail, at) = match fault {
        JournalFault::Version(byte) => (1, u64::from(byte)),
        JournalFault::Cut(place) => (2, place),
        JournalFault::Payload(gate) => (3, gate),
    };
    match actor_text(alloc, actor) {
        Ok(name) => detailed(
            alloc,
            PlanKind::Journal,
            &[Part::Field(JOURNALS), Part::Field(name.as_str())],
            detail,
            at,
        ),
        Err(_) => PlanError::OutOfMemory,
    }
}

/// The same of bytes that are no journal.
pub(crate) fn unreadable(alloc: Global, actor: Actor, error: JournalError) -> PlanError
    ensures { (bytes : List ℕ) → IsRefused bytes error → Refuses (IsUnreadable bytes) (record { actor = actor; bytes = bytes }) result }
{
    match error {
        JournalError::BadVersion { byte } => refusal(alloc, actor, JournalFault::Version(byte)),
        JournalError::BadRecord { place } => refusal(alloc, actor, JournalFault::Cut(place)),
        JournalError::DiskFault | JournalError::OutOfMemory => PlanError::OutOfMemory,
    }
}
