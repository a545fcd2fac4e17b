//! Why a document gives no plan.
use acc_base::{OutOfMemory, Text};
use std::alloc::{AllocError, AllocFailed};
use std::error::Error;
use std::fmt;

/// What is wrong with a document.
#[derive(Clone, Copy, Debug, PartialEq, Eq, PartialOrd, Ord)]
pub enum PlanKind {
    /// It isn't JSON: not UTF-8, not in the grammar, or more than 127 levels deep.
    Json = 1,
    /// A value of another type than it has to be, a field that is missing, or one that is unknown.
    Shape = 2,
    /// A number, a list or a text that is too small or too large.
    Limit = 3,
    /// The nodes and the shards make no cluster.
    Topology = 4,
    /// The text of a transaction isn't in the language.
    Text = 5,
    /// A name that isn't spelled as names are, that stands for the second time, or of which there is nothing.
    Name = 6,
    /// A step of the schedule isn't one.
    Step = 7,
    /// A form that can't be run yet. No call of this crate answers it.
    Unbuilt = 8,
    /// A journal that can't be one of this document. No call of this crate answers it.
    Journal = 9,
    /// A report that can't be one of this document. No call of this crate answers it.
    Report = 10,
}

/// Why a document gave no plan.
#[derive(Debug, Drop, PartialEq, Eq)]
pub enum PlanError {
    /// The first rule that the document breaks.
    Bad {
        kind: PlanKind,
        /// Where: a JSON pointer, or `-` for the whole document. As in JSON pointers, `~0` and `~1` in a field's name spell a
        /// tilde and a slash.
        path: Text,
        /// The number of the topology's refusal, or of the language's; else 0.
        detail: u32,
        /// The byte of a transaction's text at which the fault stands; else 0.
        at: u64,
    },
    /// There was no memory to read it.
    OutOfMemory,
}

impl fmt::Display for PlanKind {
    fn fmt<W: fmt::Write>(&self, f: &mut fmt::Formatter<W>) -> fmt::Result {
        match self {
            PlanKind::Json => write!(f, "the document isn't JSON"),
            PlanKind::Shape => write!(
                f,
                "a value has the wrong type, or a field is missing or unknown"
            ),
            PlanKind::Limit => write!(f, "a value is outside its limits"),
            PlanKind::Topology => write!(f, "the nodes and shards make no cluster"),
            PlanKind::Text => write!(f, "the text isn't in the language"),
            PlanKind::Name => write!(f, "a name is misspelled, not new, or unknown"),
            PlanKind::Step => write!(f, "a step isn't one"),
            PlanKind::Unbuilt => write!(f, "the document is of a form that can't be run yet"),
            PlanKind::Journal => write!(f, "a journal is none of this document"),
            PlanKind::Report => write!(f, "a report is none of this document"),
        }
    }
}

impl fmt::Display for PlanError {
    fn fmt<W: fmt::Write>(&self, f: &mut fmt::Formatter<W>) -> fmt::Result {
        match self {
            PlanError::Bad { kind, .. } => write!(f, "{kind}"),
            PlanError::OutOfMemory => write!(f, "out of memory"),
        }
    }
}

impl Error for PlanError {}

impl From<OutOfMemory> for PlanError {
    ghost use Rattle.std.specs.Prelude.{◌≡◌};
    ghost use Rattle.acc_schedule.specs.declared.error.PlanError.TheVariants.{OutOfMemory};

    ghost from_gives = { λ _ error. error ≡ OutOfMemory };

    fn from(_error: OutOfMemory) -> PlanError {
        PlanError::OutOfMemory
    }
}

impl From<AllocError> for PlanError {
    ghost use Rattle.std.specs.Prelude.{◌≡◌};
    ghost use Rattle.acc_schedule.specs.declared.error.PlanError.TheVariants.{OutOfMemory};

    ghost from_gives = { λ _ error. error ≡ OutOfMemory };

    fn from(_error: AllocError) -> PlanError {
        PlanError::OutOfMemory
    }
}

impl<T: Drop> From<AllocFailed<T>> for PlanError {
    ghost use Rattle.std.specs.Prelude.{◌≡◌};
    ghost use Rattle.acc_schedule.specs.declared.error.PlanError.TheVariants.{OutOfMemory};

    ghost from_gives = { λ _ error. error ≡ OutOfMemory };

    fn from(_error: AllocFailed<T>) -> PlanError {
        PlanError::OutOfMemory
    }
}
