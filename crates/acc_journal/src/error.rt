//! Why a journal can't be opened or appended to.
ghost use Rattle.std.specs.Prelude.{◌≡◌};

use acc_base::OutOfMemory;
use acc_ports::PortError;
use std::alloc::AllocError;
use std::error::Error;
use std::fmt;

/// Why a call on a journal didn't do its work.
#[derive(Clone, Copy, Debug, PartialEq, Eq)]
pub enum JournalError {
    /// A call of the disk failed. The disk has raised its count of faults in this call.
    DiskFault,
    /// The bytes are of another version.
    BadVersion {
        /// The version.
        byte: u8,
    },
    /// The bytes end inside a record, or before the version or the first gate.
    BadRecord {
        /// Where the gate in front of the record stands, or the byte that is missing.
        place: u64,
    },
    /// Memory was asked for and refused.
    OutOfMemory,
}

impl fmt::Display for JournalError {
    fn fmt<W: fmt::Write>(&self, f: &mut fmt::Formatter<W>) -> fmt::Result {
        match self {
            JournalError::DiskFault => write!(f, "the disk failed"),
            JournalError::BadVersion { byte } => write!(f, "no journal of version 1 but of {byte}"),
            JournalError::BadRecord { place } => write!(f, "the journal is cut at {place}"),
            JournalError::OutOfMemory => write!(f, "out of memory"),
        }
    }
}

impl Error for JournalError {}

impl From<PortError> for JournalError {
    ghost use Rattle.acc_journal.specs.Errors.{journal_error};

    ghost from_gives = { λ port error. error ≡ journal_error port };

    fn from(error: PortError) -> JournalError {
        match error {
            PortError::Failed => JournalError::DiskFault,
            PortError::OutOfMemory => JournalError::OutOfMemory,
        }
    }
}

impl From<OutOfMemory> for JournalError {
    ghost use Rattle.acc_journal.specs.declared.error.JournalError.TheVariants as errors;

    ghost from_gives = { λ _ error. error ≡ errors.OutOfMemory };

    fn from(_error: OutOfMemory) -> JournalError {
        JournalError::OutOfMemory
    }
}

impl From<AllocError> for JournalError {
    ghost use Rattle.acc_journal.specs.declared.error.JournalError.TheVariants as errors;

    ghost from_gives = { λ _ error. error ≡ errors.OutOfMemory };

    fn from(_error: AllocError) -> JournalError {
        JournalError::OutOfMemory
    }
}
