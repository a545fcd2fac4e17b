//! Why a report is not passed.
use acc_base::OutOfMemory;
use std::error::Error;
use std::fmt;

/// Why a report is not passed.
#[derive(Clone, Copy, Debug, PartialEq, Eq)]
pub enum AuditError {
    /// A line breaks a rule.
    No {
        /// The number of the first such line, counted from 1. A report without lines breaks a rule at line 1.
        line: u64,
        /// The least rule that it breaks, from 1 to 7.
        rule: u32,
    },
    /// Memory was refused, whatever the lines are.
    OutOfMemory,
}

impl fmt::Display for AuditError {
    fn fmt<W: fmt::Write>(&self, f: &mut fmt::Formatter<W>) -> fmt::Result {
        match self {
            AuditError::No { line, rule } => write!(f, "line {line} breaks rule {rule}"),
            AuditError::OutOfMemory => write!(f, "{OutOfMemory}"),
        }
    }
}

impl Error for AuditError {}

impl From<OutOfMemory> for AuditError {
    ghost use Rattle.std.specs.Prelude.{◌≡◌};
    ghost use Rattle.acc_audit.specs.declared.error.AuditError.TheVariants.{OutOfMemory};

    ghost from_gives = { λ _ error. error ≡ OutOfMemory };

    fn from(_error: OutOfMemory) -> AuditError {
        AuditError::OutOfMemory
    }
}
