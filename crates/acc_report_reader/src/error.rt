//! Why bytes are no report.
ghost use Rattle.std.specs.Prelude.{◌≡◌};
ghost use Rattle.acc_report_reader.specs.declared.error.ReportError.TheVariants.{OutOfMemory as NoMemory};

use acc_base::OutOfMemory;
use std::error::Error;
use std::fmt;

/// Why bytes are no report.
#[derive(Clone, Copy, Debug, PartialEq, Eq)]
pub enum ReportError {
    /// A line has no form of a report, or no line feed after it.
    Line {
        /// The number of the first such line, counted from 1.
        number: u64,
    },
    /// Memory was refused, whatever the bytes are.
    OutOfMemory,
}

impl fmt::Display for ReportError {
    fn fmt<W: fmt::Write>(&self, f: &mut fmt::Formatter<W>) -> fmt::Result {
        match self {
            ReportError::Line { number } => write!(f, "line {number} is no line of a report"),
            ReportError::OutOfMemory => write!(f, "{OutOfMemory}"),
        }
    }
}

impl Error for ReportError {}

impl From<OutOfMemory> for ReportError {
    ghost from_gives = { λ _ error. error ≡ NoMemory };

    fn from(_error: OutOfMemory) -> ReportError {
        ReportError::OutOfMemory
    }
}
