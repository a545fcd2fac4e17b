//! A whole report.
ghost use Rattle.std.specs.Prelude.{◌≡◌};
ghost use Rattle.acc_report_reader.specs.Reading.{line_in};
ghost use Rattle.acc_report_reader.specs.Report.{Reads, Says};

use crate::error::ReportError;
use crate::lines::line;
use crate::parts::first_line;
use crate::placed::{PlacedLine, PlacedLines};
use crate::refusal::Refusal;
use std::alloc::Global;

/// How long lines are, or longer: room is asked for at once for as many as the bytes would have, so that lines that are read
/// needn't move.
const COMMON_LENGTH: usize = 32;

/// The lines that these bytes are the text of, each with its line feed. A report is read by its lines alone, which may stand in
/// any order and number. The first line that has no form, or no line feed after it, is refused.
pub fn read_report(alloc: Global, bytes: &[u8]) -> Result<PlacedLines<'_>, ReportError>
    ensures { Reads result bytes.now }
{
    let mut lines = PlacedLines::new(alloc);
    lines.reserve(bytes.len() / COMMON_LENGTH)?;
    let mut rest = bytes;
    while let Some((first, others)) = first_line(rest) {
        let number = lines.len() as u64 + 1;
        lines.push(numbered(alloc, first, number)?)?;
        rest = others;
    }
    if rest.is_empty() {
        Ok(lines)
    } else {
        let number = lines.len() as u64 + 1;
        Err(ReportError::Line { number })
    }
}

/// The line with this number.
fn numbered(alloc: Global, bytes: &[u8], number: u64) -> Result<PlacedLine<'_>, ReportError>
    ensures { Says result (line_in bytes.now) number }
{
    match line(alloc, bytes) {
        Ok(line) => Ok(line),
        Err(Refusal::Form) => Err(ReportError::Line { number }),
        Err(Refusal::Memory) => Err(ReportError::OutOfMemory),
    }
}
