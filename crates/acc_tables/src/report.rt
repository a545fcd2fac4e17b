//! Reports.
use acc_base::OutOfMemory;
use acc_report_reader::{ReportError, read_report};
use anyhow::Result;
use std::alloc::Global;

/// How many lines a report has, or the first one without a form.
pub fn answer(alloc: Global, bytes: &[u8]) -> Result<String> {
    match read_report(alloc, bytes) {
        Ok(lines) => Ok(format!(in alloc; "ok {}", lines.len())?),
        Err(ReportError::Line { number }) => Ok(format!(in alloc; "line {number}")?),
        Err(ReportError::OutOfMemory) => Err(OutOfMemory.into()),
    }
}
