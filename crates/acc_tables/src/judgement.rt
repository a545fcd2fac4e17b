//! Cases of an audit.
use crate::document;
use acc_audit::{Judgement, Remains, judge_case};
use acc_base::OutOfMemory;
use acc_schedule::PlanError;
use anyhow::Result;
use std::alloc::{AllocError, Global};

/// What is said of a case, or its refusal.
pub fn answer(alloc: Global, case: &str) -> Result<String> {
    match judge_case(alloc, case.as_bytes(), &mut Remains::new()) {
        Ok(judgement) => Ok(said(alloc, &judgement)?),
        Err(error) => refused(alloc, error),
    }
}

fn said(alloc: Global, judgement: &Judgement) -> Result<String, AllocError> {
    match judgement {
        Judgement::Yes { lines } => format!(in alloc; "yes lines={lines}"),
        Judgement::No { line, rule } => format!(in alloc; "no {line} {rule}"),
    }
}

fn refused(alloc: Global, error: PlanError) -> Result<String> {
    match error {
        PlanError::Bad {
            kind,
            path,
            detail,
            at,
        } => {
            let path = std::str::from_utf8(path.as_slice())?;
            Ok(document::refusal(alloc, kind, path, detail, at)?)
        }
        PlanError::OutOfMemory => Err(OutOfMemory.into()),
    }
}
