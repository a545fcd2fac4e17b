//! Cluster documents.
use acc_base::OutOfMemory;
use acc_schedule::{Plan, PlanError, PlanKind, read};
use anyhow::Result;
use std::alloc::{AllocError, Global};

/// The counts of the plan that a document says, or its refusal.
pub fn answer(alloc: Global, document: &str) -> Result<String> {
    match read(alloc, document.as_bytes()) {
        Ok(plan) => counts(alloc, &plan),
        Err(
            PlanError::Bad {
                kind,
                path,
                detail,
                at,
            },
        ) => {
            let path = std::str::from_utf8(path.as_slice())?;
            Ok(refusal(alloc, kind, path, detail, at)?)
        }
        Err(PlanError::OutOfMemory) => Err(OutOfMemory.into()),
    }
}

fn counts(alloc: Global, plan: &Plan) -> Result<String> {
    Ok(format!(in alloc;
        "ok nodes={} shards={} txns={} steps={}",
        plan.starts.len(),
        plan.topology.shards(),
        plan.bodies.len(),
        plan.steps.len()
    )?)
}

/// The refusal of a document or a case.
pub fn refusal(
    alloc: Global,
    kind: PlanKind,
    path: &str,
    detail: u32,
    at: u64,
) -> Result<String, AllocError> {
    let number = kind as u32;
    match kind {
        PlanKind::Text | PlanKind::Report => format!(in alloc;
            "bad {number} {path} {detail} at {at}"
        ),
        _ if detail != 0 => format!(in alloc; "bad {number} {path} {detail}"),
        _ => format!(in alloc; "bad {number} {path}"),
    }
}
