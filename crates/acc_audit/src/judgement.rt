//! Judges a case.
ghost use Rattle.std.specs.Prelude.{IfOk, IfErr};
ghost use Rattle.serde_json.specs.View.{view};
ghost use Rattle.acc_audit.specs.Cases.{IsCaseCause, IsCauseIn, IsDueIn, IsDueOn};

use crate::cases::{Case, read_case};
use crate::error::AuditError;
use crate::judge::judged;
use crate::remains::Remains;
use acc_schedule::{PlanError, read_json};
use serde_json::Value;
use std::alloc::Global;

/// What is said of a case that is one.
#[derive(Clone, Copy, Debug, PartialEq, Eq)]
pub enum Judgement {
    /// No line of the report breaks a rule.
    Yes {
        /// How many lines the report has.
        lines: u64,
    },
    /// A line breaks a rule.
    No {
        /// The number of the first such line, counted from 1. A report without lines breaks a rule at line 1.
        line: u64,
        /// The least rule that it breaks, from 1 to 7.
        rule: u32,
    },
}

/// Reads a case, as `read_case` does, and judges its report, as `audit` does. `OutOfMemory` says nothing of the bytes. What is
/// needed no longer goes to `remains`.
#[tactic(auto, using(crate::proofs::CaseFacts::is_due, crate::proofs::CaseFacts::is_cause))]
pub fn judge_case(
    alloc: Global,
    bytes: &[u8],
    remains: &mut Remains,
) -> Result<Judgement, PlanError>
    ensures judged { IfOk result (IsDueOn bytes.now) }
    ensures refused { IfErr result (IsCaseCause bytes.now) }
{
    let mut root = read_json(alloc, bytes)?;
    let judgement = judge(alloc, &mut root, remains);
    remains.root = Some(root);
    judgement
}

// What is said of the case that the JSON says.
#[tactic(auto, using(crate::proofs::CaseFacts::due_in))]
fn judge(alloc: Global, root: &mut Value, remains: &mut Remains) -> Result<Judgement, PlanError>
    ensures judged { IfOk result (IsDueIn (view root.old)) }
    ensures refused { IfErr result (IsCauseIn (view root.old)) }
{
    let Case {
        names,
        bodies,
        lines,
    } = read_case(alloc, root)?;
    let answer = judged(alloc, &names, &bodies, &lines, remains);
    remains.names = Some(names);
    remains.bodies = Some(bodies);
    match answer {
        Ok(()) => Ok(Judgement::Yes {
            lines: lines.len() as u64,
        }),
        Err(AuditError::No { line, rule }) => Ok(Judgement::No { line, rule }),
        Err(AuditError::OutOfMemory) => Err(PlanError::OutOfMemory),
    }
}
