//! The text of a transaction, which the language's own parser reads.
ghost use Rattle.std.specs.Prelude.{◌≡◌, Ok, map, IfOk, IfErr};
ghost use Rattle.acc_lang.specs.Answer.{IsFaultIn};
ghost use Rattle.acc_lang.specs.Reading.{reading};
ghost use Rattle.acc_txn.specs.Rules.{IsBody};
ghost use Rattle.acc_schedule.specs.Faults.{Gives};
ghost use Rattle.acc_document_fields.specs.Parts.{part_text};
ghost use Rattle.acc_schedule.specs.Texts.{has_texts, text_body, text_fault};

use crate::path::{Part, detailed};
use acc_lang::{LangError, parse, parse_v2};
use acc_schedule::{PlanError, PlanKind};
use acc_txn::Body;
use std::alloc::Global;

/// The body that a text says in a document of this version. The path is that of the text.
pub fn body_in(alloc: Global, version: u8, text: &str, path: &[Part<'_>]) -> Result<Body, PlanError>
    ensures { Gives (text_fault version (map part_text path.now) text.now) (λ body. (body ≡ text_body version text.now) × IsBody body) result }
{
    match parsed(alloc, version, text) {
        Ok(body) => Ok(body),
        Err(LangError::At { at, kind }) => {
            Err(detailed(alloc, PlanKind::Text, path, kind as u32, at))
        }
        Err(LangError::OutOfMemory) => Err(PlanError::OutOfMemory),
    }
}

// What the parser of the document's version answers.
#[tactic(auto, using(crate::proofs::TextFacts::said_is_body))]
fn parsed(alloc: Global, version: u8, text: &str) -> Result<Body, LangError>
    ensures read { IfOk result (λ body. reading (has_texts version) text.now ≡ Ok body) }
    ensures fault { IfErr result (IsFaultIn (has_texts version) text.now) }
    ensures sound { IfOk result IsBody }
{
    if version == 2 {
        parse_v2(alloc, text)
    } else {
        parse(alloc, text)
    }
}
