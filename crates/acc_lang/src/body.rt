//! The parser.
ghost use Rattle.std.specs.Prelude.{◌≡◌, true, false, Ok, IfOk, IfErr, MatchResult};
ghost use Rattle.acc_txn.specs.declared.parts.BodyParts.{BodyParts};
ghost use Rattle.acc_txn.specs.Rules.{IsBody};
ghost use Rattle.acc_txn.specs.Uses.{footprint_of};
ghost use Rattle.acc_lang.specs.declared.error.LangError.{LangError};
ghost use Rattle.acc_lang.specs.Answer.{IsFaultIn, IsPlaced};
ghost use Rattle.acc_lang.specs.Grammar.{IsTextOf};
ghost use Rattle.acc_lang.specs.Reading.{reading};
ghost use Rattle.acc_lang.specs.Texts.{has_text_value};

use crate::error::LangError;
use crate::fault::ReadError;
use crate::parser::read;
use acc_base::OutOfMemory;
use acc_txn::{Body, BodyParts};
use acc_value::Footprint;
use std::alloc::Global;

/// The body that the text of a transaction says in version 1 of the language, or the first fault of a text that is none.
pub fn parse(alloc: Global, text: &str) -> Result<Body, LangError>
    // What is answered is said by the text.
    ensures found { IfOk result (λ body. IsTextOf false text.now body) }
    // What the text says is answered, unless memory runs out.
    ensures only { (parts : BodyParts) → IsTextOf false text.now parts
        → MatchResult result (λ body. body ≡ parts) (λ error. error ≡ LangError.OutOfMemory) }
    // Which fault it is, and where, and what reading from the left gives.
    ensures fault { IfErr result (IsFaultIn false text.now) }
    ensures read { IfOk result (λ body. reading false text.now ≡ Ok body) }
    ensures numbers { IfOk result (λ body. has_text_value body ≡ false) }
{
    read_body(alloc, text, false)
}

/// The body that the text of a transaction says in version 2 of the language, which has text values, or the first fault of
/// a text that is none.
pub fn parse_v2(alloc: Global, text: &str) -> Result<Body, LangError>
    ensures found { IfOk result (λ body. IsTextOf true text.now body) }
    ensures only { (parts : BodyParts) → IsTextOf true text.now parts
        → MatchResult result (λ body. body ≡ parts) (λ error. error ≡ LangError.OutOfMemory) }
    ensures fault { IfErr result (IsFaultIn true text.now) }
    ensures read { IfOk result (λ body. reading true text.now ≡ Ok body) }
{
    read_body(alloc, text, true)
}

// `texts` tells whether text values are allowed.
#[tactic(auto, unfolding(crate::specs::Reading::reading_fault))]
fn read_body(alloc: Global, text: &str, texts: bool) -> Result<Body, LangError>
    ensures read { IfOk result (λ body. reading texts text.now ≡ Ok body) }
    ensures sound { IfOk result (λ body. IsTextOf texts text.now body) }
    ensures fault { IfErr result (IsFaultIn texts text.now) }
{
    let mut uses = Footprint::new(alloc);
    match read(alloc, text.as_bytes(), texts, &mut uses) {
        Ok(parts) => body_of(parts, uses),
        Err(error) => Err(placed(text.len(), error)),
    }
}

fn body_of(parts: BodyParts, uses: Footprint) -> Result<Body, LangError>
    requires keeps_rules { IsBody parts }
    requires uses { uses ≡ footprint_of parts }
    ensures body { IfOk result (λ body. body ≡ parts) }
    ensures memory { IfErr result (λ error. error ≡ LangError.OutOfMemory) }
{
    match Body::with_uses(parts, uses) {
        Ok(body) => Ok(body),
        Err(OutOfMemory) => Err(LangError::OutOfMemory),
    }
}

fn placed(len: usize, error: ReadError) -> LangError
    ensures { IsPlaced len error result }
{
    match error {
        ReadError::At(fault) => LangError::At {
            at: len.saturating_sub(fault.left) as u64,
            kind: fault.kind,
        },
        ReadError::OutOfMemory => LangError::OutOfMemory,
    }
}
