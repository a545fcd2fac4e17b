//! The body of a transaction.
ghost use Rattle.std.specs.Prelude.{◌≡◌, ◌<◌, ◌^◌, length, true, false, Some, None, if◌then◌else◌, IfOk, IfErr, OnOk};
ghost use Rattle.acc_value.specs.declared.key.Key.{Key};
ghost use Rattle.acc_value.specs.Cells.{cell_of};
ghost use Rattle.acc_value.specs.Pairs.{find};
ghost use Rattle.acc_txn.specs.Uses.{footprint_of, is_read, is_updated};
ghost use Rattle.acc_txn.specs.Rules.{refusal_of, IsBody, IsRefused};
ghost use Rattle.acc_txn.specs.Meaning.{outcome_of};
ghost use Rattle.acc_txn.specs.BodySpelling.{body_bytes};
ghost use Rattle.acc_txn.specs.Short.{IsNumberedBody};

use crate::error::BodyError;
use crate::evaluate::outcome;
use crate::outcome::Outcome;
use crate::parts::BodyParts;
use crate::rules::refusal;
use crate::uses::footprint;
use crate::writing::code_of;
use acc_base::{Bytes, Duplicate, OutOfMemory};
use acc_value::{CellList, Footprint};
use std::alloc::Global;
use std::marker::Model;
use std::sync::Arc;

/// The body of a transaction: parts that keep to the rules of bodies. Copies share them.
#[derive(Debug, Drop)]
pub struct Body {
    content: Arc<Content, Global>,
}

/// What the copies of a body share: its parts, the keys that they use, and its bytes, since each message with the body and each
/// journal of a store that gets one spells it again.
#[derive(Debug, Drop)]
struct Content {
    parts: BodyParts,
    uses: Footprint,
    code: Bytes,
}

impl Model for Body {
    ghost use Rattle.std.specs.Prelude.{◌≡◌};
    ghost use Rattle.std.specs.Arc.{arc_value};
    ghost use Rattle.acc_txn.specs.declared.parts.BodyParts.{BodyParts};
    ghost use Rattle.acc_txn.specs.Rules.{IsBody};
    ghost use Rattle.acc_txn.specs.Uses.{footprint_of};
    ghost use Rattle.acc_txn.specs.Short.{IsCodeOf};

    ghost Value = { BodyParts };

    ghost view = { λ b. (arc_value b.content).parts };

    ghost invariant = { λ b. IsBody (arc_value b.content).parts × ((arc_value b.content).uses ≡ footprint_of (arc_value b.content).parts) × IsCodeOf (arc_value b.content).parts (arc_value b.content).code };
}

impl Body {
    /// The body of these parts, in their own memory. Where they break a rule, the first that they break is answered.
    pub fn new(parts: BodyParts) -> Result<Body, BodyError>
        ensures parts { IfOk result (λ body. body ≡ parts) }
        ensures keeps_rules { OnOk result (refusal_of parts ≡ None) }
        ensures refused { IfErr result (IsRefused parts) }
    {
        match refusal(&parts)? {
            Some(error) => Err(error),
            None => Ok(Body::new_unchecked(parts)?),
        }
    }

    /// The body of parts that keep to the rules, which aren't tested again: for a reader that has tested them one by one.
    pub fn new_unchecked(parts: BodyParts) -> Result<Body, OutOfMemory>
        requires { IsBody parts }
        ensures { IfOk result (λ body. body ≡ parts) }
    {
        let uses = footprint(&parts)?;
        Body::with_uses(parts, uses)
    }

    /// The body of parts that keep to the rules, and whose keys are in a footprint already, as a reader collects them.
    pub fn with_uses(parts: BodyParts, uses: Footprint) -> Result<Body, OutOfMemory>
        requires keeps_rules { IsBody parts }
        requires uses { uses ≡ footprint_of parts }
        ensures { IfOk result (λ body. body ≡ parts) }
    {
        let alloc = parts.lets.allocator();
        let code = code_of(&parts)?;
        Ok(Body {
            content: Arc::new(alloc, Content { parts, uses, code })?,
        })
    }

    /// The parts, which keep to the rules.
    pub fn parts(&self) -> &BodyParts
        ensures parts { result.now ≡ self.now }
        ensures keeps_rules { IsBody self.now }
    {
        &self.content.parts
    }

    /// The bytes of the body.
    pub fn code(&self) -> &[u8]
        ensures spelled { result.now ≡ body_bytes self.now }
        ensures numbered { IsNumberedBody self.now }
        ensures short { length result.now < 2 ^ 27 }
    {
        self.content.code.as_slice()
    }

    /// The keys that the body reads and writes, which `footprint` copies.
    pub fn uses(&self) -> &Footprint
        ensures { result.now ≡ footprint_of self.now }
    {
        &self.content.uses
    }

    /// The keys that the body reads, which are those of its LETs and of a select of a key, and those that it writes,
    /// which are those of all its updates, whether or not they will be made.
    pub fn footprint(&self) -> Result<Footprint, OutOfMemory>
        ensures uses { IfOk result (λ uses. uses ≡ footprint_of self.now) }
        ensures keys { IfOk result (λ uses. (key : Key) → find uses key ≡ (if is_updated self.now key then Some true else (if is_read self.now key then Some false else None))) }
    {
        self.uses().copy()
    }

    /// The outcome of the body on the cells before it. Where `cells` doesn't have a key, its cell is null.
    pub fn evaluate(&self, cells: &CellList) -> Result<Outcome, OutOfMemory>
        ensures { IfOk result (λ outcome. outcome ≡ outcome_of self.now (cell_of cells.now)) }
    {
        outcome(&self.content.parts, cells)
    }

    /// An equal body, which shares its parts with this one and takes no memory of its own.
    pub fn copy(&self) -> Result<Body, OutOfMemory>
        ensures { IfOk result (λ copy. copy ≡ self.now) }
    {
        Ok(Body {
            content: Arc::try_clone(&self.content)?,
        })
    }
}

impl Duplicate for Body {
    fn copy(&self) -> Result<Body, OutOfMemory> {
        Body::copy(self)
    }
}
