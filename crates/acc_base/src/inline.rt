//! A text that stands in place if it is short.
ghost use Rattle.std.specs.Prelude.{◌≡◌, ◌==◌, length, nat_eq, IfOk};
ghost use Rattle.std.specs.Cmp.Lexicographic.{pointwise, slice_cmp};
ghost use Rattle.std.specs.Ordering.{nat_cmp, as_partial_cmp};
ghost use Rattle.std.specs.Cmp.{partial_order_from_own_ties};
ghost use Rattle.std.specs.Cmp.Rules.{comparing};
ghost use Rattle.std.proofs.Common.{rules};

use crate::memory::{Duplicate, OutOfMemory};
use crate::short::{ROOM, Short};
use std::alloc::Global;
use std::cmp::Ordering;
use std::marker::Model;
use std::sync::Arc;

#[derive(Debug, Drop)]
enum Form {
    Short(Short),
    Long(Arc<Vec<u8>, Global>),
}

/// The bytes of a text. Up to 14 of them stand in place, and more in memory that copies share. Contracts see the bytes in
/// their order, and nothing of where they stand.
#[derive(Debug, Drop)]
pub struct InlineText {
    alloc: Global,
    form: Form,
}

impl Model for InlineText {
    ghost use Rattle.std.specs.Prelude.{ℕ, List};
    ghost use Rattle.acc_base.specs.Inline.{bytes_of};

    ghost Value = { List ℕ };

    ghost view = { λ t. bytes_of t.form };
}

impl InlineText {
    /// A text of these bytes.
    pub fn from_slice(alloc: Global, values: &[u8]) -> Result<InlineText, OutOfMemory>
        ensures { IfOk result (λ text. text ≡ values.now) }
    {
        let form = if values.len() <= ROOM {
            Form::Short(Short::of(values))
        } else {
            Form::Long(Arc::new(alloc, Vec::from_slice(alloc, values)?)?)
        };
        Ok(InlineText { alloc, form })
    }

    /// The allocator of the text, for a list beside it.
    pub fn allocator(&self) -> Global {
        self.alloc
    }

    /// The bytes as a slice.
    pub fn as_slice(&self) -> &[u8]
        ensures { result.now ≡ self.now }
    {
        match &self.form {
            Form::Short(bytes) => bytes.as_slice(),
            Form::Long(items) => items.as_slice(),
        }
    }

    /// How many bytes there are.
    pub fn len(&self) -> usize
        ensures { result ≡ length self.now }
    {
        self.as_slice().len()
    }

    /// Whether there is no byte.
    pub fn is_empty(&self) -> bool
        ensures { result ≡ (length self.now == 0) }
    {
        self.as_slice().is_empty()
    }

    /// An equal text. It takes no memory of its own.
    pub fn copy(&self) -> Result<InlineText, OutOfMemory>
        ensures { IfOk result (λ copy. copy ≡ self.now) }
    {
        let form = match &self.form {
            Form::Short(bytes) => Form::Short(bytes.copy()),
            Form::Long(items) => Form::Long(Arc::try_clone(items)?),
        };
        Ok(InlineText {
            alloc: self.alloc,
            form,
        })
    }

    // The order of texts of which one at least is long. It stands apart from that of short ones, which is found far more often.
    #[inline(never)]
    fn cmp_slices(&self, other: &InlineText) -> Ordering
        ensures { result ≡ slice_cmp nat_cmp self.now other.now }
    {
        self.as_slice().cmp(other.as_slice())
    }

    // Whether texts of which one at least is long are equal.
    #[inline(never)]
    fn equals_slices(&self, other: &InlineText) -> bool
        ensures { result ≡ pointwise nat_eq self.now other.now }
    {
        self.as_slice() == other.as_slice()
    }
}

impl Duplicate for InlineText {
    fn copy(&self) -> Result<InlineText, OutOfMemory> {
        InlineText::copy(self)
    }
}

impl PartialEq for InlineText {
    ghost eq = { pointwise nat_eq };

    ghost laws = { Prim.search (comparing, rules) };

    fn eq(&self, other: &InlineText) -> bool {
        match (&self.form, &other.form) {
            (Form::Short(bytes), Form::Short(others)) => bytes.equals(others),
            _ => self.equals_slices(other),
        }
    }
}

impl Eq for InlineText {
    ghost laws = { Prim.search (comparing, rules) };
}

impl PartialOrd for InlineText {
    ghost partial_cmp = { as_partial_cmp (slice_cmp nat_cmp) };

    ghost laws = { partial_order_from_own_ties (Prim.search (comparing, rules)) (Prim.search (comparing, rules)) };

    fn partial_cmp(&self, other: &InlineText) -> Option<Ordering> {
        Some(self.cmp(other))
    }
}

impl Ord for InlineText {
    ghost cmp = { slice_cmp nat_cmp };

    ghost total = { Prim.search (comparing, rules) };

    ghost matches_partial_cmp = { Prim.search (comparing, rules) };

    ghost matches_eq = { Prim.search (comparing, rules) };

    fn cmp(&self, other: &InlineText) -> Ordering {
        match (&self.form, &other.form) {
            (Form::Short(bytes), Form::Short(others)) => bytes.cmp(others),
            _ => self.cmp_slices(other),
        }
    }
}
