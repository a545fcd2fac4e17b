//! What a cell holds.
ghost use Rattle.std.specs.Prelude.{◌≡◌, IfOk};
ghost use Rattle.std.specs.Cmp.{partial_equiv_from_equiv};
ghost use Rattle.std.specs.Cmp.Rules.{comparing};
ghost use Rattle.std.proofs.Common.{rules};
ghost use Rattle.acc_value.specs.Value.{value_eq};

use acc_base::{Duplicate, OutOfMemory, Text};
use std::alloc::AllocError;

/// What a cell holds that isn't null.
#[derive(Debug, Drop)]
pub enum Value {
    /// A number.
    Number(i64),
    /// A text. In a body it is UTF-8 of at most 255 bytes, without control characters; it may be empty.
    Text(Text),
}

impl Value {
    /// An equal value, in memory of its own.
    pub fn copy(&self) -> Result<Value, OutOfMemory>
        ensures { IfOk result (λ copy. copy ≡ self.now) }
    {
        match self {
            Value::Number(number) => Ok(Value::Number(*number)),
            Value::Text(text) => Ok(Value::Text(text.copy()?)),
        }
    }
}

impl Duplicate for Value {
    fn copy(&self) -> Result<Value, OutOfMemory> {
        Value::copy(self)
    }
}

// For the maps of std that are copied with their values.
impl Clone for Value {
    ghost is_clone = { λ value copy. copy ≡ value };

    fn clone(&self) -> Result<Value, AllocError> {
        match self.copy() {
            Ok(copy) => Ok(copy),
            Err(OutOfMemory) => Err(AllocError),
        }
    }
}

impl PartialEq for Value {
    ghost eq = { value_eq };

    ghost laws = { partial_equiv_from_equiv (Prim.search (comparing, rules)) };

    fn eq(&self, other: &Value) -> bool {
        match (self, other) {
            (Value::Number(number), Value::Number(other)) => number == other,
            (Value::Text(text), Value::Text(other)) => text == other,
            _ => false,
        }
    }
}

impl Eq for Value {
    ghost laws = { Prim.search (comparing, rules) };
}
