//! Why parts are no body.
use acc_base::OutOfMemory;
use std::error::Error;
use std::fmt;

/// Why parts are no body. Where they break several rules, the first in this order is answered.
#[derive(Clone, Copy, Debug, PartialEq, Eq)]
pub enum BodyError {
    /// One of these counts is above 16: LETs, items of the select, conditions, updates, terms in a sum, keys that differ.
    TooMany = 1,
    /// A number that names no LET.
    UnboundName = 2,
    /// Two LETs of one name.
    TwiceBound = 3,
    /// No key at all.
    NoKey = 4,
    /// The name of a LET or of a table is reserved, longer than 32 bytes, or no word in small letters; or the text of a key is
    /// empty, longer than 64 bytes, or not UTF-8.
    BadWord = 5,
    /// A sum is empty or begins with a minus, a select by names is empty, or no update follows the conditions.
    BadShape = 6,
    /// A text among the terms has more than 255 bytes or a control character (below 32, or 127), or isn't UTF-8.
    BadText = 7,
    /// Memory was refused, whatever the parts are.
    OutOfMemory = 8,
}

impl fmt::Display for BodyError {
    fn fmt<W: fmt::Write>(&self, f: &mut fmt::Formatter<W>) -> fmt::Result {
        let text = match self {
            BodyError::TooMany => "too many parts",
            BodyError::UnboundName => "a name that no LET binds",
            BodyError::TwiceBound => "a name that two LETs bind",
            BodyError::NoKey => "no key",
            BodyError::BadWord => "a malformed name, table or key",
            BodyError::BadShape => "a malformed sum, select or condition",
            BodyError::BadText => "a text that no cell can hold",
            BodyError::OutOfMemory => "out of memory",
        };
        write!(f, "{text}")
    }
}

impl Error for BodyError {}

impl From<OutOfMemory> for BodyError {
    ghost use Rattle.std.specs.Prelude.{◌≡◌};
    ghost use Rattle.acc_txn.specs.declared.error.BodyError.{BodyError};

    ghost from_gives = { λ _ error. error ≡ BodyError.OutOfMemory };

    fn from(_error: OutOfMemory) -> BodyError {
        BodyError::OutOfMemory
    }
}
