//! Why a value could not be read.
use acc_base::OutOfMemory;
use acc_wire::WireError;
use std::error::Error;
use std::fmt;

/// Why bytes gave no value.
#[derive(Clone, Copy, Debug, PartialEq, Eq)]
pub enum CodeError {
    /// The bytes are no spelling.
    Wire(WireError),
    /// Memory was refused, whatever the bytes are.
    OutOfMemory,
}

impl fmt::Display for CodeError {
    fn fmt<W: fmt::Write>(&self, f: &mut fmt::Formatter<W>) -> fmt::Result {
        match self {
            CodeError::Wire(error) => write!(f, "{error}"),
            CodeError::OutOfMemory => write!(f, "out of memory"),
        }
    }
}

impl Error for CodeError {}

impl From<WireError> for CodeError {
    ghost use Rattle.std.specs.Prelude.{◌≡◌};
    ghost use Rattle.acc_code.specs.declared.error.CodeError.TheVariants.{Wire};

    ghost from_gives = { λ fault error. error ≡ Wire fault };

    fn from(fault: WireError) -> CodeError {
        CodeError::Wire(fault)
    }
}

impl From<OutOfMemory> for CodeError {
    ghost use Rattle.std.specs.Prelude.{◌≡◌};
    ghost use Rattle.acc_code.specs.declared.error.CodeError.{CodeError};

    ghost from_gives = { λ _ error. error ≡ CodeError.OutOfMemory };

    fn from(_error: OutOfMemory) -> CodeError {
        CodeError::OutOfMemory
    }
}
