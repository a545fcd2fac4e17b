//! Why reading stops.
use crate::error::LangKind;
use acc_base::OutOfMemory;

/// A fault, and how many bytes of the text are left from the token at fault on.
#[derive(Clone, Copy, Debug)]
pub struct Fault {
    pub kind: LangKind,
    pub left: usize,
}

/// Why reading stops.
#[derive(Clone, Copy, Debug)]
pub enum ReadError {
    At(Fault),
    OutOfMemory,
}

/// How a token suits the place where it stands.
#[derive(Clone, Copy, Debug)]
pub enum Standing {
    /// The grammar allows no such token there.
    Misplaced,
    /// It is allowed.
    Fits,
    /// It is allowed, and is a name that is bound and mustn't be, or isn't and must.
    Unfit,
    /// It is allowed, and begins one more than there may be of its kind, or is the COMMIT of a text without a key.
    Extra,
}

impl From<OutOfMemory> for ReadError {
    ghost use Rattle.std.specs.Prelude.{◌≡◌};
    ghost use Rattle.acc_lang.specs.declared.fault.ReadError.{ReadError};

    ghost from_gives = { λ _ error. error ≡ ReadError.OutOfMemory };

    fn from(_error: OutOfMemory) -> ReadError {
        ReadError::OutOfMemory
    }
}
