//! What a port answers where it can't do its work.
ghost use Rattle.std.specs.Prelude.{◌≡◌};

use acc_base::OutOfMemory;
use std::alloc::AllocError;
use std::error::Error;
use std::fmt;

/// Why a call on a port didn't do its work.
#[derive(Clone, Copy, Debug, PartialEq, Eq)]
pub enum PortError {
    /// The outside failed. The port has raised its count of faults in this call.
    Failed,
    /// Memory was asked for and refused. Any call may answer it.
    OutOfMemory,
}

impl fmt::Display for PortError {
    fn fmt<W: fmt::Write>(&self, f: &mut fmt::Formatter<W>) -> fmt::Result {
        match self {
            PortError::Failed => write!(f, "the port failed"),
            PortError::OutOfMemory => write!(f, "out of memory"),
        }
    }
}

impl Error for PortError {}

impl From<OutOfMemory> for PortError {
    ghost use Rattle.acc_ports.specs.declared.error.PortError.TheVariants as port;

    ghost from_gives = { λ _ error. error ≡ port.OutOfMemory };

    fn from(_error: OutOfMemory) -> PortError {
        PortError::OutOfMemory
    }
}

impl From<AllocError> for PortError {
    ghost use Rattle.acc_ports.specs.declared.error.PortError.TheVariants as port;

    ghost from_gives = { λ _ error. error ≡ port.OutOfMemory };

    fn from(_error: AllocError) -> PortError {
        PortError::OutOfMemory
    }
}

/// Why `read_all` didn't give the bytes of a source.
#[derive(Clone, Copy, Debug, PartialEq, Eq)]
pub enum ReadError {
    /// A read failed. The source has raised its count of faults.
    Failed,
    /// The source has more bytes than the limit.
    TooLong,
    /// Memory was asked for and refused.
    OutOfMemory,
}

impl fmt::Display for ReadError {
    fn fmt<W: fmt::Write>(&self, f: &mut fmt::Formatter<W>) -> fmt::Result {
        match self {
            ReadError::Failed => write!(f, "the source failed"),
            ReadError::TooLong => write!(f, "the source is too long"),
            ReadError::OutOfMemory => write!(f, "out of memory"),
        }
    }
}

impl Error for ReadError {}

impl From<PortError> for ReadError {
    ghost use Rattle.acc_ports.specs.Errors.{read_error};

    ghost from_gives = { λ port error. error ≡ read_error port };

    fn from(error: PortError) -> ReadError {
        match error {
            PortError::Failed => ReadError::Failed,
            PortError::OutOfMemory => ReadError::OutOfMemory,
        }
    }
}

impl From<AllocError> for ReadError {
    ghost use Rattle.acc_ports.specs.declared.error.ReadError.TheVariants as reading;

    ghost from_gives = { λ _ error. error ≡ reading.OutOfMemory };

    fn from(_error: AllocError) -> ReadError {
        ReadError::OutOfMemory
    }
}
