//! How reading all and writing all fail.

ghost use Rattle.std.specs.Prelude.{◌≡◌};
ghost use Rattle.zx_io.specs.declared.errors.ReadError.TheVariants.{NoMemory};

use std::alloc::AllocError;
use thiserror::Error;

/// Why not all bytes of a source were read.
#[derive(Debug, Clone, Copy, PartialEq, Eq, Error)]
pub enum ReadError {
    /// A read failed.
    #[error("read fault")]
    ReadFault,
    /// The source has more bytes than the limit.
    #[error("too long")]
    TooLong,
    /// There was no memory for the bytes.
    #[error("no memory")]
    NoMemory,
}

impl From<AllocError> for ReadError {
    ghost from_gives = { λ _ e. e ≡ NoMemory };

    fn from(_error: AllocError) -> ReadError {
        ReadError::NoMemory
    }
}

/// A write or a flush failed.
#[derive(Debug, Clone, Copy, PartialEq, Eq, Error)]
#[error("write fault")]
pub struct WriteFault;
