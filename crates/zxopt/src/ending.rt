//! How the program ends, and the exit status that tells it.

ghost use Rattle.std.specs.Prelude.{◌≡◌};
ghost use Rattle.zxopt.specs.ExitStatus.{exit_status};
ghost use Rattle.zxopt.specs.declared.ending.NoRun.TheVariants.{NoMemory};

use std::alloc::AllocError;
use std::io;
use zx_run::Status;

/// Why nothing was run.
#[derive(Clone, Copy)]
pub enum NoRun {
    /// The system did not give the words.
    NoWords,
    /// There was no memory for the words.
    NoMemory,
}

impl From<io::Error> for NoRun {
    fn from(error: io::Error) -> NoRun {
        if error.kind() == io::ErrorKind::OutOfMemory {
            NoRun::NoMemory
        } else {
            NoRun::NoWords
        }
    }
}

impl From<AllocError> for NoRun {
    ghost from_gives = { λ _ none. none ≡ NoMemory };

    fn from(_error: AllocError) -> NoRun {
        NoRun::NoMemory
    }
}

/// The exit status: the number of the answer, or that of the reason why nothing was run.
pub fn exit_status(ended: Result<Status, NoRun>) -> u8
    ensures { result ≡ exit_status ended }
{
    match ended {
        Ok(status) => status.number(),
        Err(NoRun::NoMemory) => Status::NoMemory.number(),
        Err(NoRun::NoWords) => 7,
    }
}
