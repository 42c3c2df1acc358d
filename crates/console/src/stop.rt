//! Why a run ends before its input does.
ghost use Rattle.std.specs.Prelude.{◌≡◌, None};
ghost use Rattle.std.specs.IoError.{error_kind, raw_os_error};
ghost use Rattle.std.specs.declared.io.ErrorKind.TheVariants.{OutOfMemory};

use std::error::Error;
use std::io::ErrorKind;
use std::{fmt, io};

/// What failed, with its cause.
#[derive(Debug, Drop)]
pub enum Stop {
    /// The input could not be read on.
    Input(io::Error),
    /// An answer could not be made, for want of memory, or not be written.
    Output(io::Error),
}

impl fmt::Display for Stop {
    fn fmt<W: fmt::Write>(&self, f: &mut fmt::Formatter<W>) -> fmt::Result {
        match self {
            Stop::Input(why) => write!(f, "{why}"),
            Stop::Output(why) => write!(f, "{why}"),
        }
    }
}

impl Error for Stop {}

/// That there is no memory, in the words in which an allocation tells it.
pub fn no_memory() -> io::Error
    ensures kind { error_kind result ≡ OutOfMemory }
    ensures own { raw_os_error result ≡ None }
{
    io::Error::new(ErrorKind::OutOfMemory, "memory allocation failed")
}
