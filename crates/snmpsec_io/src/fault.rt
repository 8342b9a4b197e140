//! Why a file can't be read.

ghost use Rattle.std.specs.IoError.{error_kind};
ghost use Rattle.snmpsec_io.specs.Causes.{IsCauseOf};

use crate::whole::{FILE_LIMIT, FileFault};
use std::io;
use std::io::ErrorKind;
use thiserror::Error;

/// Why a file that is named can't be read, in words for who named it.
#[derive(Clone, Copy, Debug, PartialEq, Eq, Drop, Error)]
pub enum ReadFault {
    #[error("there is no such file")]
    NotFound,
    #[error("it may not be read")]
    PermissionDenied,
    #[error("it is a folder")]
    IsADirectory,
    /// It is longer than `FILE_LIMIT`.
    #[error("it is over {FILE_LIMIT} octets")]
    TooLarge,
    /// A read failed, or was interrupted 1,000 times in a row.
    #[error("a read failed")]
    Failed,
    /// A growth of memory was refused.
    #[error("out of memory")]
    OutOfMemory,
}

impl ReadFault {
    /// The cause that the system gives.
    pub fn of(fault: &io::Error) -> ReadFault
        ensures { IsCauseOf (error_kind fault.now) result }
    {
        match fault.kind() {
            ErrorKind::NotFound => ReadFault::NotFound,
            ErrorKind::PermissionDenied => ReadFault::PermissionDenied,
            ErrorKind::IsADirectory => ReadFault::IsADirectory,
            ErrorKind::OutOfMemory => ReadFault::OutOfMemory,
            _ => ReadFault::Failed,
        }
    }
}

impl From<io::Error> for ReadFault {
    fn from(fault: io::Error) -> ReadFault {
        ReadFault::of(&fault)
    }
}

/// For callers who don't tell why a file can't be read.
impl From<ReadFault> for FileFault {
    fn from(fault: ReadFault) -> FileFault {
        match fault {
            ReadFault::OutOfMemory => FileFault::OutOfMemory,
            _ => FileFault::CannotRead,
        }
    }
}
