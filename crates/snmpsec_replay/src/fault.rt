//! Why a replay stops.

use crate::line_fault::LogLineFault;
use thiserror::Error;

/// Why a replay stops before its end.
#[derive(Clone, Copy, Debug, PartialEq, Eq, Drop, Error)]
pub enum ReplayFault {
    /// The line of this number is the first out of its form, or past the limits. Lines are numbered from 1,
    /// or from the number that was asked for. What is wrong with it is given beside it.
    #[error("log line {0}")]
    LogLine(u64, LogLineFault),
    /// A read failed.
    #[error("cannot read the log")]
    CannotRead,
    /// A write failed.
    #[error("cannot write")]
    CannotWrite,
    /// A growth of memory was refused.
    #[error("out of memory")]
    OutOfMemory,
}
