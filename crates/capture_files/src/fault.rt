//! Why a capture isn't read to its end.

use thiserror::Error;

/// Why a capture isn't read to its end.
#[derive(Clone, Copy, Debug, PartialEq, Eq, Drop, Error)]
pub enum CaptureFault {
    /// At this octet, from 0, begins what is first out of its form, or past the limits.
    #[error("octet {0}")]
    Octet(u64),
    /// A read failed.
    #[error("cannot read the capture")]
    CannotRead,
    /// A write failed.
    #[error("cannot write")]
    CannotWrite,
    /// A growth of memory was refused.
    #[error("out of memory")]
    OutOfMemory,
}
