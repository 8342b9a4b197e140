//! What happens to managers and saved texts.

use thiserror::Error;

/// Something that happens. Managers and files have numbers, from 0.
#[derive(Drop)]
pub enum Event {
    /// The manager takes a datagram at the moment `now`, in seconds from a beginning that all managers share.
    Take {
        manager: usize,
        now: u64,
        datagram: Vec<u8>,
    },
    /// The manager saves its marks as a new file, behind those that are there.
    Save {
        manager: usize,
    },
    /// The manager joins in the marks of a file. The moment changes nothing, since a file of a world has one
    /// for each mark.
    Absorb {
        manager: usize,
        file: usize,
        now: u64,
    },
    /// The manager goes on from the marks of a file alone. The moment changes nothing.
    Restart {
        manager: usize,
        file: usize,
        now: u64,
    },
}

/// Why an event is refused. It has changed nothing then.
#[derive(Clone, Copy, Debug, PartialEq, Eq, Drop, Error)]
pub enum WorldFault {
    /// There is no manager or no file of this number.
    #[error("there is no manager or file of this number")]
    NoSuch,
    /// A growth of memory was refused.
    #[error("out of memory")]
    OutOfMemory,
}

/// A run that stopped at an event that was refused.
#[derive(Clone, Copy, Debug, PartialEq, Eq, Drop)]
pub struct WorldStopped {
    /// The number of events before it.
    pub done: usize,
    pub why: WorldFault,
}
