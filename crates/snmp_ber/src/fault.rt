//! Why octets could not be read.

use thiserror::Error;

/// There is no element at this place (X.690, section 8.1; RFC 3417, section 8).
#[derive(Clone, Copy, Debug, PartialEq, Eq, Drop, Error)]
#[error("no element at octet {at}")]
pub struct BerFault {
    /// The place of the octet at which an element was expected, counted from 0.
    pub at: usize,
}
