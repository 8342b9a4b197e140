//! The subjects of rows, each with the kinds of row that a file of its name has.

use crate::row::{Fault, Row};
use std::alloc::Global;

/// What rows of a file are about, and what they set up for those after them.
pub trait Subject: Drop + Sized {
    /// What there is at the beginning of a file.
    fn begin(alloc: Global) -> Result<Self, Fault>;

    /// Answers a row. One that sets something up is answered nothing.
    fn answer(&mut self, row: &mut Row<'_>);
}
