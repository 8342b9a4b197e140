//! Octets as answers show them.

use std::fmt;

/// Octets in hex, or `-` for none.
#[derive(Clone, Copy)]
pub struct Hex<'a>(pub &'a [u8]);

impl fmt::Display for Hex<'_> {
    fn fmt<W: fmt::Write>(&self, f: &mut fmt::Formatter<W>) -> fmt::Result {
        if self.0.is_empty() {
            return f.write_str("-");
        }
        for octet in self.0.iter() {
            write!(f, "{octet:02x}")?;
        }
        Ok(())
    }
}
