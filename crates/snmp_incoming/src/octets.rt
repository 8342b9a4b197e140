//! Octets of the datagram, or such as were decrypted.

ghost use Rattle.std.specs.Prelude.{◌≡◌, IfOk};
ghost use Rattle.snmp_incoming.specs.Texts.{text_of};

use std::alloc::{AllocError, Global};

/// Octets that begin with a ScopedPDU.
#[derive(Drop)]
pub enum Octets<'a> {
    /// A part of the datagram.
    Borrowed(&'a [u8]),
    /// What was decrypted.
    Owned(Vec<u8>),
}

impl<'a> Octets<'a> {
    /// The octets in memory of their own: what was decrypted is moved, and a part of the datagram is copied. The error
    /// is out of memory.
    pub(crate) fn into_vec(self, alloc: Global) -> Result<Vec<u8>, AllocError>
        ensures { IfOk result (λ octets. octets.items ≡ text_of self.entry) }
    {
        match self {
            Octets::Borrowed(octets) => octets.to_vec(alloc),
            Octets::Owned(octets) => Ok(octets),
        }
    }

    pub(crate) fn as_slice(&self) -> &[u8]
        ensures { result.now ≡ text_of self.now }
    {
        match self {
            Octets::Borrowed(octets) => octets,
            Octets::Owned(octets) => octets.as_slice(),
        }
    }
}
