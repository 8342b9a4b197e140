//! Names of variables that wait for a device's answer.

ghost use Rattle.std.specs.Prelude.{◌≡◌, ◌≤◌, length, IfOk};
ghost use Rattle.snmp_ber.specs.Oid.{AreArcs};

use snmp_ber::Oid;
use std::alloc::{AllocError, Global};
use std::marker::Model;

/// The name of a variable, in as much memory as its arcs take. An `Oid` has room for 128.
#[derive(Drop)]
pub struct KeptName {
    arcs: Vec<u32>,
}

impl Model for KeptName {
    ghost use Rattle.std.specs.Prelude.{List, ℕ, ◌≤◌, length};

    ghost Value = { List ℕ };

    ghost view = { λ name. name.arcs.items };

    ghost invariant = { λ name. (1 ≤ length name.arcs.items) × (length name.arcs.items ≤ 128) };
}

impl KeptName {
    /// Keeps the name. The error is out of memory.
    pub fn of(alloc: Global, name: &Oid) -> Result<KeptName, AllocError>
        ensures { IfOk result (λ kept. kept ≡ name.now) }
    {
        let arcs = Vec::from_slice(alloc, name.as_slice())?;
        Ok(KeptName { arcs })
    }

    /// Returns a copy of the name. The error is out of memory.
    pub(crate) fn copy(&self, alloc: Global) -> Result<KeptName, AllocError>
        ensures { IfOk result (λ copy. copy ≡ self.now) }
    {
        let arcs = Vec::from_slice(alloc, self.arcs.as_slice())?;
        Ok(KeptName { arcs })
    }

    /// Returns the arcs of the name.
    pub fn as_slice(&self) -> &[u32]
        ensures value { result.now ≡ self.now }
        ensures some { 1 ≤ length result.now }
        ensures most { length result.now ≤ 128 }
    {
        self.arcs.as_slice()
    }

    /// Returns the name as an `Oid`. It takes no memory.
    pub fn oid(&self) -> Oid
        ensures { result ≡ self.now }
    {
        let Some(name) = Oid::of(self.arcs.as_slice()) else {
            unreachable!();
        };
        name
    }
}
