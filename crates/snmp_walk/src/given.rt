//! Variables that a device gave.

ghost use Rattle.std.specs.Prelude.{◌≡◌, ◌+◌, length, IfOk};
ghost use Rattle.snmp_msg.specs.Variables.{bound_variable, variable_of};
ghost use Rattle.snmp_walk.specs.Bindings.{given_says};

use crate::kept_name::KeptName;
use snmp_ber::Oid;
use snmp_msg::{Binding, VariableBinding};
use std::alloc::{AllocError, Global};

/// What a device's binding says, kept when the datagram is gone.
#[derive(Drop)]
pub struct GivenVariable {
    /// The name of the variable.
    pub name: KeptName,
    /// The tag of its value.
    pub tag: u8,
    /// The content of its value.
    pub content: Vec<u8>,
}

impl GivenVariable {
    /// Keeps what the binding says. The error is out of memory.
    pub fn of(alloc: Global, binding: &VariableBinding<'_>) -> Result<GivenVariable, AllocError>
        ensures { IfOk result (λ given. given_says given ≡ bound_variable binding.now) }
    {
        Ok(GivenVariable {
            name: KeptName::of(alloc, &binding.name.oid())?,
            tag: binding.tag,
            content: Vec::from_slice(alloc, binding.content)?,
        })
    }

    /// Returns how many arcs the name and how many octets the value has, together.
    pub(crate) fn octets(&self) -> usize
        ensures { result ≡ length (given_says self.now).name + length (given_says self.now).content }
    {
        self.name.as_slice().len() + self.content.len()
    }

    /// Returns the same as a binding that can be written.
    pub fn binding(&self) -> Binding<'_>
        ensures { variable_of result ≡ given_says self.now }
    {
        Binding {
            name: self.name.oid(),
            tag: self.tag,
            content: self.content.as_slice(),
        }
    }
}

/// Returns a copy of the name. It takes no memory.
pub(crate) fn copy(name: &Oid) -> Oid
    ensures { result ≡ name.now }
{
    let Ok(name) = name.clone() else {
        unreachable!();
    };
    name
}
