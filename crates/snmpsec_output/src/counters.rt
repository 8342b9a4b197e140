//! The counters that Reports tell.

use snmp_ber::read_unsigned;
use snmp_msg::{Binding, COUNTER32};
use snmpsec_causes::counter_named;
use std::alloc::{AllocError, Global};

/// The name of the counter that a binding tells, with its value if that is a Counter32. It is empty for any other
/// variable.
pub(crate) fn counter_name(alloc: Global, binding: &Binding<'_>) -> Result<String, AllocError> {
    let variable = &binding.name;
    let variable = format!(in alloc; "{variable}")?;
    let Some(name) = counter_named(&variable) else {
        return Ok(String::new(alloc));
    };
    match value_of(binding) {
        Some(value) => format!(in alloc; "{name} {value}"),
        None => String::from_str(alloc, name),
    }
}

/// The value of a binding, if it is a Counter32.
fn value_of(binding: &Binding<'_>) -> Option<u32> {
    if binding.tag == COUNTER32 {
        read_unsigned(binding.content)
    } else {
        None
    }
}
