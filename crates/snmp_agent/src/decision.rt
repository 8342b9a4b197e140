//! Answers to requests by name.

use vacm_core::Access;

/// What the sender of a request may see of the variables that it names.
#[derive(Debug, PartialEq, Eq, Drop)]
pub enum Decision {
    /// The answer for each variable, in the bindings' order.
    ByName(Vec<Access>),
    /// The PDU is neither a GetRequest nor a SetRequest.
    NotByName,
}
