//! A question, and what decides on it, by the positions of the rows.

use crate::{Access, Name, ViewType};
use snmp_ber::Level;

/// Who asks, for which view, and for which variable.
#[derive(Clone, Copy)]
pub struct Asking<'a> {
    /// The number of the security model.
    pub model: u32,
    /// The security name.
    pub name: &'a [u8],
    pub level: Level,
    /// The name of the context.
    pub context: &'a [u8],
    pub view: ViewType,
    /// The arcs of the variable's name.
    pub variable: &'a [u32],
}

/// The answer to a question, and what decided on it, as far as it comes. A position counts from 0 in its
/// table of `Rows`.
#[derive(Debug, PartialEq, Eq, Drop)]
pub struct Explained {
    pub answer: Access,
    /// None where no row has the context's name.
    pub context: Option<ContextStep>,
}

/// The context is there.
#[derive(Debug, PartialEq, Eq, Drop)]
pub struct ContextStep {
    /// The position of its row.
    pub position: usize,
    /// None where the security name is in no group under the model.
    pub group: Option<GroupStep>,
}

/// The security name is in a group.
#[derive(Debug, PartialEq, Eq, Drop)]
pub struct GroupStep {
    /// The position of the row.
    pub position: usize,
    /// The name of the group.
    pub name: Name,
    /// None where no access row of the group matches the message.
    pub access: Option<AccessStep>,
}

/// Access rows of the group match the message.
#[derive(Debug, PartialEq, Eq, Drop)]
pub struct AccessStep {
    /// The position of the best of them.
    pub position: usize,
    /// None where it names no view.
    pub view: Option<ViewStep>,
}

/// That row names a view.
#[derive(Debug, PartialEq, Eq, Drop)]
pub struct ViewStep {
    /// The name of the view.
    pub name: Name,
    /// The position of the best of the family rows of the view that have the variable, or None where none has it.
    pub family: Option<usize>,
}
