//! Answers of the device.

ghost use Rattle.std.specs.Prelude.{◌≡◌, List, map, IfOk, MatchOption};
ghost use Rattle.snmp_msg.specs.Variables.{Variable, variables_of};
ghost use Rattle.snmp_responder.specs.Code.{seen_by};
ghost use Rattle.snmp_walk.specs.Bindings.{given_says};
ghost use Rattle.snmp_walk.specs.Dialogue.{AllTake, AnswersAll, IsFault, asks_of};

use crate::column::Column;
use crate::given::GivenVariable;
use crate::misfit::Misfit;
use snmp_msg::Pdu;
use snmp_responder::Viewer;
use std::alloc::{AllocError, Global};

/// Why an answer's bindings don't answer what was asked: the first of these from the left.
#[derive(Clone, Copy, Debug, PartialEq, Eq)]
pub enum AnswerFault {
    /// It has fewer bindings than were asked. A GetBulkRequest leaves that to the device.
    TooFew,
    /// It has more bindings than were asked.
    TooMany,
    /// The binding of this number, counted from 0, doesn't answer what was asked in its place.
    AtBinding(usize, Misfit),
}

/// Returns why the answer's bindings don't answer what was asked, if they don't.
pub(crate) fn fault_of(columns: &[Column], answer: &Pdu<'_>) -> Option<AnswerFault>
    ensures { MatchOption result
        (AnswersAll (asks_of columns.now) (variables_of answer.now.list.now))
        (λ fault. IsFault (asks_of columns.now) (variables_of answer.now.list.now) fault) }
{
    let mut left = answer.variable_bindings();
    let mut number = 0;
    for column in columns {
        if !column.is_asked() {
            continue;
        }
        let Some(binding) = left.next() else {
            return Some(AnswerFault::TooFew);
        };
        if let Some(misfit) = column.misfit(&binding) {
            return Some(AnswerFault::AtBinding(number, misfit));
        }
        number += 1;
    }
    match left.next() {
        Some(_) => Some(AnswerFault::TooMany),
        None => None,
    }
}

/// Keeps what the answer's bindings say.
pub(crate) fn given_by(alloc: Global, answer: &Pdu<'_>) -> Result<Vec<GivenVariable>, AllocError>
    ensures { IfOk result (λ given. map given_says given.items ≡ variables_of answer.now.list.now) }
{
    let mut given = Vec::new(alloc);
    for binding in answer.variable_bindings() {
        given.push(GivenVariable::of(alloc, &binding)?)?;
    }
    Ok(given)
}

/// Gives each column that was asked its variable.
pub(crate) fn take_each(columns: &mut Vec<Column>, viewer: &Viewer<'_>, given: Vec<GivenVariable>)
    requires { AnswersAll (asks_of columns.old.items) (map given_says given.items) }
    ensures { AllTake (seen_by viewer.now) columns.old.items (map given_says given.items) columns.new.items }
{
    let mut left = given.into_iter();
    for column in columns.iter_mut() {
        if column.is_asked() {
            let Some(given) = left.next() else {
                unreachable!();
            };
            column.take(viewer, given);
        }
    }
}
