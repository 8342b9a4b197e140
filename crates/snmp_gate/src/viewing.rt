//! Who asks by an accepted message, and what the tables say of it.

ghost use Rattle.std.specs.Prelude.{◌≡◌, List, Some, ℕ, IfOk};
ghost use Rattle.std.specs.List.{AllZip};
ghost use Rattle.snmp_incoming.specs.Answers.{given_of};
ghost use Rattle.snmp_msg.specs.Variables.{AreBindings, Variable, variables_of};
ghost use Rattle.snmp_gate.specs.Question.{Question};
ghost use Rattle.snmp_gate.specs.Messages.{IsAnswerFor, IsPduOf, IsViewerOf, question_given};

use snmp_incoming::Taken;
use snmp_msg::{Pdu, USER_BASED};
use snmp_responder::Viewer;
use std::alloc::{AllocError, Global};
use vacm_core::{Access, Vacm, ViewType};

/// Returns the sender of an accepted message, with the tables that say what it may see.
pub(crate) fn viewer_of<'a>(tables: &'a Vacm, taken: &'a Taken<'_>) -> Viewer<'a>
    ensures { (client : List ℕ) (q : Question) → question_given client (given_of taken.now) ≡ Some q
        → IsViewerOf tables.now q result }
{
    Viewer {
        vacm: tables,
        model: USER_BASED,
        name: taken.user,
        level: taken.level,
        context: taken.scoped().name,
    }
}

/// Returns the PDU of an accepted message.
pub(crate) fn pdu_of<'a>(taken: &'a Taken<'_>) -> Pdu<'a>
    ensures asked { (client : List ℕ) (q : Question) → question_given client (given_of taken.now) ≡ Some q
        → IsPduOf q result }
    ensures asks { (client : List ℕ) → (q : Question) × (question_given client (given_of taken.now) ≡ Some q) }
    ensures bindings { (vs : List Variable) × AreBindings vs result.list.now }
{
    let _scoped = taken.scoped();
    taken.pdu()
}

/// Returns the answers on access for the bindings of a message, in their order (RFC 3415, section 3). The error is out
/// of memory.
pub(crate) fn answers_of(
    alloc: Global,
    viewer: &Viewer<'_>,
    view: ViewType,
    pdu: &Pdu<'_>,
) -> Result<Vec<Access>, AllocError>
    ensures { IfOk result (λ answers. AllZip (IsAnswerFor viewer.now view)
        (variables_of pdu.now.list.now) answers.items) }
{
    let mut answers = Vec::new(alloc);
    for binding in pdu.variable_bindings() {
        let name = binding.name.oid();
        answers.push(
            viewer.vacm.is_access_allowed(
                viewer.model,
                viewer.name,
                viewer.level,
                view,
                viewer.context,
                &name,
            ),
        )?;
    }
    Ok(answers)
}
