//! Answers for each variable that a PDU names.

ghost use Rattle.std.specs.Prelude.{◌≢◌, List, IfOk, MatchOption};
ghost use Rattle.snmp_msg.specs.PduTypes.{pdu_tag};
ghost use Rattle.snmp_msg.specs.Variables.{Variable, AreBindings};
ghost use Rattle.snmp_agent.specs.Decides.{question, IsDecidedBy, AreAnswers};

use snmp_incoming::Taken;
use snmp_msg::{Pdu, PduType, USER_BASED};
use std::alloc::{AllocError, Global};
use vacm_core::{Access, Vacm, ViewType};

/// The view by which a PDU with this tag is decided: the read view for a GetRequest, the write view for a SetRequest.
pub(crate) fn view_for(tag: u8) -> Option<ViewType>
    ensures { MatchOption result ((tag ≢ pdu_tag PduType.GetRequest)
        × (tag ≢ pdu_tag PduType.SetRequest))
        (IsDecidedBy tag) }
{
    if tag == PduType::GetRequest.tag() {
        Some(ViewType::Read)
    } else if tag == PduType::SetRequest.tag() {
        Some(ViewType::Write)
    } else {
        None
    }
}

/// The answer for each variable that the PDU names, in the context of this name.
pub(crate) fn answers(
    alloc: Global,
    vacm: &Vacm,
    taken: &Taken<'_>,
    context: &[u8],
    view: ViewType,
    pdu: &Pdu<'_>,
) -> Result<Vec<Access>, AllocError>
    ensures { IfOk result (λ answers. (vs : List Variable) → AreBindings vs pdu.now.list.now
        → AreAnswers vacm.now (question taken.now.user.now taken.now.level context.now)
        view vs answers.items) }
{
    let mut answers = Vec::new(alloc);
    for binding in pdu.variable_bindings() {
        let answer = vacm.is_access_allowed(
            USER_BASED,
            taken.user,
            taken.level,
            view,
            context,
            &binding.name.oid(),
        );
        answers.push(answer)?;
    }
    Ok(answers)
}
