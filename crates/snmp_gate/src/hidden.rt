//! How many bindings of a device's answer a message may not see.

ghost use Rattle.std.specs.Prelude.{◌≡◌, Some};
ghost use Rattle.snmp_msg.specs.Pdu.{pdu_of};
ghost use Rattle.snmp_msg.specs.Variables.{variables_of};
ghost use Rattle.snmp_responder.specs.Code.{seen_by};
ghost use Rattle.snmp_gate.specs.Hidden.{IsHiddenCount, WorkHides};
ghost use Rattle.snmp_gate.specs.Messages.{question_in, seen_in};
ghost use Rattle.snmp_gate.specs.Question.{Question};

use crate::task::Task;
use crate::viewing::viewer_of;
use crate::waiting_message::WaitingMessage;
use crate::work::Work;
use snmp_msg::Pdu;
use snmp_responder::Viewer;
use vacm_core::Vacm;

/// Returns how many bindings of an answer have names that the viewer may not see (RFC 3415, section 3). It takes no
/// memory.
fn count_hidden(viewer: &Viewer<'_>, answer: &Pdu<'_>) -> usize
    ensures { IsHiddenCount (seen_by viewer.now) (variables_of answer.now.list.now) result }
{
    let mut hidden = 0;
    for binding in answer.variable_bindings() {
        if !viewer.sees(&binding.name.oid()) {
            hidden += 1;
        }
    }
    hidden
}

/// Returns how many bindings of a device's answer are hidden from this message. Of an answer to a Set it is 0.
pub(crate) fn hidden_in(
    work: &Work,
    message: &WaitingMessage,
    tables: &Vacm,
    answer: &Pdu<'_>,
) -> usize
    ensures { (q : Question) → question_in message.now ≡ Some q
        → WorkHides (seen_in tables.now q) work.now (pdu_of answer.now) result }
{
    let Work::Open(open) = work else {
        return 0;
    };
    match &open.task.task {
        Task::Read(_, _) | Task::Bulk(_, _) => {
            let taken = message.kept.taken();
            count_hidden(&viewer_of(tables, &taken), answer)
        }
        Task::Set => 0,
    }
}
