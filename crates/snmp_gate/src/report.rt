//! The Report that a message is answered with (RFC 3412, section 7.1).

ghost use Rattle.std.specs.Prelude.{◌≡◌, ◌⊎◌, ◌<◌, length, IfOk, OnErr};
ghost use Rattle.snmp_message.specs.Scoped.{Contexts, ScopedFront};
ghost use Rattle.snmp_msg.specs.Pdu.{PduParts, PduText};
ghost use Rattle.snmp_incoming.specs.Answers.{given_of};
ghost use Rattle.snmp_incoming.specs.Texts.{text_of};
ghost use Rattle.snmp_gate.specs.Counting.{CountsReply};
ghost use Rattle.snmp_gate.specs.Limits.{IsShortReply};
ghost use Rattle.snmp_gate.specs.Replies.{IsReportedOr, SameAgent, answering};
ghost use Rattle.snmp_gate.specs.Unanswered.{IsLeftReport};

use crate::reply::{Reply, Sealing};
use snmp_agent::{Agent, Unhandled};
use snmp_incoming::Taken;
use std::alloc::AllocError;

/// Returns what becomes of a message whose report is this.
fn report_within(report: Vec<u8>, limit: usize) -> Reply
    ensures is { ((result ≡ Reply.Nothing) × (limit < length report.items)) ⊎ (result ≡ Reply.Reports report) }
    ensures short { IsShortReply limit result }
{
    if report.len() > limit {
        return Reply::Nothing;
    }
    Reply::Reports(report)
}

/// Returns what becomes of a message that no application answers. A report that is too long isn't sent.
pub(crate) fn reply_unhandled(
    agent: &mut Agent,
    taken: &Taken<'_>,
    why: Unhandled,
    sealing: &Sealing,
) -> Result<Reply, AllocError>
    ensures sent { IfOk result (IsReportedOr (answering agent.old sealing.now) (given_of taken.now) why) }
    ensures left { IfOk result (IsLeftReport (answering agent.old sealing.now) sealing.now.limit (given_of taken.now)
        why) }
    ensures short { IfOk result (λ reply. (c : Contexts) (p : PduParts) → ScopedFront (text_of taken.now.text) c
        → PduText c.pdu p → IsShortReply sealing.now.limit reply) }
    ensures counted { IfOk result (CountsReply agent.old agent.new) }
    ensures same { SameAgent agent.old agent.new }
    ensures err { OnErr result (agent.new ≡ agent.old) }
{
    // every accepted message has these, so that what is refused says what it leaves
    let _scoped = taken.scoped();
    let _pdu = taken.pdu();
    match agent.refuse(sealing.seconds, taken, why, sealing.salt) {
        Ok(Some(report)) => Ok(report_within(report, sealing.limit)),
        Ok(None) => Ok(Reply::Nothing),
        Err(refused) if refused.is_memory() => Err(AllocError),
        Err(refused) => Ok(Reply::Refused(refused.refusal)),
    }
}
