//! What a receiver is sent.

ghost use Rattle.std.specs.Prelude.{◌≡◌, ◌≤◌, List, IfOk, length, pos};
ghost use Rattle.snmp_ber.specs.declared.number.TheConstants.{MAX_INTEGER32};
ghost use Rattle.snmp_msg.specs.Pdu.{pdu_of, pdu_with};
ghost use Rattle.snmp_msg.specs.PduTypes.{pdu_tag};
ghost use Rattle.snmp_msg.specs.Variables.{AreBindings, Variable};
ghost use Rattle.snmp_outgoing.specs.Bodies.{pdu_after};
ghost use Rattle.snmp_forward.specs.Written.{IsWritten};

use crate::receivers::{Receiver, USER_NAME_LIMIT};
use crate::sealing::Sealing;
use engine_clock::EngineId;
use snmp_agent::Agent;
use snmp_gate::bindings_of;
use snmp_msg::{Pdu, PduType, Refusal, one_pdu};
use snmp_outgoing::Front;
use std::alloc::{AllocError, Global};

/// What becomes of a notification for a receiver.
#[derive(Drop)]
pub enum Written {
    /// This datagram goes to the receiver.
    Sends(Vec<u8>),
    /// No datagram can be sealed for the receiver's user.
    Refused(Refusal),
}

/// Returns what a notification has besides its bindings, as a PDU of this type: the device's request-id, and this
/// context of this engine.
pub(crate) fn front_of<'a>(
    engine: &'a EngineId,
    context: &'a [u8],
    pdu_type: PduType,
    pdu: &Pdu<'_>,
) -> Front<'a>
    ensures engine { result.context_engine.now ≡ engine.now }
    ensures context { result.context_name.now ≡ context.now }
    ensures tag { result.tag ≡ pdu_tag pdu_type }
    ensures id { result.id ≡ pdu.now.id }
    ensures pdu { (vs : List Variable) → pdu_after result vs
        ≡ pdu_with (pdu_tag pdu_type) pdu.now.id (pos 0) (pos 0) vs }
{
    let id = pdu.id;
    Front {
        context_engine: engine.as_slice(),
        context_name: context,
        tag: pdu_type.tag(),
        id,
        second: 0,
        third: 0,
    }
}

/// Writes an SNMPv2-Trap for a receiver (RFC 3416, section 4.2.6): with the request-id and the bindings of the
/// device's, in this context of this engine. The error is out of memory. The agent stays as it is.
pub(crate) fn write_trap(
    alloc: Global,
    agent: &mut Agent,
    engine: &EngineId,
    to: &Receiver,
    context: &[u8],
    pdu: &Pdu<'_>,
    by: &Sealing,
) -> Result<Written, AllocError>
    requires user { length to.now.user.items ≤ USER_NAME_LIMIT }
    requires id { by.now.id ≤ MAX_INTEGER32 }
    requires read { (vs : List Variable) × AreBindings vs pdu.now.list.now }
    ensures written { IfOk result (λ written. engine.now ≡ agent.old.engine
        → IsWritten agent.old by.now to.now context.now (pdu_of pdu.now) written) }
    ensures same { agent.new ≡ agent.old }
{
    one_pdu();
    let bindings = bindings_of(alloc, pdu)?;
    let front = front_of(engine, context, PduType::SNMPv2Trap, pdu);
    let (now, id) = (by.seconds, by.id);
    match agent.notify_of(now, id, &to.user, to.level, &front, &bindings, by.salt) {
        Ok(datagram) => Ok(Written::Sends(datagram)),
        Err(refused) if refused.is_memory() => Err(AllocError),
        Err(refused) => Ok(Written::Refused(refused.refusal)),
    }
}
