//! How a request begins.

ghost use Rattle.std.specs.Prelude.{◌≡◌, ◌≢◌, ◌≤◌, ℕ, List, [], IfOk, length};
ghost use Rattle.snmp_ber.specs.declared.number.TheConstants.{MAX_INTEGER32};
ghost use Rattle.vacm_core.specs.Allowed.{HasContext};
ghost use Rattle.vacm_core.specs.Tables.{Tables};
ghost use Rattle.snmp_msg.specs.PduTypes.{pdu_tag};
ghost use Rattle.snmp_msg.specs.Variables.{variables_of};
ghost use Rattle.snmp_msg.specs.declared.pdu_type.PduType.TheVariants.{GetBulkRequest, GetRequest, GetNextRequest};
ghost use Rattle.snmp_msg.specs.declared.pdu_type.PduType.TheVariants.{SetRequest};
ghost use Rattle.snmp_gate.specs.Causes.{EndsFor, HasResponse, IfOnwardEnds};
ghost use Rattle.snmp_gate.specs.declared.devices.Device.{Device};
ghost use Rattle.snmp_gate.specs.Question.{Question};
ghost use Rattle.snmp_gate.specs.Messages.{IsPduOf, IsViewerOf};
ghost use Rattle.snmp_gate.specs.ReadAsks.{read_type};
ghost use Rattle.snmp_gate.specs.ReadErrors.{IsCauseOfRefusal};
ghost use Rattle.snmp_gate.specs.Work.{AsksNoSet, EndingStands, IsToldFirst, OnwardStands, RepeatsAtMost};
ghost use Rattle.snmp_gate.specs.Said.{IsUnasked, Said};

use crate::limits::GateLimits;
use crate::onward::{Onward, bulk_on, read_on};
use crate::refused_access::{AccessRefusal, access_refusal};
use crate::set_answer::{AUTHORIZATION_ERROR, NO_ACCESS, ResponseStatus, TOO_BIG};
use crate::viewing::answers_of;
use crate::work::RequestEnd;
use snmp_agent::Unhandled;
use snmp_msg::{Pdu, PduType};
use snmp_responder::Viewer;
use snmp_walk::{BulkDialogue, BulkLimits, Dialogue, ReadOperation};
use std::alloc::{AllocError, Global};
use vacm_core::ViewType;

/// Returns how a request ends that isn't asked of its device.
pub(crate) fn ending_of(refusal: AccessRefusal) -> RequestEnd
    ensures stands { (tables : Tables) (q : Question) (told : Said) → IsUnasked told
        → IsCauseOfRefusal tables q refusal → EndingStands tables q told result }
    ensures first { IsToldFirst result }
    ensures cause { (engine : List ℕ) (tables : Tables) (devices : List Device) (q : Question)
        → (refusal ≡ AccessRefusal.UnknownContext → ¬ HasContext tables.contexts q.context)
        → EndsFor engine tables devices q result }
{
    match refusal {
        AccessRefusal::AuthorizationError => RequestEnd::Own(ResponseStatus {
            status: AUTHORIZATION_ERROR,
            index: 0,
        }),
        AccessRefusal::NoAccess(number) => RequestEnd::Own(ResponseStatus {
            status: NO_ACCESS,
            index: i32::try_from(number).unwrap_or(0),
        }),
        AccessRefusal::UnknownContext => RequestEnd::Unhandled(Unhandled::UnknownContexts),
    }
}

/// How many variables a request for values asks for at most. A binding has 7 octets at least, so a datagram of 1,472
/// octets has no more than 210.
const MOST_VARIABLES: usize = 256;

/// Returns how a request ends that asks for more variables: by tooBig (RFC 3416, section 4.2.1).
fn asks_too_much() -> RequestEnd
    ensures stands { (tables : Tables) (q : Question) (told : Said) → EndingStands tables q told result }
    ensures first { IsToldFirst result }
    ensures responds { HasResponse result }
{
    RequestEnd::Own(ResponseStatus {
        status: TOO_BIG,
        index: 0,
    })
}

/// Returns how a GetRequest or a GetNextRequest begins.
fn begin_read(
    alloc: Global,
    viewer: &Viewer<'_>,
    operation: ReadOperation,
    pdu: &Pdu<'_>,
    limits: &GateLimits,
) -> Result<Onward, AllocError>
    ensures stands { IfOk result (λ onward. (tables : Tables) (q : Question) (told : Said)
        → IsViewerOf tables q viewer.now → IsPduOf q pdu.now → q.tag ≡ pdu_tag (read_type operation)
        → OnwardStands tables q told onward) }
    ensures first { IfOk result AsksNoSet }
    ensures repeats { IfOk result (λ onward. (most : ℕ) → RepeatsAtMost most onward) }
    ensures responds { IfOk result (IfOnwardEnds HasResponse) }
{
    let dialogue = Dialogue::new(alloc, viewer, operation, pdu, limits.rounds)?;
    Ok(read_on(operation, dialogue, viewer))
}

/// Returns how a GetBulkRequest begins.
fn begin_bulk(
    alloc: Global,
    viewer: &Viewer<'_>,
    pdu: &Pdu<'_>,
    limits: &BulkLimits,
) -> Result<Onward, AllocError>
    requires { length (variables_of pdu.now.list.now) ≤ MAX_INTEGER32 }
    ensures stands { IfOk result (λ onward. (tables : Tables) (q : Question) (told : Said)
        → IsViewerOf tables q viewer.now → IsPduOf q pdu.now → q.tag ≡ pdu_tag GetBulkRequest
        → OnwardStands tables q told onward) }
    ensures first { IfOk result AsksNoSet }
    ensures repeats { IfOk result (RepeatsAtMost limits.now.repetitions) }
    ensures responds { IfOk result (IfOnwardEnds HasResponse) }
{
    let dialogue = BulkDialogue::new(alloc, pdu, limits)?;
    Ok(bulk_on(dialogue, viewer))
}

/// Returns how a request begins that asks for values: by the answers on access for its bindings in the read view. The
/// error is out of memory.
pub(crate) fn begin(
    alloc: Global,
    viewer: &Viewer<'_>,
    pdu: &Pdu<'_>,
    limits: &GateLimits,
    bulk: &BulkLimits,
) -> Result<Onward, AllocError>
    ensures stands { IfOk result (λ onward. (tables : Tables) (q : Question) (told : Said)
        → IsUnasked told → IsViewerOf tables q viewer.now → IsPduOf q pdu.now
        → OnwardStands tables q told onward) }
    ensures first { IfOk result AsksNoSet }
    ensures repeats { IfOk result (RepeatsAtMost bulk.now.repetitions) }
    ensures cause { IfOk result (λ onward. (engine : List ℕ) (tables : Tables) (devices : List Device)
        (q : Question) → IsViewerOf tables q viewer.now → IsPduOf q pdu.now → q.tag ≢ pdu_tag SetRequest
        → IfOnwardEnds (EndsFor engine tables devices q) onward) }
{
    let answers = answers_of(alloc, viewer, ViewType::Read, pdu)?;
    if let Some(refusal) = access_refusal(&answers, pdu.tag) {
        return Ok(Onward::Ends(ending_of(refusal)));
    }
    if answers.len() > MOST_VARIABLES {
        return Ok(Onward::Ends(asks_too_much()));
    }
    if pdu.tag == PduType::GetBulkRequest.tag() {
        return begin_bulk(alloc, viewer, pdu, bulk);
    }
    if pdu.tag == PduType::GetRequest.tag() {
        return begin_read(alloc, viewer, ReadOperation::Get, pdu, limits);
    }
    if pdu.tag == PduType::GetNextRequest.tag() {
        return begin_read(alloc, viewer, ReadOperation::GetNext, pdu, limits);
    }
    Ok(Onward::Ends(RequestEnd::Unhandled(Unhandled::UnknownPduHandlers)))
}
