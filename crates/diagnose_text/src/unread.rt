//! What can be said of a message that wasn't opened.

ghost use Rattle.std.specs.Prelude.{◌≡◌, IfOk, IfNone, IfSome, MatchOption, Some};
ghost use Rattle.snmp_message.specs.Layout.{Outer, Parts};
ghost use Rattle.snmp_message.specs.Message.{parts};
ghost use Rattle.snmp_message.specs.Security.{Fields};
ghost use Rattle.snmp_msg.specs.Pdu.{PduParts, pdu_of};
ghost use Rattle.diagnose_text.specs.Datagrams.{AreContents, IsEngineOf, IsMessage, IsPlainPdu, IsReportIn, IsUnread};
ghost use Rattle.diagnose_text.specs.Datagrams.{AreReadOf};

use crate::facts::{Says, Sender, What};
use crate::line::user_of;
use crate::reading::{names_of, report_of};
use engine_clock::EngineId;
use snmp_msg::{
    Message, Pdu, PduType, is_confirmed, one_content, one_cut, one_message, read_message, read_pdu,
    read_scoped, read_security,
};
use std::alloc::{AllocError, Global};

/// What can be said of a message that wasn't opened.
#[derive(Drop)]
pub(crate) struct Unread {
    /// msgID.
    pub(crate) id: u32,
    pub(crate) sender: Sender,
    pub(crate) engine: Option<EngineId>,
    pub(crate) contents: Contents,
}

/// What can be said of the PDU of a message that wasn't opened.
#[derive(Drop)]
pub(crate) struct Contents {
    pub(crate) what: What,
    /// Whether its PDU is a request, if that isn't sealed, or if it is known from the agents that the user names.
    pub(crate) is_request: Option<bool>,
    /// What it says, if it is a Report that isn't sealed.
    pub(crate) report: Option<Says>,
}

/// What can be said of a datagram that wasn't opened, if it is a message of SNMPv3. If it is sealed, `told` is whether
/// it is a request, where that is known. The error is out of memory.
pub(crate) fn unread_in(
    alloc: Global,
    datagram: &[u8],
    told: Option<bool>,
) -> Result<Option<Unread>, AllocError>
    ensures { IfOk result
        (λ found. MatchOption found ((m : Parts) (s : Fields) → IsMessage datagram.now m s → ⊥)
        (IsUnread datagram.now told)) }
{
    one_message();
    one_cut();
    let Ok(message) = read_message(datagram) else {
        return Ok(None);
    };
    let Ok(security) = read_security(datagram, &message) else {
        return Ok(None);
    };
    let contents = contents_of(alloc, datagram, &message, told)?;
    Ok(Some(Unread {
        id: message.header.id,
        sender: Sender {
            user: user_of(security.user),
            level: message.header.level(),
        },
        engine: EngineId::of(security.engine),
        contents,
    }))
}

/// What can be said of the PDU of this message, which was read of this datagram.
fn contents_of(
    alloc: Global,
    datagram: &[u8],
    message: &Message<'_>,
    told: Option<bool>,
) -> Result<Contents, AllocError>
    requires { Outer datagram.now (parts message.now) }
    ensures { IfOk result (AreContents datagram.now told) }
{
    match plain_pdu(datagram, message) {
        Some(pdu) => plain_contents(alloc, &pdu),
        None => Ok(Contents {
            what: What::Sealed {
                is_guess: told.is_none(),
            },
            is_request: told,
            report: None,
        }),
    }
}

/// What is said of a PDU that isn't sealed.
fn plain_contents(alloc: Global, pdu: &Pdu<'_>) -> Result<Contents, AllocError>
    ensures { IfOk result (AreReadOf (pdu_of pdu.now)) }
{
    Ok(Contents {
        what: What::Pdu(names_of(alloc, pdu)?),
        is_request: Some(is_confirmed(pdu.tag)),
        report: report_in(alloc, pdu)?,
    })
}

/// What a PDU says, if it is a Report.
fn report_in(alloc: Global, pdu: &Pdu<'_>) -> Result<Option<Says>, AllocError>
    ensures { IfOk result (IsReportIn (pdu_of pdu.now)) }
{
    if pdu.tag != PduType::Report.tag() {
        return Ok(None);
    }
    let report = report_of(alloc, pdu)?;
    Ok(Some(report))
}

/// The PDU of a message that isn't sealed.
fn plain_pdu<'a>(datagram: &'a [u8], message: &Message<'a>) -> Option<Pdu<'a>>
    requires { Outer datagram.now (parts message.now) }
    ensures some { IfSome result (λ pdu. IsPlainPdu datagram.now (pdu_of pdu)) }
    ensures none { IfNone result ((pdu : PduParts) → IsPlainPdu datagram.now pdu → ⊥) }
{
    one_message();
    one_content();
    let Ok(scoped) = read_scoped(datagram, message) else {
        return None;
    };
    let scoped = scoped?;
    read_pdu(datagram, scoped.data_at, datagram.len()).ok()
}

/// The msgAuthoritativeEngineID of a message.
pub(crate) fn engine_in(datagram: &[u8]) -> Option<EngineId>
    ensures { IfSome result (IsEngineOf datagram.now) }
{
    let Ok(message) = read_message(datagram) else {
        return None;
    };
    match read_security(datagram, &message) {
        Ok(security) => EngineId::of(security.engine),
        Err(_) => None,
    }
}
