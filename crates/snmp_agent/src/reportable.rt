//! Whether a message asks for reports (RFC 3412, section 7.1, step 3).

ghost use Rattle.std.specs.Prelude.{◌≡◌, false, MatchOption};
ghost use Rattle.snmp_message.specs.Message.{parts};
ghost use Rattle.snmp_msg.specs.Pdu.{pdu_of};
ghost use Rattle.snmp_msg.specs.PduTypes.{is_confirmed};
ghost use Rattle.usm_core.specs.Layouts.{IsLayoutOf};
ghost use Rattle.snmp_agent.specs.Report.{PlainPdu, AsksForReport, IsCopied, IsAsking};

use crate::reported_message::ReportedMessage;
use snmp_msg::{Pdu, is_confirmed, one_content, one_cut, one_message, one_pdu, read_pdu};
use usm_core::Layout;

/// The PDU of a message that isn't sealed, where it can be read.
fn plain_pdu<'a>(datagram: &'a [u8], layout: &Layout<'_>) -> Option<Pdu<'a>>
    requires { IsLayoutOf datagram.now layout.now }
    ensures { MatchOption result (PlainPdu datagram.now (parts layout.now.message) → ⊥)
        (λ pdu. (plain : PlainPdu datagram.now (parts layout.now.message))
        × (plain.pdu ≡ pdu_of pdu)) }
{
    one_content();
    match layout.scoped {
        Some(scoped) => match read_pdu(datagram, scoped.data_at, datagram.len()) {
            Ok(pdu) => Some(pdu),
            Err(_) => None,
        },
        None => None,
    }
}

/// The request-id that a report copies, or None where the PDU can be read and isn't answered.
fn copied_id(datagram: &[u8], layout: &Layout<'_>) -> Option<i32>
    requires { IsLayoutOf datagram.now layout.now }
    ensures { MatchOption result
        ((plain : PlainPdu datagram.now (parts layout.now.message))
        × (is_confirmed plain.pdu.tag ≡ false))
        (IsCopied datagram.now (parts layout.now.message)) }
{
    one_content();
    one_pdu();
    match plain_pdu(datagram, layout) {
        Some(pdu) => {
            if is_confirmed(pdu.tag) {
                Some(pdu.id)
            } else {
                None
            }
        }
        None => Some(0),
    }
}

/// What a report takes from the message, where it asks for reports: of what was read of it, and of the PDU, where
/// that can be read. It takes no memory.
pub(crate) fn asking<'a>(datagram: &[u8], layout: &Layout<'a>) -> Option<ReportedMessage<'a>>
    requires { IsLayoutOf datagram.now layout.now }
    ensures { MatchOption result (AsksForReport datagram.now → ⊥) (IsAsking datagram.now) }
{
    one_message();
    one_cut();
    if !layout.message.header.reportable {
        return None;
    }
    match copied_id(datagram, layout) {
        Some(request_id) => Some(ReportedMessage {
            id: layout.message.header.id,
            user: layout.security.user,
            request_id,
        }),
        None => None,
    }
}
