//! The message around a PDU (RFC 1157, section 4; RFC 1901, section 3), read.

ghost use Rattle.std.specs.Prelude.{◌≡◌, ℕ, ◌+◌, ◌≤◌, Some, length, slice_range, option_map};
ghost use Rattle.std.specs.Prelude.{IfErr, IfOk, OnErr, MatchResult};
ghost use Rattle.std.specs.Result.{result_ok};
ghost use Rattle.snmp_message.specs.Reading.{version_in};
ghost use Rattle.snmp_message.specs.Scoped.{IsOneElement};
ghost use Rattle.snmp_message.specs.declared.refusal.Refusal.TheVariants.{NotMessage};
ghost use Rattle.snmp_msg.specs.Pdu.{PduParts, PduText, PduFits, pdu_of};
ghost use Rattle.snmp_msg.specs.Refusals.{RefusesPdu};
ghost use Rattle.snmp_community.specs.Layout.{Parts, IsMessage};
ghost use Rattle.snmp_community.specs.Message.{parts};
ghost use Rattle.snmp_community.specs.Reading.{parts_in};
ghost use Rattle.snmp_community.specs.Faults.{FaultsAt, RestFaultsAt};
ghost use Rattle.snmp_community.specs.Refusals.{RefusesMessage};

use crate::version::Version;
use snmp_ber::{BerFault, read_int, read_tlv};
use snmp_message::{INTEGER, OCTET_STRING, Refusal, RefusedAt, SEQUENCE, read_element};
use snmp_msg::{Pdu, read_pdu};

/// What a message with a community says, lent from the datagram. It has no `Debug`, which would print the community.
#[derive(Clone, Copy, PartialEq, Eq)]
pub struct CommunityMessage<'a> {
    pub version: Version,
    /// The community, of any octets: a secret that several share, and that is sent in the clear.
    pub community: &'a [u8],
    /// The data, one whole element. Whether it is a PDU isn't looked at.
    pub pdu: &'a [u8],
    /// The place of the data's first octet, counted from 0 in the datagram. The data ends with the datagram.
    pub pdu_at: usize,
}

/// The refusal of a datagram in which the element that was expected at this place doesn't stand.
fn not_message(at: usize) -> RefusedAt
    ensures refusal { result.refusal ≡ NotMessage }
    ensures place { result.at ≡ Some at }
{
    RefusedAt {
        refusal: Refusal::NotMessage,
        at: Some(at),
    }
}

/// The number of the version, the place after it, and the end of the message.
#[tactic(auto, unfolding(snmp_message::specs::Reading::version_in))]
fn read_version(datagram: &[u8]) -> Result<(i32, usize, usize), BerFault>
    ensures value { option_map
        (λ v. (
          v.0,
          slice_range datagram.now v.1 v.2,
          slice_range datagram.now v.2 (length datagram.now),
        ))
        (result_ok result) ≡ version_in datagram.now }
    ensures ordered { IfOk result (λ v. (v.1 ≤ v.2) × (v.2 ≤ length datagram.now)) }
    ensures fault { IfErr result (λ e. FaultsAt datagram.now e.at) }
{
    let Ok(whole) = read_element(datagram, 0, datagram.len(), SEQUENCE) else {
        return Err(BerFault { at: 0 });
    };
    let Ok(version) = read_element(datagram, whole.body, whole.end, INTEGER) else {
        return Err(BerFault { at: whole.body });
    };
    let Some(number) = read_int(version.content) else {
        return Err(BerFault { at: whole.body });
    };
    Ok((number, version.end, whole.end))
}

/// What follows the version, up to the end of the message.
#[tactic(auto, unfolding(crate::specs::Reading::parts_in))]
fn read_parts(
    datagram: &[u8],
    version: Version,
    at: usize,
    end: usize,
) -> Result<CommunityMessage<'_>, BerFault>
    requires start { at ≤ end }
    requires within { end ≤ length datagram.now }
    ensures value { option_map parts (result_ok result)
        ≡ parts_in version end (slice_range datagram.now at end) }
    ensures ends { IfOk result (λ m. m.pdu_at + length m.pdu.now ≡ end) }
    ensures place { IfOk result (λ m. m.pdu.now ≡ slice_range datagram.now m.pdu_at end) }
    ensures fault { IfErr result (λ e. (inner : ℕ) × (e.at ≡ at + inner)
        × RestFaultsAt (slice_range datagram.now at end) inner) }
{
    let Ok(community) = read_element(datagram, at, end, OCTET_STRING) else {
        return Err(BerFault { at });
    };
    let Ok(pdu) = read_tlv(datagram, community.end, end) else {
        return Err(BerFault { at: community.end });
    };
    if pdu.end < end {
        return Err(BerFault { at: pdu.end });
    }
    Ok(CommunityMessage {
        version,
        community: community.content,
        pdu: &datagram[community.end..end],
        pdu_at: community.end,
    })
}

/// The message that the datagram is, of version-1 or SNMPv2c. Its data is one element of any tag, and isn't looked
/// into.
///
/// BadVersion comes exactly where the datagram begins with a SEQUENCE whose content begins with an INTEGER of
/// neither version, as an SNMPv3Message does. (Its words in the table of refusals are "not version 3".)
/// NotMessage comes exactly where it doesn't, and isn't a message. Its place is that of the first octet of the
/// element that was expected. No memory is taken.
pub fn read_community_message(datagram: &[u8]) -> Result<CommunityMessage<'_>, RefusedAt>
    ensures exact { MatchResult result (λ m. IsMessage datagram.now (parts m))
        (λ e. RefusesMessage datagram.now e.refusal e.at) }
    ensures none { OnErr result ((m : Parts) → IsMessage datagram.now m → ⊥) }
    ensures ends { IfOk result (λ m. m.pdu_at + length m.pdu.now ≡ length datagram.now) }
    ensures place { IfOk result
        (λ m. m.pdu.now ≡ slice_range datagram.now m.pdu_at (length datagram.now)) }
    ensures element { IfOk result (λ m. IsOneElement m.pdu.now) }
{
    let (number, at, end) = match read_version(datagram) {
        Ok(found) => found,
        Err(fault) => return Err(not_message(fault.at)),
    };
    let Some(version) = Version::of(number) else {
        return Err(RefusedAt::plain(Refusal::BadVersion));
    };
    let message = match read_parts(datagram, version, at, end) {
        Ok(message) => message,
        Err(fault) => return Err(not_message(fault.at)),
    };
    if end < datagram.len() {
        return Err(not_message(end));
    }
    Ok(message)
}

/// The PDU of a message, which is `read_community_message`'s of this datagram. The version isn't looked at.
///
/// The error is NotPdu, exactly where the data isn't one of the PDUs of RFC 3416, section 3. Its place counts
/// in the datagram. A Trap-PDU of version-1 (RFC 1157, section 4.1.6) has another layout, and is NotPdu. No memory
/// is taken.
pub fn read_community_pdu<'a>(
    datagram: &'a [u8],
    message: &CommunityMessage<'_>,
) -> Result<Pdu<'a>, RefusedAt>
    requires { IsMessage datagram.now (parts message.now) }
    ensures exact { MatchResult result (λ p. PduText message.now.pdu.now (pdu_of p))
        (λ e. RefusesPdu message.now.pdu.now e.refusal) }
    ensures none { OnErr result ((p : PduParts) → PduText message.now.pdu.now p → ⊥) }
    ensures fits { IfOk result (λ p. PduFits (pdu_of p)) }
{
    read_pdu(datagram, message.pdu_at, datagram.len())
}
