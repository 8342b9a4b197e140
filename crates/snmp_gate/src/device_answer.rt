//! What a device answers.

ghost use Rattle.std.specs.Prelude.{◌≡◌, ◌↔◌, ℕ, List, IsTrue, MatchOption};
ghost use Rattle.snmp_msg.specs.Pdu.{PduParts, pdu_of};
ghost use Rattle.snmp_msg.specs.PduTypes.{pdu_tag};
ghost use Rattle.snmp_community.specs.declared.version.Version.{Version as VersionIs};
ghost use Rattle.snmp_gate.specs.DeviceMessages.{IsDeviceAnswer};

use snmp_community::{Version, one_community_message, read_community_message, read_community_pdu};
use snmp_msg::{Pdu, PduType, one_pdu};

/// What a device answers: a Response in a message of SNMPv2c (RFC 1901, section 3). It has no `Debug`, which would
/// print the community.
#[derive(Clone, Copy)]
pub struct DeviceAnswer<'a> {
    /// The community, of any octets.
    pub community: &'a [u8],
    pub pdu: Pdu<'a>,
}

/// Returns true if the version is SNMPv2c's.
fn is_version_2c(version: Version) -> bool
    ensures { IsTrue result ↔ (version ≡ VersionIs.Version2c) }
{
    matches!(version, Version::Version2c)
}

/// Returns what a device answers by this datagram. None: the datagram isn't a message of SNMPv2c, or its PDU is no
/// Response. It takes no memory.
pub fn read_device_answer(datagram: &[u8]) -> Option<DeviceAnswer<'_>>
    ensures { MatchOption result
        ((community : List ℕ) (p : PduParts) → ¬ IsDeviceAnswer datagram.now community p)
        (λ answer. IsDeviceAnswer datagram.now answer.community.now (pdu_of answer.pdu)) }
{
    one_community_message();
    one_pdu();
    let Ok(message) = read_community_message(datagram) else {
        return None;
    };
    if !is_version_2c(message.version) {
        return None;
    }
    let Ok(pdu) = read_community_pdu(datagram, &message) else {
        return None;
    };
    if pdu.tag != PduType::Response.tag() {
        return None;
    }
    Some(DeviceAnswer {
        community: message.community,
        pdu,
    })
}
