//! Notifications of devices, read.

ghost use Rattle.std.specs.Prelude.{◌≡◌, ℕ, List, MatchOption, MatchResult};
ghost use Rattle.snmp_msg.specs.Pdu.{PduParts, pdu_of};
ghost use Rattle.snmp_msg.specs.Variables.{bound_variable, variables_of};
ghost use Rattle.snmp_gate.specs.DeviceMessages.{IsCommunityPdu};
ghost use Rattle.snmp_forward.specs.Notifications.{HasTrapOid, IsNoNotification, IsNotification, IsTrapOid};

use snmp_ber::ObjectName;
use snmp_community::{Version, one_community_message, read_community_message, read_community_pdu};
use snmp_message::OBJECT_IDENTIFIER;
use snmp_msg::{Pdu, PduType, VariableBinding, one_pdu};

/// The arcs of snmpTrapOID.0 (RFC 3418, section 2).
const SNMP_TRAP_OID: [u32; 11] = [1, 3, 6, 1, 6, 3, 1, 1, 4, 1, 0];

/// A notification of a device: an SNMPv2-Trap in a message of SNMPv2c (RFC 1901, section 3; RFC 3416, section 4.2.6).
/// It has no `Debug`, which would print the community.
#[derive(Drop)]
pub struct DeviceNotification<'a> {
    /// The community, of any octets.
    pub community: &'a [u8],
    pub pdu: Pdu<'a>,
    /// Which notification it is: the value of snmpTrapOID.0.
    pub trap_oid: ObjectName<'a>,
}

/// Why a datagram isn't a notification.
#[derive(Clone, Copy, Debug, PartialEq, Eq)]
pub enum NotNotification {
    /// It isn't a message of SNMPv2c with a PDU.
    Unreadable,
    /// Its PDU isn't an SNMPv2-Trap.
    NotTrap,
    /// Its second binding isn't snmpTrapOID.0, with an OBJECT IDENTIFIER. Nobody can tell which notification it is.
    NoTrapOid,
}

/// Returns the community and the PDU of a message of SNMPv2c. None: the datagram isn't one.
fn read_message(datagram: &[u8]) -> Option<(&[u8], Pdu<'_>)>
    ensures { MatchOption result ((community : List ℕ) (p : PduParts) → ¬ IsCommunityPdu datagram.now community p)
        (λ m. IsCommunityPdu datagram.now m.0.now (pdu_of m.1)) }
{
    one_community_message();
    let Ok(message) = read_community_message(datagram) else {
        return None;
    };
    let Version::Version2c = message.version else {
        return None;
    };
    let Ok(pdu) = read_community_pdu(datagram, &message) else {
        return None;
    };
    Some((message.community, pdu))
}

/// Returns the value of a binding of snmpTrapOID.0. None: it is another binding, or not an OBJECT IDENTIFIER.
fn trap_oid_in<'a>(binding: &VariableBinding<'a>) -> Option<ObjectName<'a>>
    ensures { MatchOption result ((oid : List ℕ) → ¬ IsTrapOid (bound_variable binding.now) oid)
        (IsTrapOid (bound_variable binding.now)) }
{
    if binding.tag != OBJECT_IDENTIFIER {
        return None;
    }
    let name = binding.name.oid();
    if name.as_slice() != SNMP_TRAP_OID.as_slice() {
        return None;
    }
    ObjectName::of(binding.content)
}

/// Returns the value of snmpTrapOID.0, which is the second binding of an SNMPv2-Trap (RFC 3416, section 4.2.6).
fn trap_oid_of<'a>(pdu: &Pdu<'a>) -> Option<ObjectName<'a>>
    ensures { MatchOption result ((oid : List ℕ) → ¬ HasTrapOid (variables_of pdu.now.list.now) oid)
        (HasTrapOid (variables_of pdu.now.list.now)) }
{
    let mut bindings = pdu.variable_bindings();
    let Some(_uptime) = bindings.next() else {
        return None;
    };
    let Some(second) = bindings.next() else {
        return None;
    };
    trap_oid_in(&second)
}

/// Returns the notification that this datagram of a device is (RFC 1901, section 3; RFC 3416, section 4.2.6). The error
/// is the first reason why it isn't one. It takes no memory.
pub fn read_device_notification(datagram: &[u8]) -> Result<DeviceNotification<'_>, NotNotification>
    ensures { MatchResult result
        (λ n. IsNotification datagram.now n.community.now (pdu_of n.pdu) n.trap_oid)
        (IsNoNotification datagram.now) }
{
    let Some((community, pdu)) = read_message(datagram) else {
        return Err(NotNotification::Unreadable);
    };
    if pdu.tag != PduType::SNMPv2Trap.tag() {
        return Err(NotNotification::NotTrap);
    }
    let Some(trap_oid) = trap_oid_of(&pdu) else {
        return Err(NotNotification::NoTrapOid);
    };
    Ok(DeviceNotification {
        community,
        pdu,
        trap_oid,
    })
}
