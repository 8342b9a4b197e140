//! What a device is asked for a GetRequest or a GetNextRequest.

ghost use Rattle.std.specs.Prelude.{◌≡◌, ◌<◌, ◌≤◌, All, length, map, IfErr, IfOk};
ghost use Rattle.snmp_ber.specs.Oid.{IsObjectId};
ghost use Rattle.snmp_message.specs.Refusals.{IsRefused, IsWriteRefusal};
ghost use Rattle.snmp_message.specs.declared.message.TheConstants.{LARGEST};
ghost use Rattle.snmp_message.specs.declared.refusal.Refusal.TheVariants.{TooLarge};
ghost use Rattle.snmp_walk.specs.ObjectIds.{AllNamed, IsNamed};
ghost use Rattle.snmp_gate.specs.DeviceMessages.{IsAsk, IsRequest, ask_text, request_text};
ghost use Rattle.snmp_gate.specs.ReadAsks.{asked_binding, asked_name, asked_variables, read_type, variables_asked};

use crate::asks::REQUEST_IDS;
use snmp_ber::{Oid, oid_len, put_oid};
use snmp_community::{CommunityFront, Version, write_community_bindings};
use snmp_message::RefusedAt;
use snmp_msg::{PduType, Spelled};
use snmp_walk::{Column, Dialogue, ReadOperation};
use std::alloc::{AllocError, Global};

/// The tag of NULL, which is unSpecified: a request for a variable has no value (RFC 3416, section 3).
pub const UNSPECIFIED: u8 = 0x05;

/// The name of a variable for which a device is asked: a binding without a value.
#[derive(Clone, Copy)]
pub(crate) struct AskedName<'a> {
    pub(crate) name: &'a Oid,
}

impl<'a> Spelled for AskedName<'a> {
    ghost says = { asked_binding };

    ghost fits = { λ asked. IsObjectId (asked_name asked) };

    fn tag(&self) -> u8 {
        UNSPECIFIED
    }

    fn content(&self) -> &[u8] {
        b""
    }

    fn name_len(&self) -> usize {
        let _arcs = self.name.as_slice();
        oid_len(self.name)
    }

    fn put_name(&self, out: &mut Vec<u8>) -> Result<(), AllocError> {
        put_oid(out, self.name)
    }
}

/// Returns the names for which the device is asked by these columns, in their order.
fn names_of<'a>(alloc: Global, columns: &'a [Column]) -> Result<Vec<AskedName<'a>>, AllocError>
    requires { All (λ c. IsNamed c.progress) columns.now }
    ensures says { IfOk result (λ v. map asked_binding v.items ≡ variables_asked columns.now) }
    ensures fit { IfOk result (λ v. All (λ asked. IsObjectId (asked_name asked)) v.items) }
{
    let mut names = Vec::new(alloc);
    for column in columns {
        let Some(name) = column.asked_name() else {
            continue;
        };
        names.push(AskedName { name })?;
    }
    Ok(names)
}

/// Returns the datagram that asks a device for these names.
pub(crate) fn write_names(
    alloc: Global,
    community: &[u8],
    pdu_type: PduType,
    id: u32,
    second: i32,
    third: i32,
    names: &[AskedName<'_>],
) -> Result<Vec<u8>, RefusedAt>
    requires id { id < REQUEST_IDS }
    requires fit { All (λ asked. IsObjectId (asked_name asked)) names.now }
    ensures ask { IfOk result (λ v. IsRequest v.items community.now pdu_type id second third
        (map asked_binding names.now)) }
    ensures text { IfOk result (λ v. v.items ≡ request_text community.now pdu_type id second third
        (map asked_binding names.now)) }
    ensures size { IfOk result (λ v. length v.items ≤ LARGEST) }
    ensures too_large { IsRefused result TooLarge
        → LARGEST < length (request_text community.now pdu_type id second third (map asked_binding names.now)) }
    ensures refusal { IfErr result (λ e. IsWriteRefusal e.refusal) }
{
    let front = CommunityFront {
        version: Version::Version2c,
        community,
        tag: pdu_type.tag(),
        id: id as i32,
        second,
        third,
    };
    write_community_bindings(alloc, &front, names)
}

/// Returns the datagram that asks a device for the names that the columns of a dialogue ask (RFC 3416, sections 4.2.1
/// and 4.2.2): a GetRequest-PDU or a GetNextRequest-PDU with this request-id, and a binding without a value for each of
/// these names, in their order, in a message of SNMPv2c with this community.
///
/// The error TooLarge (16) comes only if the datagram would be longer than 65,507 octets, and then that or the other
/// error, OutOfMemory, comes.
pub fn write_read_ask(
    alloc: Global,
    community: &[u8],
    id: u32,
    operation: ReadOperation,
    dialogue: &Dialogue,
) -> Result<Vec<u8>, RefusedAt>
    requires id { id < REQUEST_IDS }
    requires named { AllNamed dialogue.now }
    ensures ask { IfOk result (λ v. IsAsk v.items community.now (read_type operation) id
        (asked_variables dialogue.now)) }
    ensures text { IfOk result (λ v. v.items ≡ ask_text community.now (read_type operation) id
        (asked_variables dialogue.now)) }
    ensures size { IfOk result (λ v. length v.items ≤ LARGEST) }
    ensures too_large { IsRefused result TooLarge
        → LARGEST < length (ask_text community.now (read_type operation) id (asked_variables dialogue.now)) }
    ensures refusal { IfErr result (λ e. IsWriteRefusal e.refusal) }
{
    let names = names_of(alloc, dialogue.columns())?;
    write_names(alloc, community, operation.pdu_type(), id, 0, 0, &names)
}
