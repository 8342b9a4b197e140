//! What a device is asked for a GetBulkRequest.

ghost use Rattle.std.specs.Prelude.{◌≡◌, ◌<◌, ◌≤◌, All, length, map, min, pos, IfErr, IfOk};
ghost use Rattle.snmp_ber.specs.Oid.{IsObjectId};
ghost use Rattle.snmp_ber.specs.declared.number.TheConstants.{MAX_INTEGER32};
ghost use Rattle.snmp_message.specs.Refusals.{IsRefused, IsWriteRefusal};
ghost use Rattle.snmp_message.specs.declared.message.TheConstants.{LARGEST};
ghost use Rattle.snmp_message.specs.declared.refusal.Refusal.TheVariants.{TooLarge};
ghost use Rattle.snmp_walk.specs.ObjectIds.{BulkAllNamed, IsNamed};
ghost use Rattle.snmp_gate.specs.DeviceMessages.{IsRequest, request_text};
ghost use Rattle.snmp_gate.specs.ReadAsks.{asked_binding, asked_name, bulk_asked_variables, bulk_type};
ghost use Rattle.snmp_gate.specs.ReadAsks.{bulk_variables_asked, max_repetitions_in, non_repeaters_in};

use crate::asks::REQUEST_IDS;
use crate::read_ask::{AskedName, write_names};
use snmp_message::RefusedAt;
use snmp_msg::PduType;
use snmp_walk::{BulkAsk, BulkColumn, BulkDialogue};
use std::alloc::{AllocError, Global};

/// Returns the names for which the device is asked by these columns, in their order.
fn names_of<'a>(alloc: Global, columns: &'a [BulkColumn]) -> Result<Vec<AskedName<'a>>, AllocError>
    requires { All (λ c. IsNamed c.progress) columns.now }
    ensures says { IfOk result (λ v. map asked_binding v.items ≡ bulk_variables_asked columns.now) }
    ensures fit { IfOk result (λ v. All (λ asked. IsObjectId (asked_name asked)) v.items) }
{
    let mut names = Vec::new(alloc);
    for column in columns {
        let Some(name) = column.asked_name() else {
            continue;
        };
        names.push(AskedName { name })?;
    }
    Ok(names)
}

/// Returns the type of PDU that asks so.
fn type_of(ask: BulkAsk) -> PduType
    ensures { result ≡ bulk_type ask }
{
    match ask {
        BulkAsk::GetNext => PduType::GetNextRequest,
        BulkAsk::GetBulk(_, _) => PduType::GetBulkRequest,
    }
}

/// Returns the number as it can stand in a PDU: at most 2147483647.
fn number_of(count: usize) -> i32
    ensures { result ≡ pos (min count MAX_INTEGER32) }
{
    let Ok(number) = i32::try_from(count) else {
        return i32::MAX;
    };
    number
}

/// Returns non-repeaters and max-repetitions of a GetBulkRequest-PDU, or error-status and error-index of a
/// GetNextRequest-PDU.
fn numbers_of(ask: BulkAsk) -> (i32, i32)
    ensures second { result.0 ≡ pos (non_repeaters_in ask) }
    ensures third { result.1 ≡ pos (max_repetitions_in ask) }
{
    match ask {
        BulkAsk::GetNext => (0, 0),
        BulkAsk::GetBulk(singles, repetitions) => (number_of(singles), number_of(repetitions)),
    }
}

/// Returns the datagram that asks a device for the names that the columns of a dialogue ask (RFC 3416, sections 4.2.2
/// and 4.2.3): a GetNextRequest-PDU or a GetBulkRequest-PDU with this request-id, and a binding without a value for
/// each of these names, in their order, in a message of SNMPv2c with this community. non-repeaters and max-repetitions
/// are those of `ask`, or 2147483647 if that is less.
///
/// The error TooLarge (16) comes only if the datagram would be longer than 65,507 octets, and then that or the other
/// error, OutOfMemory, comes.
pub fn write_bulk_ask(
    alloc: Global,
    community: &[u8],
    id: u32,
    ask: BulkAsk,
    dialogue: &BulkDialogue,
) -> Result<Vec<u8>, RefusedAt>
    requires id { id < REQUEST_IDS }
    requires named { BulkAllNamed dialogue.now }
    ensures ask { IfOk result (λ v. IsRequest v.items community.now (bulk_type ask) id (pos (non_repeaters_in ask))
        (pos (max_repetitions_in ask)) (bulk_asked_variables dialogue.now)) }
    ensures text { IfOk result (λ v. v.items ≡ request_text community.now (bulk_type ask) id
        (pos (non_repeaters_in ask)) (pos (max_repetitions_in ask)) (bulk_asked_variables dialogue.now)) }
    ensures size { IfOk result (λ v. length v.items ≤ LARGEST) }
    ensures too_large { IsRefused result TooLarge
        → LARGEST < length (request_text community.now (bulk_type ask) id (pos (non_repeaters_in ask))
        (pos (max_repetitions_in ask)) (bulk_asked_variables dialogue.now)) }
    ensures refusal { IfErr result (λ e. IsWriteRefusal e.refusal) }
{
    let names = names_of(alloc, dialogue.columns())?;
    let (second, third) = numbers_of(ask);
    write_names(alloc, community, type_of(ask), id, second, third, &names)
}
