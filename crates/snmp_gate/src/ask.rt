//! By what datagram a device is asked for a request.

ghost use Rattle.std.specs.Prelude.{◌≡◌, ◌<◌, ◌≤◌, ℕ, List, Some, length, IfOk, IfSome};
ghost use Rattle.vacm_core.specs.Tables.{Tables};
ghost use Rattle.snmp_msg.specs.Variables.{variables_of};
ghost use Rattle.snmp_walk.specs.ObjectIds.{AllNamed, BulkAllNamed};
ghost use Rattle.snmp_gate.specs.Question.{Question};
ghost use Rattle.snmp_gate.specs.Messages.{question_in};
ghost use Rattle.snmp_gate.specs.History.{IsAskFor, MayAskFor};
ghost use Rattle.snmp_gate.specs.ReadAsks.{bulk_request_by, plain_request, read_request};
ghost use Rattle.snmp_msg.specs.declared.pdu_type.PduType.TheVariants.{SetRequest};
ghost use Rattle.snmp_gate.specs.Work.{BulkStandsFor, ReadStands, SetStands, TaskStands, request_of_task};
ghost use Rattle.snmp_gate.specs.Said.{Said};

use crate::asks::REQUEST_IDS;
use crate::bulk_request::write_bulk_ask;
use crate::devices::Device;
use crate::named_task::NamedTask;
use crate::read_ask::write_read_ask;
use crate::set_ask::write_set_ask;
use crate::task::Task;
use crate::viewing::pdu_of;
use crate::waiting_message::WaitingMessage;
use snmp_message::RefusedAt;
use snmp_walk::{BulkAsk, BulkDialogue, Dialogue, ReadOperation, one_bulk_dialogue, one_dialogue};
use std::alloc::{AllocError, Global};

/// Returns the datagram that asks a device for a Set, if the device has a community for it.
fn set_ask(
    alloc: Global,
    device: &Device,
    message: &WaitingMessage,
    id: u32,
) -> Result<Option<Vec<u8>>, RefusedAt>
    requires { id < REQUEST_IDS }
    ensures { IfOk result (λ asked. IfSome asked (λ v. (tables : Tables) (q : Question) (told : Said)
        → question_in message.now ≡ Some q → SetStands tables q
        → MayAskFor tables device.now q told id (plain_request SetRequest (variables_of q.list)) v.items)) }
{
    let Some(community) = &device.write_community else {
        return Ok(None);
    };
    let taken = message.kept.taken();
    let datagram = write_set_ask(alloc, community, id, &pdu_of(&taken))?;
    Ok(Some(datagram))
}

/// Returns the datagram that asks a device for a GetRequest or a GetNextRequest.
fn read_ask(
    alloc: Global,
    device: &Device,
    operation: ReadOperation,
    dialogue: &Dialogue,
    id: u32,
) -> Result<Vec<u8>, RefusedAt>
    requires id { id < REQUEST_IDS }
    requires named { AllNamed dialogue.now }
    ensures { IfOk result (λ v. (tables : Tables) (q : Question) (told : Said)
        → ReadStands tables q told operation dialogue.now
        → MayAskFor tables device.now q told id (read_request operation dialogue.now) v.items) }
{
    one_dialogue();
    let datagram = write_read_ask(alloc, &device.community, id, operation, dialogue)?;
    Ok(datagram)
}

/// Returns the datagram that asks a device for a GetBulkRequest.
fn bulk_ask(
    alloc: Global,
    device: &Device,
    by: BulkAsk,
    dialogue: &BulkDialogue,
    id: u32,
) -> Result<Vec<u8>, RefusedAt>
    requires id { id < REQUEST_IDS }
    requires named { BulkAllNamed dialogue.now }
    ensures { IfOk result (λ v. (tables : Tables) (q : Question) (told : Said)
        → BulkStandsFor tables q told dialogue.now
        → MayAskFor tables device.now q told id (bulk_request_by by dialogue.now) v.items) }
{
    one_bulk_dialogue();
    let datagram = write_bulk_ask(alloc, &device.community, id, by, dialogue)?;
    Ok(datagram)
}

/// Returns the datagram that asks a device for a request, if it can be asked.
fn datagram_of(
    alloc: Global,
    device: &Device,
    named: &NamedTask,
    message: &WaitingMessage,
    id: u32,
) -> Result<Option<Vec<u8>>, RefusedAt>
    requires { id < REQUEST_IDS }
    ensures { IfOk result (λ asked. IfSome asked (λ v. (tables : Tables) (q : Question) (told : Said)
        → question_in message.now ≡ Some q → TaskStands tables q told named.now.task
        → MayAskFor tables device.now q told id (request_of_task q named.now.task) v.items)) }
{
    match &named.task {
        Task::Read(operation, dialogue) => {
            let datagram = read_ask(alloc, device, *operation, dialogue, id)?;
            Ok(Some(datagram))
        }
        Task::Bulk(by, dialogue) => {
            let datagram = bulk_ask(alloc, device, *by, dialogue, id)?;
            Ok(Some(datagram))
        }
        Task::Set => set_ask(alloc, device, message, id),
    }
}

/// Returns the datagram that asks a device for a request, with this request-id. None: the device has no community for a
/// Set, or the datagram would be longer than it takes. The error is out of memory.
pub(crate) fn ask_of(
    alloc: Global,
    device: &Device,
    named: &NamedTask,
    message: &WaitingMessage,
    id: u32,
) -> Result<Option<Vec<u8>>, AllocError>
    requires { id < REQUEST_IDS }
    ensures { IfOk result (λ asked. IfSome asked (λ v. (tables : Tables) (q : Question) (told : Said)
        → question_in message.now ≡ Some q → TaskStands tables q told named.now.task
        → IsAskFor tables device.now q told id (request_of_task q named.now.task) v.items)) }
{
    match datagram_of(alloc, device, named, message, id) {
        Ok(Some(datagram)) => {
            if datagram.len() > device.max_size {
                return Ok(None);
            }
            Ok(Some(datagram))
        }
        Ok(None) => Ok(None),
        Err(refused) => {
            if refused.is_memory() {
                return Err(AllocError);
            }
            Ok(None)
        }
    }
}
