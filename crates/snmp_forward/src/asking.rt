//! What the receiver of an Inform is sent for it.

ghost use Rattle.std.specs.Prelude.{◌≡◌, ◌≤◌, IfOk, length};
ghost use Rattle.snmp_ber.specs.declared.number.TheConstants.{MAX_INTEGER32};
ghost use Rattle.snmp_forward.specs.Informs.{IsAskedOf, IsDiscoveryWritten, IsInformFor, IsInformOf};
ghost use Rattle.snmp_forward.specs.Informs.{IsInformWritten, IsTimeRequestWritten};

use crate::forwarder::has_community;
use crate::inform::Inform;
use crate::laws::one_notification;
use crate::notification::read_device_notification;
use crate::receivers::{Receiver, Receivers, USER_NAME_LIMIT};
use crate::sealing::Sealing;
use crate::trap::front_of;
use engine_clock::EngineId;
use snmp_gate::{Devices, bindings_of};
use snmp_manager::{Manager, Pending, Target};
use snmp_msg::{PduType, Refusal, RefusedAt, one_pdu};
use std::alloc::{AllocError, Global};
use vacm_core::Vacm;

impl Inform {
    /// Returns the Inform by which the receiver with this number is notified of what a device sent, in its context.
    /// The error is out of memory.
    pub(crate) fn new(
        alloc: Global,
        receiver: usize,
        to: &Receiver,
        context: &[u8],
        datagram: &[u8],
    ) -> Result<Inform, AllocError>
        requires user { length to.now.user.items ≤ USER_NAME_LIMIT }
        ensures { IfOk result (IsInformOf receiver to.now context.now datagram.now) }
    {
        Ok(Inform {
            receiver,
            user: Vec::from_slice(alloc, &to.user)?,
            level: to.level,
            context: Vec::from_slice(alloc, context)?,
            datagram: Vec::from_slice(alloc, datagram)?,
        })
    }
}

impl Receivers {
    /// Returns the Inform by which the receiver with this number is notified of a datagram that came from the device
    /// with that number, each counted from 0. None: it isn't a notification with the device's community, or the
    /// receiver may not be notified of all of it in the device's context (RFC 3413, section 3.3, steps 3 and 4). The
    /// error is out of memory.
    pub fn inform(
        &self,
        alloc: Global,
        tables: &Vacm,
        devices: &Devices,
        device: usize,
        receiver: usize,
        datagram: &[u8],
    ) -> Result<Option<Inform>, AllocError>
        ensures { IfOk result (IsInformFor tables.now devices.now.list.items self.now.list.items device datagram.now
            receiver) }
    {
        one_notification();
        let Ok(notification) = read_device_notification(datagram) else {
            return Ok(None);
        };
        let Some(from) = devices.list().get(device) else {
            return Ok(None);
        };
        let Some(to) = self.list().get(receiver) else {
            return Ok(None);
        };
        if !has_community(from, notification.community) {
            return Ok(None);
        }
        if !to.may_be_notified(tables, &from.context, &notification) {
            return Ok(None);
        }
        let inform = Inform::new(alloc, receiver, to, &from.context, datagram)?;
        Ok(Some(inform))
    }
}

/// What becomes of a message for a receiver.
#[derive(Drop)]
pub(crate) enum AskedWith {
    /// This datagram goes to the receiver, and this is remembered of it.
    Sends { datagram: Vec<u8>, pending: Pending },
    /// No datagram can be sealed for the receiver's user.
    Refused(Refusal),
}

/// Returns what becomes of a message, by what a manager wrote. The error is out of memory.
fn asked_with(sent: Result<(Vec<u8>, Pending), RefusedAt>) -> Result<AskedWith, AllocError>
    ensures { IfOk result (IsAskedOf sent) }
{
    match sent {
        Ok((datagram, pending)) => Ok(AskedWith::Sends { datagram, pending }),
        Err(refused) if refused.is_memory() => Err(AllocError),
        Err(refused) => Ok(AskedWith::Refused(refused.refusal)),
    }
}

/// Writes the discovery of a receiver's engine (RFC 3414, section 4). The error is out of memory.
pub(crate) fn write_discovery(manager: &Manager, by: &Sealing) -> Result<AskedWith, AllocError>
    requires id { by.now.id ≤ MAX_INTEGER32 }
    ensures { IfOk result (IsDiscoveryWritten manager.now by.now) }
{
    let (datagram, pending) = manager.discover(by.id)?;
    Ok(AskedWith::Sends { datagram, pending })
}

/// Writes the request by which an engine's boots and time are learned (RFC 3414, section 4). The error is out of
/// memory. The manager stays as it is.
pub(crate) fn write_time_request(
    manager: &mut Manager,
    engine: &EngineId,
    inform: &Inform,
    by: &Sealing,
) -> Result<AskedWith, AllocError>
    requires id { by.now.id ≤ MAX_INTEGER32 }
    ensures written { IfOk result (IsTimeRequestWritten manager.old engine.now inform.now by.now) }
    ensures same { manager.new ≡ manager.old }
{
    asked_with(manager.request_time(by.id, engine, &inform.user))
}

/// Writes the InformRequest (RFC 3416, section 4.2.7): with the request-id and the bindings of the device's, in the
/// device's context of this engine, to the receiver's engine. The error is out of memory. The manager stays as it is.
pub(crate) fn write_inform(
    alloc: Global,
    manager: &mut Manager,
    own: &EngineId,
    engine: &EngineId,
    inform: &Inform,
    by: &Sealing,
) -> Result<AskedWith, AllocError>
    requires id { by.now.id ≤ MAX_INTEGER32 }
    ensures written { IfOk result (IsInformWritten manager.old own.now engine.now inform.now by.now) }
    ensures same { manager.new ≡ manager.old }
{
    one_pdu();
    let notification = match read_device_notification(&inform.datagram) {
        Ok(notification) => notification,
        // only a notification waits
        Err(_) => return Ok(AskedWith::Refused(Refusal::NotMessage)),
    };
    let bindings = bindings_of(alloc, &notification.pdu)?;
    let front = front_of(
        own,
        &inform.context,
        PduType::InformRequest,
        &notification.pdu,
    );
    let target = Target {
        engine,
        user: &inform.user,
        level: inform.level,
    };
    asked_with(manager.request_of(by.seconds, by.id, &target, &front, &bindings, by.salt))
}
