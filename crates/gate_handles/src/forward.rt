//! A forwarder of notifications, by Traps and by Informs, with what its configuration says, and what came of the last
//! call.

ghost use Rattle.std.specs.Prelude.{◌≡◌, IfOk, Ok, [], map};
ghost use Rattle.std.specs.Int.{to_be_bytes, w64};
ghost use Rattle.snmp_forward.specs.Originating.{IsOriginatorDue};
ghost use Rattle.snmp_forward.specs.Receivers.{IsShort};
ghost use Rattle.snmp_handles.specs.Parts.{CopiesMessage};
ghost use Rattle.snmpsec_gate_config.specs.Rows.{HaveOwnContexts};
ghost use Rattle.gate_handles.specs.Forwards.{AreNewInforms, EmptiesForwarder, IsNewForwarder, IsNewOriginator};
ghost use Rattle.gate_handles.specs.Forwards.{MakesForwarder, SendsOn, TakesReceiver, TakesTrap};
ghost use Rattle.gate_handles.specs.Forwards.{TellsReceiver, TellsTrap, begun};
ghost use Rattle.gate_handles.specs.Forwards.{forward_info_of, notify_type_said};
ghost use Rattle.gate_handles.specs.Forwards.{receiver_parts, receiver_said};

use crate::forward_event::ForwardEvent;
use crate::forward_notes::{ForwardInfo, message_number};
use crate::gate_parts::{config_of, empty_agent, empty_users};
use crate::handle::NO_MEMORY;
use crate::making::{INFORMS_LIMIT, devices_of};
use engine_clock::{Clocks, EngineId};
use snmp_agent::Agent;
use snmp_ber::MAX_INTEGER32;
use snmp_forward::{
    Forwarder, InformLimits, Informs, NotifyType, Originated, Originator, Receiver, ReceiverTaken,
    Receivers, TrapTaken, WAITING_LIMIT,
};
use snmp_gate::Devices;
use snmp_handles::{CallFault, copied_message};
use snmp_manager::Manager;
use snmp_requests::SentMessage;
use snmpsec_gate_config::{DeviceSettings, GateConfig, ReceiverKind, ReceiverSettings};
use std::alloc::{AllocError, Global};
use std::marker::Model;
use usm_core::Users;

/// A forwarder of notifications, and what came of the last call.
#[derive(Drop)]
pub struct ForwardHandle {
    pub(crate) alloc: Global,
    pub(crate) originator: Originator,
    pub(crate) number: u64,
    pub(crate) receiver: usize,
    pub(crate) inform: u64,
    /// What was sent for the Inform, if the last call sent something.
    pub(crate) sent: Option<SentMessage>,
    /// The counter that the receiver's engine reported, 1 to 9, or 0.
    pub(crate) counter: u8,
    pub(crate) message: Option<Vec<u8>>,
}

impl Model for ForwardHandle {
    ghost use Rattle.std.specs.Prelude.{option_map};
    ghost use Rattle.std.specs.Coded.{codes};
    ghost use Rattle.snmp_forward.specs.contracts.originator.Originator as originators;
    ghost use Rattle.gate_handles.specs.Forwards.{ForwardHeld};

    ghost Value = { ForwardHeld };

    ghost coded = { Prim.hlevel (codes, originators.the_row.coded) };

    ghost view = { λ h. record {
      originator = h.originator;
      noted = record {
        number = h.number;
        receiver = h.receiver;
        inform = h.inform;
        sent = h.sent;
        counter = h.counter;
        message = option_map (λ v. v.items) h.message;
      };
    } };
}

/// Returns how a receiver is notified.
fn notify_type_of(kind: ReceiverKind) -> NotifyType
    ensures { result ≡ notify_type_said kind }
{
    match kind {
        ReceiverKind::Trap => NotifyType::Trap,
        ReceiverKind::Inform => NotifyType::Inform,
    }
}

/// Returns a receiver as the configuration says.
fn receiver_of(alloc: Global, said: &ReceiverSettings) -> Result<Receiver, AllocError>
    ensures said { IfOk result (λ receiver. receiver_parts receiver ≡ receiver_said said.now) }
    ensures short { IfOk result IsShort }
{
    let user = Vec::from_slice(alloc, said.user.as_slice())?;
    Ok(Receiver {
        user,
        level: said.level,
        notify_type: notify_type_of(said.kind),
    })
}

/// Returns the receivers that the configuration says, in its order.
fn receivers_of(alloc: Global, said: &[ReceiverSettings]) -> Result<Receivers, AllocError>
    ensures { IfOk result (λ receivers. map receiver_parts receivers.list.items ≡ map receiver_said said.now) }
{
    let mut list = Vec::new(alloc);
    for receiver in said {
        let receiver = receiver_of(alloc, receiver)?;
        list.push(receiver)?;
    }
    let Ok(receivers) = Receivers::new(list) else {
        unreachable!();
    };
    Ok(receivers)
}

/// Returns a forwarder with this agent, whose engine ID is given, of notifications of devices to receivers that a
/// configuration says.
fn forwarder_of(
    alloc: Global,
    agent: Agent,
    engine: EngineId,
    devices: &[DeviceSettings],
    receivers: &[ReceiverSettings],
) -> Result<Forwarder, AllocError>
    requires contexts { HaveOwnContexts devices.now }
    requires engine { engine ≡ agent.engine }
    ensures made { IfOk result (IsNewForwarder agent devices.now receivers.now) }
    ensures none_wait { IfOk result (λ forwarder. forwarder.waiting.list.items ≡ []) }
{
    let list = devices_of(alloc, devices)?;
    let Ok(devices) = Devices::new(list) else {
        unreachable!();
    };
    let receivers = receivers_of(alloc, receivers)?;
    Ok(Forwarder::new(alloc, agent, engine, devices, receivers, WAITING_LIMIT))
}

/// Returns that no Inform waits to be sent from this engine, with these users. No clock of a receiver's engine is held.
fn informs_of(alloc: Global, engine: EngineId, users: Users) -> Informs
    ensures { AreNewInforms engine users.users result }
{
    let manager = Manager::new(alloc, users, Clocks::new(alloc));
    Informs::new(
        alloc,
        engine,
        manager,
        INFORMS_LIMIT,
        InformLimits::default(),
    )
}

/// Returns a forwarder with this agent, whose engine ID and whose users are given, of notifications of devices to
/// receivers that a configuration says, by Traps and by Informs.
fn originator_of(
    alloc: Global,
    agent: Agent,
    engine: EngineId,
    users: Users,
    devices: &[DeviceSettings],
    receivers: &[ReceiverSettings],
) -> Result<Originator, AllocError>
    requires contexts { HaveOwnContexts devices.now }
    requires engine { engine ≡ agent.engine }
    ensures { IfOk result (IsNewOriginator agent users.users devices.now receivers.now) }
{
    let own = engine.copy();
    let forwarder = forwarder_of(alloc, agent, engine, devices, receivers)?;
    Ok(Originator::new(forwarder, informs_of(alloc, own, users)))
}

impl ForwardHandle {
    /// Returns a forwarder of this configuration, in TOML, with these boots, whose agent started at the moment
    /// `started`, in seconds. No datagram has reached it. Its users have keys of their own, so it takes as long as to
    /// make a gateway.
    ///
    /// The errors are BadArgument, if boots are above 2147483647; then BadConfiguration, or out of memory.
    pub fn of(
        alloc: Global,
        config: &[u8],
        boots: u32,
        started: u64,
    ) -> Result<ForwardHandle, CallFault>
        ensures { MakesForwarder config.now boots started result }
    {
        if boots > MAX_INTEGER32 {
            return Err(CallFault::BadArgument);
        }
        let said = config_of(alloc, config)?;
        let GateConfig {
            gate: settings,
            devices,
            receivers,
            users,
            access: tables,
        } = said;
        let engine = settings.engine;
        let Ok(own) = users.try_clone() else {
            return Err(NO_MEMORY);
        };
        let agent = Agent::new(alloc, engine.copy(), boots, started, users, tables);
        let Ok(originator) = originator_of(alloc, agent, engine, own, &devices, &receivers) else {
            return Err(NO_MEMORY);
        };
        Ok(ForwardHandle {
            alloc,
            originator,
            number: 0,
            receiver: 0,
            inform: 0,
            sent: None,
            counter: 0,
            message: None,
        })
    }

    /// Gives back the memory of all that is held: users, tables, devices, receivers, and what waits. The error is out
    /// of memory, and changes nothing.
    pub fn clear(&mut self) -> Result<(), CallFault>
        ensures { EmptiesForwarder self.old result self.new }
    {
        let agent = empty_agent(self.alloc)?;
        let users = empty_users(self.alloc)?;
        let Some(engine) = EngineId::of(&[0; 5]) else {
            unreachable!();
        };
        let devices = Vec::new(self.alloc);
        let receivers = Vec::new(self.alloc);
        let Ok(originator) = originator_of(self.alloc, agent, engine, users, &devices, &receivers)
        else {
            return Err(NO_MEMORY);
        };
        self.originator = originator;
        self.begin_call();
        Ok(())
    }

    /// Nothing has come of the call that begins, and nothing is to be sent.
    fn begin_call(&mut self)
        ensures originator { self.new.originator ≡ self.old.originator }
        ensures noted { self.new.noted ≡ begun self.old.noted }
    {
        self.sent = None;
        self.counter = 0;
        self.message = None;
    }

    /// Takes a datagram from the device of this number, counted from 0, as `Originator::take_trap` does. Nothing is to
    /// be sent. The error is out of memory: then the datagram isn't taken, and may be taken again.
    pub fn take_trap(&mut self, device: usize, datagram: &[u8]) -> Result<ForwardEvent, CallFault>
        ensures { TakesTrap self.old device datagram.now result self.new }
    {
        self.begin_call();
        match self.originator.take_trap(device, datagram) {
            Ok(taken) => Ok(self.took_trap(taken)),
            Err(_) => Err(NO_MEMORY),
        }
    }

    /// Returns what is reported of what became of a device's datagram.
    fn took_trap(&mut self, taken: TrapTaken) -> ForwardEvent
        ensures tells { TellsTrap taken (Ok result) self.old.noted self.new.noted }
        ensures originator { self.new.originator ≡ self.old.originator }
    {
        match taken {
            TrapTaken::NotNotification(why) => ForwardEvent::NotNotification(why),
            TrapTaken::OtherCommunity => ForwardEvent::OtherCommunity,
            TrapTaken::ForNobody => ForwardEvent::ForNobody,
            TrapTaken::NoRoom => ForwardEvent::NoRoom,
            TrapTaken::Waits(number) => {
                self.number = number;
                ForwardEvent::Waits
            }
        }
    }

    /// Takes a datagram from the receiver of this number, counted from 0, at this moment, in milliseconds, as
    /// `Originator::take_receiver` does. Nothing is to be sent.
    ///
    /// The errors are the refusals of `Manager::take`, and out of memory: then the datagram isn't taken, and may be
    /// taken again.
    pub fn take_receiver(
        &mut self,
        now: u64,
        receiver: usize,
        datagram: &[u8],
    ) -> Result<ForwardEvent, CallFault>
        ensures { TakesReceiver self.old now receiver datagram.now result self.new }
    {
        self.begin_call();
        match self.originator.take_receiver(now, receiver, datagram) {
            Ok(taken) => self.took_receiver(taken),
            Err(_) => Err(NO_MEMORY),
        }
    }

    /// Returns what is reported of what became of a receiver's datagram.
    fn took_receiver(&mut self, taken: ReceiverTaken) -> Result<ForwardEvent, CallFault>
        ensures tells { TellsReceiver taken result self.old.noted self.new.noted }
        ensures originator { self.new.originator ≡ self.old.originator }
    {
        match taken {
            ReceiverTaken::Refused(why) => Err(CallFault::Refused(why)),
            ReceiverTaken::NoAnswer => Ok(ForwardEvent::NoAnswer),
            ReceiverTaken::Heard(inform) => {
                self.inform = inform;
                Ok(ForwardEvent::Heard)
            }
            ReceiverTaken::Acknowledged(inform) => {
                self.inform = inform;
                Ok(ForwardEvent::Acknowledged)
            }
            ReceiverTaken::Denied { number, counter } => {
                self.inform = number;
                self.counter = counter;
                Ok(ForwardEvent::Denied)
            }
        }
    }

    /// Does the first thing that is to be done at this moment, in milliseconds, as `Originator::next` does, and leaves
    /// the datagram to be sent, if there is one. The error is out of memory: then the call may be made again.
    pub fn next(&mut self, now: u64, salt: u64, ask_id: u32) -> Result<ForwardEvent, CallFault>
        ensures { SendsOn self.old now (to_be_bytes w64 salt) ask_id result self.new }
    {
        self.begin_call();
        match self.originator.next(now, salt.to_be_bytes(), ask_id) {
            Ok(what) => Ok(self.note_sent(what)),
            Err(_) => Err(NO_MEMORY),
        }
    }

    /// Returns the moment, in milliseconds, from which on `next` has something to do by time alone: 0 if a notification
    /// waits to be sent.
    pub fn due(&self) -> Option<u64>
        ensures { IsOriginatorDue self.now.originator result }
    {
        self.originator.due()
    }

    /// Copies what is to be sent to the front of the buffer, and tells how many octets it has. The errors are
    /// NothingTaken, if nothing is to be sent, and ShortBuffer.
    pub fn message(&self, out: &mut [u8], written: &mut usize) -> Result<(), CallFault>
        ensures { CopiesMessage self.now.noted.message out.old out.new written.old written.new result }
    {
        copied_message(&self.message, out, written)
    }

    /// Returns what the last call was about.
    pub fn info(&self) -> ForwardInfo
        ensures { result ≡ forward_info_of self.now }
    {
        ForwardInfo {
            notification: self.number,
            inform: self.inform,
            receiver: self.receiver,
            waiting: self.originator.waiting(),
            informs: self.originator.informs(),
            message: message_number(self.sent),
            counter: u32::from(self.counter),
        }
    }
}
