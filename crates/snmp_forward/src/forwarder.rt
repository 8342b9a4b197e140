//! The forwarder: what comes from devices, and what goes to receivers.

ghost use Rattle.std.specs.Prelude.{◌≡◌, ◌≢◌, ◌↔◌, ◌<◌, ℕ, List, [], IfOk, IsTrue, MatchOption, OnErr, length};
ghost use Rattle.snmp_forward.specs.Sending.{MayBeSent};
ghost use Rattle.snmp_forward.specs.Written.{IsFirstInform, IsWritten, told_as};
ghost use Rattle.snmp_forward.specs.History.{Happening};
ghost use Rattle.snmp_forward.specs.Choosing.{IsChosen};
ghost use Rattle.snmp_forward.specs.Standing.{ForwarderStands, IsAsBefore, IsTrapTaken, SendHappens, Stays};
ghost use Rattle.snmp_forward.specs.Standing.{TrapHappens, sealing_at};

use crate::inform::Inform;
use crate::laws::one_notification;
use crate::notification::{NotNotification, read_device_notification};
use crate::queue::{WaitingNotification, WaitingNotifications};
use crate::receivers::{NotifyType, Receivers};
use crate::sealing::Sealing;
use crate::trap::{Written, write_trap};
use engine_clock::EngineId;
use snmp_agent::Agent;
use snmp_gate::{Device, Devices, REQUEST_IDS};
use snmp_msg::Refusal;
use std::alloc::{AllocError, Global};

/// What becomes of a datagram of a device.
#[derive(Clone, Copy, Debug, PartialEq, Eq)]
pub enum TrapTaken {
    /// It isn't a notification.
    NotNotification(NotNotification),
    /// There is no device of this number, or it has another community.
    OtherCommunity,
    /// None of the receivers may be notified of it.
    ForNobody,
    /// As many notifications wait as may: this one isn't sent.
    NoRoom,
    /// It waits to be sent, and has this number.
    Waits(u64),
}

/// What goes out.
#[derive(Drop)]
pub enum Forwarded {
    /// A datagram to a receiver: the notification with this number.
    ToReceiver {
        /// The number of the notification.
        number: u64,
        /// The number of the receiver, counted from 0.
        receiver: usize,
        datagram: Vec<u8>,
    },
    /// The notification with this number is to be sent to its receiver as this Inform (`inform.receiver`).
    AsInform {
        /// The number of the notification.
        number: u64,
        inform: Inform,
    },
    /// The notification with this number isn't sent to a receiver.
    Unsent {
        /// The number of the notification.
        number: u64,
        /// The number of the receiver, counted from 0.
        receiver: usize,
        /// The reason is one of the receiver's user, of the clock, or of the datagram's length.
        why: Refusal,
    },
    /// There is nothing to do now.
    Nothing,
}

/// To whom a datagram of a device is to be sent.
#[derive(Drop)]
pub(crate) enum Chosen {
    /// It isn't a notification.
    NotNotification(NotNotification),
    /// There is no device of this number, or it has another community.
    OtherCommunity,
    /// To the receivers with these numbers.
    Receivers(Vec<usize>),
}

/// Returns true if the device has this community.
pub(crate) fn has_community(device: &Device, community: &[u8]) -> bool
    ensures { IsTrue result ↔ (device.now.community.items ≡ community.now) }
{
    device.community.as_slice() == community
}

/// Returns what becomes of a notification for the receiver to which it is to be sent next. The error is out of memory.
/// The agent stays as it is.
fn write_first(
    alloc: Global,
    agent: &mut Agent,
    engine: &EngineId,
    devices: &[Device],
    receivers: &Receivers,
    first: &WaitingNotification,
    by: &Sealing,
) -> Result<Written, AllocError>
    requires { by.now.id < REQUEST_IDS }
    ensures written { IfOk result (λ written. engine.now ≡ agent.old.engine
        → (may : MayBeSent agent.old.tables devices.now receivers.now.list.items first.now.device
        first.now.datagram.items first.now.receiver)
        → IsWritten agent.old by.now may.to may.from.context.items may.pdu written) }
    ensures same { agent.new ≡ agent.old }
{
    one_notification();
    // what waits was read, and goes from a device to a receiver that there are
    let Some(from) = devices.get(first.device) else {
        return Ok(Written::Refused(Refusal::NotMessage));
    };
    let Some(to) = receivers.list().get(first.receiver) else {
        return Ok(Written::Refused(Refusal::NotMessage));
    };
    let Ok(notification) = read_device_notification(&first.datagram) else {
        return Ok(Written::Refused(Refusal::NotMessage));
    };
    write_trap(
        alloc,
        agent,
        engine,
        to,
        &from.context,
        &notification.pdu,
        by,
    )
}

/// What becomes of the notification that waits longest, for the first of its receivers, to which it goes as a Trap.
#[derive(Drop)]
pub(crate) struct TrapTurn {
    /// The number of the notification.
    pub(crate) number: u64,
    /// The number of the receiver, counted from 0.
    pub(crate) receiver: usize,
    pub(crate) written: Written,
}

/// Returns what goes out, of what becomes of the notification that waits longest, if there is one.
fn told_of(turn: Option<TrapTurn>) -> Forwarded
    ensures { result ≡ told_as turn }
{
    let Some(
        TrapTurn {
            number,
            receiver,
            written,
        },
    ) = turn
    else {
        return Forwarded::Nothing;
    };
    match written {
        Written::Sends(datagram) => Forwarded::ToReceiver {
            number,
            receiver,
            datagram,
        },
        Written::Refused(why) => Forwarded::Unsent {
            number,
            receiver,
            why,
        },
    }
}

/// Sends notifications of devices, which speak SNMPv2c, on to receivers that speak SNMPv3.
#[derive(Drop)]
pub struct Forwarder {
    pub(crate) alloc: Global,
    pub(crate) agent: Agent,
    /// The agent's engine.
    pub(crate) engine: EngineId,
    pub(crate) devices: Devices,
    pub(crate) receivers: Receivers,
    pub(crate) waiting: WaitingNotifications,
}

impl Forwarder {
    /// Returns a forwarder of notifications of these devices to these receivers, at which at most `most` wait. It sends
    /// with the engine, the clock, the users and the tables of this agent, whose engine ID is given beside it. It takes
    /// no memory.
    pub fn new(
        alloc: Global,
        agent: Agent,
        engine: EngineId,
        devices: Devices,
        receivers: Receivers,
        most: usize,
    ) -> Forwarder
        requires { engine ≡ agent.engine }
        ensures stands { ForwarderStands [] result }
        ensures agent { result.agent ≡ agent }
        ensures devices { result.devices ≡ devices }
        ensures receivers { result.receivers ≡ receivers }
        ensures most { result.waiting.most ≡ most }
    {
        Forwarder {
            alloc,
            agent,
            engine,
            devices,
            receivers,
            waiting: WaitingNotifications::new(alloc, most),
        }
    }

    /// Returns how many notifications wait.
    pub fn waiting(&self) -> usize
        ensures { result ≡ length self.now.waiting.list.items }
    {
        self.waiting.list().len()
    }

    /// Returns the moment, in milliseconds, from which on `next` has something to do by time alone: at once if a
    /// notification waits.
    pub fn due(&self) -> Option<u64>
        ensures { MatchOption result (self.now.waiting.list.items ≡ [])
            (λ at. (at ≡ 0) × (self.now.waiting.list.items ≢ [])) }
    {
        if self.waiting.list().is_empty() {
            return None;
        }
        Some(0)
    }

    /// Returns to whom a datagram of the device of this number is to be sent. The error is out of memory.
    fn chosen(&self, device: usize, datagram: &[u8]) -> Result<Chosen, AllocError>
        ensures { IfOk result (IsChosen self.now.agent.tables self.now.devices.list.items
            self.now.receivers.list.items device datagram.now) }
    {
        one_notification();
        let notification = match read_device_notification(datagram) {
            Ok(notification) => notification,
            Err(why) => return Ok(Chosen::NotNotification(why)),
        };
        let Some(from) = self.devices.list().get(device) else {
            return Ok(Chosen::OtherCommunity);
        };
        if !has_community(from, notification.community) {
            return Ok(Chosen::OtherCommunity);
        }
        let tables = self.agent.tables();
        let numbers = self
            .receivers
            .choose(self.alloc, tables, &from.context, &notification)?;
        Ok(Chosen::Receivers(numbers))
    }

    /// Takes a datagram from the device of this number, counted from 0. A notification with the device's community
    /// waits to be sent to each receiver that may be notified of it in the context of the device. Nothing is sent.
    ///
    /// The error is out of memory. Then the datagram isn't taken, and may be taken again.
    pub fn take_trap(&mut self, device: usize, datagram: &[u8]) -> Result<TrapTaken, AllocError>
        ensures happens { IfOk result (λ taken. (before : List Happening) → ForwarderStands before self.old
            → TrapHappens self.old before device datagram.now taken self.new) }
        ensures taken { IfOk result (IsTrapTaken self.old device datagram.now) }
        ensures stays { Stays self.old self.new }
        ensures err { OnErr result (IsAsBefore self.old self.new) }
    {
        let receivers = match self.chosen(device, datagram)? {
            Chosen::NotNotification(why) => return Ok(TrapTaken::NotNotification(why)),
            Chosen::OtherCommunity => return Ok(TrapTaken::OtherCommunity),
            Chosen::Receivers(receivers) => receivers,
        };
        if receivers.is_empty() {
            return Ok(TrapTaken::ForNobody);
        }
        if self.waiting.is_full() {
            return Ok(TrapTaken::NoRoom);
        }
        let datagram = Vec::from_slice(self.alloc, datagram)?;
        let number = self.waiting.add(device, datagram, receivers)?;
        Ok(TrapTaken::Waits(number))
    }

    /// Sends the notification that waits longest to the next of its receivers, at this moment, in milliseconds, and
    /// returns what goes out. A receiver that is notified by Informs is sent nothing: the Inform is returned. It is
    /// called until it returns `Nothing`.
    ///
    /// No salt may come twice (RFC 3826, section 3.1.2.1). `ask_id` is a number that didn't come before. msgID is its
    /// remainder by 2147483648.
    ///
    /// The error is out of memory. Then all is as before, and the call may be made again.
    pub fn next(&mut self, now: u64, salt: [u8; 8], ask_id: u32) -> Result<Forwarded, AllocError>
        ensures happens { IfOk result (λ sent. (before : List Happening) → ForwarderStands before self.old
            → SendHappens self.old before (sealing_at now salt ask_id) sent self.new) }
        ensures nothing { IfOk result (λ sent. sent ≡ Forwarded.Nothing → self.old.waiting.list.items ≡ []) }
        ensures stays { Stays self.old self.new }
        ensures err { OnErr result (IsAsBefore self.old self.new) }
    {
        if let Some((number, inform)) = self.first_inform()? {
            self.pass();
            return Ok(Forwarded::AsInform { number, inform });
        }
        let turn = self.next_trap(now, salt, ask_id)?;
        Ok(told_of(turn))
    }

    /// Returns the Inform as which the notification that waits longest goes to the next of its receivers, and the
    /// number of the notification. None: it goes to that receiver as a Trap, or nothing waits. The error is out of
    /// memory.
    pub(crate) fn first_inform(&self) -> Result<Option<(u64, Inform)>, AllocError>
        ensures { IfOk result (IsFirstInform self.now) }
    {
        let Some(first) = self.waiting.list().first() else {
            return Ok(None);
        };
        // what waits goes from a device to a receiver that there are
        let Some(from) = self.devices.list().get(first.device) else {
            return Ok(None);
        };
        let Some(to) = self.receivers.list().get(first.receiver) else {
            return Ok(None);
        };
        if to.notify_type != NotifyType::Inform {
            return Ok(None);
        }
        let inform = Inform::new(
            self.alloc,
            first.receiver,
            to,
            &from.context,
            &first.datagram,
        )?;
        Ok(Some((first.number, inform)))
    }

    /// The notification that waits longest is dealt with for the next of its receivers, to which it goes as an Inform.
    pub(crate) fn pass(&mut self)
        requires { 0 < length self.old.waiting.list.items }
        ensures happens { (before : List Happening) (by : Sealing) (number : ℕ) (inform : Inform)
            → ForwarderStands before self.old → IsFirstInform self.old (Some (number, inform))
            → SendHappens self.old before by (Forwarded.AsInform number inform) self.new }
        ensures stays { Stays self.old self.new }
    {
        self.waiting.advance();
    }

    /// Sends the notification that waits longest to the next of its receivers as a Trap, as `next` does. None: nothing
    /// waits.
    pub(crate) fn next_trap(
        &mut self,
        now: u64,
        salt: [u8; 8],
        ask_id: u32,
    ) -> Result<Option<TrapTurn>, AllocError>
        ensures happens { IfOk result (λ turn. (before : List Happening) → ForwarderStands before self.old
            → IsFirstInform self.old None
            → SendHappens self.old before (sealing_at now salt ask_id) (told_as turn) self.new) }
        ensures nothing { IfOk result (λ turn. turn ≡ None
            → (self.old.waiting.list.items ≡ []) × (self.new ≡ self.old)) }
        ensures stays { Stays self.old self.new }
        ensures err { OnErr result (IsAsBefore self.old self.new) }
    {
        let Some(first) = self.waiting.list().first() else {
            return Ok(None);
        };
        let (number, receiver) = (first.number, first.receiver);
        let by = Sealing {
            seconds: now / 1000,
            id: ask_id % REQUEST_IDS,
            salt,
        };
        let written = write_first(
            self.alloc,
            &mut self.agent,
            &self.engine,
            self.devices.list(),
            &self.receivers,
            first,
            &by,
        )?;
        self.waiting.advance();
        Ok(Some(TrapTurn {
            number,
            receiver,
            written,
        }))
    }
}
