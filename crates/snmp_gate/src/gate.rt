//! The gateway: what comes in, and what goes out.

ghost use Rattle.std.specs.Prelude.{◌≡◌, [], All, length, map, IfOk};
ghost use Rattle.snmp_gate.specs.Bounds.{IsBounded, at_once_in, at_once_of};
ghost use Rattle.snmp_gate.specs.Waiting.{AsksNothing, GateStands};

use crate::asks::DeviceAsks;
use crate::devices::{Device, Devices};
use crate::limits::GateLimits;
use crate::requests::WaitingRequests;
use crate::set_answer::ResponseStatus;
use crate::sets::RememberedSets;
use crate::waiting_message::WaitingMessage;
use crate::work::{EndedBy, Work};
use snmp_agent::{Agent, Refused};
use snmp_msg::Refusal;
use snmp_walk::AnswerFault;
use std::alloc::{AllocError, Global};

/// What becomes of a datagram from a client.
#[derive(Drop)]
pub enum ClientTaken {
    /// It is refused, and a report may tell why.
    Refused(Refused),
    /// It begins a request, which has this number.
    Begins(u64),
    /// It asks again what waits, and is answered with the request that has this number.
    Joins(u64),
    /// It isn't answered: as many wait as may.
    NoRoom,
    /// It is a Set that came before, and what its device answered isn't known: it isn't answered.
    SetOfBefore,
}

/// What becomes of a datagram from a device.
#[derive(Clone, Copy, Debug, PartialEq, Eq)]
pub enum DeviceTaken {
    /// It isn't a Response in a message of SNMPv2c.
    Unreadable,
    /// The device wasn't asked with this request-id and this community, or was answered.
    NotWaitedFor,
    /// It is the answer to what was asked for a request.
    Answers {
        /// The number of the request.
        number: u64,
        /// Its error-status and its error-index, whatever they are.
        says: ResponseStatus,
        /// Why its bindings don't answer what was asked, if they don't. An answer with an error isn't looked at so.
        fault: Option<AnswerFault>,
        /// How many of its bindings are hidden: the request's message may not see their names. Of an answer to a Set
        /// it is 0.
        hidden: usize,
    },
}

/// What goes out.
#[derive(Drop)]
pub enum Sent {
    /// A datagram to a client: the Response to a message of the request with this number, or the Report on it.
    ToClient {
        /// The number of the request.
        number: u64,
        /// The message.
        message: WaitingMessage,
        /// The error-status and the error-index of the Response. None: the datagram is a Report.
        says: Option<ResponseStatus>,
        datagram: Vec<u8>,
        ended: EndedBy,
    },
    /// A datagram to a device, for the request with this number.
    ToDevice {
        /// The number of the request.
        number: u64,
        /// The number of the device, counted from 0.
        device: usize,
        datagram: Vec<u8>,
        /// The device is asked the same again, since it didn't answer.
        again: bool,
    },
    /// A message of the request with this number isn't answered. The reason is one of the user's or of the clock, if
    /// there is one. If there is none, and the request ended by an answer, even tooBig is too long.
    Unanswered {
        /// The number of the request.
        number: u64,
        message: WaitingMessage,
        why: Option<Refusal>,
        ended: EndedBy,
    },
    /// The device didn't answer in time. The request with this number is given up.
    GivenUp {
        /// The number of the request.
        number: u64,
        /// The number of the device, counted from 0.
        device: usize,
        /// How often it was asked the same.
        times: u32,
    },
    /// There is nothing to do now.
    Nothing,
}

/// Returns that these devices are asked nothing.
fn asks_of(alloc: Global, devices: &[Device]) -> Result<Vec<DeviceAsks>, AllocError>
    ensures none { IfOk result (λ asks. All AsksNothing asks.items) }
    ensures at_once { IfOk result (λ asks. map at_once_of devices.now ≡ map at_once_in asks.items) }
{
    let mut asks = Vec::new(alloc);
    for device in devices {
        asks.push(DeviceAsks::new(alloc, device.at_once))?;
    }
    Ok(asks)
}

/// A gateway from clients that speak SNMPv3 to devices that speak SNMPv2c. Moments are milliseconds from one beginning,
/// and don't go back from call to call.
#[derive(Drop)]
pub struct Gate {
    pub(crate) alloc: Global,
    pub(crate) agent: Agent,
    pub(crate) devices: Devices,
    /// What each device is asked.
    pub(crate) asks: Vec<DeviceAsks>,
    pub(crate) limits: GateLimits,
    pub(crate) requests: WaitingRequests<WaitingMessage, Work>,
    pub(crate) sets: RememberedSets,
}

impl Gate {
    /// Returns a gateway to these devices, which no datagram has reached. Its users, its tables and its counters are
    /// the agent's. The error is out of memory.
    pub fn new(
        alloc: Global,
        agent: Agent,
        devices: Devices,
        limits: GateLimits,
    ) -> Result<Gate, AllocError>
        ensures stands { IfOk result (GateStands 0 []) }
        ensures bounded { IfOk result IsBounded }
        ensures agent { IfOk result (λ gate. gate.agent ≡ agent) }
        ensures devices { IfOk result (λ gate. gate.devices ≡ devices) }
        ensures limits { IfOk result (λ gate. gate.limits ≡ limits) }
        ensures none { IfOk result (λ gate. gate.requests.list.items ≡ []) }
        ensures waiting { IfOk result (λ gate. gate.requests.most ≡ limits.waiting) }
        ensures joined { IfOk result (λ gate. gate.requests.most_messages ≡ limits.joined) }
        ensures at_once { IfOk result (λ gate. map at_once_of devices.list.items ≡ map at_once_in gate.asks.items) }
    {
        let asks = asks_of(alloc, devices.list())?;
        Ok(Gate {
            alloc,
            agent,
            devices,
            asks,
            limits,
            requests: WaitingRequests::new(alloc, limits.waiting, limits.joined),
            sets: RememberedSets::new(alloc),
        })
    }

    /// Returns the agent, for its counters.
    pub fn agent(&self) -> &Agent
        ensures { result.now ≡ self.now.agent }
    {
        &self.agent
    }

    /// Returns how many requests wait.
    pub fn waiting(&self) -> usize
        ensures { result ≡ length self.now.requests.list.items }
    {
        self.requests.requests().len()
    }
}
