//! What a gateway's configuration says of the gateway, of the devices behind it, and of who is sent notifications.

use engine_clock::EngineId;
use snmp_ber::Level;
use std::net::SocketAddr;
use vacm_core::Name;

/// The limits of a gateway. Times are in milliseconds.
#[derive(Clone, Copy, Debug, PartialEq, Eq)]
pub struct GatewayLimits {
    /// How many requests may wait, from 1 to 65535.
    pub waiting: usize,
    /// How many of them may wait for one device, from 1 to 65535.
    pub waiting_per_device: usize,
    /// How often a device is asked for one request, from 1 to 65535.
    pub rounds: u32,
    /// How long a device has for its answer before it is asked again, from 1 to 60000.
    pub again: u64,
    /// How often a device is asked the same, from 1 to 100.
    pub tries: u32,
    /// How long after it came a request is asked, or asked again, from 1 to 60000.
    pub last: u64,
    /// How long after it came a GetBulkRequest is answered once it has a whole repetition, up to 60000.
    pub gather: u64,
}

/// What is said of the gateway.
#[derive(Drop)]
pub struct GateSettings {
    /// Its snmpEngineID.
    pub engine: EngineId,
    /// The path of the file with its snmpEngineBoots.
    pub boots: String,
    /// The addresses at which it takes requests, at least one.
    pub listen: Vec<SocketAddr>,
    /// The addresses at which it takes Traps of the devices. None: it takes none.
    pub traps: Vec<SocketAddr>,
    pub limits: GatewayLimits,
    /// Whether a Response without authentication may be as long as the manager allows.
    pub long_answers: bool,
    /// Whether a request whose device doesn't answer is reported as one of an unavailable context.
    pub report_unreachable: bool,
}

/// The limits of a device.
#[derive(Clone, Copy, Debug, PartialEq, Eq)]
pub struct DeviceLimits {
    /// How many repetitions it is asked for, from 1 to 65535.
    pub repetitions: usize,
    /// The longest datagram that it takes, from 484 to 65507 octets.
    pub max_size: usize,
    /// How many requests it is asked at once, from 1 to 1024.
    pub at_once: u16,
}

/// What is said of a device. It has no `Debug`, which would print the communities.
#[derive(Drop)]
pub struct DeviceSettings {
    /// The contextName that names it (RFC 3411, section 3.3.1).
    pub context: Name,
    /// Where it takes requests.
    pub address: SocketAddr,
    /// The community with which it is asked for values, of at most 255 octets.
    pub community: Vec<u8>,
    /// The community with which it is asked for a Set. None: it isn't asked for any.
    pub write_community: Option<Vec<u8>>,
    pub limits: DeviceLimits,
}

/// How a receiver is notified (RFC 3413, section 4.1, snmpNotifyType).
#[derive(Clone, Copy, Debug, PartialEq, Eq)]
pub enum ReceiverKind {
    /// By a Trap, which the receiver doesn't acknowledge.
    Trap,
    /// By an Inform, which the receiver acknowledges.
    Inform,
}

/// What is said of a receiver of notifications.
#[derive(Drop)]
pub struct ReceiverSettings {
    /// Where it takes them.
    pub address: SocketAddr,
    /// The name of the user for whom they are sealed.
    pub user: Name,
    /// The level at which they are sealed.
    pub level: Level,
    /// How it is notified.
    pub kind: ReceiverKind,
}
