//! What is to be sent as an Inform.

ghost use Rattle.std.specs.Prelude.{◌≤◌, length};
ghost use Rattle.snmp_forward.specs.declared.receivers.TheConstants.{USER_NAME_LIMIT};

use snmp_ber::Level;

/// What is to be sent as an Inform, and for whom.
#[derive(Drop)]
pub struct Inform {
    /// The number of the receiver, counted from 0.
    pub receiver: usize,
    /// The name of the receiver's user.
    pub user: Vec<u8>,
    /// The level at which it is sealed for that user.
    pub level: Level,
    /// The contextName of the device.
    pub context: Vec<u8>,
    /// The device's datagram.
    pub datagram: Vec<u8>,
    ghost short: { length user.items ≤ USER_NAME_LIMIT },
}
