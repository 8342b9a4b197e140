//! What about a device is probably a mistake.

ghost use Rattle.std.specs.Prelude.{All, Some, MatchBool, MatchOption};
ghost use Rattle.snmpsec_gate_config.specs.Oddities.{Fits, FitsWrites, IsFirstOf, TellsOddity, oddity_words};

use crate::settings::DeviceSettings;
use snmp_ber::Level;
use snmp_message::USER_BASED;
use std::fmt;
use vacm_core::AccessRow;

/// What about a device is probably a mistake.
#[derive(Clone, Copy, Debug, PartialEq, Eq)]
pub enum DeviceOddity {
    /// No access row fits a message to the device. So nobody sees anything of it.
    NobodySees,
    /// The access row at this position, counted from 0, gives a view for writing, and the device has no
    /// write-community. So each Set to it is refused.
    NoWriteCommunity { access: usize },
}

impl fmt::Display for DeviceOddity {
    ghost output = { λ oddity. Some (oddity_words oddity) };

    fn fmt<W: fmt::Write>(&self, f: &mut fmt::Formatter<W>) -> fmt::Result {
        match self {
            DeviceOddity::NobodySees => f.write_str("no access row fits its context"),
            DeviceOddity::NoWriteCommunity { access } => {
                write!(
                    f,
                    "access {access} gives a write view, and it has no write-community"
                )
            }
        }
    }
}

/// The row fits messages to the device.
fn fits(device: &DeviceSettings, row: &AccessRow) -> bool
    ensures { MatchBool result (Fits device.now row.now) (¬ Fits device.now row.now) }
{
    row.fits_message(USER_BASED, Level::AuthPriv, device.context.as_slice())
}

/// The row fits messages to the device, and gives a view for writing.
fn fits_writes(device: &DeviceSettings, row: &AccessRow) -> bool
    ensures { MatchBool result (FitsWrites device.now row.now) (¬ FitsWrites device.now row.now) }
{
    fits(device, row) && !row.write.as_slice().is_empty()
}

/// The position of the first row that fits messages to the device.
fn first_fit(device: &DeviceSettings, access: &[AccessRow]) -> Option<usize>
    ensures { MatchOption result (All (λ row. ¬ Fits device.now row) access.now)
        (IsFirstOf (Fits device.now) access.now) }
{
    for (position, row) in access.iter().enumerate() {
        if fits(device, row) {
            return Some(position);
        }
    }
    None
}

/// The position of the first row that fits messages to the device, and gives a view for writing.
fn first_write(device: &DeviceSettings, access: &[AccessRow]) -> Option<usize>
    ensures { MatchOption result (All (λ row. ¬ FitsWrites device.now row) access.now)
        (IsFirstOf (FitsWrites device.now) access.now) }
{
    for (position, row) in access.iter().enumerate() {
        if fits_writes(device, row) {
            return Some(position);
        }
    }
    None
}

impl DeviceOddity {
    /// Returns what about a device is probably a mistake, with these access rows. None: nothing is.
    pub fn of(device: &DeviceSettings, access: &[AccessRow]) -> Option<DeviceOddity>
        ensures { TellsOddity device.now access.now result }
    {
        if first_fit(device, access).is_none() {
            return Some(DeviceOddity::NobodySees);
        }
        if device.write_community.is_some() {
            return None;
        }
        match first_write(device, access) {
            Some(access) => Some(DeviceOddity::NoWriteCommunity { access }),
            None => None,
        }
    }
}
