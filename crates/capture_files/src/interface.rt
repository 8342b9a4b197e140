//! What a section of pcapng says of an interface, and when a packet of it was captured.

ghost use Rattle.std.specs.Prelude.{◌≡◌, ◌<◌, ◌≤◌, ◌^◌, ◌/◌, SomeIff, length, true};
ghost use Rattle.capture_files.specs.Pcapng.{IsMoved, SayAll, behind_option, has_option, plain_interface, units};
ghost use Rattle.capture_files.specs.Pcapng.{with_option};

use crate::field::{Order, read_16_by, read_64};

/// What the description of an interface says of its packets.
#[derive(Clone, Copy)]
pub(crate) struct Interface {
    /// The type of the link, a number of LINKTYPE.
    pub(crate) link: u16,
    /// How many units a second has: the power of 2 above 127, and else of 10.
    pub(crate) resolution: u8,
    /// What is added to the seconds, modulo 2^64.
    pub(crate) offset: u64,
}

impl Interface {
    /// An interface of which no option says anything: its moments are millionths of a second since 1970.
    pub(crate) fn plain(link: u16) -> Interface
        ensures { result ≡ plain_interface link }
    {
        Interface {
            link,
            resolution: 6,
            offset: 0,
        }
    }

    /// When a packet of this time was captured, in seconds, where they are from 0 to 2^64 - 1.
    pub(crate) fn moment(self, time: u64) -> Option<u64>
        ensures { IsMoved (time / units self.resolution) self.offset result }
    {
        let seconds = match units(self.resolution) {
            Some(units) => time / units,
            None => 0,
        };
        add_offset(seconds, self.offset)
    }

    /// How many microseconds below a second the time of a packet has, less than 1,000,000. They are 0 for units of
    /// which 2^64 or more make a second.
    pub(crate) fn micros(self, time: u64) -> u32 {
        match units(self.resolution) {
            Some(units) => micros_of(time, units),
            None => 0,
        }
    }
}

/// The microseconds below a second of a time in these units.
fn micros_of(time: u64, units: u64) -> u32 {
    if units == 0 {
        return 0;
    }
    let micros = u128::from(time % units) * 1_000_000 / u128::from(units);
    micros.min(999_999) as u32
}

/// How many units a second has, where they are below 2^64.
fn units(resolution: u8) -> Option<u64>
    ensures { SomeIff result (units resolution < 2 ^ 64) (units resolution) }
{
    if resolution >= 128 {
        2u64.checked_pow(u32::from(resolution - 128))
    } else {
        10u64.checked_pow(u32::from(resolution))
    }
}

/// The seconds with an offset, which is below 0 from 2^63 on.
fn add_offset(seconds: u64, offset: u64) -> Option<u64>
    ensures { IsMoved seconds offset result }
{
    if offset < 9_223_372_036_854_775_808 {
        seconds.checked_add(offset)
    } else {
        seconds.checked_sub(u64::MAX - offset + 1)
    }
}

/// There is an option.
fn has_option(order: Order, octets: &[u8]) -> bool
    ensures { result ≡ has_option order octets.now }
{
    octets.len() >= 4
        && read_16_by(order, octets, 0) != 0
        && 4 + usize::from(read_16_by(order, octets, 2)) <= octets.len()
}

/// What the first option says of an interface that was so.
fn with_option(order: Order, octets: &[u8], interface: Interface) -> Interface
    requires { has_option order octets.now ≡ true }
    ensures { result ≡ with_option order octets.now interface }
{
    let code = read_16_by(order, octets, 0);
    let size = read_16_by(order, octets, 2);
    if code == 9 && size == 1 {
        return Interface {
            resolution: octets[4],
            ..interface
        };
    }
    if code == 14 && size == 8 {
        return Interface {
            offset: read_64(order, octets, 4),
            ..interface
        };
    }
    interface
}

/// What follows the first option, whose value is filled up to a multiple of four octets.
fn behind_option(order: Order, octets: &[u8]) -> &[u8]
    requires { 4 ≤ length octets.now }
    ensures { result.now ≡ behind_option order octets.now }
{
    let size = usize::from(read_16_by(order, octets, 2));
    let next = 4 + (size + 3) / 4 * 4;
    &octets[next.min(octets.len())..]
}

/// What the options say of an interface that was so.
pub(crate) fn read_options(order: Order, octets: &[u8], plain: Interface) -> Interface
    ensures { SayAll order octets.now plain result }
{
    let mut interface = plain;
    let mut rest = octets;
    while has_option(order, rest) {
        interface = with_option(order, rest, interface);
        rest = behind_option(order, rest);
    }
    interface
}
