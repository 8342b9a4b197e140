//! The header and the records of a capture in the format of libpcap.

ghost use Rattle.std.specs.Prelude.{◌≡◌, true, false, ◌<◌, ◌≤◌, length, IfOk, IfErr, IfSome, IfNone, OnErr};
ghost use Rattle.capture_files.specs.Field.{field32};
ghost use Rattle.capture_files.specs.Formats.{IsNext, of_header};
ghost use Rattle.capture_files.specs.Pcap.{IsHead, IsHeader, IsHeaderFault, ReadsPart, begins_pcap, is_magic, major};

use crate::field::{Order, read_16_by, read_32};
use crate::item::{Head, Item, Next};
use snmpsec_io::{Failed, read_full};
use std::io::Read;

/// How many octets the header of a capture has, 24.
pub const HEADER: usize = 24;

/// How many octets the header of a record has.
pub(crate) const HEAD: usize = 16;

/// The most octets of a packet.
pub(crate) const LARGEST: usize = 262_144;

/// The number that a capture begins with, where its records have microseconds.
const MICROSECONDS: u32 = 0xa1b2_c3d4;

/// The same for nanoseconds.
const NANOSECONDS: u32 = 0xa1b2_3c4d;

/// What the header of a capture says of its records.
#[derive(Clone, Copy)]
pub(crate) struct Header {
    /// The order of the octets of all numbers.
    pub(crate) order: Order,
    /// The type of the link, a number of LINKTYPE.
    pub(crate) link: u16,
    /// Parts of a second are in nanoseconds, and not in microseconds.
    pub(crate) nanoseconds: bool,
}

/// The octets begin with the number of a capture, in this order.
fn is_magic(order: Order, octets: &[u8]) -> bool
    requires { 4 ≤ length octets.now }
    ensures { result ≡ is_magic order octets.now }
{
    let number = read_32(order, octets, 0);
    number == MICROSECONDS || number == NANOSECONDS
}

/// The octets begin with one of the numbers of the format in either order. Four octets are looked at.
pub(crate) fn begins_pcap(octets: &[u8]) -> bool
    ensures { result ≡ begins_pcap octets.now }
{
    octets.len() >= 4 && (is_magic(Order::Big, octets) || is_magic(Order::Little, octets))
}

/// The order in which the octets begin with the number of a capture.
fn order_of(octets: &[u8]) -> Option<Order>
    requires { 4 ≤ length octets.now }
    ensures found { IfSome result (λ order. is_magic order octets.now ≡ true) }
    ensures none { IfNone result ((order : Order) → is_magic order octets.now ≡ false) }
{
    if is_magic(Order::Big, octets) {
        return Some(Order::Big);
    }
    if is_magic(Order::Little, octets) {
        return Some(Order::Little);
    }
    None
}

/// The major version.
fn major(order: Order, octets: &[u8]) -> u16
    requires { 6 ≤ length octets.now }
    ensures { result ≡ major order octets.now }
{
    read_16_by(order, octets, 4)
}

/// What the header says, or the place of its first fault.
pub(crate) fn read_header(octets: &[u8]) -> Result<Header, u64>
    requires { length octets.now ≤ 24 }
    ensures found { IfOk result (IsHeader octets.now) }
    ensures fault { IfErr result (IsHeaderFault octets.now) }
{
    if octets.len() < HEADER {
        return Err(0);
    }
    let Some(order) = order_of(octets) else {
        return Err(0);
    };
    if major(order, octets) != 2 {
        return Err(4);
    }
    let link = read_32(order, octets, 20);
    if link > 65_535 {
        return Err(20);
    }
    Ok(Header {
        order,
        link: link as u16,
        nanoseconds: read_32(order, octets, 0) == NANOSECONDS,
    })
}

/// How many microseconds the header of a record tells below a second, less than 1,000,000.
fn micros(header: Header, octets: &[u8]) -> u32
    requires { length octets.now ≡ 16 }
{
    let below = read_32(header.order, octets, 4);
    let micros = if header.nanoseconds {
        below / 1_000
    } else {
        below
    };
    micros.min(999_999)
}

/// What the header of a record says, or `None` where its packet is over the limit.
fn read_head(header: Header, octets: &[u8]) -> Option<Head>
    requires { length octets.now ≡ 16 }
    ensures found { IfSome result (IsHead header octets.now) }
    ensures none { IfNone result (262144 < field32 header.order octets.now 8) }
{
    let order = header.order;
    let size = read_32(order, octets, 8) as usize;
    if size > LARGEST {
        return None;
    }
    Some(Head {
        link: header.link,
        moment: Some(u64::from(read_32(order, octets, 0))),
        micros: micros(header, octets),
        at: 0,
        size,
        original: read_32(order, octets, 12),
    })
}

/// Reads the next record. Its packet is the front of `room`.
pub(crate) fn read_record<R: Read>(
    reader: &mut R,
    header: Header,
    room: &mut [u8],
) -> Result<Next, Failed>
    requires { length room.old ≡ 262172 }
    ensures room { length room.new ≡ 262172 }
    ensures ok { IfOk result
        (IsNext (of_header header) (of_header header) room.new (R.remaining reader.old)
        (R.remaining reader.new)) }
    ensures err { OnErr result (ReadsPart header (R.remaining reader.old)
        (R.remaining reader.new)) }
{
    let mut octets = [0u8; HEAD];
    let Ok(count) = read_full(reader, &mut octets) else {
        return Err(Failed);
    };
    if count == 0 {
        return Ok(Next::End);
    }
    if count < HEAD {
        return Ok(Next::OutOfForm);
    }
    let Some(head) = read_head(header, &octets) else {
        return Ok(Next::OutOfForm);
    };
    let Ok(size) = read_full(reader, &mut room[..head.size]) else {
        return Err(Failed);
    };
    if size < head.size {
        return Ok(Next::OutOfForm);
    }
    Ok(Next::Item(Item {
        size: HEAD + head.size,
        packet: Some(head),
    }))
}
