//! A capture in either format: its beginning, and what comes next.

ghost use Rattle.std.specs.Prelude.{◌≡◌, ◌<◌, ◌≤◌, ◌++◌, true, ℕ, List, Option, drop, length, IfOk, IfErr};
ghost use Rattle.std.specs.Io.KnownBytes.{Consumes, IsAtEnd};
ghost use Rattle.capture_files.specs.Formats.{Begins, IsNext, ReadsBeginning, StopsItem, begins_capture, of_header};
ghost use Rattle.capture_files.specs.Formats.{state_of};
ghost use Rattle.capture_files.specs.Pcapng.{begins_section};

use crate::blocks::{finish_block, read_block};
use crate::fault::CaptureFault;
use crate::field::Order;
use crate::item::Next;
use crate::pcap::{HEADER, Header, begins_pcap, read_header, read_record};
use crate::pcapng::{Section, begins_section, read_block_head};
use std::alloc::Global;
use std::io::Read;

/// What the items of a capture are read by.
#[derive(Drop)]
pub(crate) enum Format {
    /// The header of a capture in the format of libpcap.
    Pcap(Header),
    /// What was read of a section of one in pcapng.
    Pcapng(Section),
}

/// A capture whose beginning was read.
#[derive(Drop)]
pub(crate) struct Begun {
    pub(crate) format: Format,
    /// How many octets the beginning has.
    pub(crate) place: u64,
}

/// The octets begin as a capture does, with a number of the format of libpcap in either order of octets, or
/// as pcapng. Four octets are looked at.
pub fn begins_capture(octets: &[u8]) -> bool
    ensures { result ≡ begins_capture octets.now }
{
    begins_pcap(octets) || begins_section(octets)
}

/// Puts octets at the front of the room.
fn put_front(room: &mut [u8], front: &[u8])
    requires { length front.now ≤ length room.old }
    ensures is { room.new ≡ front.now ++ drop (length front.now) room.old }
    ensures len { length room.new ≡ length room.old }
{
    room[..front.len()].copy_from_slice(front);
}

/// Reads the header of the first section, of which these are the first octets.
fn begin_section<R: Read>(
    alloc: Global,
    front: &[u8],
    room: &mut [u8],
    reader: &mut R,
) -> Result<Begun, CaptureFault>
    requires room { length room.old ≡ 262172 }
    requires short { length front.now ≤ 24 }
    requires end { length front.now < 24 → IsAtEnd (R.remaining reader.old) }
    requires begins { begins_section front.now ≡ true }
    ensures room { length room.new ≡ 262172 }
    ensures ok { (unread : Option (List ℕ)) → Consumes unread (R.remaining reader.old) front.now
        → IfOk result (Begins unread (R.remaining reader.new)) }
    ensures err { (unread : Option (List ℕ)) → Consumes unread (R.remaining reader.old) front.now
        → IfErr result (ReadsBeginning unread (R.remaining reader.new)) }
{
    if front.len() < HEADER {
        return Err(CaptureFault::Octet(0));
    }
    let mut section = Section {
        order: Order::Big,
        interfaces: Vec::new(alloc),
    };
    let Some(head) = read_block_head(section.order, front) else {
        return Err(CaptureFault::Octet(0));
    };
    put_front(room, front);
    match finish_block(reader, &mut section, head, HEADER, room) {
        Ok(Some(item)) => Ok(Begun {
            format: Format::Pcapng(section),
            place: item.size as u64,
        }),
        Ok(None) => Err(CaptureFault::Octet(0)),
        Err(fault) => Err(fault),
    }
}

/// Reads the beginning of a capture, of which these are the first octets.
pub(crate) fn begin<R: Read>(
    alloc: Global,
    front: &[u8],
    room: &mut [u8],
    reader: &mut R,
) -> Result<Begun, CaptureFault>
    requires room { length room.old ≡ 262172 }
    requires short { length front.now ≤ 24 }
    requires end { length front.now < 24 → IsAtEnd (R.remaining reader.old) }
    ensures room { length room.new ≡ 262172 }
    ensures ok { (unread : Option (List ℕ)) → Consumes unread (R.remaining reader.old) front.now
        → IfOk result (Begins unread (R.remaining reader.new)) }
    ensures err { (unread : Option (List ℕ)) → Consumes unread (R.remaining reader.old) front.now
        → IfErr result (ReadsBeginning unread (R.remaining reader.new)) }
{
    if begins_section(front) {
        return begin_section(alloc, front, room, reader);
    }
    match read_header(front) {
        Ok(header) => Ok(Begun {
            format: Format::Pcap(header),
            place: HEADER as u64,
        }),
        Err(place) => Err(CaptureFault::Octet(place)),
    }
}

/// Reads the next record as an item. Its packet is in the room.
fn read_record_item<R: Read>(
    reader: &mut R,
    header: Header,
    room: &mut [u8],
) -> Result<Next, CaptureFault>
    requires { length room.old ≡ 262172 }
    ensures room { length room.new ≡ 262172 }
    ensures ok { IfOk result
        (IsNext (of_header header) (of_header header) room.new (R.remaining reader.old)
        (R.remaining reader.new)) }
    ensures err { IfErr result (StopsItem (of_header header)
        (R.remaining reader.old) (R.remaining reader.new)) }
{
    match read_record(reader, header, room) {
        Ok(next) => Ok(next),
        Err(_) => Err(CaptureFault::CannotRead),
    }
}

/// Reads the next item. Its packet is in the room.
pub(crate) fn read_item<R: Read>(
    reader: &mut R,
    format: &mut Format,
    room: &mut [u8],
) -> Result<Next, CaptureFault>
    requires { length room.old ≡ 262172 }
    ensures room { length room.new ≡ 262172 }
    ensures ok { IfOk result
        (IsNext (state_of format.old) (state_of format.new) room.new (R.remaining reader.old)
        (R.remaining reader.new)) }
    ensures err { IfErr result (StopsItem (state_of format.old)
        (R.remaining reader.old) (R.remaining reader.new)) }
{
    match format {
        Format::Pcap(header) => read_record_item(reader, *header, room),
        Format::Pcapng(section) => read_block(reader, section, room),
    }
}
