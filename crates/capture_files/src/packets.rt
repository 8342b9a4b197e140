//! Packets without a capture around them, each a record of raw IP.

ghost use Rattle.std.specs.Prelude.{IfOk, OnOk, Some, map};
ghost use Rattle.capture_files.specs.Datagrams.{PrintsAs, WritesRecord};
ghost use Rattle.capture_files.specs.Packets.{ComeTo, packet_record};
ghost use Rattle.capture_files.specs.Tally.{IsBelow, counts_of};

use crate::datagrams::{Captured, write_record};
use crate::item::Head;
use crate::printer::Printer;
use crate::tally::Tally;
use std::alloc::{AllocError, Global};

/// The link on which packets begin with their IP header, a number of LINKTYPE.
const RAW_IP: u16 = 101;

/// What packets come to, as the records of a capture do.
#[derive(Debug, PartialEq, Eq, Drop)]
pub struct PacketLog {
    /// What is printed of their datagrams.
    pub log: Vec<u8>,
    /// What is reported of those that may be part of a datagram, or whose datagram can't be printed, a line each.
    pub notes: Vec<u8>,
    /// How many datagrams were printed, and how many packets passed over, by reason.
    pub passed: Tally,
}

/// Writes the record of the packet with this number, behind what the packets before it come to.
fn write_packet<P: Printer>(
    alloc: Global,
    ports: &[u16],
    number: u64,
    moment: u64,
    packet: &[u8],
    printer: &mut P,
    told: &mut PacketLog,
) -> Result<(), AllocError>
    requires { IsBelow (counts_of told.old.passed) 18446744073709551615 }
    ensures ok { OnOk result
        (WritesRecord (P.prints printer.old) ports.now (packet_record moment packet.now) number
        (counts_of told.old.passed) (counts_of told.new.passed)
        (Some told.old.log.items) (Some told.new.log.items)
        (Some told.old.notes.items) (Some told.new.notes.items)) }
    ensures keeps { PrintsAs (P.prints printer.new) (P.prints printer.old) }
{
    let head = Head {
        link: RAW_IP,
        moment: Some(moment),
        micros: 0,
        at: 0,
        size: packet.len(),
        original: packet.len().min(u32::MAX as usize) as u32,
    };
    let captured = Captured {
        number,
        head,
        packet,
    };
    match write_record(
        alloc,
        ports,
        captured,
        printer,
        &mut told.passed,
        &mut told.log,
        &mut told.notes,
    ) {
        Ok(()) => Ok(()),
        Err(_) => Err(AllocError),
    }
}

/// What packets come to that begin with their IP header (IPv4 or IPv6) and were received at this moment, in
/// seconds, as the records of a capture do: what is printed of each datagram from or to one of these ports; a
/// line `snmpsec: record N: REASON` for each piece of a datagram, each that is cut short, each of a length
/// that can't be and each that is empty, N counting packets from 1; and how many others there are, by reason.
pub fn packets_log<P: Printer>(
    alloc: Global,
    ports: &[u16],
    moment: u64,
    packets: &[Vec<u8>],
    printer: &mut P,
) -> Result<PacketLog, AllocError>
    ensures { IfOk result
        (λ told. ComeTo (P.prints printer.old) ports.now moment
        (map (λ packet. packet.items) packets.now) told.log.items told.notes.items
        (counts_of told.passed)) }
{
    let mut told = PacketLog {
        passed: Tally::none(alloc)?,
        log: Vec::new(alloc),
        notes: Vec::new(alloc),
    };
    for (place, packet) in packets.iter().enumerate() {
        write_packet(
            alloc,
            ports,
            place as u64 + 1,
            moment,
            packet,
            printer,
            &mut told,
        )?;
    }
    Ok(told)
}
