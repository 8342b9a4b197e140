//! The datagrams of a capture, as the lines of a log.

ghost use Rattle.std.specs.Prelude.{◌≡◌, ◌+◌, ◌<◌, ◌≤◌, List, ℕ, Option, length, IfOk, IfErr, IfSome, OnOk};
ghost use Rattle.std.specs.Prelude.{option_map, vec_len};
ghost use Rattle.std.specs.Io.KnownBytes.{Appends, Consumes, IsAtEnd};
ghost use Rattle.capture_files.specs.Formats.{state_of};
ghost use Rattle.capture_files.specs.Items.{record_of};
ghost use Rattle.capture_files.specs.Tally.{IsBelow, counts_of, none_passed};
ghost use Rattle.capture_files.specs.Datagrams.{IsEnd, IsLogOf, IsSorted, IsSortedRecord, PrintsAs};
ghost use Rattle.capture_files.specs.Datagrams.{Stands, StopsDatagram, StopsBy, StopsItems, StopsRecord, StopsWrite};
ghost use Rattle.capture_files.specs.Datagrams.{WritesDatagram, WritesItem, WritesRecord};
ghost use Rattle.capture_files.specs.Datagrams.{record_from, streams};

use crate::fault::CaptureFault;
use crate::format::{Begun, begin, read_item};
use crate::item::{Head, Item, Next};
use crate::log_lines::note_line;
use crate::packet::{Found, find_datagram};
use crate::pcapng::ROOM;
use crate::printer::Printer;
use crate::tally::{Reason, Tally};
use snmpsec_io::write_whole;
use std::alloc::Global;
use std::io::{Read, Write};

/// Where no item is read any more.
const MOST: u64 = 4_611_686_018_427_387_904;

/// What becomes of a record.
#[derive(Clone, Copy)]
pub(crate) enum Sorted<'a> {
    /// Its datagram is a line of the log, at this moment.
    Logged(u64, &'a [u8]),
    /// It is reported by itself.
    Told(Telling),
    /// It is counted.
    Counted(Reason),
}

/// Why a record that may be a datagram isn't in the log.
#[derive(Clone, Copy)]
pub(crate) enum Telling {
    Fragment,
    CutShort,
    BadLength,
    Empty,
    NoMoment,
}

/// What becomes of a record of this moment and link in which this was found, where datagrams from and to
/// these ports are wanted.
fn sort<'a>(moment: u64, link: u16, found: Found<'a>, ports: &[u16]) -> Sorted<'a>
    ensures { IsSorted ports.now link moment found.entry result }
{
    match found {
        Found::Datagram {
            source,
            destination,
            octets,
        } => {
            if !ports.contains(&source) && !ports.contains(&destination) {
                return Sorted::Counted(Reason::AnotherPort);
            }
            if octets.is_empty() {
                return Sorted::Told(Telling::Empty);
            }
            Sorted::Logged(moment, octets)
        }
        Found::Fragment => Sorted::Told(Telling::Fragment),
        Found::CutShort => Sorted::Told(Telling::CutShort),
        Found::BadLength => Sorted::Told(Telling::BadLength),
        Found::NotUdp => Sorted::Counted(Reason::NotUdp),
        Found::NotIp => Sorted::Counted(Reason::NotIp),
        Found::OtherLink => Sorted::Counted(Reason::OtherLink(link)),
    }
}

/// A record that was read.
#[derive(Clone, Copy)]
pub(crate) struct Captured<'a> {
    /// Its number, from 1.
    pub(crate) number: u64,
    /// What is known of it.
    pub(crate) head: Head,
    /// What was captured of its packet.
    pub(crate) packet: &'a [u8],
}

/// What becomes of a record.
fn sort_record<'a>(captured: Captured<'a>, ports: &[u16]) -> Sorted<'a>
    ensures { IsSortedRecord ports.now (record_from captured.entry) result }
{
    let head = captured.head;
    let Some(moment) = head.moment else {
        return Sorted::Told(Telling::NoMoment);
    };
    let whole = head.original as usize <= captured.packet.len();
    let found = find_datagram(u32::from(head.link), captured.packet, whole);
    sort(moment, head.link, found, ports)
}

/// Writes a datagram as it is printed, behind so many.
fn write_datagram<P: Printer, L: Write>(
    alloc: Global,
    printer: &mut P,
    moment: u64,
    datagram: &[u8],
    passed: &mut Tally,
    log: &mut L,
) -> Result<(), CaptureFault>
    requires { IsBelow (counts_of passed.old) 18446744073709551615 }
    ensures ok { OnOk result
        (WritesDatagram (P.prints printer.old) moment datagram.now
        (counts_of passed.old) (counts_of passed.new)
        (L.contents log.old) (L.contents log.new)) }
    ensures err { IfErr result
        (StopsDatagram (P.prints printer.old) moment datagram.now
        (counts_of passed.old) (L.contents log.old)
        (L.contents log.new)) }
    ensures keeps { PrintsAs (P.prints printer.new) (P.prints printer.old) }
{
    let Ok(printed) = printer.print(alloc, passed.datagrams + 1, moment, datagram) else {
        return Err(CaptureFault::OutOfMemory);
    };
    match write_whole(log, &printed.text) {
        Ok(()) => {
            passed.print(printed.refused);
            Ok(())
        }
        Err(_) => Err(CaptureFault::CannotWrite),
    }
}

/// Sorts a record, and writes its line or counts it.
pub(crate) fn write_record<P: Printer, L: Write, N: Write>(
    alloc: Global,
    ports: &[u16],
    captured: Captured<'_>,
    printer: &mut P,
    passed: &mut Tally,
    log: &mut L,
    notes: &mut N,
) -> Result<(), CaptureFault>
    requires { IsBelow (counts_of passed.old) 18446744073709551615 }
    ensures ok { OnOk result
        (WritesRecord (P.prints printer.old) ports.now
        (record_from captured.entry) captured.entry.number
        (counts_of passed.old) (counts_of passed.new) (L.contents log.old) (L.contents log.new)
        (N.contents notes.old) (N.contents notes.new)) }
    ensures err { IfErr result
        (StopsRecord (P.prints printer.old) ports.now
        (record_from captured.entry) captured.entry.number
        (counts_of passed.old).datagrams (L.contents log.old)
        (L.contents log.new) (N.contents notes.old)
        (N.contents notes.new)) }
    ensures keeps { PrintsAs (P.prints printer.new) (P.prints printer.old) }
{
    match sort_record(captured, ports) {
        Sorted::Logged(moment, datagram) => {
            printer.see(captured.head.link, captured.head.micros, captured.packet);
            write_datagram(alloc, printer, moment, datagram, passed, log)
        }
        Sorted::Told(why) => {
            let Ok(line) = note_line(alloc, captured.number, why) else {
                return Err(CaptureFault::OutOfMemory);
            };
            match write_whole(notes, line.as_bytes()) {
                Ok(()) => Ok(()),
                Err(_) => Err(CaptureFault::CannotWrite),
            }
        }
        Sorted::Counted(why) => {
            passed.count(why);
            Ok(())
        }
    }
}

/// An item that was read.
#[derive(Clone, Copy)]
struct Taken<'a> {
    /// The number of the next record, from 1.
    number: u64,
    /// What is known of the item's packet, where it is a record.
    packet: Option<Head>,
    /// The octets that the packet lies in.
    room: &'a [u8],
}

/// Writes the record of an item, and answers the number of the next record.
fn write_item<P: Printer, L: Write, N: Write>(
    alloc: Global,
    ports: &[u16],
    item: Taken<'_>,
    printer: &mut P,
    passed: &mut Tally,
    log: &mut L,
    notes: &mut N,
) -> Result<u64, CaptureFault>
    requires within { IfSome item.packet (λ h. h.at + h.size ≤ length item.room.now) }
    requires number { item.number < 18446744073709551615 }
    requires below { IsBelow (counts_of passed.old) 18446744073709551615 }
    ensures ok { IfOk result
        (λ next. WritesItem (P.prints printer.old) ports.now
        (option_map (λ h. record_of h item.entry.room.now) item.entry.packet) item.entry.number next
        (counts_of passed.old) (counts_of passed.new)
        (L.contents log.old) (L.contents log.new) (N.contents notes.old) (N.contents notes.new)) }
    ensures err { IfErr result
        (StopsWrite (P.prints printer.old) ports.now
        (option_map (λ h. record_of h item.entry.room.now) item.entry.packet) item.entry.number
        (counts_of passed.old).datagrams (L.contents log.old)
        (L.contents log.new) (N.contents notes.old)
        (N.contents notes.new)) }
    ensures keeps { PrintsAs (P.prints printer.new) (P.prints printer.old) }
{
    let Some(head) = item.packet else {
        return Ok(item.number);
    };
    let captured = Captured {
        number: item.number,
        head,
        packet: &item.room[head.at..head.at + head.size],
    };
    match write_record(alloc, ports, captured, printer, passed, log, notes) {
        Ok(()) => Ok(item.number + 1),
        Err(fault) => Err(fault),
    }
}

/// A capture whose beginning was read, before its first item.
#[derive(Drop)]
struct Start {
    begun: Begun,
    /// The octets that each packet is read into.
    room: Vec<u8>,
    /// What was passed over: nothing.
    passed: Tally,
}

/// Reads the items of a capture behind its beginning, and writes what they come to.
fn write_items<P: Printer, R: Read, L: Write, N: Write>(
    alloc: Global,
    ports: &[u16],
    start: Start,
    printer: &mut P,
    reader: &mut R,
    log: &mut L,
    notes: &mut N,
) -> Result<Tally, CaptureFault>
    requires room { vec_len start.room ≡ 262172 }
    requires near { start.begun.place ≤ 4294967295 }
    requires none { counts_of start.passed ≡ none_passed }
    ensures ok { IfOk result
        (λ passed. Stands (P.prints printer.old) ports.now (state_of start.begun.format)
        (streams (R.remaining reader.old) (R.remaining reader.new)
        (L.contents log.old) (L.contents log.new)
        (N.contents notes.old) (N.contents notes.new))
        (IsEnd (R.remaining reader.new)) (counts_of passed)) }
    ensures err { IfErr result
        (StopsItems (P.prints printer.old) ports.now (state_of start.begun.format) start.begun.place
        (streams (R.remaining reader.old) (R.remaining reader.new)
        (L.contents log.old) (L.contents log.new)
        (N.contents notes.old) (N.contents notes.new))) }
{
    let Start {
        begun,
        room: mut octets,
        mut passed,
    } = start;
    let room = octets.as_mut_slice();
    let (mut format, mut place) = (begun.format, begun.place);
    let mut number = 1u64;
    while place < MOST {
        let item = match read_item(reader, &mut format, room)? {
            Next::Item(item) => item,
            Next::End => return Ok(passed),
            Next::OutOfForm => return Err(CaptureFault::Octet(place)),
        };
        let taken = Taken {
            number,
            packet: item.packet,
            room,
        };
        number = write_item(alloc, ports, taken, printer, &mut passed, log, notes)?;
        place += item.size as u64;
    }
    Err(CaptureFault::Octet(place))
}

/// Writes what a printer makes of the datagrams of a capture in the format of libpcap or in pcapng, of which the first
/// 24 octets were read, or all where it has fewer, and counts or tells what isn't one: `notes` gets a line
/// `snmpsec: record N: REASON` for each piece of a datagram, each that was cut short when it was captured, each of a
/// length that can't be, each that is empty and each record without a moment; what else isn't a datagram from or to
/// one of these ports is counted. N counts from 1, and so do the datagrams.
///
/// It holds one record at a time, of at most 262,144 octets, and of a section of pcapng what is said of its
/// interfaces. A reader that doesn't read ahead is given in a `BufReader`, and writers in a `BufWriter`.
///
/// The errors are Octet(n), where what begins at octet n isn't a header, record or block, or n is 2^62 or more;
/// CannotRead and CannotWrite, where a read or a write fails, or is interrupted 1,000 times in a row; and
/// OutOfMemory. Before each of them but CannotWrite all is written that the records before come to.
pub fn print_datagrams_behind<P: Printer, R: Read, L: Write, N: Write>(
    alloc: Global,
    front: &[u8],
    ports: &[u16],
    printer: &mut P,
    reader: &mut R,
    log: &mut L,
    notes: &mut N,
) -> Result<Tally, CaptureFault>
    requires short { length front.now ≤ 24 }
    requires end { length front.now < 24 → IsAtEnd (R.remaining reader.old) }
    ensures ok { (unread : Option (List ℕ)) → Consumes unread (R.remaining reader.old) front.now
        → IfOk result (λ passed. IfSome unread (λ capture. (lines : List ℕ) × (tells : List ℕ)
        × IsLogOf (P.prints printer.old) ports.now capture lines tells (counts_of passed)
        × Appends (L.contents log.old) (L.contents log.new) lines
        × Appends (N.contents notes.old) (N.contents notes.new) tells)) }
    ensures err { (unread : Option (List ℕ)) → Consumes unread (R.remaining reader.old) front.now
        → IfErr result (StopsBy (P.prints printer.old) ports.now
        (streams unread (R.remaining reader.new) (L.contents log.old)
        (L.contents log.new) (N.contents notes.old)
        (N.contents notes.new))) }
{
    let Ok(mut room) = vec![in alloc; 0u8; ROOM] else {
        return Err(CaptureFault::OutOfMemory);
    };
    let Ok(passed) = Tally::none(alloc) else {
        return Err(CaptureFault::OutOfMemory);
    };
    let begun = begin(alloc, front, room.as_mut_slice(), reader)?;
    let start = Start {
        begun,
        room,
        passed,
    };
    write_items(alloc, ports, start, printer, reader, log, notes)
}
