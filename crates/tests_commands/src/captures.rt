//! Captures of which what is read is written by writers that fail.

use super::streams::{Calls, Choppy, Slow};
use capture_datagrams::datagrams::Unread;
use capture_datagrams::forms::{Form, ReadOptions, print_datagrams};
use capture_datagrams::printout::{Printout, write_printout};
use capture_files::Lines;
use std::alloc::{AllocError, Global};
use std::test::Fail;

/// Four records of 63 octets after a header of 24: a request, a fragment, a datagram of DNS and an answer.
const CAPTURE: &[u8] =
    b"\xd4\xc3\xb2\xa1\x02\x00\x04\x00\x00\x00\x00\x00\x00\x00\x00\x00\x00\x00\x04\x00\x01\x00\x00\x00\
      \x00\xf1\x53\x65\x00\x00\x00\x00\x2f\x00\x00\x00\x2f\x00\x00\x00\
      \x02\x00\x00\x00\x00\x02\x02\x00\x00\x00\x00\x01\x08\x00\x45\x00\x00\x21\x00\x07\x00\x00\x40\x11\
      \x00\x00\xc0\x00\x02\x01\xc0\x00\x02\x02\x9c\x40\x00\xa1\x00\x0d\x00\x00\x30\x03\x02\x01\x03\
      \x00\xf1\x53\x65\x00\x00\x00\x00\x2f\x00\x00\x00\x2f\x00\x00\x00\
      \x02\x00\x00\x00\x00\x02\x02\x00\x00\x00\x00\x01\x08\x00\x45\x00\x00\x21\x00\x07\x20\x00\x40\x11\
      \x00\x00\xc0\x00\x02\x01\xc0\x00\x02\x02\x9c\x40\x00\xa1\x00\x28\x00\x00\x30\x03\x02\x01\x03\
      \x01\xf1\x53\x65\x00\x00\x00\x00\x2f\x00\x00\x00\x2f\x00\x00\x00\
      \x02\x00\x00\x00\x00\x02\x02\x00\x00\x00\x00\x01\x08\x00\x45\x00\x00\x21\x00\x07\x00\x00\x40\x11\
      \x00\x00\xc0\x00\x02\x01\xc0\x00\x02\x02\x9c\x40\x00\x35\x00\x0d\x00\x00\x30\x03\x02\x01\x03\
      \x02\xf1\x53\x65\x00\x00\x00\x00\x2f\x00\x00\x00\x2f\x00\x00\x00\
      \x02\x00\x00\x00\x00\x02\x02\x00\x00\x00\x00\x01\x08\x00\x45\x00\x00\x21\x00\x07\x00\x00\x40\x11\
      \x00\x00\xc0\x00\x02\x01\xc0\x00\x02\x02\x00\xa1\x9c\x40\x00\x0d\x00\x00\x30\x03\x02\x01\x03";

/// The log of it.
const LOG: &[u8] = b"1700000000 3003020103\n1700000002 3003020103\n";

/// What is reported of it.
const NOTES: &[u8] = b"snmpsec: record 2: fragment\nsnmpsec: passed over: another port 1\n";

/// Returns an answer, and out of memory as an error of its own.
fn without_memory_faults(answer: Result<u8, Unread>) -> Result<Result<u8, Unread>, AllocError> {
    if answer == Err(Unread::OutOfMemory) {
        return Err(AllocError);
    }
    Ok(answer)
}

/// Reads the capture `c`, from or to these ports, an octet a read.
fn read_capture(
    alloc: Global,
    ports: &[u16],
    reader: &mut Slow<'_>,
    log: &mut Choppy<'_>,
    notes: &mut Choppy<'_>,
) -> Result<Result<u8, Unread>, AllocError> {
    let asked = ReadOptions {
        form: Some(Form::Pcap),
        moment: 0,
        ports,
        name: "c",
    };
    without_memory_faults(print_datagrams(alloc, asked, &mut Lines, reader, log, notes))
}

const SNMP: [u16; 2] = [161, 162];

#[test]
fn without_ports_no_datagram_is_logged(rt: HostRuntime) -> Result<(), Fail> {
    let told = b"snmpsec: record 2: fragment\nsnmpsec: passed over: another port 3\n";
    let mut reader = Slow::new(CAPTURE, Calls::GOOD);
    let mut log = Choppy::new(b"", Calls::GOOD);
    let mut notes = Choppy::new(told, Calls::GOOD);
    let answer = read_capture(rt.alloc(), &[], &mut reader, &mut log, &mut notes)?;
    assert!(rt; answer == Ok(0) && log.has_all() && notes.has_all());
    Ok(())
}

#[test]
fn a_write_that_fails_leaves_the_beginning_of_the_log(rt: HostRuntime) -> Result<(), Fail> {
    // Two lines of 22 octets: eight writes of at most three octets each.
    for write in 0..17 {
        let mut reader = Slow::new(CAPTURE, Calls::GOOD);
        let mut log = Choppy::new(LOG, Calls::failing(write));
        let mut notes = Choppy::new(NOTES, Calls::GOOD);
        let answer = read_capture(rt.alloc(), &SNMP, &mut reader, &mut log, &mut notes)?;
        let wanted = if write < 16 {
            Err(Unread::CannotWrite)
        } else {
            Ok(0)
        };
        let is_beginning = log.has_beginning() && notes.has_beginning();
        assert!(rt; answer == wanted && is_beginning, "write {write}");
    }
    Ok(())
}

/// What is written of the capture without its last octet.
const CUT: &[u8] = b"1700000000 3003020103\nrefused datagrams c octet 213\n";

#[test]
fn a_last_line_is_written_or_the_beginning_of_it(rt: HostRuntime) -> Result<(), Fail> {
    // The line that counts what was passed over, and the line that refuses the capture without its last octet.
    let (_last, cut) = CAPTURE.split_last().ok_or("an octet")?;
    for (octets, wanted, write) in [(CAPTURE, LOG, 10), (cut, CUT, 8)] {
        let mut reader = Slow::new(octets, Calls::GOOD);
        let mut log = Choppy::new(wanted, Calls::failing(write));
        let mut notes = Choppy::new(NOTES, Calls::failing(write));
        let answer = read_capture(rt.alloc(), &SNMP, &mut reader, &mut log, &mut notes)?;
        let is_beginning = log.has_beginning() && notes.has_beginning();
        assert!(rt; answer == Err(Unread::CannotWrite) && is_beginning);
    }
    Ok(())
}

/// Three records of raw IP: a discovery request, a datagram of DNS, and five octets to port 161 that aren't a message.
const MESSAGES: &[u8] =
    b"\xd4\xc3\xb2\xa1\x02\x00\x04\x00\x00\x00\x00\x00\x00\x00\x00\x00\x00\x00\x04\x00\x65\x00\x00\x00\
      \x00\xf1\x53\x65\x00\x00\x00\x00\x56\x00\x00\x00\x56\x00\x00\x00\
      \x45\x00\x00\x56\x00\x07\x00\x00\x40\x11\x00\x00\xc0\x00\x02\x01\xc0\x00\x02\x02\x9c\x40\x00\xa1\
      \x00\x42\x00\x00\x30\x38\x02\x01\x03\x30\x0e\x02\x01\x01\x02\x03\x00\xff\xe3\x04\x01\x04\x02\x01\
      \x03\x04\x10\x30\x0e\x04\x00\x02\x01\x00\x02\x01\x00\x04\x00\x04\x00\x04\x00\x30\x11\x04\x00\x04\
      \x00\xa0\x0b\x02\x01\x01\x02\x01\x00\x02\x01\x00\x30\x00\
      \x01\xf1\x53\x65\x00\x00\x00\x00\x21\x00\x00\x00\x21\x00\x00\x00\
      \x45\x00\x00\x21\x00\x07\x00\x00\x40\x11\x00\x00\xc0\x00\x02\x01\xc0\x00\x02\x02\x9c\x40\x00\x35\
      \x00\x0d\x00\x00\x30\x03\x02\x01\x03\
      \x02\xf1\x53\x65\x00\x00\x00\x00\x21\x00\x00\x00\x21\x00\x00\x00\
      \x45\x00\x00\x21\x00\x07\x00\x00\x40\x11\x00\x00\xc0\x00\x02\x01\xc0\x00\x02\x02\x00\xa1\x9c\x40\
      \x00\x0d\x00\x00\x30\x03\x02\x01\x03";

/// What is shown of it.
const SHOWN: &[u8] = b"datagram 1 1700000000
id 1
max-size 65507
flags reportable
engine -
boots 0
time 0
user -
auth -
privacy -
context-engine -
context -
pdu a0 1 0 0
canonical 3038020103300e020101020300ffe30401040201030410300e0400020100020100040004000400301104000400\
a00b0201010201000201003000
datagram 2 1700000002
refused 1 NotMessage at 5
";

/// Asks for the datagrams of port 161 of the file `f`, at the timestamp 7.
const ASKED: ReadOptions<'static> = ReadOptions {
    form: None,
    moment: 7,
    ports: &[161],
    name: "f",
};

/// Shows the datagrams of the file `f`, which is read an octet a read.
fn show(
    alloc: Global,
    reader: &mut Slow<'_>,
    out: &mut Choppy<'_>,
    notes: &mut Choppy<'_>,
) -> Result<Result<u8, Unread>, AllocError> {
    let shown = Printout::Shown { names: false };
    without_memory_faults(write_printout(alloc, shown, ASKED, reader, out, notes))
}

const PASSED_OVER: &[u8] = b"snmpsec: passed over: another port 1\n";

#[test]
fn a_write_that_fails_leaves_the_beginning_of_what_is_shown(rt: HostRuntime) -> Result<(), Fail> {
    for write in [0, 1, 20, 90] {
        let mut reader = Slow::new(MESSAGES, Calls::GOOD);
        let mut out = Choppy::new(SHOWN, Calls::failing(write));
        let mut notes = Choppy::new(PASSED_OVER, Calls::GOOD);
        let answer = show(rt.alloc(), &mut reader, &mut out, &mut notes)?;
        assert!(rt; answer == Err(Unread::CannotWrite) && out.has_beginning());
    }
    Ok(())
}
