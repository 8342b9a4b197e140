//! Dumps of packets: their datagrams are printed, and the others told, as those of a capture.

ghost use Rattle.std.specs.Prelude.{IfOk, map};
ghost use Rattle.capture_datagrams.specs.Packets.{PrintsPackets};

use crate::datagrams::passed_line;
use crate::texts::Told;
use capture_files::{Printer, packets_log};
use std::alloc::{AllocError, Global};

/// What is printed of the datagrams of packets, and told beside: a line for each packet that may be part of
/// one, and a last one for what was passed over.
pub(crate) fn print_packets<P: Printer>(
    alloc: Global,
    ports: &[u16],
    moment: u64,
    printer: &mut P,
    packets: &[Vec<u8>],
) -> Result<Told, AllocError>
    ensures { IfOk result
        (λ told. PrintsPackets (P.prints printer.old) ports.now moment
        (map (λ octets. octets.items) packets.now) told.text.items told.note.items told.status) }
{
    let printed = packets_log(alloc, ports, moment, packets, printer)?;
    let line = passed_line(alloc, &printed.passed)?;
    let status = u8::from(printed.passed.refused);
    let mut note = printed.notes;
    note.extend_from_slice(line.as_bytes())?;
    Ok(Told {
        text: printed.log,
        note,
        status,
    })
}
