//! Dumps: the octets of each as a datagram, which is printed.

ghost use Rattle.std.specs.Prelude.{◌≡◌, ◌||◌, IfOk, map, string_bytes};
ghost use Rattle.capture_datagrams.specs.Dumped.{IsDumpsOf, PrintsDumps, PrintsOctets, fault_line, refused_row};

use crate::packets::print_packets;
use crate::texts::{TextForm, Told};
use capture_dumps::{DumpFault, read_dumps};
use capture_files::Printer;
use std::alloc::{AllocError, Global};

/// The line on which a text isn't a dump. One without a dump is none from its first on.
fn fault_line(fault: DumpFault) -> u64
    ensures { result ≡ fault_line fault }
{
    match fault {
        DumpFault::NoDump | DumpFault::OutOfMemory => 1,
        DumpFault::Unreadable(line) | DumpFault::NotBegun(line) | DumpFault::OtherCount(line) => {
            line
        }
    }
}

/// The line of a file that isn't a dump, or a log, on this line.
pub(crate) fn refused_row(alloc: Global, name: &str, line: u64) -> Result<String, AllocError>
    ensures { IfOk result (λ text. string_bytes text ≡ refused_row name.now line) }
{
    format!(in alloc; "refused datagrams {name} line {line}\n")
}

/// The note on standard error about that.
fn dump_note(alloc: Global, fault: DumpFault) -> Result<String, AllocError> {
    match fault {
        DumpFault::NoDump => format!(in alloc;
            "snmpsec: no line has the offset 0 and an octet after it; --form hex reads hex without offsets\n"
        ),
        DumpFault::Unreadable(line) => format!(in alloc;
            "snmpsec: line {line}: after the offset pairs of hex digits are expected, as hexdump -C prints them\n"
        ),
        DumpFault::NotBegun(line) => format!(in alloc;
            "snmpsec: line {line}: no dump has begun at the offset 0; if a * replaces lines, print them with -v\n"
        ),
        DumpFault::OtherCount(line) => format!(in alloc;
            "snmpsec: line {line}: it has more octets or fewer than the offset of the next line says\n"
        ),
        DumpFault::OutOfMemory => Err(AllocError),
    }
}

/// The result for a text that isn't a dump, for this reason.
fn refused_dump(alloc: Global, name: &str, fault: DumpFault) -> Result<Told, AllocError>
    ensures { IfOk result
        (λ told. (told.text.items ≡ refused_row name.now (fault_line fault))
        × (told.status ≡ 1)) }
{
    let text = refused_row(alloc, name, fault_line(fault))?;
    let note = dump_note(alloc, fault)?;
    Ok(Told {
        text: text.into_bytes(),
        note: note.into_bytes(),
        status: 1,
    })
}

/// One of the two, or both.
pub(crate) fn either(one: bool, other: bool) -> bool
    ensures { result ≡ (one || other) }
{
    one || other
}

/// What is printed of the octets of each dump.
fn print_dumps<P: Printer>(
    alloc: Global,
    moment: u64,
    printer: &mut P,
    dumps: &[Vec<u8>],
) -> Result<Told, AllocError>
    ensures { IfOk result
        (λ told. PrintsDumps (P.prints printer.old) moment
        (map (λ octets. octets.items) dumps.now) told.text.items told.note.items told.status) }
{
    let mut text = Vec::new(alloc);
    let mut refused = false;
    for (place, octets) in dumps.iter().enumerate() {
        let printed = printer.print(alloc, place as u64 + 1, moment, octets)?;
        text.extend_from_slice(&printed.text)?;
        refused = either(refused, printed.refused);
    }
    Ok(Told {
        text,
        note: Vec::new(alloc),
        status: u8::from(refused),
    })
}

/// What is printed of the octets of each dump as this form takes them: as a datagram, or as a packet.
fn print_octets<P: Printer>(
    alloc: Global,
    form: TextForm<'_>,
    moment: u64,
    printer: &mut P,
    dumps: &[Vec<u8>],
) -> Result<Told, AllocError>
    ensures { IfOk result
        (λ told. PrintsOctets (P.prints printer.old) form.entry moment
        (map (λ octets. octets.items) dumps.now) told.text.items told.note.items told.status) }
{
    match form {
        TextForm::Packets(ports) => print_packets(alloc, ports, moment, printer, dumps),
        TextForm::Hex | TextForm::Dump | TextForm::Found => {
            print_dumps(alloc, moment, printer, dumps)
        }
    }
}

/// The result for a text that is read as dumps.
pub(crate) fn dumps_told<P: Printer>(
    alloc: Global,
    form: TextForm<'_>,
    moment: u64,
    name: &str,
    printer: &mut P,
    text: &[u8],
) -> Result<Told, AllocError>
    ensures { IfOk result
        (λ told. IsDumpsOf (P.prints printer.old) form.entry moment
        name.now text.now told.text.items
        told.note.items told.status) }
{
    match read_dumps(alloc, text) {
        Ok(dumps) => print_octets(alloc, form, moment, printer, &dumps),
        Err(DumpFault::OutOfMemory) => Err(AllocError),
        Err(fault) => refused_dump(alloc, name, fault),
    }
}
