//! Pasted hex and dumps: their octets as datagrams, which are printed.

ghost use Rattle.std.specs.Prelude.{◌≡◌, ◌⊎◌, ◌<◌, ◌≤◌, ℕ, List, [], Option, length, IfErr, IfOk, MatchBool};
ghost use Rattle.std.specs.Prelude.{string_bytes};
ghost use Rattle.std.specs.Io.KnownBytes.{Appends, Consumes, Keeps};
ghost use Rattle.snmpsec_io.specs.Transfer.{WritesFront};
ghost use Rattle.capture_files.specs.Datagrams.{streams};
ghost use Rattle.capture_datagrams.specs.declared.datagrams.Unread.TheVariants as unread;
ghost use Rattle.capture_datagrams.specs.Texts.{IsDumpText, IsHexOf, IsPlainText, IsTextOf, StopsText, TellsText};
ghost use Rattle.capture_datagrams.specs.Texts.{refused_place};
ghost use Rattle.capture_datagrams.specs.Forms.{text_form};

use crate::datagrams::Unread;
use crate::dump_texts::dumps_told;
use crate::forms::{ReadOptions, text_form};
use capture_dumps::{HexFault, dump_line, read_hex};
use capture_files::Printer;
use snmpsec_io::{FILE_LIMIT, FileFault, read_whole_behind, write_whole};
use std::alloc::{AllocError, Global};
use std::io::{Read, Write};

/// The result for a text: what is printed, the notes on standard error, and the exit status.
#[derive(Debug, Drop)]
pub(crate) struct Told {
    pub(crate) text: Vec<u8>,
    pub(crate) note: Vec<u8>,
    pub(crate) status: u8,
}

/// The line of a file that isn't a text of hex from this place on.
fn refused_place(alloc: Global, name: &str, line: u64, column: u64) -> Result<String, AllocError>
    ensures { IfOk result (λ text. string_bytes text ≡ refused_place name.now line column) }
{
    format!(in alloc; "refused datagrams {name} line {line} column {column}\n")
}

/// What is printed of the octets that a text of hex writes, or the line that refuses it.
fn hex_told<P: Printer>(
    alloc: Global,
    moment: u64,
    name: &str,
    printer: &mut P,
    text: &[u8],
) -> Result<Told, AllocError>
    ensures is { IfOk result
        (λ told. IsHexOf (P.prints printer.old) moment name.now
        text.now told.text.items told.status) }
    ensures note { IfOk result (λ told. told.note.items ≡ []) }
{
    match read_hex(alloc, text) {
        Ok(octets) => {
            let printed = printer.print(alloc, 1, moment, &octets)?;
            Ok(Told {
                text: printed.text,
                note: Vec::new(alloc),
                status: u8::from(printed.refused),
            })
        }
        Err(HexFault::At { line, column }) => {
            let refusal = refused_place(alloc, name, line, column)?;
            Ok(Told {
                text: refusal.into_bytes(),
                note: Vec::new(alloc),
                status: 1,
            })
        }
        Err(HexFault::OutOfMemory) => Err(AllocError),
    }
}

/// How a text is read.
#[derive(Clone, Copy, Debug, PartialEq, Eq)]
pub(crate) enum TextForm<'a> {
    /// As hex.
    Hex,
    /// As dumps.
    Dump,
    /// As dumps of packets, whose datagrams from and to these ports are wanted.
    Packets(&'a [u16]),
    /// As dumps where it has the first line of one, and else as hex.
    Found,
}

/// The text is read as dumps.
fn are_dumps(form: TextForm<'_>, text: &[u8]) -> bool
    ensures { MatchBool result (IsDumpText form.entry text.now) (IsPlainText form.entry text.now) }
{
    match form {
        TextForm::Hex => false,
        TextForm::Dump => true,
        TextForm::Packets(_) => true,
        TextForm::Found => dump_line(text).is_some(),
    }
}

/// The result for a text that is read so.
fn told_of<P: Printer>(
    alloc: Global,
    form: TextForm<'_>,
    moment: u64,
    name: &str,
    printer: &mut P,
    text: &[u8],
) -> Result<Told, AllocError>
    ensures { IfOk result
        (λ told. IsTextOf (P.prints printer.old) form.entry moment name.now text.now told.text.items
        told.note.items told.status) }
{
    if are_dumps(form, text) {
        dumps_told(alloc, form, moment, name, printer, text)
    } else {
        hex_told(alloc, moment, name, printer, text)
    }
}

/// Writes the result for a text.
pub(crate) fn write_told<L: Write, N: Write>(
    told: &Told,
    log: &mut L,
    notes: &mut N,
) -> Result<u8, Unread>
    ensures ok { IfOk result
        (λ status. (status ≡ told.now.status)
        × Appends (L.contents log.old) (L.contents log.new) told.now.text.items
        × Appends (N.contents notes.old) (N.contents notes.new) told.now.note.items) }
    ensures err { IfErr result
        (λ f. (f ≡ unread.CannotWrite)
        × ((WritesFront (L.contents log.old) (L.contents log.new) told.now.text.items
        × Keeps (N.contents notes.old) (N.contents notes.new))
        ⊎ (Appends (L.contents log.old) (L.contents log.new) told.now.text.items
        × WritesFront (N.contents notes.old) (N.contents notes.new) told.now.note.items))) }
{
    if write_whole(log, &told.text).is_err() {
        return Err(Unread::CannotWrite);
    }
    match write_whole(notes, &told.note) {
        Ok(()) => Ok(told.status),
        Err(_) => Err(Unread::CannotWrite),
    }
}

/// What is done with a text of which these octets were read, with the status that it ends with: where it is
/// read as dumps, what is printed of the octets of each as a datagram, received at this moment, and status 0,
/// or 1 if one of them is refused; or else a line for the first line at which it isn't one, and status 1. Of
/// dumps of packets the same of the datagrams in them, and `notes` gets what is reported of a capture's records
/// beside. Where it is read as hex, the same of its octets as the one datagram, or else a line for the first
/// place at which it isn't hex.
///
/// The errors are CannotRead, where a read fails or there are over 16,777,216 octets; CannotWrite; and OutOfMemory.
pub(crate) fn write_text<P: Printer, R: Read, L: Write, N: Write>(
    alloc: Global,
    front: &[u8],
    asked: ReadOptions<'_>,
    printer: &mut P,
    reader: &mut R,
    log: &mut L,
    notes: &mut N,
) -> Result<u8, Unread>
    requires { length front.now ≤ 24 }
    ensures ok { (unread : Option (List ℕ)) → Consumes unread (R.remaining reader.old) front.now
        → IfOk result (TellsText (P.prints printer.old)
        (text_form asked.entry) asked.entry.moment asked.entry.name.now
        (streams unread (R.remaining reader.new) (L.contents log.old)
        (L.contents log.new) (N.contents notes.old)
        (N.contents notes.new))) }
    ensures err { (unread : Option (List ℕ)) → Consumes unread (R.remaining reader.old) front.now
        → IfErr result (StopsText (P.prints printer.old)
        (text_form asked.entry) asked.entry.moment asked.entry.name.now
        (streams unread (R.remaining reader.new) (L.contents log.old)
        (L.contents log.new) (N.contents notes.old)
        (N.contents notes.new))) }
{
    let text = match read_whole_behind(alloc, front, reader, FILE_LIMIT) {
        Ok(text) => text,
        Err(FileFault::CannotRead) => return Err(Unread::CannotRead),
        Err(FileFault::OutOfMemory) => return Err(Unread::OutOfMemory),
    };
    let form = text_form(asked);
    let Ok(told) = told_of(alloc, form, asked.moment, asked.name, printer, &text) else {
        return Err(Unread::OutOfMemory);
    };
    write_told(&told, log, notes)
}
