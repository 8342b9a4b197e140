//! `snmpsec datagrams` of a file in any of its forms.

ghost use Rattle.std.specs.Prelude.{◌≡◌, ◌<◌, Option, IfErr, IfOk, IfSome, Some};
ghost use Rattle.capture_files.specs.Datagrams.{streams};
ghost use Rattle.capture_datagrams.specs.Forms.{IsFormWord, StopsFile, TellsFile, is_capture, may_be_dumps, text_form};
ghost use Rattle.capture_datagrams.specs.declared.forms.Form.{Form as FormIs};

use crate::datagrams::{Unread, datagrams_behind};
use crate::texts::{TextForm, write_text};
use capture_files::{HEADER, Printer, begins_capture};
use snmpsec_io::read_full;
use std::alloc::Global;
use std::io::{Read, Write};

/// The form of a file with datagrams.
#[derive(Clone, Copy, Debug, PartialEq, Eq)]
pub enum Form {
    /// A capture.
    Pcap,
    /// Pasted hex.
    Hex,
    /// Dumps.
    Dump,
    /// Dumps of packets, each from its IP header on.
    Packets,
}

/// The form of this name: `pcap` or `pcapng`, `hex`, or `dump`. Dumps of packets have none.
pub fn form_of(word: &str) -> Option<Form>
    ensures found { IfSome result (λ form. IsFormWord form word.now) }
    ensures all { (form : FormIs) → IsFormWord form word.now → result ≡ Some form }
{
    if word == "pcap" || word == "pcapng" {
        return Some(Form::Pcap);
    }
    if word == "hex" {
        return Some(Form::Hex);
    }
    if word == "dump" {
        return Some(Form::Dump);
    }
    None
}

/// The file is dumps, or may be found to be: what is asked for goes with dumps of packets.
pub fn may_be_dumps(form: Option<Form>) -> bool
    ensures { result ≡ may_be_dumps form }
{
    match form {
        Some(Form::Dump | Form::Packets) | None => true,
        Some(Form::Pcap | Form::Hex) => false,
    }
}

/// What is asked of a file with datagrams.
#[derive(Clone, Copy)]
pub struct ReadOptions<'a> {
    /// The form of the file, or `None` where its octets tell.
    pub form: Option<Form>,
    /// The moment of what has none, in seconds.
    pub moment: u64,
    /// The ports that the datagrams of a capture, or of dumps of packets, are from or to.
    pub ports: &'a [u16],
    /// The name of the file, in the line that refuses it.
    pub name: &'a str,
}

/// The file that begins so is read as a capture: that is asked for, or it begins as one where no form is.
fn is_capture(form: Option<Form>, front: &[u8]) -> bool
    ensures { result ≡ is_capture form front.now }
{
    match form {
        Some(Form::Pcap) => true,
        Some(Form::Hex | Form::Dump | Form::Packets) => false,
        None => begins_capture(front),
    }
}

/// How a text is read.
pub(crate) fn text_form(asked: ReadOptions<'_>) -> TextForm<'_>
    ensures { result ≡ text_form asked.entry }
{
    match asked.form {
        Some(Form::Hex) => TextForm::Hex,
        Some(Form::Dump) => TextForm::Dump,
        Some(Form::Packets) => TextForm::Packets(asked.ports),
        Some(Form::Pcap) | None => TextForm::Found,
    }
}

/// What `snmpsec datagrams` does with a file, with the status that it ends with: `datagrams` where it is a
/// capture, and else what the printer makes of the octets of pasted hex, of each dump or of each datagram in
/// dumps of packets, or the line that refuses it. The status is 1 too where what is printed tells a refusal.
///
/// The errors are CannotRead, CannotWrite and OutOfMemory.
pub fn print_datagrams<P: Printer, R: Read, L: Write, N: Write>(
    alloc: Global,
    asked: ReadOptions<'_>,
    printer: &mut P,
    reader: &mut R,
    log: &mut L,
    notes: &mut N,
) -> Result<u8, Unread>
    ensures ok { IfOk result (TellsFile (P.prints printer.old) asked.entry
        (streams (R.remaining reader.old) (R.remaining reader.new)
        (L.contents log.old) (L.contents log.new)
        (N.contents notes.old) (N.contents notes.new))) }
    ensures err { IfErr result (StopsFile (P.prints printer.old) asked.entry
        (streams (R.remaining reader.old) (R.remaining reader.new)
        (L.contents log.old) (L.contents log.new)
        (N.contents notes.old) (N.contents notes.new))) }
{
    let mut octets = [0u8; HEADER];
    let Ok(count) = read_full(reader, &mut octets) else {
        return Err(Unread::CannotRead);
    };
    let front = &octets[..count];
    if is_capture(asked.form, front) {
        datagrams_behind(alloc, front, asked, printer, reader, log, notes)
    } else {
        write_text(alloc, front, asked, printer, reader, log, notes)
    }
}
