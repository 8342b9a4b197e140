//! Commands over the datagrams of a file: `datagrams`, `show --from` and `open --from`.

use crate::arguments::{form_argument, from_port_argument, moment_argument, ports_argument};
use crate::complaint::Complaint;
use crate::files::{log_of, octets_of};
use crate::source_log::{RefusalLine, SourceLog};
use capture_datagrams::datagrams::Unread;
use capture_datagrams::forms::{Form, ReadOptions, print_datagrams};
use capture_datagrams::logs::{FRONT, begins_log, print_log};
use capture_datagrams::one_way::OneWay;
use capture_datagrams::printout::{Opens, Printout, Shows, ShowsAnyVersion, write_printout};
use capture_files::{Lines, Printer};
use snmpsec_cli::DatagramsWords;
use snmpsec_config::{Config, ConfigFault};
use snmpsec_io::{ReadFault, Watched, read_full, write_whole};
use snmpsec_output::{Output, refusal_and_why};
use std::alloc::Global;
use std::io::{BufReader, BufWriter, Input, Read, Write};
use std::rt::Files;

/// What the words ask of a file.
#[derive(Drop)]
pub struct SourceOptions {
    form: Option<Form>,
    /// Whether the file is a log, or None if its octets are to tell it.
    is_log: Option<bool>,
    ports: Vec<u16>,
    from_port: Option<u16>,
    moment: u64,
}

impl SourceOptions {
    /// These options for the reader of the file of this name.
    pub(crate) fn options<'a>(&'a self, name: &'a str) -> ReadOptions<'a> {
        ReadOptions {
            form: self.form,
            moment: self.moment,
            ports: &self.ports,
            name,
        }
    }

    /// The port that the datagrams are from, if one is asked for.
    pub(crate) fn from_port(&self) -> Option<u16> {
        self.from_port
    }

    /// The file that begins so is read as a log: that is asked for, or it begins as one where no form is.
    fn reads_log(&self, front: &[u8]) -> bool {
        match self.is_log {
            Some(is_log) => is_log,
            None => begins_log(front),
        }
    }
}

/// Looks at the form, the ports and the moment, in this order.
pub fn wanted_of(alloc: Global, words: &DatagramsWords<'_>) -> Result<SourceOptions, Complaint> {
    let is_log = words.form == Some("log") && !words.ip;
    let word = if is_log { None } else { words.form };
    let form = form_argument(alloc, word, words.ip)?;
    let ports = ports_argument(alloc, words.ports)?;
    let from_port = from_port_argument(alloc, words.from_port)?;
    let moment = moment_argument(alloc, words.moment)?;
    let is_told = words.form.is_some() || words.ip;
    Ok(SourceOptions {
        form,
        is_log: if is_told { Some(is_log) } else { None },
        ports,
        from_port,
        moment,
    })
}

/// Looks at the words before it opens the file, and then writes the log of its datagrams. `-` is standard input.
pub(crate) fn log_file<R: Files + Input + AllocGlobal, O: Write, E: Write>(
    rt: &R,
    words: &DatagramsWords<'_>,
    out: &mut O,
    err: &mut E,
) -> Result<Output, Complaint> {
    let wanted = wanted_of(rt.alloc(), words)?;
    print_file(rt, Printout::Log, &wanted, words.file, out, err)
}

/// Looks at the words before it opens the file, and then writes what `show` prints of each datagram, of messages with
/// a community too where these are asked for.
pub(crate) fn show_file<R: Files + Input + AllocGlobal, O: Write, E: Write>(
    rt: &R,
    words: &DatagramsWords<'_>,
    names: bool,
    community: bool,
    out: &mut O,
    err: &mut E,
) -> Result<Output, Complaint> {
    let wanted = wanted_of(rt.alloc(), words)?;
    let shown = if community {
        Printout::ShownAnyVersion { names }
    } else {
        Printout::Shown { names }
    };
    print_file(rt, shown, &wanted, words.file, out, err)
}

/// Looks at the words, reads the configuration whole and opens the file, before it looks at what they say;
/// and then writes what `open` prints of each datagram.
pub(crate) fn open_file<R: Files + Input + AllocGlobal, O: Write, E: Write>(
    rt: &R,
    config: &str,
    words: &DatagramsWords<'_>,
    names: bool,
    out: &mut O,
    err: &mut E,
) -> Result<Output, Complaint> {
    let wanted = wanted_of(rt.alloc(), words)?;
    let octets = octets_of(rt, config)?;
    let opened = Printout::Opened {
        config: &octets,
        names,
    };
    print_file(rt, opened, &wanted, words.file, out, err)
}

/// Opens the file, and writes what is printed of its datagrams, as much at once as a buffer has room for.
fn print_file<R: Files + Input + AllocGlobal, O: Write, E: Write>(
    rt: &R,
    printout: Printout<'_>,
    wanted: &SourceOptions,
    name: &str,
    out: &mut O,
    err: &mut E,
) -> Result<Output, Complaint> {
    let mut reader = log_of(rt, name)?;
    let printed = print_read(rt.alloc(), printout, wanted, name, &mut reader, out, err);
    drop(reader);
    printed
}

/// Writes what is printed of the datagrams that are read, as much at once as a buffer has room for.
fn print_read<R: Read + Drop, O: Write, E: Write>(
    alloc: Global,
    printout: Printout<'_>,
    wanted: &SourceOptions,
    name: &str,
    reader: &mut BufReader<Watched<R>>,
    out: &mut O,
    err: &mut E,
) -> Result<Output, Complaint> {
    let Ok(mut buffer) = BufWriter::new(alloc, out) else {
        return Err(Complaint::OutOfMemory);
    };
    let mut log = SourceLog::new(alloc, name, RefusalLine::Kept, &mut buffer);
    let answer = print_printout(alloc, printout, wanted, name, reader, &mut log, err);
    let why = log.why()?;
    if buffer.flush().is_err() {
        return Err(Complaint::line(alloc, "cannot write"));
    }
    match answer {
        Ok(status) => Ok(Output {
            why,
            ..Output::out(alloc, Vec::new(alloc), status)
        }),
        Err(fault) => Err(stop(alloc, name, reader, fault)),
    }
}

/// The complaint where the datagrams of the file of this name aren't printed to its end.
pub fn stop<R: Read + Drop>(
    alloc: Global,
    name: &str,
    reader: &BufReader<Watched<R>>,
    fault: Unread,
) -> Complaint {
    match fault {
        Unread::CannotRead => {
            // (no read failed where the text is over the limit)
            let fault = reader.get_ref().fault().unwrap_or(ReadFault::TooLarge);
            Complaint::unread(alloc, name, fault)
        }
        Unread::CannotWrite => Complaint::line(alloc, "cannot write"),
        Unread::OutOfMemory => Complaint::OutOfMemory,
    }
}

/// Writes what is printed of what is read.
fn print_printout<R: Read, O: Write, E: Write>(
    alloc: Global,
    printout: Printout<'_>,
    wanted: &SourceOptions,
    name: &str,
    reader: &mut R,
    log: &mut O,
    err: &mut E,
) -> Result<u8, Unread> {
    let mut octets = [0u8; FRONT];
    let Ok(count) = read_full(reader, &mut octets) else {
        return Err(Unread::CannotRead);
    };
    let front = &octets[..count];
    let source = Source {
        wanted,
        name,
        is_log: wanted.reads_log(front),
    };
    let mut whole = front.chain(reader);
    if !source.is_log && wanted.from_port.is_none() {
        return write_printout(alloc, printout, wanted.options(name), &mut whole, log, err);
    }
    match printout {
        Printout::Log => print_one_way(alloc, source, Lines, &mut whole, log, err),
        Printout::Shown { names } => {
            print_one_way(alloc, source, Shows { names }, &mut whole, log, err)
        }
        Printout::ShownAnyVersion { names } => {
            let shows = ShowsAnyVersion { names };
            print_one_way(alloc, source, shows, &mut whole, log, err)
        }
        Printout::Opened { config, names } => {
            print_opened(alloc, source, names, config, &mut whole, log, err)
        }
    }
}

/// Writes what `open` prints of the datagrams of a file, or why the configuration is refused.
fn print_opened<R: Read, O: Write, E: Write>(
    alloc: Global,
    source: Source<'_>,
    names: bool,
    config: &[u8],
    reader: &mut R,
    log: &mut O,
    err: &mut E,
) -> Result<u8, Unread> {
    match Config::read(alloc, config) {
        Ok(config) => {
            let users = config.users;
            print_one_way(alloc, source, Opens { names, users }, reader, log, err)
        }
        Err(fault) => {
            let refused = refuse_config(alloc, &fault, log, err);
            drop(fault);
            refused
        }
    }
}

/// Writes why a configuration is refused.
fn refuse_config<O: Write, E: Write>(
    alloc: Global,
    fault: &ConfigFault,
    log: &mut O,
    err: &mut E,
) -> Result<u8, Unread> {
    if fault.is_memory() {
        return Err(Unread::OutOfMemory);
    }
    match refusal_and_why(alloc, fault) {
        Ok(refusal) => {
            let written = write_refusal(&refusal, log, err);
            drop(refusal);
            written
        }
        Err(_) => Err(Unread::OutOfMemory),
    }
}

/// A file of datagrams, and what is asked of it.
#[derive(Clone, Copy)]
struct Source<'a> {
    wanted: &'a SourceOptions,
    name: &'a str,
    is_log: bool,
}

/// Writes the lines of a configuration that is refused.
fn write_refusal<O: Write, E: Write>(
    refusal: &Output,
    log: &mut O,
    err: &mut E,
) -> Result<u8, Unread> {
    if write_whole(log, &refusal.out).is_err() || write_whole(err, &refusal.err).is_err() {
        return Err(Unread::CannotWrite);
    }
    Ok(refusal.status)
}

/// Writes what a printer makes of the datagrams of a file, from one port if that is asked for.
fn print_one_way<P: Printer + Drop, R: Read, O: Write, E: Write>(
    alloc: Global,
    source: Source<'_>,
    printer: P,
    reader: &mut R,
    log: &mut O,
    err: &mut E,
) -> Result<u8, Unread> {
    let mut printer = OneWay::new(printer, source.wanted.from_port);
    print_all(alloc, source, &mut printer, reader, log, err)
}

/// Writes what a printer makes of the datagrams of a file.
fn print_all<P: Printer, R: Read, O: Write, E: Write>(
    alloc: Global,
    source: Source<'_>,
    printer: &mut P,
    reader: &mut R,
    log: &mut O,
    err: &mut E,
) -> Result<u8, Unread> {
    if !source.is_log {
        let asked = source.wanted.options(source.name);
        return print_datagrams(alloc, asked, printer, reader, log, err);
    }
    match BufReader::new(alloc, reader) {
        Ok(mut lines) => print_log(alloc, source.name, printer, &mut lines, log, err),
        Err(_) => Err(Unread::OutOfMemory),
    }
}

/// Writes what a printer makes of the datagrams that are read, from one port if that is asked for.
pub fn print_source<P: Printer, R: Read, O: Write, E: Write>(
    alloc: Global,
    wanted: &SourceOptions,
    name: &str,
    printer: &mut P,
    reader: &mut R,
    log: &mut O,
    err: &mut E,
) -> Result<u8, Unread> {
    let mut octets = [0u8; FRONT];
    let Ok(count) = read_full(reader, &mut octets) else {
        return Err(Unread::CannotRead);
    };
    let front = &octets[..count];
    let source = Source {
        wanted,
        name,
        is_log: wanted.reads_log(front),
    };
    let mut whole = front.chain(reader);
    print_all(alloc, source, printer, &mut whole, log, err)
}
