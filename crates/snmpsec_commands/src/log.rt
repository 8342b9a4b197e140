//! `snmpsec replay`, from its words to what it writes.

ghost use Rattle.std.specs.Prelude.{◌≤◌};

use crate::arguments::{first_line_argument, moment_argument};
use crate::complaint::Complaint;
use crate::datagrams::wanted_of;
use crate::files::{fault_of, log_of, octets_of};
use crate::replay::{Beginning, ReplayEnd, replay};
use crate::replay_source::replay_file;
use snmpsec_cli::{DatagramsWords, ReplayWords};
use snmpsec_io::Watched;
use snmpsec_output::Output;
use snmpsec_replay::{LogLineFault, Printing, ReplayFault};
use std::alloc::{AllocError, Global};
use std::io::{BufReader, Input, Read, Write};
use std::rt::Files;

/// Looks at the moment and the number of the first line before it opens a file, and then replays the log.
pub(crate) fn replay_log<R: Files + Input + AllocGlobal, O: Write, E: Write>(
    rt: &R,
    words: &ReplayWords<'_>,
    out: &mut O,
    err: &mut E,
) -> Result<Output, Complaint> {
    let moment = moment_argument(rt.alloc(), words.moment)?;
    let first = first_line_argument(rt.alloc(), words.from_line)?;
    let printing = Printing {
        first,
        lines: !words.clocks_only,
    };
    match words.from {
        Some(name) => replay_datagrams(rt, moment, printing, words, name, out, err),
        None => replay_files(rt, moment, printing, words, out),
    }
}

/// Looks at what is asked of the file of datagrams, reads the configuration and the clocks file whole and opens the
/// file, before it looks at what they say.
fn replay_datagrams<'a, R: Files + Input + AllocGlobal, O: Write, E: Write>(
    rt: &R,
    moment: u64,
    printing: Printing,
    words: &ReplayWords<'a>,
    name: &'a str,
    out: &mut O,
    err: &mut E,
) -> Result<Output, Complaint> {
    let source = DatagramsWords {
        form: words.form,
        ports: words.ports,
        from_port: words.from_port,
        moment: None,
        ip: false,
        file: name,
    };
    let wanted = wanted_of(rt.alloc(), &source)?;
    let config = octets_of(rt, words.config)?;
    let clocks = octets_of(rt, words.clocks)?;
    let beginning = Beginning {
        moment,
        config: &config,
        clocks_name: words.clocks,
        clocks: &clocks,
    };
    replay_file(rt, beginning, printing, &wanted, name, out, err)
}

/// Reads the configuration and the clocks file whole and opens the log, before it looks at what they say.
fn replay_files<R: Files + Input + AllocGlobal, O: Write>(
    rt: &R,
    moment: u64,
    printing: Printing,
    words: &ReplayWords<'_>,
    out: &mut O,
) -> Result<Output, Complaint>
    requires { printing.first ≤ 1000000000000000 }
{
    let config = octets_of(rt, words.config)?;
    let clocks = octets_of(rt, words.clocks)?;
    let beginning = Beginning {
        moment,
        config: &config,
        clocks_name: words.clocks,
        clocks: &clocks,
    };
    let mut log = log_of(rt, words.log)?;
    match replay(rt.alloc(), beginning, printing, &mut log, out) {
        Ok(end) => Ok(output_of(rt.alloc(), end)),
        Err(fault) => Err(complaint_of(rt.alloc(), words.log, &log, fault)),
    }
}

/// What is printed behind what was written.
fn output_of(alloc: Global, end: ReplayEnd) -> Output {
    match end {
        ReplayEnd::Replayed => Output::out(alloc, Vec::new(alloc), 0),
        ReplayEnd::Refused { why } => Output::refuse(alloc, String::new(alloc), why),
    }
}

/// The complaint where a replay stops.
fn complaint_of<R: Read + Drop>(
    alloc: Global,
    name: &str,
    log: &BufReader<Watched<R>>,
    fault: ReplayFault,
) -> Complaint {
    match fault {
        ReplayFault::LogLine(number, why) => match line_complaint(alloc, number, why) {
            Ok(complaint) => complaint,
            Err(_) => Complaint::OutOfMemory,
        },
        ReplayFault::CannotRead => Complaint::unread(alloc, name, fault_of(log)),
        ReplayFault::CannotWrite => Complaint::line(alloc, "cannot write"),
        ReplayFault::OutOfMemory => Complaint::OutOfMemory,
    }
}

/// The complaint of a line that is none.
fn line_complaint(alloc: Global, number: u64, why: LogLineFault) -> Result<Complaint, AllocError> {
    let line = format!(in alloc; "log line {number}")?;
    let why = format!(in alloc; "line {number}: {why}")?;
    Ok(Complaint::Told {
        line,
        why: Some(why),
    })
}
