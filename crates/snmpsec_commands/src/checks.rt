//! `snmpsec check-clocks` and `snmpsec check-log`: whether a file is what it is to be, and what is wrong
//! if it isn't.

use crate::complaint::Complaint;
use crate::files::{fault_of, log_of, octets_of};
use engine_clock::Clocks;
use snmpsec_io::Watched;
use snmpsec_output::{Output, refused_clocks};
use snmpsec_replay::{CheckedLog, LogLineFault, ReplayFault, check_log};
use std::alloc::{AllocError, Global};
use std::io::{BufReader, Input, Read};
use std::rt::Files;

/// A line `clocks FILE engine N` for each file, with the number of its engines. The first that isn't read or
/// is refused ends it, with no line for those before.
pub(crate) fn check_clocks_files<R: Files + Input + AllocGlobal>(
    rt: &R,
    names: &[&str],
) -> Result<Output, Complaint> {
    let alloc = rt.alloc();
    let mut lines = Vec::new(alloc);
    for name in names {
        let octets = octets_of(rt, name)?;
        let refused = count_engines(alloc, &mut lines, name, &octets);
        drop(octets);
        if let Some(refusal) = refused? {
            return Ok(refusal);
        }
    }
    Ok(Output::out(alloc, lines, 0))
}

/// Appends the line of a file that is saved clocks, or returns why it isn't.
fn count_engines(
    alloc: Global,
    lines: &mut Vec<u8>,
    name: &str,
    octets: &[u8],
) -> Result<Option<Output>, AllocError> {
    match Clocks::read_saved(alloc, octets, 0) {
        Ok(clocks) => {
            drop(clocks);
            push_count(alloc, lines, name, octets)?;
            Ok(None)
        }
        Err(fault) => Ok(Some(refused_clocks(alloc, name, fault, octets)?)),
    }
}

/// Appends the line of a file that is saved clocks.
fn push_count(
    alloc: Global,
    lines: &mut Vec<u8>,
    name: &str,
    octets: &[u8],
) -> Result<(), AllocError> {
    // (a line for the heading, and one for each engine)
    let count = octets.iter().filter(|octet| **octet == b'\n').count();
    let line = format!(in alloc; "clocks {name} engine {}\n", count.saturating_sub(1))?;
    lines.extend_from_slice(line.as_bytes())
}

/// A line `line N` with the number of the log's lines, or the first that is at fault, and what is wrong with it.
pub(crate) fn check_log_file<R: Files + Input + AllocGlobal>(
    rt: &R,
    name: &str,
) -> Result<Output, Complaint> {
    let mut reader = log_of(rt, name)?;
    let output = check_lines(rt.alloc(), name, &mut reader);
    drop(reader);
    output
}

/// A line `line N` with the number of the lines that are read, or the first that is at fault, and what is wrong
/// with it.
fn check_lines<R: Read + Drop>(
    alloc: Global,
    name: &str,
    reader: &mut BufReader<Watched<R>>,
) -> Result<Output, Complaint> {
    match check_log(alloc, reader) {
        Ok(CheckedLog::Whole(count)) => {
            let line = format!(in alloc; "line {count}\n")?;
            Ok(Output::out(alloc, line.into_bytes(), 0))
        }
        Ok(CheckedLog::Faulty { number, why }) => Ok(refused_log(alloc, name, number, why)?),
        Err(ReplayFault::OutOfMemory) => Err(Complaint::OutOfMemory),
        Err(_) => Err(Complaint::unread(alloc, name, fault_of(reader))),
    }
}

/// The line for a log that is none, and what is wrong with its line.
fn refused_log(
    alloc: Global,
    name: &str,
    number: u64,
    why: LogLineFault,
) -> Result<Output, AllocError> {
    let line = format!(in alloc; "refused log {name} line {number}\n")?;
    let why = format!(in alloc; "line {number}: {why}")?;
    Ok(Output::refuse(alloc, line, Some(why)))
}
