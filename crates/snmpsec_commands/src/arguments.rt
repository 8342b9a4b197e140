//! Arguments of the command line that commands read themselves.

ghost use Rattle.std.specs.Prelude.{◌≤◌, IfOk};

use crate::complaint::Complaint;
use crate::replay::first_line_of;
use capture_datagrams::datagrams::{PortsFault, ports_of};
use capture_datagrams::forms::{Form, form_of, may_be_dumps};
use snmpsec_output::moment_of;
use std::alloc::Global;

/// MOMENT, in whole seconds, or 0 if it is left out.
pub(crate) fn moment_argument(alloc: Global, word: Option<&str>) -> Result<u64, Complaint> {
    let word = word.unwrap_or("0");
    let why = "it isn't whole seconds from 0 to 18446744073709551615";
    match moment_of(word) {
        Some(moment) => Ok(moment),
        None => Err(Complaint::word(alloc, "MOMENT", word, why, "write them as 1700000000")),
    }
}

/// N, the number of a log's first line, or 1 if it is left out.
pub(crate) fn first_line_argument(alloc: Global, word: Option<&str>) -> Result<u64, Complaint>
    ensures { IfOk result (λ first. first ≤ 1000000000000000) }
{
    let word = word.unwrap_or("1");
    let why = "it isn't a number from 1 to 1000000000000000";
    match first_line_of(word) {
        Some(first) => Ok(first),
        None => Err(Complaint::word(alloc, "N", word, why, "1 is the first line of a log")),
    }
}

/// FORM, or None if the file's octets are to tell it. With `--ip` it is that of dumps of packets, which goes with no
/// other FORM than that of dumps.
pub(crate) fn form_argument(
    alloc: Global,
    word: Option<&str>,
    ip: bool,
) -> Result<Option<Form>, Complaint> {
    let form = match word {
        Some(word) => Some(named_form(alloc, word)?),
        None => None,
    };
    if !ip {
        return Ok(form);
    }
    if may_be_dumps(form) {
        return Ok(Some(Form::Packets));
    }
    let (why, wanted) = ("--ip is for dumps", "use dump, or leave FORM out");
    Err(Complaint::word(alloc, "FORM", word.unwrap_or(""), why, wanted))
}

/// The form of this name.
fn named_form(alloc: Global, word: &str) -> Result<Form, Complaint> {
    let wanted = "use pcap, pcapng, log, hex or dump";
    match form_of(word) {
        Some(form) => Ok(form),
        None => Err(Complaint::word(alloc, "FORM", word, "unknown form", wanted)),
    }
}

/// Each PORT, or the ports of SNMP if there is none.
pub(crate) fn ports_argument(alloc: Global, words: &[&str]) -> Result<Vec<u16>, Complaint> {
    let why = "it isn't a number from 0 to 65535";
    match ports_of(alloc, words) {
        Ok(ports) => Ok(ports),
        Err(PortsFault::NoPort(word)) => {
            Err(Complaint::word(alloc, "PORT", word, why, "161 is the port of agents"))
        }
        Err(PortsFault::OutOfMemory) => Err(Complaint::OutOfMemory),
    }
}

/// FROM_PORT, or None if it is left out.
pub(crate) fn from_port_argument(
    alloc: Global,
    word: Option<&str>,
) -> Result<Option<u16>, Complaint> {
    let Some(word) = word else {
        return Ok(None);
    };
    let ports = ports_argument(alloc, &[word])?;
    Ok(ports.first().copied())
}
