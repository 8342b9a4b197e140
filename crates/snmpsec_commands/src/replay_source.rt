//! `snmpsec replay --from`: the datagrams of a file, taken by a manager.

ghost use Rattle.std.specs.Prelude.{⊤};

use crate::complaint::Complaint;
use crate::datagrams::{SourceOptions, print_source, stop};
use crate::files::log_of;
use crate::replay::{Beginning, NoManager, manager_of};
use crate::source_log::{RefusalLine, SourceLog};
use capture_datagrams::one_way::OneWay;
use capture_files::{Printed, Printer};
use snmp_manager::Manager;
use snmpsec_io::write_whole;
use snmpsec_output::Output;
use snmpsec_replay::{Printing, answer_line};
use std::alloc::{AllocError, Global};
use std::io::{BufWriter, Input, Write};
use std::rt::Files;

/// A manager that takes each datagram, and the line for it where lines are wanted.
#[derive(Drop)]
struct Taking {
    manager: Manager,
    printing: Printing,
}

impl Printer for Taking {
    ghost prints = { λ taking number moment datagram text refused. ⊤ };

    fn print(
        &mut self,
        alloc: Global,
        number: u64,
        moment: u64,
        datagram: &[u8],
    ) -> Result<Printed, AllocError> {
        let outcome = self.manager.take_one(moment, datagram)?;
        let text = if self.printing.lines {
            let number = self.printing.first.saturating_sub(1).saturating_add(number);
            answer_line(alloc, number, moment, outcome)?.into_bytes()
        } else {
            Vec::new(alloc)
        };
        Ok(Printed {
            text,
            refused: false,
        })
    }
}

/// Opens the file, and writes the lines of its datagrams, and then the saved clocks, unless the file is out of its
/// form. The configuration is looked at first, then the clocks file, then the file of datagrams.
pub(crate) fn replay_file<R: Files + Input + AllocGlobal, O: Write, E: Write>(
    rt: &R,
    beginning: Beginning<'_>,
    printing: Printing,
    wanted: &SourceOptions,
    name: &str,
    out: &mut O,
    err: &mut E,
) -> Result<Output, Complaint> {
    let alloc = rt.alloc();
    let manager = match manager_of(alloc, beginning) {
        Ok(manager) => manager,
        Err(NoManager::Refused(output)) => return Ok(output),
        Err(NoManager::OutOfMemory) => return Err(Complaint::OutOfMemory),
    };
    let mut reader = log_of(rt, name)?;
    let Ok(mut buffer) = BufWriter::new(alloc, out) else {
        return Err(Complaint::OutOfMemory);
    };
    let mut log = SourceLog::new(alloc, name, RefusalLine::Kept, &mut buffer);
    let mut printer = OneWay::new(Taking { manager, printing }, wanted.from_port());
    let answer = print_source(
        alloc,
        wanted,
        name,
        &mut printer,
        &mut reader,
        &mut log,
        err,
    );
    let why = log.why()?;
    let saved = match answer {
        Ok(0) => write_saved(&printer.into_printer().manager, &mut buffer),
        _ => Ok(()),
    };
    if buffer.flush().is_err() {
        return Err(Complaint::line(alloc, "cannot write"));
    }
    match answer {
        Ok(status) => saved.map(|()| Output {
            why,
            ..Output::out(alloc, Vec::new(alloc), status)
        }),
        Err(fault) => Err(stop(alloc, name, &reader, fault)),
    }
}

/// Writes the saved text of what the manager holds. A write that fails shows when the buffer is written.
fn write_saved<W: Write>(manager: &Manager, log: &mut W) -> Result<(), Complaint> {
    let text = manager.save()?;
    let _ = write_whole(log, &text);
    Ok(())
}
