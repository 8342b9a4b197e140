//! What `snmpsec datagrams`, `show --from` and `open --from` print of each datagram of a file: a line of a
//! log, or what `show` and `open` do.

ghost use Rattle.std.specs.Prelude.{◌≡◌, IfErr, IfOk, string_bytes};
ghost use Rattle.capture_files.specs.Datagrams.{streams};
ghost use Rattle.capture_datagrams.specs.Printout.{LoadsUsers, OpensFile, PrintsAnyVersion, PrintsOpened};
ghost use Rattle.capture_datagrams.specs.Printout.{PrintsShown, StandsBehind, StopsOpening, StopsPrintout};
ghost use Rattle.capture_datagrams.specs.Printout.{TellsConfig, TellsNoUsers, TellsPrintout, head_line};
ghost use Rattle.capture_datagrams.specs.declared.printout.NoUsers.TheVariants as none;
ghost use Rattle.snmpsec_output.specs.Questions.{Printed as PrintedIs};

use crate::datagrams::Unread;
use crate::forms::{ReadOptions, print_datagrams};
use crate::texts::{Told, write_told};
use capture_files::{Lines, Printed, Printer};
use snmpsec_config::{Config, ConfigFault};
use snmpsec_output::{Output, open_datagram, refusal_and_why, show_any_version, show_datagram};
use std::alloc::{AllocError, Global};
use std::io::{Read, Write};
use thiserror::Error;
use usm_core::Users;

/// Prints each datagram as `show` does, behind a line `datagram N MOMENT`.
#[derive(Clone, Copy, Debug)]
pub struct Shows {
    /// Whether names follow the lines that have one.
    pub names: bool,
}

/// Prints each datagram as `show --community` does, behind a line `datagram N MOMENT`.
#[derive(Clone, Copy, Debug)]
pub struct ShowsAnyVersion {
    /// Whether names follow the lines that have one.
    pub names: bool,
}

/// Prints each datagram as `open` does, behind a line `datagram N MOMENT`.
#[derive(Drop)]
pub struct Opens {
    /// Whether names follow the lines that have one.
    pub names: bool,
    /// By whose keys it is opened.
    pub users: Users,
}

/// The line of a datagram.
fn head_line(alloc: Global, number: u64, moment: u64) -> Result<String, AllocError>
    ensures { IfOk result (λ text. string_bytes text ≡ head_line number moment) }
{
    format!(in alloc; "datagram {number} {moment}\n")
}

/// What a command prints, behind the line of the datagram.
fn behind_head(
    alloc: Global,
    number: u64,
    moment: u64,
    output: Output,
) -> Result<Printed, AllocError>
    ensures { let told : PrintedIs = record {
      out = output.out.items;
      err = output.err.items;
      status = output.status;
    } in
        IfOk result (λ printed. StandsBehind number moment told
        printed.text.items printed.refused) }
{
    let refused = output.status != 0;
    let mut text = head_line(alloc, number, moment)?.into_bytes();
    text.extend_from_slice(&output.out)?;
    Ok(Printed { text, refused })
}

impl Printer for Shows {
    ghost prints = { λ p. PrintsShown p.names };

    fn print(
        &mut self,
        alloc: Global,
        number: u64,
        moment: u64,
        datagram: &[u8],
    ) -> Result<Printed, AllocError> {
        let output = show_datagram(alloc, self.names, datagram)?;
        behind_head(alloc, number, moment, output)
    }
}

impl Printer for ShowsAnyVersion {
    ghost prints = { λ p. PrintsAnyVersion p.names };

    fn print(
        &mut self,
        alloc: Global,
        number: u64,
        moment: u64,
        datagram: &[u8],
    ) -> Result<Printed, AllocError> {
        let output = show_any_version(alloc, self.names, datagram)?;
        behind_head(alloc, number, moment, output)
    }
}

impl Printer for Opens {
    ghost prints = { λ p. PrintsOpened p.names p.users.users };

    fn print(
        &mut self,
        alloc: Global,
        number: u64,
        moment: u64,
        datagram: &[u8],
    ) -> Result<Printed, AllocError> {
        let output = open_datagram(alloc, self.names, &mut self.users, datagram)?;
        behind_head(alloc, number, moment, output)
    }
}

/// What is printed of the datagrams of a file.
#[derive(Clone, Copy)]
pub enum Printout<'a> {
    /// A line of a log of each.
    Log,
    /// What `show` prints of each, with names where they are asked for.
    Shown { names: bool },
    /// What `show --community` prints of each, with names where they are asked for.
    ShownAnyVersion { names: bool },
    /// What `open` prints of each by the users of this configuration, with names where they are asked for.
    Opened { config: &'a [u8], names: bool },
}

/// Why there are no users.
#[derive(Debug, Drop, Error)]
enum NoUsers {
    /// The configuration is refused, by these lines.
    #[error("the configuration is refused")]
    Refused(Told),
    /// A growth of memory was refused.
    #[error("out of memory")]
    OutOfMemory,
}

impl From<AllocError> for NoUsers {
    ghost from_gives = { λ _ e. e ≡ none.OutOfMemory };

    fn from(_fault: AllocError) -> NoUsers {
        NoUsers::OutOfMemory
    }
}

/// The users of a configuration.
fn users_of(alloc: Global, config: &[u8]) -> Result<Users, NoUsers>
    ensures loads { IfOk result (λ users. LoadsUsers config.now users.users) }
    ensures none { IfErr result (TellsNoUsers config.now) }
{
    match Config::read(alloc, config) {
        Ok(config) => Ok(config.users),
        Err(fault) if fault.is_memory() => Err(NoUsers::OutOfMemory),
        Err(fault) => Err(NoUsers::Refused(refused_config(alloc, &fault)?)),
    }
}

/// The line of a configuration that is refused, what is wrong with it beside, and status 1.
fn refused_config(alloc: Global, fault: &ConfigFault) -> Result<Told, AllocError>
    ensures { IfOk result
        (λ told. TellsConfig fault.now told.text.items told.note.items × (told.status ≡ 1)) }
{
    let output = refusal_and_why(alloc, fault)?;
    Ok(Told {
        text: output.out,
        note: output.err,
        status: output.status,
    })
}

/// What `snmpsec open CONFIG --from FILE` does, with the status that it ends with: the line of the
/// configuration, if that is refused, with what is wrong in `notes` and status 1, and nothing is read; or else
/// of each datagram of the file what `open` prints, as `print_datagrams` says.
///
/// The errors are CannotRead, CannotWrite and OutOfMemory.
fn open_datagrams<R: Read, L: Write, N: Write>(
    alloc: Global,
    config: &[u8],
    names: bool,
    asked: ReadOptions<'_>,
    reader: &mut R,
    log: &mut L,
    notes: &mut N,
) -> Result<u8, Unread>
    ensures ok { IfOk result (OpensFile names config.now asked.entry
        (streams (R.remaining reader.old) (R.remaining reader.new)
        (L.contents log.old) (L.contents log.new)
        (N.contents notes.old) (N.contents notes.new))) }
    ensures err { IfErr result (StopsOpening names config.now asked.entry
        (streams (R.remaining reader.old) (R.remaining reader.new)
        (L.contents log.old) (L.contents log.new)
        (N.contents notes.old) (N.contents notes.new))) }
{
    match users_of(alloc, config) {
        Ok(users) => {
            let mut printer = Opens { names, users };
            print_datagrams(alloc, asked, &mut printer, reader, log, notes)
        }
        Err(NoUsers::Refused(told)) => write_told(&told, log, notes),
        Err(NoUsers::OutOfMemory) => Err(Unread::OutOfMemory),
    }
}

/// Reads a file, and writes what is asked for of its datagrams; answers the status: 0, or 1 where the file or
/// the configuration is refused by a line, or what is printed of a datagram tells a refusal.
///
/// The errors are CannotRead, CannotWrite and OutOfMemory.
pub fn write_printout<R: Read, L: Write, N: Write>(
    alloc: Global,
    printout: Printout<'_>,
    asked: ReadOptions<'_>,
    reader: &mut R,
    log: &mut L,
    notes: &mut N,
) -> Result<u8, Unread>
    ensures ok { IfOk result (TellsPrintout printout.entry asked.entry
        (streams (R.remaining reader.old) (R.remaining reader.new)
        (L.contents log.old) (L.contents log.new)
        (N.contents notes.old) (N.contents notes.new))) }
    ensures err { IfErr result (StopsPrintout printout.entry asked.entry
        (streams (R.remaining reader.old) (R.remaining reader.new)
        (L.contents log.old) (L.contents log.new)
        (N.contents notes.old) (N.contents notes.new))) }
{
    match printout {
        Printout::Log => print_datagrams(alloc, asked, &mut Lines, reader, log, notes),
        Printout::Shown { names } => {
            let mut printer = Shows { names };
            print_datagrams(alloc, asked, &mut printer, reader, log, notes)
        }
        Printout::ShownAnyVersion { names } => {
            let mut printer = ShowsAnyVersion { names };
            print_datagrams(alloc, asked, &mut printer, reader, log, notes)
        }
        Printout::Opened { config, names } => {
            open_datagrams(alloc, config, names, asked, reader, log, notes)
        }
    }
}
