//! `snmpsec diagnose`: what became of each request in a capture.

use crate::arguments::{agent_argument, engine_argument, user_argument};
use crate::refused_file::refusal_object;
use diagnose_text::{DiagnoseOptions, Diagnoser, Style};
use engine_clock::Clocks;
use snmpsec_access::Explainer;
use snmpsec_cli::{Command, DiagnoseWords, Invocation, diagnose_words};
use snmpsec_commands::run::Program;
use snmpsec_commands::{
    Complaint, FaultPlace, RefusalLine, SourceLog, SourceOptions, log_of, octets_of, print_source,
    stop, wanted_of,
};
use snmpsec_config::{AccessConfig, Config, ConfigFault};
use snmpsec_io::{Watched, write_whole};
use snmpsec_output::{Output, refused_clocks};
use std::alloc::{AllocError, Global};
use std::io::{BufReader, BufWriter, Input, Read, Write};
use std::rt::Files;
use usm_core::Users;

/// The program that has `diagnose`.
#[derive(Clone, Copy, Debug)]
pub(crate) struct Diagnose;

impl Program for Diagnose {
    fn command<R: Files + Input + AllocGlobal, O: Write, E: Write>(
        &self,
        rt: &R,
        asked: &Invocation<'_, '_>,
        out: &mut O,
        err: &mut E,
    ) -> Result<Output, Complaint> {
        match asked.command {
            Command::Diagnose => diagnose_file(rt, &diagnose_words(asked.words), out, err),
            _ => Err(Complaint::line(rt.alloc(), "this program has diagnose alone; run snmpsec")),
        }
    }
}

/// Looks at the words, reads the configuration and the clocks whole and opens the file, before it looks at what they
/// say; and then writes a block for each exchange.
fn diagnose_file<R: Files + Input + AllocGlobal, O: Write, E: Write>(
    rt: &R,
    words: &DiagnoseWords<'_>,
    out: &mut O,
    err: &mut E,
) -> Result<Output, Complaint> {
    let wanted = wanted_of(rt.alloc(), &words.source)?;
    let output = diagnose_wanted(rt, words, &wanted, out, err);
    drop(wanted);
    output
}

/// Makes the diagnoser, and writes what it makes of the datagrams; or returns what is printed where the configuration
/// or the clocks file is refused.
fn diagnose_wanted<R: Files + Input + AllocGlobal, O: Write, E: Write>(
    rt: &R,
    words: &DiagnoseWords<'_>,
    wanted: &SourceOptions,
    out: &mut O,
    err: &mut E,
) -> Result<Output, Complaint> {
    match read_diagnoser(rt, words)? {
        Ok(mut diagnoser) => {
            let name = words.source.file;
            let output = diagnose_named(rt, &mut diagnoser, wanted, name, out, err);
            drop(diagnoser);
            output
        }
        Err(refused) => Ok(refused),
    }
}

/// The diagnoser of the words, whose configuration and clocks file are read.
fn read_diagnoser<R: Files + Input + AllocGlobal>(
    rt: &R,
    words: &DiagnoseWords<'_>,
) -> Result<Result<Diagnoser, Output>, Complaint> {
    let options = diagnose_options(rt.alloc(), words)?;
    let config = octets_of(rt, words.config)?;
    let made = read_clocks(rt, words, &config, options);
    drop(config);
    made
}

/// The diagnoser of the words and this configuration, whose clocks file is read.
fn read_clocks<R: Files + Input + AllocGlobal>(
    rt: &R,
    words: &DiagnoseWords<'_>,
    config: &[u8],
    options: DiagnoseOptions,
) -> Result<Result<Diagnoser, Output>, Complaint> {
    let alloc = rt.alloc();
    let clocks = match words.clocks {
        Some(name) => octets_of(rt, name)?,
        None => Vec::new(alloc),
    };
    let made = diagnoser_of(alloc, config, words.clocks, &clocks, options);
    drop(clocks);
    made
}

/// What the words ask to be printed. The names are looked at first, then the engine IDs, and then the agents.
fn diagnose_options(
    alloc: Global,
    words: &DiagnoseWords<'_>,
) -> Result<DiagnoseOptions, Complaint> {
    let mut options = DiagnoseOptions::all(alloc);
    if words.json {
        options.style = Style::Json;
    }
    for word in words.users {
        options.users.push(user_argument(alloc, word)?)?;
    }
    for word in words.engines {
        options.engines.push(engine_argument(alloc, word)?)?;
    }
    for word in words.agents {
        options.agents.push(agent_argument(alloc, word)?)?;
    }
    Ok(options)
}

/// The diagnoser with the users of the configuration and the clocks of the clocks file; or what is printed where one of
/// them is refused.
fn diagnoser_of(
    alloc: Global,
    text: &[u8],
    clocks_name: Option<&str>,
    saved: &[u8],
    options: DiagnoseOptions,
) -> Result<Result<Diagnoser, Output>, Complaint> {
    match users_of(alloc, text)? {
        Ok(users) => {
            let clocks = clocks_of(alloc, clocks_name, saved);
            diagnoser_with(alloc, text, users, clocks, options)
        }
        Err(refused) => Ok(Err(refused)),
    }
}

/// The users of a configuration; or what is printed where it is refused.
fn users_of(alloc: Global, text: &[u8]) -> Result<Result<Users, Output>, Complaint> {
    match Config::read(alloc, text) {
        Ok(config) => Ok(Ok(config.users)),
        Err(fault) => {
            let refused = refused_config(alloc, &fault);
            drop(fault);
            Ok(Err(refused?))
        }
    }
}

/// What is printed of a configuration that is refused.
fn refused_config(alloc: Global, fault: &ConfigFault) -> Result<Output, Complaint> {
    if fault.is_memory() {
        return Err(Complaint::OutOfMemory);
    }
    Ok(Output::refusal(alloc, fault)?)
}

/// The clocks of the file of this name, none if there is no file; or what is printed where it is refused.
fn clocks_of(
    alloc: Global,
    name: Option<&str>,
    saved: &[u8],
) -> Result<Result<Clocks, Output>, AllocError> {
    let Some(name) = name else {
        return Ok(Ok(Clocks::new(alloc)));
    };
    match Clocks::read_saved(alloc, saved, 0) {
        Ok(clocks) => Ok(Ok(clocks)),
        Err(fault) => Ok(Err(refused_clocks(alloc, name, fault, saved)?)),
    }
}

/// The diagnoser with these users, and these clocks if they aren't refused.
fn diagnoser_with(
    alloc: Global,
    text: &[u8],
    users: Users,
    clocks: Result<Result<Clocks, Output>, AllocError>,
    options: DiagnoseOptions,
) -> Result<Result<Diagnoser, Output>, Complaint> {
    match clocks? {
        Ok(clocks) => {
            let views = views_of(alloc, text)?;
            Ok(Ok(Diagnoser::new(alloc, users, clocks, views, options)))
        }
        Err(refused) => Ok(Err(refused)),
    }
}

/// The rows of access of a configuration that is read, if it has one.
fn views_of(alloc: Global, text: &[u8]) -> Result<Option<Explainer>, Complaint> {
    let Ok(config) = AccessConfig::read(alloc, text) else {
        return Err(Complaint::OutOfMemory);
    };
    let explainer = Explainer::of(alloc, text, config)?;
    Ok(Some(explainer).filter(|explainer| explainer.has_rows()))
}

/// Opens the file, and writes what is made of its datagrams, and how all of it ended.
fn diagnose_named<R: Files + Input + AllocGlobal, O: Write, E: Write>(
    rt: &R,
    diagnoser: &mut Diagnoser,
    wanted: &SourceOptions,
    name: &str,
    out: &mut O,
    err: &mut E,
) -> Result<Output, Complaint> {
    let mut reader = log_of(rt, name)?;
    let output = diagnose_read(rt.alloc(), diagnoser, wanted, name, &mut reader, out, err);
    drop(reader);
    output
}

/// Writes what is made of the datagrams that are read, and how all of it ended.
fn diagnose_read<R: Read + Drop, O: Write, E: Write>(
    alloc: Global,
    diagnoser: &mut Diagnoser,
    wanted: &SourceOptions,
    name: &str,
    reader: &mut BufReader<Watched<R>>,
    out: &mut O,
    err: &mut E,
) -> Result<Output, Complaint> {
    let Ok(mut buffer) = BufWriter::new(alloc, out) else {
        return Err(Complaint::OutOfMemory);
    };
    let mut log = SourceLog::new(alloc, name, RefusalLine::LeftOut, &mut buffer);
    let answer = print_source(alloc, wanted, name, diagnoser, reader, &mut log, err);
    let (place, why) = (log.place(), log.why()?);
    let ended = end(alloc, diagnoser, name, place, &mut buffer);
    if buffer.flush().is_err() {
        return Err(Complaint::line(alloc, "cannot write"));
    }
    let failed = ended?;
    match answer {
        Ok(0) => ended_well(alloc, diagnoser, name, failed),
        // (the file is out of its form from some place on, which a line of JSON says if it names no octet)
        Ok(_) => Ok(Output {
            why: why.filter(|_| !diagnoser.prints_json()
                || matches!(place, Some(FaultPlace::Octet(_)))),
            ..Output::out(alloc, Vec::new(alloc), 2)
        }),
        Err(fault) => Err(stop(alloc, name, reader, fault)),
    }
}

/// The status of a file of this name that was read to its end, in which something failed or nothing did; and what there
/// is if nothing was looked at.
fn ended_well(
    alloc: Global,
    diagnoser: &Diagnoser,
    name: &str,
    failed: bool,
) -> Result<Output, Complaint> {
    match diagnoser.nothing_printed()? {
        Some(found) => Ok(Output {
            why: Some(format!(in alloc; "{name}: {found}")?),
            ..Output::out(alloc, Vec::new(alloc), 2)
        }),
        None => Ok(Output::out(alloc, Vec::new(alloc), u8::from(failed))),
    }
}

/// Writes where the file of this name is out of its form, in JSON if that is asked for; and the exchanges that still
/// wait, and the summary. Returns whether something failed.
fn end<W: Write>(
    alloc: Global,
    diagnoser: &mut Diagnoser,
    name: &str,
    place: Option<FaultPlace>,
    log: &mut W,
) -> Result<bool, Complaint> {
    if let Some(place) = place.filter(|_| diagnoser.prints_json()) {
        write_text(alloc, refusal_object(alloc, name, place)?.as_bytes(), log)?;
    }
    let (text, failed) = diagnoser.finish()?;
    write_text(alloc, &text, log)?;
    Ok(failed)
}

/// Writes a text whole.
fn write_text<W: Write>(alloc: Global, text: &[u8], log: &mut W) -> Result<(), Complaint> {
    match write_whole(log, text) {
        Ok(()) => Ok(()),
        Err(_) => Err(Complaint::line(alloc, "cannot write")),
    }
}
