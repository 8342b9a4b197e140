//! The function of each command of the program `snmpsec`.

use crate::access::{answer_on_access, check_config, list_seen, open_message, who_sees};
use crate::checks::{check_clocks_files, check_log_file};
use crate::complaint::Complaint;
use crate::datagrams::{log_file, open_file, show_file};
use crate::log::replay_log;
use crate::merge::merge_clocks;
use crate::run::{Program, usage};
use clap::ArgMatches;
use snmpsec_cli::{
    Command, Invocation, access_words, datagrams_words, manual_text, replay_words, version_text,
    word_of, words_of,
};
use snmpsec_output::{Output, show_any_version_text, show_named};
use std::alloc::{AllocError, Global};
use std::io::{Input, Write};
use std::rt::Files;

const IN_IMPORT: &str = "import-snmpd is in Python; the script snmpsec runs it";

const IN_DIAGNOSE: &str = "diagnose is in the program snmpsec-diagnose";

/// The program `snmpsec`, which has all commands but import-snmpd and diagnose.
#[derive(Clone, Copy, Debug)]
pub struct Snmpsec;

impl Program for Snmpsec {
    fn command<R: Files + Input + AllocGlobal, O: Write, E: Write>(
        &self,
        rt: &R,
        asked: &Invocation<'_, '_>,
        out: &mut O,
        err: &mut E,
    ) -> Result<Output, Complaint> {
        let words = asked.words;
        match asked.command {
            Command::Show => show(rt, asked, out, err),
            Command::Open => open(rt, asked, out, err),
            Command::Datagrams => log_file(rt, &datagrams_words(words), out, err),
            Command::Replay => replay_log(rt, &replay_words(words), out, err),
            Command::CheckConfig => check_config(rt, word_of(words, "CONFIG"), asked.why),
            Command::CheckAccess => answer_on_access(rt, &access_words(words), false, asked.why),
            Command::ExplainAccess => answer_on_access(rt, &access_words(words), true, asked.why),
            named => command_of_texts(rt, named, words),
        }
    }
}

/// What `show` prints.
fn show<R: Files + Input + AllocGlobal, O: Write, E: Write>(
    rt: &R,
    asked: &Invocation<'_, '_>,
    out: &mut O,
    err: &mut E,
) -> Result<Output, Complaint> {
    let (alloc, names) = (rt.alloc(), asked.names);
    let community = asked.words.get_flag("community");
    match asked.words.get_str("HEX") {
        Some(digits) if community => Ok(show_any_version_text(alloc, names, digits)?),
        Some(digits) => Ok(show_named(alloc, names, digits)?),
        None => show_file(
            rt,
            &datagrams_words(asked.words),
            names,
            community,
            out,
            err,
        ),
    }
}

/// What `open` prints.
fn open<R: Files + Input + AllocGlobal, O: Write, E: Write>(
    rt: &R,
    asked: &Invocation<'_, '_>,
    out: &mut O,
    err: &mut E,
) -> Result<Output, Complaint> {
    let (config, names) = (word_of(asked.words, "CONFIG"), asked.names);
    match asked.words.get_str("HEX") {
        Some(digits) => open_message(rt, names, config, digits),
        None => open_file(rt, config, &datagrams_words(asked.words), names, out, err),
    }
}

/// What a command prints that reads its files whole, or none.
fn command_of_texts<R: Files + Input + AllocGlobal>(
    rt: &R,
    command: Command,
    words: &ArgMatches<'_>,
) -> Result<Output, Complaint> {
    match command {
        Command::WhoSees => who_sees(rt, words),
        Command::Sees => list_seen(rt, &access_words(words)),
        Command::ImportSnmpd => Err(Complaint::line(rt.alloc(), IN_IMPORT)),
        Command::Diagnose => Err(Complaint::line(rt.alloc(), IN_DIAGNOSE)),
        Command::MergeClocks => merge_clocks(rt, words),
        Command::CheckClocks => check_clocks_files(rt, words_of(words, "FILE")),
        Command::CheckLog => check_log_file(rt, word_of(words, "LOG")),
        Command::Manual => Ok(manual(rt.alloc(), words.get_str("COMMAND"))?),
        _ => Ok(version(rt.alloc())?),
    }
}

/// What the parser's help says of a command, or of all, on standard output. A command that isn't there is
/// reported as the parser's text.
fn manual(alloc: Global, command: Option<&str>) -> Result<Output, AllocError> {
    match manual_text(alloc, command) {
        Ok(text) => Ok(Output::out(alloc, text.into_bytes(), 0)),
        Err(fault) => usage(alloc, fault),
    }
}

/// The name and the version of the program.
fn version(alloc: Global) -> Result<Output, AllocError> {
    let text = version_text(alloc)?;
    Ok(Output::out(alloc, text.into_bytes(), 0))
}
