//! The command line: the commands, their words, and what help says of them.
//!
//! ```
//! use snmpsec_cli::{Command, asked_by, parse};
//!
//! let mut words = Vec::new(rt.alloc());
//! words.push("snmpsec".to_string(rt.alloc())?)?;
//! words.push("version".to_string(rt.alloc())?)?;
//! let matches = parse(rt.alloc(), &words)?;
//! assert!(rt; matches!(asked_by(rt.alloc(), &matches)?.command, Command::Version));
//! ```
#![tactic(auto)]

ghost use Rattle.std.specs.Prelude.{◌≡◌, ◌⊎◌, IfErr, IfOk};
ghost use Rattle.std.specs.declared.io.ErrorKind.TheVariants as kinds;
ghost use Rattle.clap.specs.Values.{kind_of};
ghost use Rattle.clap.specs.declared.error.kind.ErrorKind.TheVariants.{InvalidValue, OutOfMemory};

use clap::error::ErrorKind;
use clap::{ArgMatches, Error};
use forms::parser;
use std::alloc::{AllocError, Global};
use std::convert::AsStr;
use std::rt::Env;
use std::{env, io};

/// A command of the command line.
#[derive(Clone, Copy)]
pub enum Command {
    /// `show HEX` or `show --from FILE`
    Show,
    /// `open CONFIG HEX` or `open CONFIG --from FILE`
    Open,
    /// `check-access CONFIG MODEL NAME LEVEL VIEW CONTEXT OID`
    CheckAccess,
    /// `explain-access CONFIG MODEL NAME LEVEL VIEW CONTEXT OID`
    ExplainAccess,
    /// `who-sees [--users] [--below] CONFIG OID [VIEW]`
    WhoSees,
    /// `sees CONFIG MODEL NAME`
    Sees,
    /// `check-config CONFIG`
    CheckConfig,
    /// `import-snmpd [--strict] [--no-include] [--context NAME].. FILE..`
    ImportSnmpd,
    /// `replay [--moment MOMENT] [--clocks-only] [--from-line N] CONFIG CLOCKS LOG`, or with `--from FILE` for LOG
    Replay,
    /// `merge-clocks [--moment MOMENT] FILE..`
    MergeClocks,
    /// `check-clocks FILE..`
    CheckClocks,
    /// `check-log LOG`
    CheckLog,
    /// `datagrams [--form FORM] [--port PORT].. [--moment MOMENT] [--ip] FILE`
    Datagrams,
    /// `diagnose [--form FORM] [--port PORT].. [--moment MOMENT] [--ip] [--json] [--user NAME].. [--engine ENGINE]..
    /// [--agent AGENT].. [--clocks CLOCKS] CONFIG FILE`
    Diagnose,
    /// `manual [COMMAND]`
    Manual,
    /// `version`
    Version,
}

/// The arguments of the program, its name first. The error is the refusal of arguments that aren't UTF-8, or says that
/// memory ran out.
pub fn arguments<R: Env + AllocGlobal>(rt: &R) -> Result<Vec<String>, Error>
    ensures err { IfErr result (λ fault. (kind_of fault ≡ InvalidValue) ⊎ (kind_of fault ≡ OutOfMemory)) }
{
    match env::args(rt) {
        Ok(words) => match words.collect(rt.alloc()) {
            Ok(words) => Ok(words),
            Err(fault) => Err(Error::from(fault)),
        },
        Err(fault) => Err(no_arguments(rt.alloc(), fault.kind())),
    }
}

/// Why there are no arguments.
fn no_arguments(alloc: Global, kind: io::ErrorKind) -> Error
    ensures either { (kind_of result ≡ InvalidValue) ⊎ (kind_of result ≡ OutOfMemory) }
    ensures memory { kind ≡ kinds.OutOfMemory → kind_of result ≡ OutOfMemory }
{
    if kind == io::ErrorKind::OutOfMemory {
        return Error::from(AllocError);
    }
    match not_text(alloc) {
        Ok(error) => error,
        Err(fault) => Error::from(fault),
    }
}

/// What the parser makes of a command line, the program's name first. A request for help is an error too.
pub fn parse<'a>(alloc: Global, words: &'a [String]) -> Result<ArgMatches<'a>, Error> {
    matches_of(alloc, words)
}

/// The same, of words of any type that is text.
fn matches_of<'a, S: AsStr>(alloc: Global, words: &'a [S]) -> Result<ArgMatches<'a>, Error> {
    match parser(alloc) {
        Ok(parser) => parser.try_get_matches_from(words),
        Err(fault) => Err(Error::from(fault)),
    }
}

/// The refusal of a command line, in the parser's words. The error says that memory ran out.
fn refusal(alloc: Global, kind: ErrorKind, message: &str) -> Result<Error, AllocError>
    ensures { IfOk result (λ fault. kind_of fault ≡ kind) }
{
    match parser(alloc) {
        Ok(mut parser) => {
            let error = parser.error(kind, message);
            drop(parser);
            error
        }
        Err(fault) => Err(fault),
    }
}

/// The refusal of words that are no text.
pub fn not_text(alloc: Global) -> Result<Error, AllocError>
    ensures kind { IfOk result (λ fault. kind_of fault ≡ InvalidValue) }
{
    refusal(
        alloc,
        ErrorKind::InvalidValue,
        "invalid UTF-8 was detected in one or more arguments",
    )
}

mod about;
mod access;
mod capture;
mod diagnose;
mod file_checks;
mod forms;
mod given_words;
mod import;
mod invocation;
mod messages;
mod questions;
mod replay;

pub use about::{VERSION, manual_text, version_text};
pub use access::{AccessWords, access_words};
pub use capture::{DatagramsWords, datagrams_words};
pub use diagnose::{DiagnoseWords, diagnose_words};
pub use given_words::{word_of, words_of};
pub use invocation::{Invocation, asked_by};
pub use replay::{ReplayWords, replay_words};
