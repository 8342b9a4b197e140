//! Commands about the program itself: its version, and its help as a text that was asked for.

ghost use Rattle.std.specs.Prelude.{◌≡◌, ◌≢◌, IfErr, IfOk, codes, string_bytes};
ghost use Rattle.clap.specs.Values.{kind_of};
ghost use Rattle.clap.specs.declared.error.kind.ErrorKind.TheVariants.{DisplayHelp};

use crate::forms::{Form, Kind};
use crate::{Command, matches_of, refusal};
use clap::Error;
use clap::error::ErrorKind;
use std::alloc::{AllocError, Global};

/// The version of the program, which is the library's.
pub const VERSION: &str = "0.1.0";

/// The command version.
pub(crate) static VERSION_FORM: Form = Form {
    command: Command::Version,
    name: "version",
    about: "Print the name and the version of the program",
    status: "Exit status:
  0  the version is printed
  2  the command line is wrong",
    words: &[],
};

/// The command manual.
pub(crate) static MANUAL: Form = Form {
    command: Command::Manual,
    name: "manual",
    about: "Print the help of a command, or of all, on standard output",
    status: "It prints on standard output what --help prints on standard error, for a pager.

Example: snmpsec manual show | less

Exit status:
  0  the help is printed
  2  there is no such command, or the command line is wrong",
    words: &[(
        Kind::Optional,
        "COMMAND",
        "",
        "The command; the list of all commands if left out",
    )],
};

/// The line that `snmpsec version` prints: the program's name and its version.
pub fn version_text(alloc: Global) -> Result<String, AllocError>
    ensures { IfOk result (λ text. string_bytes text ≡ codes "snmpsec 0.1.0\n") }
{
    format!(in alloc; "snmpsec {VERSION}\n")
}

/// What the parser answers to words for which it has no command to run: its help, or what is wrong. The error says
/// that memory ran out.
fn answer_to<'a>(alloc: Global, words: &'a [&'a str]) -> Result<Error, AllocError> {
    match matches_of(alloc, words) {
        Ok(matches) => {
            drop(matches);
            refusal(alloc, ErrorKind::InvalidSubcommand, "there is no help")
        }
        Err(fault) => Ok(fault),
    }
}

/// What the parser answers where the help of a command is asked for, or of all where none is named.
fn help_of(alloc: Global, command: Option<&str>) -> Result<Error, AllocError> {
    match command {
        Some(command) => answer_to(alloc, &["snmpsec", "help", command]),
        None => answer_to(alloc, &["snmpsec", "help"]),
    }
}

/// What the parser's help says of a command, or of all where none is named. The error is the parser's, where there is
/// no such command or memory ran out; it is never its help.
pub fn manual_text(alloc: Global, command: Option<&str>) -> Result<String, Error>
    ensures err { IfErr result (λ fault. kind_of fault ≢ DisplayHelp) }
{
    let answer = help_of(alloc, command)?;
    if answer.kind() == ErrorKind::DisplayHelp {
        return Ok(answer.to_string(alloc)?);
    }
    Err(answer)
}
