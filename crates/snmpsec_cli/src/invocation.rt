//! A command, and how much is printed beside its output.

ghost use Rattle.std.specs.Prelude.{◌≡◌, IfOk};
ghost use Rattle.snmpsec_cli.specs.Commands.{AsksFor, command_word};

use crate::forms::form_named;
use crate::given_words::{missing, reads_input_twice};
use crate::{Command, refusal};
use clap::error::ErrorKind;
use clap::{ArgMatches, Error};
use std::alloc::{AllocError, Global};

/// What a command line asks for.
#[derive(Clone, Copy)]
pub struct Invocation<'m, 'a> {
    pub command: Command,
    /// The words of the command. Those that must be given are there, and none has been looked at beyond what the
    /// parser asks.
    pub words: &'m ArgMatches<'a>,
    /// Whether a refusal is to be told with what is wrong and what is wanted.
    pub why: bool,
    /// Whether names are to stand behind the lines that have one.
    pub names: bool,
}

/// What is wrong where standard input is named more than once, and what to do.
const INPUT_TWICE: &str =
    "more than one file is - (standard input), which can be read once; name files for the others";

/// Why no command can be read from what the parser took. It refuses itself what lacks a word or a command.
#[derive(Clone, Copy)]
enum Unread {
    /// A word that must be given is missing.
    Missing(&'static str),
    /// More than one file is standard input.
    InputTwice,
    NoCommand,
}

/// The command of this name, whose words are these.
fn command_named(name: &str, words: &ArgMatches<'_>) -> Result<Command, Unread>
    ensures { IfOk result (λ command. command_word command ≡ name.now) }
{
    let Some(form) = form_named(name) else {
        return Err(Unread::NoCommand);
    };
    match missing(words, form.words) {
        Some(word) => Err(Unread::Missing(word)),
        None if reads_input_twice(words) => Err(Unread::InputTwice),
        None => Ok(form.command),
    }
}

/// The refusal of a command line whose command can't be read.
fn refusal_of(alloc: Global, fault: Unread) -> Result<Error, AllocError> {
    match fault {
        Unread::Missing(name) => refusal(alloc, ErrorKind::MissingRequiredArgument, name),
        Unread::InputTwice => refusal(alloc, ErrorKind::ArgumentConflict, INPUT_TWICE),
        Unread::NoCommand => refusal(alloc, ErrorKind::MissingSubcommand, "a command is missing"),
    }
}

/// The same, where memory may have run out.
fn refuse(alloc: Global, fault: Unread) -> Error {
    match refusal_of(alloc, fault) {
        Ok(error) => error,
        Err(fault) => Error::from(fault),
    }
}

/// The command that was given, with its words and the options that each command has, or the refusal.
pub fn asked_by<'m, 'a>(
    alloc: Global,
    matches: &'m ArgMatches<'a>,
) -> Result<Invocation<'m, 'a>, Error>
    ensures { IfOk result (λ asked. AsksFor matches.now asked) }
{
    let Some((name, words)) = matches.subcommand() else {
        return Err(refuse(alloc, Unread::NoCommand));
    };
    match command_named(name, words) {
        Ok(command) => Ok(Invocation {
            command,
            words,
            why: matches.get_flag("why"),
            names: words.get_flag("names"),
        }),
        Err(fault) => Err(refuse(alloc, fault)),
    }
}
