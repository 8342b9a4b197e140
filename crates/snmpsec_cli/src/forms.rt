//! The parser of the command line, which is made of the tables of the commands.

ghost use Rattle.std.specs.Prelude.{◌≡◌, IfSome};
ghost use Rattle.snmpsec_cli.specs.Commands.{command_word};

use crate::{
    Command, about, access, capture, diagnose, file_checks, import, messages, questions, replay,
};
use clap::{Arg, ArgAction};
use std::alloc::{AllocError, Global};

/// How a word is given.
#[derive(Clone, Copy)]
pub(crate) enum Kind {
    /// It must be given, and its place says which word it is.
    Given,
    /// It may be left out, and its place says which word it is.
    Optional,
    /// It is a datagram or a log, which must be given where no file of datagrams is.
    Datagram,
    /// One or more of them must be given, as the last words.
    Files,
    /// It is an option without a value.
    Flag,
    /// It is an option with a value, and may be given again.
    Values,
    /// It is an option whose value is a number. A number below 0 is a value too.
    Number,
    /// It is an option of the file of datagrams, without a value. This option and those below can't be given with a
    /// datagram.
    SourceFlag,
    /// It is an option of the file of datagrams, with a value.
    SourceValue,
    /// It is an option of the file of datagrams, whose value is a number. A number below 0 is a value too.
    SourceNumber,
    /// It is an option of the file of datagrams, whose value is a number, and may be given again. A number below 0 is
    /// a value too.
    SourceNumbers,
}

/// A word or an option of a command: how it is given, the name by which it is read, the name of an option or no text,
/// and what help says of it.
pub(crate) type Word = (Kind, &'static str, &'static str, &'static str);

/// A command of the command line.
#[derive(Clone, Copy)]
pub(crate) struct Form {
    pub(crate) command: Command,
    pub(crate) name: &'static str,
    /// What help says of it first.
    pub(crate) about: &'static str,
    /// What help says after its words: an example, and what each status means.
    pub(crate) status: &'static str,
    pub(crate) words: &'static [Word],
}

/// How many commands there are.
const FORMS: usize = 16;

/// The command at this place of the list that help prints, from 0. Each place after the last has the last.
fn form_at(at: usize) -> &'static Form
    ensures { result.now.name.now ≡ command_word result.now.command }
{
    match at {
        0 => &messages::SHOW,
        1 => &messages::OPEN,
        2 => &access::CHECK_ACCESS,
        3 => &access::EXPLAIN_ACCESS,
        4 => &questions::WHO_SEES,
        5 => &questions::SEES,
        6 => &access::CHECK_CONFIG,
        7 => &import::IMPORT_SNMPD,
        8 => &replay::REPLAY,
        9 => &replay::MERGE_CLOCKS,
        10 => &file_checks::CHECK_CLOCKS,
        11 => &file_checks::CHECK_LOG,
        12 => &capture::DATAGRAMS,
        13 => &diagnose::DIAGNOSE,
        14 => &about::MANUAL,
        _ => &about::VERSION_FORM,
    }
}

/// The command of this name.
pub(crate) fn form_named(name: &str) -> Option<&'static Form>
    ensures { IfSome result (λ form. command_word form.now.command ≡ name.now) }
{
    for at in 0..FORMS {
        let form = form_at(at);
        if form.name == name {
            return Some(form);
        }
    }
    None
}

/// The option that each command has.
static WHY: Word = (
    Kind::Flag,
    "why",
    "why",
    "After a refusal, print on standard error what is wrong and what is expected",
);

/// What the parser does with a word.
fn action_of(kind: Kind) -> ArgAction {
    match kind {
        Kind::Flag | Kind::SourceFlag => ArgAction::SetTrue,
        Kind::Files | Kind::Values | Kind::SourceNumbers => ArgAction::Append,
        _ => ArgAction::Set,
    }
}

/// Whether a number below 0 is a value of the option.
fn is_number(kind: Kind) -> bool {
    matches!(
        kind,
        Kind::Number | Kind::SourceNumber | Kind::SourceNumbers
    )
}

/// The argument of a word, and of an option but for its name.
fn plain<'a>(alloc: Global, word: &Word) -> Arg<'a> {
    let (kind, id, _, help) = *word;
    Arg::new(alloc, id)
        .help(help)
        .action(action_of(kind))
        .required(matches!(kind, Kind::Given | Kind::Files))
        .allow_negative_numbers(is_number(kind))
}

/// The argument of a word or an option.
fn arg_named<'a>(alloc: Global, word: &Word) -> Arg<'a> {
    let arg = plain(alloc, word);
    match word.0 {
        Kind::Given | Kind::Optional | Kind::Datagram => arg,
        Kind::Files => arg.num_args(1..),
        _ => arg.long(word.2),
    }
}

/// The argument of a word or an option, as the parser takes it beside others.
fn arg_of<'a>(alloc: Global, word: &Word) -> Result<Arg<'a>, AllocError> {
    let arg = arg_named(alloc, word);
    match word.0 {
        Kind::Datagram => arg.required_unless_present("FILE"),
        Kind::SourceFlag | Kind::SourceValue | Kind::SourceNumber | Kind::SourceNumbers => {
            arg.conflicts_with("HEX")?.conflicts_with("LOG")
        }
        _ => Ok(arg),
    }
}

/// The list with this item after those that it has.
fn with_item<T: Drop>(list: Vec<T>, item: Result<T, AllocError>) -> Result<Vec<T>, AllocError> {
    let mut list = list;
    list.push(item?)?;
    Ok(list)
}

/// The arguments of these words.
fn args_of<'a>(alloc: Global, words: &[Word]) -> Result<Vec<Arg<'a>>, AllocError> {
    let mut args = Vec::new(alloc);
    for word in words {
        args = with_item(args, arg_of(alloc, word))?;
    }
    Ok(args)
}

/// The parser of a command without its words.
fn without_words<'a>(alloc: Global, form: &Form) -> clap::Command<'a> {
    clap::Command::new(alloc, form.name)
        .about(form.about)
        .after_help(form.status)
}

/// The parser of a command.
fn command_of<'a>(alloc: Global, form: &Form) -> Result<clap::Command<'a>, AllocError> {
    match args_of(alloc, form.words) {
        Ok(args) => without_words(alloc, form).args(args),
        Err(fault) => Err(fault),
    }
}

/// The parsers of the commands.
fn commands<'a>(alloc: Global) -> Result<Vec<clap::Command<'a>>, AllocError> {
    let mut commands = Vec::new(alloc);
    for at in 0..FORMS {
        commands = with_item(commands, command_of(alloc, form_at(at)))?;
    }
    Ok(commands)
}

/// The parser of the command line without its commands and without the option of each.
fn bare<'a>(alloc: Global) -> clap::Command<'a> {
    clap::Command::new(alloc, "snmpsec")
        .about("Looks into SNMPv3 messages, view-based access, logs of datagrams and saved clocks")
        .subcommand_required(true)
        .after_help("A file - is standard input, which can be read once.")
}

/// The argument of the option that each command has. Help lists it after the first option of a command.
fn why<'a>(alloc: Global) -> Arg<'a> {
    arg_named(alloc, &WHY).global(true).display_order(0)
}

/// The parser of the command line with these commands.
fn with_commands<'a>(
    alloc: Global,
    commands: Vec<clap::Command<'a>>,
) -> Result<clap::Command<'a>, AllocError> {
    match bare(alloc).subcommands(commands) {
        Ok(parser) => parser.arg(why(alloc)),
        Err(fault) => Err(fault),
    }
}

/// The parser of the command line.
pub(crate) fn parser<'a>(alloc: Global) -> Result<clap::Command<'a>, AllocError> {
    match commands(alloc) {
        Ok(commands) => with_commands(alloc, commands),
        Err(fault) => Err(fault),
    }
}
