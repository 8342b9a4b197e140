//! The command line of `diagnose`.

ghost use Rattle.snmpsec_cli.specs.Words.{AreDiagnoseWords};

use crate::Command;
use crate::capture::{DatagramsWords, FORM, IP, MOMENT, PORT, SOURCE, datagrams_words};
use crate::forms::{Form, Kind};
use crate::given_words::{word_of, words_of};
use clap::ArgMatches;

/// The command diagnose.
pub(crate) static DIAGNOSE: Form = Form {
    command: Command::Diagnose,
    name: "diagnose",
    about: "Print what became of each request in a capture: answered, refused and why, or no answer",
    status: "It judges a request as the agent does, and an answer as the manager does. Only what an engine
sent teaches it the engine's clock. Which side sent a message that can't be opened is a guess by
the ports, unless one side is named by --agent.

Example: snmpsec diagnose examples/no-answer.toml examples/diagnose.pcap

Exit status:
  0  each request was answered without an error
  1  something failed, or the configuration or the clocks are refused
  2  the command line or FILE is wrong, or a file can't be read",
    words: &[
        FORM,
        PORT,
        MOMENT,
        IP,
        (
            Kind::Flag,
            "json",
            "json",
            "Print JSON, an object on a line: one for each exchange, and the summary",
        ),
        (
            Kind::Values,
            "NAME",
            "user",
            "Print and count only exchanges of this user; may be repeated",
        ),
        (
            Kind::Values,
            "ENGINE",
            "engine",
            "Print and count only exchanges of this engine ID in hex; may be repeated",
        ),
        (
            Kind::Values,
            "AGENT",
            "agent",
            "Print and count only exchanges with this agent, ADDRESS or ADDRESS:PORT; may be repeated",
        ),
        (
            Kind::SourceValue,
            "CLOCKS",
            "clocks",
            "Saved clocks of engines that are known before the capture begins",
        ),
        (
            Kind::Given,
            "CONFIG",
            "",
            "TOML file with the users of the messages",
        ),
        (Kind::Given, "FILE", "", SOURCE),
    ],
};

/// The words of diagnose.
#[derive(Clone, Copy)]
pub struct DiagnoseWords<'a> {
    /// The name of the configuration's file.
    pub config: &'a str,
    /// The name of the clocks file.
    pub clocks: Option<&'a str>,
    /// Whether JSON is printed.
    pub json: bool,
    /// The names of the users that are wanted.
    pub users: &'a [&'a str],
    /// The engine IDs that are wanted, in hex.
    pub engines: &'a [&'a str],
    /// The agents that are wanted, by their addresses, with a port or without one.
    pub agents: &'a [&'a str],
    /// What is asked of the file of datagrams.
    pub source: DatagramsWords<'a>,
}

/// The words of diagnose.
pub fn diagnose_words<'m>(words: &'m ArgMatches<'_>) -> DiagnoseWords<'m>
    ensures { AreDiagnoseWords words.now result }
{
    DiagnoseWords {
        config: word_of(words, "CONFIG"),
        clocks: words.get_str("CLOCKS"),
        json: words.get_flag("json"),
        users: words_of(words, "NAME"),
        engines: words_of(words, "ENGINE"),
        agents: words_of(words, "AGENT"),
        source: datagrams_words(words),
    }
}
