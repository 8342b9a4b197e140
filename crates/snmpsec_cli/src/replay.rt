//! Commands over saved clocks: the replay of a log, and the join.

ghost use Rattle.snmpsec_cli.specs.Words.{AreReplayWords};

use crate::Command;
use crate::capture::{FORM, FROM, FROM_PORT, PORT};
use crate::file_checks::SAVED;
use crate::forms::{Form, Kind, Word};
use crate::given_words::{word_of, words_of};
use clap::ArgMatches;

/// The moment that marks get which have none of their own.
const MOMENT: Word = (
    Kind::Number,
    "MOMENT",
    "moment",
    "When the clocks of a file without timestamps were seen, in seconds; 0 if left out",
);

/// The command replay.
pub(crate) static REPLAY: Form = Form {
    command: Command::Replay,
    name: "replay",
    about: "Process a log of datagrams as a manager does: print a line for each, and then the clocks",
    status: "With --from it processes the datagrams of a capture, and needs no log.
A log has at most 1000000 lines. Replay a longer one in pieces, each with --clocks-only;
merge-clocks joins the clocks that they print.

Example: snmpsec replay examples/replay/config.toml examples/replay/begin.clocks
         examples/replay/captured.log

Exit status:
  0  the log is replayed to its end
  1  the configuration or the file of clocks is refused
  2  the command line or a line of the log is wrong, or a file can't be read",
    words: &[
        MOMENT,
        (
            Kind::Flag,
            "clocks-only",
            "clocks-only",
            "Print the saved clocks alone, and no line for a datagram",
        ),
        (
            Kind::Number,
            "N",
            "from-line",
            "Number of the log's first line, 1 to 1000000000000000; 1 if left out",
        ),
        FROM,
        FORM,
        PORT,
        FROM_PORT,
        (
            Kind::Given,
            "CONFIG",
            "",
            "TOML file with the manager's users",
        ),
        (
            Kind::Given,
            "CLOCKS",
            "",
            "Saved clocks that the manager begins with, at most 16 MiB",
        ),
        (
            Kind::Datagram,
            "LOG",
            "",
            "Lines MOMENT HEX: when a datagram came, in whole seconds, and its octets; instead of --from",
        ),
    ],
};

/// The command merge-clocks.
pub(crate) static MERGE_CLOCKS: Form = Form {
    command: Command::MergeClocks,
    name: "merge-clocks",
    about: "Print the join of saved clocks: of each engine the greatest boots and time",
    status: "Example: snmpsec merge-clocks examples/station-a.clocks examples/station-b.clocks

Exit status:
  0  the join is printed
  1  a file is refused, with its first wrong line
  2  the command line is wrong, or a file can't be read",
    words: &[MOMENT, SAVED],
};

/// The words of replay.
#[derive(Clone, Copy)]
pub struct ReplayWords<'a> {
    /// When the clocks of a file without moments were seen.
    pub moment: Option<&'a str>,
    /// Whether the saved text alone is wanted.
    pub clocks_only: bool,
    /// The number of the log's first line.
    pub from_line: Option<&'a str>,
    /// The name of the configuration's file.
    pub config: &'a str,
    /// The name of the clocks file.
    pub clocks: &'a str,
    /// The name of the log's file, or no text where the datagrams are those of a file.
    pub log: &'a str,
    /// The name of the file of datagrams.
    pub from: Option<&'a str>,
    /// The form of that file, where its octets aren't to tell.
    pub form: Option<&'a str>,
    /// The ports of the datagrams that are wanted.
    pub ports: &'a [&'a str],
    /// The port that they are from.
    pub from_port: Option<&'a str>,
}

/// The words of replay.
pub fn replay_words<'m>(words: &'m ArgMatches<'_>) -> ReplayWords<'m>
    ensures { AreReplayWords words.now result }
{
    ReplayWords {
        moment: words.get_str("MOMENT"),
        clocks_only: words.get_flag("clocks-only"),
        from_line: words.get_str("N"),
        config: word_of(words, "CONFIG"),
        clocks: word_of(words, "CLOCKS"),
        log: word_of(words, "LOG"),
        from: words.get_str("FILE"),
        form: words.get_str("FORM"),
        ports: words_of(words, "PORT"),
        from_port: words.get_str("FROM_PORT"),
    }
}
