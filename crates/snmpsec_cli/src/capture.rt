//! The command line of `datagrams`, and what is asked of a file of datagrams.

ghost use Rattle.snmpsec_cli.specs.Words.{AreDatagramsWords};

use crate::Command;
use crate::forms::{Form, Kind, Word};
use crate::given_words::{word_of, words_of};
use clap::ArgMatches;

/// What a file of datagrams is.
pub(crate) const SOURCE: &str =
    "A capture (pcap or pcapng), a log, pasted hex, or a dump as hexdump -C prints it; - is standard input";

/// The file of datagrams as an option.
pub(crate) const FROM: Word = (Kind::SourceValue, "FILE", "from", SOURCE);

/// The form of the file.
pub(crate) const FORM: Word = (
    Kind::SourceValue,
    "FORM",
    "form",
    "The form of FILE: pcap or pcapng, log, hex or dump; found by its first octets if left out",
);

/// The ports of the datagrams that are wanted.
pub(crate) const PORT: Word = (
    Kind::SourceNumbers,
    "PORT",
    "port",
    "A port that the datagrams are from or to; may be repeated; 161 and 162 if left out",
);

/// The port that the datagrams that are wanted are from.
pub(crate) const FROM_PORT: Word = (
    Kind::SourceNumber,
    "FROM_PORT",
    "from-port",
    "Take only datagrams from this port, as 161 for what agents send; both directions if left out",
);

/// The moment of what has none.
pub(crate) const MOMENT: Word = (
    Kind::SourceNumber,
    "MOMENT",
    "moment",
    "When pasted hex or a dump was received, in seconds; 0 if left out",
);

/// Whether each dump is a packet.
pub(crate) const IP: Word = (
    Kind::SourceFlag,
    "ip",
    "ip",
    "FILE is dumps of packets from their IP headers on, as tcpdump -x prints them",
);

/// The command datagrams.
pub(crate) static DATAGRAMS: Form = Form {
    command: Command::Datagrams,
    name: "datagrams",
    about: "Print the UDP datagrams of a capture as a log for replay, a line MOMENT HEX for each",
    status: "It counts on standard error the packets that aren't datagrams of these ports, and reports
each that may be a part of one. Pasted hex is one datagram. A dump is one, unless --ip is given.

Example: snmpsec datagrams examples/replay/captured.pcap |
         snmpsec replay examples/replay/config.toml examples/replay/begin.clocks /dev/stdin

Exit status:
  0  the file is read to its end
  1  it is refused: after what came before, a line 'refused datagrams FILE octet N'
     for a capture, 'refused datagrams FILE line N column M' for hex, and
     'refused datagrams FILE line N' for a dump
  2  the command line is wrong, or a file can't be read",
    words: &[
        FORM,
        PORT,
        FROM_PORT,
        MOMENT,
        IP,
        (Kind::Given, "FILE", "", SOURCE),
    ],
};

/// The words of datagrams, and of show and open over a file of datagrams.
#[derive(Clone, Copy)]
pub struct DatagramsWords<'a> {
    /// The form of the file, where its octets aren't to tell.
    pub form: Option<&'a str>,
    /// The ports of the datagrams that are wanted.
    pub ports: &'a [&'a str],
    /// The port that they are from.
    pub from_port: Option<&'a str>,
    /// When pasted hex or a dump was received.
    pub moment: Option<&'a str>,
    /// Whether each dump is a packet.
    pub ip: bool,
    /// The name of the file.
    pub file: &'a str,
}

/// The words of datagrams, and of show and open over a file of datagrams.
pub fn datagrams_words<'m>(words: &'m ArgMatches<'_>) -> DatagramsWords<'m>
    ensures { AreDatagramsWords words.now result }
{
    DatagramsWords {
        form: words.get_str("FORM"),
        ports: words_of(words, "PORT"),
        from_port: words.get_str("FROM_PORT"),
        moment: words.get_str("MOMENT"),
        ip: words.get_flag("ip"),
        file: word_of(words, "FILE"),
    }
}
