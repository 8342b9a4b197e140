//! The command lines of `show` and `open`.

use crate::Command;
use crate::capture::{FORM, FROM, FROM_PORT, IP, MOMENT, PORT};
use crate::forms::{Form, Kind, Word};

/// Whether names are to stand behind the lines that have one.
const NAMES: Word = (
    Kind::Flag,
    "names",
    "names",
    "Print ' # NAME' after the lines that have a name: users, contexts, PDUs, counters",
);

/// Whether messages with a community are printed too.
const COMMUNITY: Word = (
    Kind::Flag,
    "community",
    "community",
    "Print messages of SNMPv1 and SNMPv2c too: version, community and PDU; without it they are refused",
);

/// The datagram as a word.
const HEX: Word = (
    Kind::Datagram,
    "HEX",
    "",
    "The datagram as pairs of hex digits, without blanks, colons or 0x; instead of --from",
);

/// The command show.
pub(crate) static SHOW: Form = Form {
    command: Command::Show,
    name: "show",
    about: "Print the fields of an SNMPv3 message, a field a line, and its canonical spelling",
    status: "With --from, a line 'datagram N MOMENT' comes before the fields of each datagram. N counts from 1.

Example: snmpsec show --from examples/replay/captured.pcap

Exit status:
  0  the message is printed
  1  a message is refused (a line 'refused N NAME at PLACE'), or the file of --from is
  2  the command line is wrong, or a file can't be read",
    words: &[
        NAMES, COMMUNITY, FROM, FORM, PORT, FROM_PORT, MOMENT, IP, HEX,
    ],
};

/// The command open.
pub(crate) static OPEN: Form = Form {
    command: Command::Open,
    name: "open",
    about: "Authenticate and decrypt an SNMPv3 message with the users' passwords, and print its fields",
    status: "It doesn't check the time window. With --from, a line 'datagram N MOMENT' comes before the
fields of each datagram. N counts from 1.

Example: snmpsec open examples/replay/config.toml --from examples/replay/captured.pcap

Exit status:
  0  the message is opened
  1  a message is refused (a line 'refused N NAME at PLACE'), or the file of --from or the
     configuration is
  2  the command line is wrong, or a file can't be read",
    words: &[
        NAMES,
        FROM,
        FORM,
        PORT,
        FROM_PORT,
        MOMENT,
        IP,
        (Kind::Given, "CONFIG", "", "TOML file with the users"),
        HEX,
    ],
};
