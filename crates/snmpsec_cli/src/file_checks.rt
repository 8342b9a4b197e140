//! Commands that look at a file, and take nothing of it.

use crate::Command;
use crate::forms::{Form, Kind, Word};

/// The files of saved clocks.
pub(crate) const SAVED: Word = (Kind::Files, "FILE", "", "Saved clocks, each at most 16 MiB");

/// The command check-clocks.
pub(crate) static CHECK_CLOCKS: Form = Form {
    command: Command::CheckClocks,
    name: "check-clocks",
    about: "Print how many engines each file of saved clocks has, or what is wrong with it",
    status: "Example: snmpsec check-clocks examples/station-a.clocks

Exit status:
  0  each file is right
  1  a file is refused, and standard error says why
  2  the command line is wrong, or a file can't be read",
    words: &[SAVED],
};

/// The command check-log.
pub(crate) static CHECK_LOG: Form = Form {
    command: Command::CheckLog,
    name: "check-log",
    about: "Print how many lines a log has, or what is wrong with its first faulty line",
    status: "Example: snmpsec check-log examples/replay/captured.log

Exit status:
  0  the log is right
  1  it is refused, and standard error says why
  2  the command line is wrong, or a file can't be read",
    words: &[(
        Kind::Given,
        "LOG",
        "",
        "A log: lines of a timestamp, a blank and a datagram in hex",
    )],
};
