//! Commands that ask a configuration more than one question.

use crate::Command;
use crate::access::{CONFIG, MODEL, NAME, VARIABLE};
use crate::forms::{Form, Kind, Word};

/// The command who-sees.
pub(crate) static WHO_SEES: Form = Form {
    command: Command::WhoSees,
    name: "who-sees",
    about: "Print who may read, write or be notified of a variable: MODEL NAME LEVEL VIEW CONTEXT",
    status: "It prints a line for each question of OID that check-access answers by accessAllowed. A
name that no group row has sees nothing, and so does everyone in a context that CONFIG
doesn't have. A higher level may see less. With --below it prints a line for each that sees OID
or some name below it, as 1.3.6.1.2.1.2.2 for a row of ifTable.

Example: snmpsec who-sees examples/access.toml 1.3.6.1.2.1.1.5.0 read

Exit status:
  0  a line is printed
  1  nobody may, or the configuration is refused
  2  the command line is wrong, or a file can't be read",
    words: &[
        (
            Kind::Flag,
            "users",
            "users",
            "Print the lines alone of names that are users of CONFIG and support the level",
        ),
        (
            Kind::Flag,
            "below",
            "below",
            "Print who sees OID or some name below it, and not only who sees OID itself",
        ),
        CONFIG,
        VARIABLE,
        (
            Kind::Optional,
            "VIEW",
            "",
            "read, write or notify; each of them if left out",
        ),
    ],
};

/// The command sees.
pub(crate) static SEES: Form = Form {
    command: Command::Sees,
    name: "sees",
    about: "Print what a user may read, write or be notified of: LEVEL VIEW CONTEXT and subtrees",
    status: "For each level, view and context it prints either the one answer that every variable
gets, or lines of + or - with a subtree. The last line whose subtree has the variable
decides: + allows it, - doesn't. No line decides on any other variable, which isn't
allowed. An arc * may be any number.

Example: snmpsec sees examples/access.toml 3 nagios

Exit status:
  0  a line with + is printed
  1  nothing is allowed, or the configuration is refused
  2  the command line is wrong, or a file can't be read",
    words: &[CONFIG, MODEL, NAME],
};
