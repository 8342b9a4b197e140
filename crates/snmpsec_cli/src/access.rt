//! Commands that ask a configuration one question, and the one that reads it.

ghost use Rattle.snmpsec_cli.specs.Words.{AreAccessWords};

use crate::Command;
use crate::forms::{Form, Kind, Word};
use crate::given_words::word_of;
use clap::ArgMatches;

/// The file of a configuration.
pub(crate) const CONFIG: Word = (
    Kind::Given,
    "CONFIG",
    "",
    "TOML file with users, contexts, groups, access rows and families",
);

/// The number of a security model.
pub(crate) const MODEL: Word = (
    Kind::Given,
    "MODEL",
    "",
    "Number of the security model: 3 is the user-based one",
);

/// A security name.
pub(crate) const NAME: Word = (
    Kind::Given,
    "NAME",
    "",
    "Security name: with model 3 the user's name",
);

/// A variable.
pub(crate) const VARIABLE: Word = (
    Kind::Given,
    "OID",
    "",
    "The variable, as 1.3.6.1.2.1.1.5.0: no name, no dot in front",
);

/// A question of who may see what.
const QUESTION: [Word; 7] = [
    CONFIG,
    MODEL,
    NAME,
    (
        Kind::Given,
        "LEVEL",
        "",
        "noAuthNoPriv, authNoPriv or authPriv",
    ),
    (Kind::Given, "VIEW", "", "read, write or notify"),
    (
        Kind::Given,
        "CONTEXT",
        "",
        "Name of the context; @ is the default one, with the empty name",
    ),
    VARIABLE,
];

/// The command check-access.
pub(crate) static CHECK_ACCESS: Form = Form {
    command: Command::CheckAccess,
    name: "check-access",
    about: "Ask whether a user may read, write or be notified of a variable (RFC 3415)",
    status: "Example: snmpsec check-access examples/access.toml 3 nagios authPriv read @ 1.3.6.1.2.1.1.5.0

Exit status:
  0  the answer is accessAllowed
  1  there is another answer, or the configuration is refused
  2  the command line is wrong, or a file can't be read",
    words: &QUESTION,
};

/// The command explain-access.
pub(crate) static EXPLAIN_ACCESS: Form = Form {
    command: Command::ExplainAccess,
    name: "explain-access",
    about: "Ask as check-access does, and print which rows of the configuration decided",
    status: "After the answer it prints the rows that decided, as far as it came: context POSITION,
group POSITION NAME, access POSITION, view NAME, family POSITION. A position counts the
rows of a table in CONFIG, from 0.

Example: snmpsec explain-access examples/access.toml 3 nagios authPriv read @ 1.3.6.1.2.1.1.5.0

Exit status:
  0  the answer is accessAllowed
  1  there is another answer, or the configuration is refused
  2  the command line is wrong, or a file can't be read",
    words: &QUESTION,
};

/// The command check-config.
pub(crate) static CHECK_CONFIG: Form = Form {
    command: Command::CheckConfig,
    name: "check-config",
    about: "Read a configuration: print how many rows each table has, or what is wrong with it",
    status: "Example: snmpsec check-config examples/access.toml

Exit status:
  0  the configuration is read
  1  it is refused, and standard error says why
  2  the command line is wrong, or a file can't be read",
    words: &[CONFIG],
};

/// The words of a command that asks a configuration. One that the command doesn't have is empty.
#[derive(Clone, Copy)]
pub struct AccessWords<'a> {
    /// The name of the configuration's file.
    pub config: &'a str,
    /// The number of the security model.
    pub model: &'a str,
    /// The security name.
    pub name: &'a str,
    /// The security level.
    pub level: &'a str,
    /// The view.
    pub view: &'a str,
    /// The name of the context, or `@`.
    pub context: &'a str,
    /// The variable.
    pub variable: &'a str,
}

/// The words of a command that asks a configuration.
pub fn access_words<'a>(words: &ArgMatches<'a>) -> AccessWords<'a>
    ensures { AreAccessWords words.now result }
{
    AccessWords {
        config: word_of(words, "CONFIG"),
        model: word_of(words, "MODEL"),
        name: word_of(words, "NAME"),
        level: word_of(words, "LEVEL"),
        view: word_of(words, "VIEW"),
        context: word_of(words, "CONTEXT"),
        variable: word_of(words, "OID"),
    }
}
