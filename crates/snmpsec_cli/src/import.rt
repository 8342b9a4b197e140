//! The command line of `import-snmpd`.

use crate::Command;
use crate::forms::{Form, Kind, Word};

/// The command import-snmpd.
pub(crate) static IMPORT_SNMPD: Form = Form {
    command: Command::ImportSnmpd,
    name: "import-snmpd",
    about: "Print the configuration that files of net-snmp's snmpd come to",
    status: "It prints on standard error a line FILE:LINE: KIND: DIRECTIVE: WHY for each line of FILE
that isn't taken over, and for each row that another row overrides.

Example: snmpsec import-snmpd /etc/snmp/snmpd.conf /var/lib/snmp/snmpd.conf > config.toml

Exit status:
  0  the configuration is printed
  1  with --strict, if the agent may decide otherwise: a line is left out, refused by
     snmpd, undefined, differs, or depends on the order
  2  the command line is wrong, or a file can't be read",
    words: &[
        (
            Kind::Flag,
            "strict",
            "strict",
            "Exit with status 1 if the agent may decide otherwise than the configuration",
        ),
        (
            Kind::Flag,
            "no-include",
            "no-include",
            "Don't open the files that includeFile and includeDir name",
        ),
        (
            Kind::Values,
            "NAME",
            "context",
            "A context that the agent has beside the default one; may be repeated",
        ),
        (
            Kind::Files,
            "FILE",
            "",
            "A file as /etc/snmp/snmpd.conf, at most 16 MiB",
        ),
    ],
};
