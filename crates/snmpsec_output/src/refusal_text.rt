//! A refusal, as the program prints it.

ghost use Rattle.std.specs.Prelude.{Some};
ghost use Rattle.snmpsec_output.specs.Refusals.{refused_text};

use snmp_msg::RefusedAt;
use std::fmt;

/// The text of a refusal: its number and name, and its place where it has one, in octets from 0.
#[derive(Drop)]
pub(crate) struct RefusalText {
    pub(crate) refused: RefusedAt,
}

impl fmt::Display for RefusalText {
    ghost output = { λ text. Some (refused_text text.refused) };

    fn fmt<W: fmt::Write>(&self, f: &mut fmt::Formatter<W>) -> fmt::Result {
        let (number, name) = (self.refused.number(), self.refused.name());
        match self.refused.at {
            Some(at) => write!(f, "refused {number} {name} at {at}"),
            None => write!(f, "refused {number} {name}"),
        }
    }
}
