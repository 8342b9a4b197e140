//! What is copied of what an agent or a manager has.

ghost use Rattle.std.specs.Prelude.{◌≡◌};
ghost use Rattle.snmp_c.specs.Accepted.{copied_of};

use snmp_handles::Part;

/// What is copied of what an agent or a manager has.
#[derive(Clone, Copy)]
pub(crate) enum Copied {
    /// A part of the message that is kept.
    OfKept(Part),
    /// The message that is to be sent.
    Message,
}

impl Copied {
    /// What has these numbers: 0 a part by its own number, as `Part::of` has it, and 1 the message to be sent.
    pub(crate) fn of(what: u32, part: u32) -> Option<Copied>
        ensures { result ≡ copied_of what part }
    {
        match what {
            0 => Part::of(part).map(Copied::OfKept),
            1 => Some(Copied::Message),
            _ => None,
        }
    }
}
