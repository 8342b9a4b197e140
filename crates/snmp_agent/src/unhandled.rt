//! Why an accepted message isn't answered.

ghost use Rattle.std.specs.Prelude.{◌≡◌};
ghost use Rattle.snmp_agent.specs.Dispatch.{counter_of};

use snmp_outgoing::Counter;

/// Why no application of an engine answers an accepted message (RFC 3412, sections 4.2.2 and 7.2; RFC 3413,
/// section 3.2).
#[derive(Clone, Copy, Debug, PartialEq, Eq)]
pub enum Unhandled {
    /// It is a Response or a Report, and no request waits for it: it is neither counted nor reported.
    NoRequest,
    /// No application is registered for its PDU at its contextEngineID.
    UnknownPduHandlers,
    /// Its context is known and can't be reached now. An agent never says so by itself.
    UnavailableContexts,
    /// There is no context of its name.
    UnknownContexts,
}

impl Unhandled {
    /// The counter that counts it.
    pub fn counter(self) -> Option<Counter>
        ensures { result ≡ counter_of self }
    {
        match self {
            Unhandled::NoRequest => None,
            Unhandled::UnknownPduHandlers => Some(Counter::UnknownPduHandlers),
            Unhandled::UnavailableContexts => Some(Counter::UnavailableContexts),
            Unhandled::UnknownContexts => Some(Counter::UnknownContexts),
        }
    }
}
