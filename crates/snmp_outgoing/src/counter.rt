//! The counters of an engine, by name.

ghost use Rattle.std.specs.Prelude.{◌≡◌};
ghost use Rattle.snmp_outgoing.specs.Counters.{counter_name, name_of, place_of};

/// The arcs of the name of counter n, usmStats n of RFC 3414, section 5: 1 usmStatsUnsupportedSecLevels, 2
/// usmStatsNotInTimeWindows, 3 usmStatsUnknownUserNames, 4 usmStatsUnknownEngineIDs, 5 usmStatsWrongDigests, 6
/// usmStatsDecryptionErrors.
pub fn counter_name(n: u8) -> [u32; 11]
    ensures { result ≡ counter_name n }
{
    [1, 3, 6, 1, 6, 3, 15, 1, 1, u32::from(n), 0]
}

/// A counter of messages that were refused without a report, that no application handled, or that had no
/// answer short enough. Each is a Counter32: it goes from 4294967295 to 0.
#[derive(Clone, Copy, Debug, PartialEq, Eq)]
pub enum Counter {
    /// snmpUnknownPDUHandlers (RFC 3412, section 5): no application is registered for the PDU at its contextEngineID.
    UnknownPduHandlers,
    /// snmpUnavailableContexts (RFC 3413, section 4.1.2): the context is known and can't be reached now.
    UnavailableContexts,
    /// snmpUnknownContexts (RFC 3413, section 4.1.2): there is no context of the name.
    UnknownContexts,
    /// snmpInBadVersions (RFC 3418): refusal 2.
    InBadVersions,
    /// snmpInASNParseErrs (RFC 3418): refusals 1, 3, 4, 12 and 13.
    InAsnParseErrs,
    /// snmpUnknownSecurityModels (RFC 3412, section 5): refusal 17.
    UnknownSecurityModels,
    /// snmpInvalidMsgs (RFC 3412, section 5): refusal 18.
    InvalidMsgs,
    /// snmpSilentDrops (RFC 3418): a request had no answer, since even the one without bindings was too long.
    SilentDrops,
}

impl Counter {
    /// The arcs of its name.
    pub fn name(self) -> &'static [u32]
        ensures { result.now ≡ name_of self }
    {
        match self {
            Counter::UnknownPduHandlers => &[1, 3, 6, 1, 6, 3, 11, 2, 1, 3, 0],
            Counter::UnavailableContexts => &[1, 3, 6, 1, 6, 3, 12, 1, 4, 0],
            Counter::UnknownContexts => &[1, 3, 6, 1, 6, 3, 12, 1, 5, 0],
            Counter::InBadVersions => &[1, 3, 6, 1, 2, 1, 11, 3, 0],
            Counter::InAsnParseErrs => &[1, 3, 6, 1, 2, 1, 11, 6, 0],
            Counter::UnknownSecurityModels => &[1, 3, 6, 1, 6, 3, 11, 2, 1, 1, 0],
            Counter::InvalidMsgs => &[1, 3, 6, 1, 6, 3, 11, 2, 1, 2, 0],
            Counter::SilentDrops => &[1, 3, 6, 1, 2, 1, 11, 31, 0],
        }
    }

    /// Its place among them, 0 to 7.
    pub fn place(self) -> usize
        ensures { result ≡ place_of self }
    {
        match self {
            Counter::UnknownPduHandlers => 0,
            Counter::UnavailableContexts => 1,
            Counter::UnknownContexts => 2,
            Counter::InBadVersions => 3,
            Counter::InAsnParseErrs => 4,
            Counter::UnknownSecurityModels => 5,
            Counter::InvalidMsgs => 6,
            Counter::SilentDrops => 7,
        }
    }
}
