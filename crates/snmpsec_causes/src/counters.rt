//! The counters that Reports tell.

ghost use Rattle.std.specs.Prelude.{ℕ, List, IfNone, IfSome};
ghost use Rattle.snmpsec_causes.specs.Counters.{IsCounter};

/// The name of the counter of this identifier, which is given in decimals with dots between: of RFC 3412 (section 5),
/// of targets (RFC 3413, section 4.1.2) and of the user-based security model (RFC 3414, section 5).
pub fn counter_named(identifier: &str) -> Option<&'static str>
    ensures found { IfSome result (λ name. IsCounter identifier.now name.now) }
    ensures none { IfNone result ((name : List ℕ) → IsCounter identifier.now name → ⊥) }
{
    match identifier {
        "1.3.6.1.6.3.15.1.1.1.0" => Some("usmStatsUnsupportedSecLevels"),
        "1.3.6.1.6.3.15.1.1.2.0" => Some("usmStatsNotInTimeWindows"),
        "1.3.6.1.6.3.15.1.1.3.0" => Some("usmStatsUnknownUserNames"),
        "1.3.6.1.6.3.15.1.1.4.0" => Some("usmStatsUnknownEngineIDs"),
        "1.3.6.1.6.3.15.1.1.5.0" => Some("usmStatsWrongDigests"),
        "1.3.6.1.6.3.15.1.1.6.0" => Some("usmStatsDecryptionErrors"),
        "1.3.6.1.6.3.11.2.1.1.0" => Some("snmpUnknownSecurityModels"),
        "1.3.6.1.6.3.11.2.1.2.0" => Some("snmpInvalidMsgs"),
        "1.3.6.1.6.3.11.2.1.3.0" => Some("snmpUnknownPDUHandlers"),
        "1.3.6.1.6.3.12.1.4.0" => Some("snmpUnavailableContexts"),
        "1.3.6.1.6.3.12.1.5.0" => Some("snmpUnknownContexts"),
        _ => None,
    }
}
