//! The refusals that the whole engine shares: the one table of their numbers, names and texts.

ghost use Rattle.std.specs.Prelude.{◌≡◌, Some};
ghost use Rattle.snmp_message.specs.Numbers.{refusal_number, refusal_name, refusal_words};

use std::error::Error;
use std::fmt;

/// A refusal of a message that came in, or of one that was to go out. The layers' own faults are among these, with the
/// places that some of them have.
#[derive(Clone, Copy, Debug, PartialEq, Eq, Drop)]
pub enum Refusal {
    /// The datagram isn't an SNMPv3Message (RFC 3412, section 6).
    NotMessage,
    /// msgVersion isn't 3.
    BadVersion,
    /// msgSecurityParameters are no UsmSecurityParameters (RFC 3414, section 2.4).
    NotSecurity,
    /// msgData isn't a ScopedPDU (RFC 3412, section 6.8), or not what the priv flag says.
    NotScoped,
    /// The octets are no PDU (RFC 3416, section 3).
    NotPdu,
    /// The engine is none that is spoken for (RFC 3414, section 3.2, step 3).
    UnknownEngine,
    /// No user has this name (step 4).
    UnknownUser,
    /// The user doesn't have the passwords that the level needs (step 5).
    UnsupportedLevel,
    /// msgAuthenticationParameters aren't the message authentication code (step 6).
    WrongDigest,
    /// The message is too old, or of another boot (step 7).
    NotInWindow,
    /// msgPrivacyParameters aren't the 8 octets of a salt (RFC 3826, section 3.2.1).
    DecryptionError,
    /// What was decrypted doesn't begin with a ScopedPDU.
    BadScoped,
    /// The data of a message isn't a PDU.
    BadPdu,
    /// A growth of memory was refused.
    OutOfMemory,
    /// The agent's engine time would pass 2147483647 (RFC 3414, section 2.2).
    ClockExhausted,
    /// The text would be longer than 65,507 octets, the most that a datagram over UDP and IPv4 can have.
    TooLarge,
    /// msgSecurityModel isn't 3, the user-based one (RFC 3411, section 5).
    UnknownModel,
    /// Priv without auth (RFC 3412, section 6.4).
    InvalidFlags,
}

impl Refusal {
    /// The refusal's row: its number, its name and its words.
    fn row(self) -> (u8, &'static str, &'static str)
        ensures number { result.0 ≡ refusal_number self }
        ensures name { result.1.now ≡ refusal_name self }
        ensures words { result.2.now ≡ refusal_words self }
    {
        match self {
            Refusal::NotMessage => (1, "NotMessage", "not a message"),
            Refusal::BadVersion => (2, "BadVersion", "not version 3"),
            Refusal::NotSecurity => (3, "NotSecurity", "not security parameters"),
            Refusal::NotScoped => (4, "NotScoped", "not a scoped PDU"),
            Refusal::NotPdu => (5, "NotPdu", "not a PDU"),
            Refusal::UnknownEngine => (6, "UnknownEngine", "unknown engine"),
            Refusal::UnknownUser => (7, "UnknownUser", "unknown user"),
            Refusal::UnsupportedLevel => (8, "UnsupportedLevel", "unsupported security level"),
            Refusal::WrongDigest => (9, "WrongDigest", "wrong digest"),
            Refusal::NotInWindow => (10, "NotInWindow", "not in the time window"),
            Refusal::DecryptionError => (11, "DecryptionError", "decryption error"),
            Refusal::BadScoped => (12, "BadScoped", "no scoped PDU after decryption"),
            Refusal::BadPdu => (13, "BadPdu", "not a PDU in the message"),
            Refusal::OutOfMemory => (14, "OutOfMemory", "out of memory"),
            Refusal::ClockExhausted => (15, "ClockExhausted", "engine time exhausted"),
            Refusal::TooLarge => (16, "TooLarge", "longer than a datagram"),
            Refusal::UnknownModel => (17, "UnknownModel", "unknown security model"),
            Refusal::InvalidFlags => (18, "InvalidFlags", "privacy without authentication"),
        }
    }

    /// The refusal's number, 1 to 18.
    pub fn number(self) -> u8
        ensures { result ≡ refusal_number self }
    {
        self.row().0
    }

    /// The refusal's name, as it is printed.
    pub fn name(self) -> &'static str
        ensures { result.now ≡ refusal_name self }
    {
        self.row().1
    }
    /// The refusal in words, as messages to people have it.
    pub fn words(self) -> &'static str
        ensures { result.now ≡ refusal_words self }
    {
        self.row().2
    }
}

impl fmt::Display for Refusal {
    ghost output = { λ refusal. Some (refusal_words refusal) };

    fn fmt<W: fmt::Write>(&self, f: &mut fmt::Formatter<W>) -> fmt::Result {
        f.write_str(self.words())
    }
}

impl Error for Refusal {}
