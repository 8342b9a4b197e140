//! What a refusal mostly comes from, in words.

use snmp_message::Refusal;

/// What each refusal mostly comes from, in words for who has the configuration. docs/no-answer.md has the same.
pub fn cause(refusal: Refusal) -> &'static str {
    match refusal {
        Refusal::NotMessage | Refusal::NotSecurity | Refusal::NotScoped | Refusal::NotPdu => {
            "another protocol on the port, or a message that was cut"
        }
        Refusal::BadVersion => "the sender speaks SNMPv1 or SNMPv2c, with a community",
        Refusal::UnknownModel | Refusal::InvalidFlags => {
            "the sender asks for another security model, or for privacy without authentication"
        }
        Refusal::UnknownEngine => {
            "the engine ID hasn't 5 to 32 octets: the sender doesn't know the agent's engine yet"
        }
        Refusal::UnknownUser => {
            "no user of this name is in this configuration; a hash or a cipher that isn't known here keeps one out"
        }
        Refusal::UnsupportedLevel => "this configuration has no password of the user for the level",
        Refusal::WrongDigest => {
            "the password or the hash of the user in this configuration isn't the sender's"
        }
        Refusal::NotInWindow => {
            "the boots or the time in the message aren't the engine's: a restart, a wrong clock, \
             or a message that was kept"
        }
        Refusal::DecryptionError => "the salt hasn't 8 octets: the sender is at fault",
        Refusal::BadScoped => {
            "the privacy password or the cipher of the user in this configuration isn't the sender's"
        }
        Refusal::BadPdu => "the message was opened, and what it carries is out of its form",
        Refusal::ClockExhausted =>
            "the engine's time is at its end: its boots have to be counted on",
        Refusal::TooLarge | Refusal::OutOfMemory => "it is too large",
    }
}
