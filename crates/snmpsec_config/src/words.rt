//! The words of a configuration, and of what the program prints of levels.

ghost use Rattle.std.specs.Prelude.{◌≡◌, IfSome, Some};
ghost use Rattle.snmp_ber.specs.declared.level.Level.{Level as ALevel};
ghost use Rattle.usm_keys.specs.declared.auth.Auth.{Auth as AnAuth};
ghost use Rattle.vacm_core.specs.declared.rows.Matching.{Matching as AMatching};
ghost use Rattle.snmpsec_config.specs.Words.{level_word, auth_word, matching_word};

use snmp_ber::Level;
use usm_keys::Auth;
use vacm_core::Matching;

/// The word for a level.
pub fn level_word(level: Level) -> &'static str
    ensures { result.now ≡ level_word level }
{
    match level {
        Level::NoAuthNoPriv => "noAuthNoPriv",
        Level::AuthNoPriv => "authNoPriv",
        Level::AuthPriv => "authPriv",
    }
}

/// The level of this word.
pub fn level_of(word: &str) -> Option<Level>
    ensures found { IfSome result (λ level. word.now ≡ level_word level) }
    ensures all { (level : ALevel) → word.now ≡ level_word level → result ≡ Some level }
{
    match word {
        "noAuthNoPriv" => Some(Level::NoAuthNoPriv),
        "authNoPriv" => Some(Level::AuthNoPriv),
        "authPriv" => Some(Level::AuthPriv),
        _ => None,
    }
}

/// The protocol of this name.
pub(crate) fn auth_of(word: &str) -> Option<Auth>
    ensures found { IfSome result (λ auth. word.now ≡ auth_word auth) }
    ensures all { (auth : AnAuth) → word.now ≡ auth_word auth → result ≡ Some auth }
{
    match word {
        "md5" => Some(Auth::Md5),
        "sha1" => Some(Auth::Sha1),
        "sha256" => Some(Auth::Sha256),
        _ => None,
    }
}

/// How a context prefix is compared.
pub(crate) fn matching_of(word: &str) -> Option<Matching>
    ensures found { IfSome result (λ matching. word.now ≡ matching_word matching) }
    ensures all { (matching : AMatching) → word.now ≡ matching_word matching
        → result ≡ Some matching }
{
    match word {
        "exact" => Some(Matching::Exact),
        "prefix" => Some(Matching::Prefix),
        _ => None,
    }
}
