//! The keys of a user's passwords.

ghost use Rattle.std.specs.Prelude.{◌≡◌};
ghost use Rattle.std.specs.Option.{option_copied};
ghost use Rattle.usm_users.specs.Credentials.{auth_of, privacy_of};

use usm_keys::Key;

/// The keys that a user's passwords were hashed to, not yet localised to an engine (RFC 3414, section 2.6). A
/// key for privacy comes only with one for authentication.
#[derive(Drop)]
pub enum Credentials {
    /// For noAuthNoPriv alone.
    None,
    /// Up to authNoPriv.
    Auth(Key),
    /// Up to authPriv.
    Private { auth: Key, privacy: Key },
}

impl Credentials {
    /// The key for authentication.
    pub fn auth(&self) -> Option<&Key>
        ensures { option_copied result ≡ auth_of self.now }
    {
        match self {
            Credentials::None => None,
            Credentials::Auth(auth) | Credentials::Private { auth, .. } => Some(auth),
        }
    }

    /// The key for privacy.
    pub fn privacy(&self) -> Option<&Key>
        ensures { option_copied result ≡ privacy_of self.now }
    {
        match self {
            Credentials::Private { privacy, .. } => Some(privacy),
            _ => None,
        }
    }

    /// The same keys. It takes no memory.
    pub fn copy(&self) -> Credentials
        ensures { result ≡ self.now }
    {
        match self {
            Credentials::None => Credentials::None,
            Credentials::Auth(auth) => Credentials::Auth(auth.copy()),
            Credentials::Private { auth, privacy } => Credentials::Private {
                auth: auth.copy(),
                privacy: privacy.copy(),
            },
        }
    }
}
