//! A message that is sealed by one user, and opened by another who has the same keys.

ghost use Rattle.std.specs.Prelude.{◌≡◌, IfSome, length, true};
ghost use Rattle.usm_core.specs.Sealed.{IsSendable};

use engine_clock::Pair;
use snmp_ber::Level;
use snmp_msg::Header;
use usm_core::{Role, Users, sealed_is_opened};

/// What is sealed: the fields of a message at authPriv, and its ScopedPDU (RFC 3412, section 6).
#[derive(Clone, Copy)]
pub struct Letter<'a> {
    pub header: Header,
    pub engine: &'a [u8],
    /// The user's name, at most 32 octets.
    pub user: &'a [u8],
    pub salt: [u8; 8],
    /// A whole ScopedPDU element.
    pub scoped: &'a [u8],
}

/// Seals a message of this pair with privacy by the keys of users, and opens it by those of other users that are the
/// same. What it is opened to is the ScopedPDU that was sealed, octet for octet. None if a step refuses it, or memory
/// ran out.
pub fn seal_and_open(
    sender: &mut Users,
    receiver: &mut Users,
    letter: &Letter<'_>,
    pair: Pair,
) -> Option<Vec<u8>>
    requires fits { IsSendable letter.now.header letter.now.user.now letter.now.scoped.now }
    requires privacy { letter.now.header.privacy ≡ true }
    requires salt { length letter.now.salt ≡ 8 }
    requires same { receiver.old.users ≡ sender.old.users }
    ensures { IfSome result (λ plain. plain.items ≡ letter.now.scoped.now) }
{
    sealed_is_opened();
    let Letter {
        header,
        engine,
        user,
        salt,
        scoped,
    } = *letter;
    let Ok(octets) = sender.seal(&header, engine, pair, user, salt, scoped) else {
        return None;
    };
    let Ok(checked) = receiver.open_auth(Role::Manager, &octets) else {
        return None;
    };
    let Level::AuthPriv = checked.level else {
        return None;
    };
    let Ok(plain) = receiver.open_priv(&checked) else {
        return None;
    };
    Some(plain)
}
