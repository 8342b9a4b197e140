//! How long messages are, before they are written.

ghost use Rattle.std.specs.Prelude.{◌≡◌, ◌≤◌, ℕ, List, length, true, false, Some, if◌then◌else◌};
ghost use Rattle.snmp_ber.specs.Spelling.{element};
ghost use Rattle.snmp_message.specs.declared.message.TheConstants.{LARGEST};
ghost use Rattle.snmp_message.specs.Spelling.{HeaderFits};
ghost use Rattle.usm_keys.specs.AuthKey.{AuthKey};
ghost use Rattle.usm_keys.specs.Protocols.{mac_octets};
ghost use Rattle.usm_users.specs.User.{User as UserOf};
ghost use Rattle.usm_users.specs.Users.{user_named};
ghost use Rattle.usm_core.specs.Sealed.{SealedText, sending};
ghost use Rattle.usm_core.specs.Sizes.{data_size, whole_size};

use crate::seal::ZEROS;
use crate::users::Users;
use engine_clock::Pair;
use snmp_ber::one_element;
use snmp_message::{Header, Security, longer_whole, message_size, security_len};
use usm_users::UserTable;

impl Users {
    /// How many octets the content of msgSecurityParameters has in a message that is sealed for this user
    /// (RFC 3414, section 2.4): the code and the salt are those of the header's flags. The engine ID and the
    /// name have at most 32 octets each.
    ///
    /// With it the length of each text of such a message is known before it is written. It takes no memory.
    pub fn security_len(&self, header: &Header, engine: &[u8], pair: Pair, user: &[u8]) -> usize
        requires header { HeaderFits header.now }
        requires engine { length engine.now ≤ 32 }
        requires user { length user.now ≤ 32 }
        ensures size { (salt content text : List ℕ) → length salt ≡ 8 → length content ≤ LARGEST
            → SealedText self.now.users (sending header.now engine.now pair user.now salt
            (element 48 content)) text
            → length text ≡ whole_size header.now result
            (data_size header.now.privacy (length content)) }
        ensures most { result ≤ LARGEST }
    {
        one_element();
        message_size();
        longer_whole();
        security_len(&Security {
            engine,
            boots: pair.boots,
            time: pair.time,
            user,
            auth: &ZEROS[..code_octets(&self.table, header, user)],
            auth_at: 0,
            salt: &ZEROS[..salt_octets(header)],
        })
    }
}

/// How many octets the code of a message has (RFC 3414, sections 6.3.1 and 7.3.1; RFC 7860, section 4.2.1):
/// of the user's protocol where auth is set, and else none.
fn code_octets(users: &UserTable, header: &Header, name: &[u8]) -> usize
    ensures code { header.now.auth ≡ true → (user : UserOf) (key : AuthKey)
        → user_named users.now name.now ≡ Some user → user.auth ≡ Some key
        → result ≡ mac_octets key.auth }
    ensures none { header.now.auth ≡ false → result ≡ 0 }
    ensures most { result ≤ 24 }
{
    if !header.auth {
        return 0;
    }
    let Some(user) = users.user_named(name) else {
        return 0;
    };
    match user.auth() {
        Some(key) => key.auth().mac_octets(),
        None => 0,
    }
}

/// How many octets msgPrivacyParameters have (RFC 3826, section 3.1.1.2): those of a salt where priv is set,
/// and else none.
pub(crate) fn salt_octets(header: &Header) -> usize
    ensures size { result ≡ (if header.now.privacy then 8 else 0) }
    ensures most { result ≤ 24 }
{
    if header.privacy { 8 } else { 0 }
}
