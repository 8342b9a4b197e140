//! The digest of a message (RFC 3414, sections 6.3 and 7.3): whether it is right, and putting it in its place.

ghost use Rattle.std.specs.Prelude.{◌≡◌, ℕ, ◌+◌, ◌≤◌, ◌↔◌, ◌++◌, vec_len, replicate, take, drop, length, IsTrue};
ghost use Rattle.std.specs.Prelude.{IsSomeAnd, IfSome, Some, None, List, true};
ghost use Rattle.snmp_message.specs.declared.message.TheConstants.{LARGEST};
ghost use Rattle.snmp_message.specs.Message.{parts};
ghost use Rattle.snmp_message.specs.Security.{IsCut, fields_of};
ghost use Rattle.usm_keys.specs.Protocols.{mac as mac_by, mac_octets};
ghost use Rattle.usm_users.specs.User.{User as UserOf};
ghost use Rattle.usm_users.specs.Users.{user_named};
ghost use Rattle.usm_users.specs.Cache.{AreCached, localised_to};
ghost use Rattle.usm_core.specs.Authentic.{IsMac};
ghost use Rattle.usm_core.specs.Sealed.{SendingFits, spelled_with, digest_of};
ghost use Rattle.usm_core.specs.Writing.{sending_of};

use crate::spell::{Outgoing, code_place};
use snmp_message::{Message, ScopedPdu, Security, cut, field_filled, one_cut};
use usm_keys::{KeptKey, Key, localise};
use usm_users::{CachedKey, KeyCache, Purpose, User};

/// Whether the octets are the same. It looks at each of them wherever they differ, so that the time tells
/// nothing of the place.
fn are_same(a: &[u8], b: &[u8]) -> bool
    ensures { IsTrue result ↔ (a.now ≡ b.now) }
{
    if a.len() != b.len() {
        return false;
    }
    let mut difference = 0;
    for k in 0..a.len() {
        difference |= a[k] ^ b[k];
    }
    difference == 0
}

/// The field is the code of the datagram, with zeros in the field's place, under the key localised to the
/// message's engine. No octet of the datagram is copied.
fn is_mac(
    key: &Key,
    local: &KeptKey,
    datagram: &[u8],
    message: &Message<'_>,
    security: &Security<'_>,
) -> bool
    requires local { local.now ≡ localised_to security.now.engine.now key.now }
    requires cut { IsCut datagram.now (parts message.now) (fields_of security.now)
        (take security.now.auth_at datagram.now)
        (drop (security.now.auth_at + length security.now.auth.now) datagram.now) }
    requires within { security.now.auth_at + length security.now.auth.now ≤ length datagram.now }
    ensures { IsTrue result ↔ IsMac key.now datagram.now
        (parts message.now) (fields_of security.now) }
{
    one_cut();
    let size = security.auth.len();
    if size != key.auth().mac_octets() {
        return false;
    }
    let pieces = cut(datagram, security);
    let code = local.mac(pieces.front, size, pieces.back);
    are_same(code.as_slice(), security.auth)
}

/// Where auth is set, the field is the code under the user's key. The localised key is the kept one, or one
/// that is made.
pub(crate) fn is_digest_right(
    user: &User,
    cache: &KeyCache,
    datagram: &[u8],
    message: &Message<'_>,
    security: &Security<'_>,
    made: &mut Option<CachedKey>,
) -> bool
    requires cut { IsCut datagram.now (parts message.now) (fields_of security.now)
        (take security.now.auth_at datagram.now)
        (drop (security.now.auth_at + length security.now.auth.now) datagram.now) }
    requires within { security.now.auth_at + length security.now.auth.now ≤ length datagram.now }
    requires cache { (users : List UserOf)
        × (user_named users security.now.user.now ≡ Some user.now)
        × AreCached users cache.now }
    requires none { made.old ≡ None }
    ensures right { IsTrue result
        ↔ (message.now.header.auth ≡ true
        → IsSomeAnd user.now.auth (λ key. IsMac key datagram.now
        (parts message.now) (fields_of security.now))) }
    ensures made { IfSome made.new
        (λ local. IsSomeAnd user.now.auth
        (λ key. local ≡ localised_to security.now.engine.now key)) }
{
    if !message.header.auth {
        return true;
    }
    let Some(key) = user.auth() else {
        return false;
    };
    if let Some(local) = cache.find(security.user, security.engine, Purpose::Authentication) {
        return is_mac(key, local.key(), datagram, message, security);
    }
    let local = CachedKey::for_authentication(localise(key, security.engine));
    let right = is_mac(key, local.key(), datagram, message, security);
    *made = Some(local);
    right
}

/// Puts the code of the text, with `size` zeros at this place, there, under a localised key.
fn put_code(text: &mut Vec<u8>, at: usize, size: usize, local: &KeptKey)
    requires size { size ≡ mac_octets local.now.auth }
    requires most { size ≤ 24 }
    requires within { at + size ≤ vec_len text.old }
    ensures { text.new.items ≡ take at text.old.items
        ++ (mac_by local.now.auth local.now.octets
        (take at text.old.items ++ replicate size 0 ++ drop (at + size) text.old.items)
        ++ drop (at + size) text.old.items) }
{
    let code = local.mac(&text[..at], size, &text[at + size..]);
    text[at..at + size].copy_from_slice(code.as_slice());
}

/// Puts the code in place of the zeros, in the text itself, under the key localised to the message's
/// engine. The content of its msgData has `data_len` octets.
pub(crate) fn fill<S: ScopedPdu>(
    text: &mut Vec<u8>,
    key: &Key,
    local: &KeptKey,
    outgoing: &Outgoing<'_, S>,
    data_len: usize,
)
    requires local { local.now ≡ localised_to outgoing.now.engine.now key.now }
    requires fits { SendingFits (sending_of S.octets outgoing.now) }
    requires text { (tag : ℕ) × (content : List ℕ) × (length content ≡ data_len)
        × (text.old.items ≡ spelled_with (sending_of S.octets outgoing.now) tag content
        (replicate (mac_octets key.now.auth) 0)) }
    requires size { length text.old.items ≤ LARGEST }
    ensures filled { (tag : ℕ) (content : List ℕ) → length content ≡ data_len
        → text.old.items ≡ spelled_with (sending_of S.octets outgoing.now) tag content
        (replicate (mac_octets key.now.auth) 0)
        → text.new.items ≡ spelled_with (sending_of S.octets outgoing.now) tag content
        (digest_of key.now (sending_of S.octets outgoing.now) tag content) }
    ensures length { length text.new.items ≡ length text.old.items }
{
    field_filled();
    let size = key.auth().mac_octets();
    let at = code_place(text, outgoing, data_len, size);
    put_code(text, at, size, local);
}
