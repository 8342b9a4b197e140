//! The privacy of a message (RFC 3826, section 3.1).

ghost use Rattle.std.specs.Prelude.{◌≡◌, ◌≢◌, ℕ, List, ◌++◌, Some, length, take, IfOk, IfErr, IfSome, ◌⊎◌};
ghost use Rattle.snmp_ber.specs.declared.level.Level.TheVariants.{AuthPriv};
ghost use Rattle.snmp_message.specs.Message.{tag_of, content_of};
ghost use Rattle.snmp_message.specs.Security.{fields_of};
ghost use Rattle.usm_keys.specs.Keys.{kul};
ghost use Rattle.usm_keys.specs.Protocols.{hash_of};
ghost use Rattle.usm_aes.specs.Aes.{enciphered, schedule};
ghost use Rattle.usm_aes.specs.Feedback.{IsSealed, iv_of, opened};
ghost use Rattle.usm_users.specs.User.{User as UserOf};
ghost use Rattle.usm_users.specs.Users.{HasUserAt, user_named};
ghost use Rattle.usm_users.specs.Cache.{AreCached, schedule_at};
ghost use Rattle.usm_core.specs.Sealed.{UserKey, IsPlaintext};
ghost use Rattle.snmp_message.specs.declared.refusal.Refusal.TheVariants.{DecryptionError, OutOfMemory};
ghost use Rattle.snmp_message.specs.Refusals.{IsRefused};

use crate::checked::Checked;
use crate::spell::Outgoing;
use snmp_message::{Refusal, RefusedAt, ScopedPdu, Security};
use std::alloc::{AllocError, Global};
use usm_aes::{Schedule, cfb_open, cfb_seal, iv};
use usm_keys::{Key, localise};
use usm_users::{CachedKey, KeyCache, Purpose, UserTable};

/// The first 16 octets of the localised privacy key, expanded, that is kept for the user of this name and this
/// engine. It becomes the last used.
fn kept_schedule(
    users: &UserTable,
    cache: &mut KeyCache,
    name: &[u8],
    engine: &[u8],
) -> Option<Schedule>
    requires cache { AreCached users.now cache.old }
    ensures schedule { IfSome result (λ kept. UserKey users.now name.now (λ user. user.privacy)
        (λ key. kept ≡ schedule_at engine.now key)) }
    ensures cache { AreCached users.now cache.new }
{
    let schedule = cache.find(name, engine, Purpose::Privacy)?.schedule();
    cache.note_use(name, engine, Purpose::Privacy, None);
    Some(schedule)
}

/// The same, of this user's privacy key. It is localised and kept.
fn made_schedule(
    users: &UserTable,
    cache: &mut KeyCache,
    key: &Key,
    name: &[u8],
    engine: &[u8],
) -> Schedule
    requires key { (user : UserOf) × (user_named users.now name.now ≡ Some user)
        × (user.privacy ≡ Some key.now) }
    requires cache { AreCached users.now cache.old }
    ensures schedule { result ≡ schedule_at engine.now key.now }
    ensures cache { AreCached users.now cache.new }
{
    let local = CachedKey::for_privacy(localise(key, engine));
    let schedule = local.schedule();
    cache.note_use(name, engine, Purpose::Privacy, Some(local));
    schedule
}

/// The first 16 octets of the key localised to the engine, expanded, of a user's privacy key. The localised
/// key is the kept one, which becomes the last used, or one that is made and kept.
pub(crate) fn schedule_under(
    users: &UserTable,
    cache: &mut KeyCache,
    key: &Key,
    name: &[u8],
    engine: &[u8],
) -> Schedule
    requires key { (user : UserOf) × (user_named users.now name.now ≡ Some user)
        × (user.privacy ≡ Some key.now) }
    requires cache { AreCached users.now cache.old }
    ensures schedule { result ≡ schedule
        (take 16 (kul (hash_of key.now.auth) key.now.octets engine.now)) }
    ensures cache { AreCached users.now cache.new }
{
    match kept_schedule(users, cache, name, engine) {
        Some(kept) => kept,
        None => made_schedule(users, cache, key, name, engine),
    }
}

/// The same, of the user of this name, who is looked up where no key is kept.
fn user_schedule(users: &UserTable, cache: &mut KeyCache, name: &[u8], engine: &[u8]) -> Schedule
    requires level { HasUserAt users.now name.now AuthPriv }
    requires cache { AreCached users.now cache.old }
    ensures schedule { UserKey users.now name.now (λ user. user.privacy)
        (λ key. result ≡ schedule (take 16 (kul (hash_of key.auth) key.octets engine.now))) }
    ensures cache { AreCached users.now cache.new }
{
    if let Some(kept) = kept_schedule(users, cache, name, engine) {
        return kept;
    }
    let Some(user) = users.user_named(name) else {
        unreachable!();
    };
    let Some(key) = user.privacy() else {
        unreachable!();
    };
    made_schedule(users, cache, key, name, engine)
}

/// Enciphers the ScopedPDU in its place, at the end of the text.
pub(crate) fn seal_end<S: ScopedPdu>(
    schedule: &Schedule,
    outgoing: &Outgoing<'_, S>,
    text: &mut Vec<u8>,
)
    requires fits { S.fits outgoing.now.scoped.now }
    requires end { (front : List ℕ) × (text.old.items ≡ front ++ S.octets outgoing.now.scoped.now) }
    ensures sealed { (front octets : List ℕ)
        → text.old.items ≡ front ++ S.octets outgoing.now.scoped.now
        → IsSealed (enciphered schedule.now)
        (iv_of outgoing.now.boots outgoing.now.time outgoing.now.salt)
        (S.octets outgoing.now.scoped.now) octets
        → text.new.items ≡ front ++ octets }
    ensures length { length text.new.items ≡ length text.old.items }
{
    let at = text.len() - outgoing.scoped.octets_len();
    let iv = iv(outgoing.boots, outgoing.time, &outgoing.salt);
    cfb_seal(schedule, iv, &mut text[at..]);
}

/// The plaintext of sealed octets.
fn open_octets(
    alloc: Global,
    schedule: &Schedule,
    security: &Security<'_>,
    salt: &[u8; 8],
    octets: &[u8],
) -> Result<Vec<u8>, AllocError>
    ensures { IfOk result
        (λ v. v.items ≡ opened (enciphered schedule.now)
        (iv_of security.now.boots security.now.time salt.now) octets.now) }
{
    let mut text = octets.to_vec(alloc)?;
    cfb_open(schedule, iv(security.boots, security.time, salt), &mut text);
    Ok(text)
}

/// The plaintext of a message whose user supports authPriv.
pub(crate) fn open_for(
    alloc: Global,
    users: &UserTable,
    cache: &mut KeyCache,
    checked: &Checked<'_>,
) -> Result<Vec<u8>, RefusedAt>
    requires level { HasUserAt users.now checked.now.security.user.now AuthPriv }
    requires sealed { tag_of checked.now.message.body ≡ 4 }
    requires cache { AreCached users.now cache.old }
    ensures opened { IfOk result
        (λ v. IsPlaintext users.now (fields_of checked.now.security)
        (content_of checked.now.message.body) v.items) }
    ensures salt { IsRefused result DecryptionError → length checked.now.security.salt.now ≢ 8 }
    ensures salt_length { IfOk result (λ _. length checked.now.security.salt.now ≡ 8) }
    ensures memory { IsRefused result OutOfMemory → length checked.now.security.salt.now ≡ 8 }
    ensures fault { IfErr result (λ e. (e.refusal ≡ DecryptionError) ⊎ (e.refusal ≡ OutOfMemory)) }
    ensures cache { AreCached users.now cache.new }
{
    let security = &checked.security;
    let Some(salt) = security.salt.as_array::<8>() else {
        return Err(RefusedAt::plain(Refusal::DecryptionError));
    };
    let schedule = user_schedule(users, cache, security.user, security.engine);
    let octets = checked.message.body.content();
    Ok(open_octets(alloc, &schedule, security, salt, octets)?)
}
