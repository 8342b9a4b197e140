//! Localised keys that are kept for the next message (RFC 3414, section 2.6).

ghost use Rattle.std.specs.Prelude.{◌≡◌, ◌≤◌, ◌⊎◌, List, [], length, Contains, IfOk, IfSome, IsSomeAnd};
ghost use Rattle.std.specs.Option.{option_copied};
ghost use Rattle.usm_keys.specs.AuthKey.{AuthKey};
ghost use Rattle.usm_users.specs.User.{User};
ghost use Rattle.usm_users.specs.declared.cache.KeyId.{KeyId as IdOf};
ghost use Rattle.usm_users.specs.Cache.{AreCached, IsCachedAt, key_id};

use crate::cached_key::CachedKey;
use crate::user::UserName;
use engine_clock::EngineId;
use lru::LruCache;
use std::alloc::{AllocError, Global};
use std::marker::Model;
use std::num::NonZeroUsize;

/// The most localised keys that are kept.
const MOST_KEYS: usize = 64;

/// So many made keys are passed over before one takes the place of another.
const PASSED_OVER: u8 = 4;

/// What a key is for.
#[derive(Clone, Copy, PartialEq, Eq, Hash, Debug)]
pub enum Purpose {
    Authentication,
    Privacy,
}

/// What tells one localised key from another: whose it is, for which engine and for what.
#[derive(PartialEq, Eq, Hash, Drop)]
pub struct KeyId {
    user: UserName,
    engine: EngineId,
    purpose: Purpose,
}

impl KeyId {
    /// None for a name or an identifier that no user and no engine has.
    fn of(name: &[u8], engine: &[u8], purpose: Purpose) -> Option<KeyId>
        ensures { IfSome result (λ id. id ≡ key_id name.now engine.now purpose) }
    {
        Some(KeyId {
            user: UserName::of(name)?,
            engine: EngineId::of(engine)?,
            purpose,
        })
    }
}

/// At most 64 localised keys, in the order of their last use, the last used first.
#[derive(Drop)]
pub struct KeyCache {
    keys: LruCache<KeyId, CachedKey>,
    /// How many made keys were passed over since one was entered.
    passed_over: u8,
}

impl Model for KeyCache {
    ghost use Rattle.std.specs.Prelude.{◌≡◌, List};
    ghost use Rattle.usm_keys.specs.AuthKey.{AuthKey};
    ghost use Rattle.usm_users.specs.declared.cache.KeyId.{KeyId};

    ghost Value = { List (KeyId × AuthKey) };

    ghost view = { λ cache. cache.keys.entries };

    ghost invariant = { λ cache. cache.keys.cap ≡ 64 };
}

/// Whether a made key is to be entered among so many: each while there is room, and of the others each fifth.
/// With more engines in turn than fit, each key would else push out another before it is found again.
fn has_turn(passed_over: &mut u8, count: usize) -> bool {
    if count < MOST_KEYS || *passed_over >= PASSED_OVER {
        *passed_over = 0;
        return true;
    }
    *passed_over += 1;
    false
}

impl KeyCache {
    /// No key.
    pub fn new(alloc: Global) -> Result<KeyCache, AllocError>
        ensures { IfOk result (λ cache. cache ≡ []) }
    {
        let Some(most) = NonZeroUsize::new(MOST_KEYS) else {
            unreachable!();
        };
        Ok(KeyCache {
            keys: LruCache::new(alloc, most)?,
            passed_over: 0,
        })
    }

    /// The number of keys.
    pub fn len(&self) -> usize
        ensures count { result ≡ length self.now }
        ensures most { result ≤ 64 }
    {
        self.keys.len()
    }

    /// The key that is kept under this. The order stays as it is, and no memory is taken.
    pub fn find(&self, name: &[u8], engine: &[u8], purpose: Purpose) -> Option<&CachedKey>
        ensures found { IfSome (option_copied result)
            (λ local. Contains self.now (key_id name.now engine.now purpose, local)) }
        ensures cached { (users : List User) → AreCached users self.now
            → IfSome (option_copied result)
            (IsCachedAt users (key_id name.now engine.now purpose)) }
    {
        self.keys.peek(&KeyId::of(name, engine, purpose)?)
    }

    /// Notes that a key was used: one that was made is entered, where it has its turn, and a kept one moved
    /// to the front, but for one of the last two. Where there is no memory, and for engine IDs of other
    /// lengths than 5 to 32 octets, all stays as it was.
    pub fn note_use(
        &mut self,
        name: &[u8],
        engine: &[u8],
        purpose: Purpose,
        made: Option<CachedKey>,
    )
        ensures kept { (e : IdOf × AuthKey) → Contains self.new e
            → Contains self.old e ⊎ IsSomeAnd made
            (λ local. e ≡ (key_id name.now engine.now purpose, local)) }
        ensures cached { (users : List User) → AreCached users self.old
            → IfSome made (IsCachedAt users (key_id name.now engine.now purpose))
            → AreCached users self.new }
    {
        let Some(id) = KeyId::of(name, engine, purpose) else {
            return;
        };
        match made {
            Some(key) => {
                if has_turn(&mut self.passed_over, self.keys.len()) {
                    let _ = self.keys.put(id, key);
                }
            }
            None => {
                if !self.is_near_front(&id) {
                    let _ = self.keys.promote(&id);
                }
            }
        }
    }

    /// Whether the key is one of the last two that were used, as both keys of one user and engine are.
    fn is_near_front(&self, id: &KeyId) -> bool {
        for (near, _) in self.keys.iter().take(2) {
            if *near == *id {
                return true;
            }
        }
        false
    }
}
