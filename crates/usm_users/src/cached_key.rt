//! A localised key that is kept for the next message.

ghost use Rattle.std.specs.Prelude.{◌≡◌, ◌≤◌, length, take};
ghost use Rattle.usm_aes.specs.Aes.{schedule};

use std::marker::Model;
use usm_aes::{Schedule, expand};
use usm_keys::{KeptKey, Key};

/// A localised key that is kept: with its padded blocks hashed where it is for authentication (RFC 2104,
/// section 4), and with its first 16 octets expanded where it is for privacy (RFC 3826, section 3.1.2.1).
#[derive(Drop)]
pub struct CachedKey {
    key: KeptKey,
    schedule: Option<Schedule>,
}

impl Model for CachedKey {
    ghost use Rattle.std.specs.Prelude.{◌≡◌, IfSome, take};
    ghost use Rattle.usm_keys.specs.AuthKey.{AuthKey};
    ghost use Rattle.usm_aes.specs.Aes.{schedule as expanded};

    ghost Value = { AuthKey };

    ghost view = { λ cached. cached.key };

    ghost invariant = { λ cached. IfSome cached.schedule
        (λ s. s ≡ expanded (take 16 cached.key.octets)) };
}

/// The first 16 octets of the localised key, expanded.
fn schedule_of(local: &Key) -> Schedule
    requires { 16 ≤ length local.now.octets }
    ensures { result ≡ schedule (take 16 local.now.octets) }
{
    let mut octets = [0; 16];
    octets.copy_from_slice(&local.as_slice()[..16]);
    expand(&octets)
}

impl CachedKey {
    /// A localised key for authentication.
    pub fn for_authentication(local: Key) -> CachedKey
        ensures { result ≡ local }
    {
        CachedKey {
            key: KeptKey::with_pads(local),
            schedule: None,
        }
    }

    /// A localised key for privacy.
    pub fn for_privacy(local: Key) -> CachedKey
        requires { 16 ≤ length local.octets }
        ensures { result ≡ local }
    {
        let schedule = schedule_of(&local);
        CachedKey {
            key: KeptKey::of(local),
            schedule: Some(schedule),
        }
    }

    /// The key.
    pub fn key(&self) -> &KeptKey
        ensures { result.now ≡ self.now }
    {
        &self.key
    }

    /// Its first 16 octets, expanded.
    pub fn schedule(&self) -> Schedule
        requires { 16 ≤ length self.now.octets }
        ensures { result ≡ schedule (take 16 self.now.octets) }
    {
        match &self.schedule {
            Some(schedule) => schedule.copy(),
            None => schedule_of(self.key.key()),
        }
    }
}
