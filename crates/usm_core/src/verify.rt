//! The refusals of a datagram down to its digest.

ghost use Rattle.std.specs.Prelude.{◌≡◌, ◌↔◌, [], IsTrue, IfOk, IfSome, MatchOption, None};
ghost use Rattle.snmp_ber.specs.declared.level.Level.TheVariants.{NoAuthNoPriv};
ghost use Rattle.usm_core.specs.Authentic.{HasEngineLength};
ghost use Rattle.usm_core.specs.Verified.{Verifies, AllowsEngine, manager};
ghost use Rattle.usm_core.specs.Answers.{side_of, checked_answer};
ghost use Rattle.usm_core.specs.Layouts.{IsLayoutOf};
ghost use Rattle.usm_users.specs.Cache.{AreCached, IsCachedAt, key_id};
ghost use Rattle.usm_users.specs.declared.cache.Purpose.TheVariants.{Authentication};

use crate::checked::{Checked, Role};
use crate::digest::is_digest_right;
use crate::layout::Layout;
use engine_clock::EngineId;
use snmp_ber::Level;
use snmp_message::{Refusal, RefusedAt};
use usm_users::{CachedKey, KeyCache, UserTable};

/// The engine of these octets: at an agent where they are its own identifier, and at a manager where there are
/// 5 to 32 of them.
fn engine_for(role: Role<'_>, octets: &[u8]) -> Option<EngineId>
    ensures engine { MatchOption result (AllowsEngine (side_of role.entry) octets.now → ⊥)
        (λ engine. AllowsEngine (side_of role.entry) octets.now × (engine ≡ octets.now)) }
    ensures length { IfSome result (λ _. HasEngineLength octets.now) }
{
    match role {
        Role::Agent(own) => {
            if own.as_slice() == octets {
                Some(own.copy())
            } else {
                None
            }
        }
        Role::Manager => EngineId::of(octets),
    }
}

/// At a manager the empty name at noAuthNoPriv, which the report that answers a discovery has.
fn allows_no_user(role: Role<'_>, name: &[u8], level: Level) -> bool
    ensures { IsTrue result ↔ ((side_of role.entry ≡ manager)
        × (name.now ≡ []) × (level ≡ NoAuthNoPriv)) }
{
    match (role, level) {
        (Role::Manager, Level::NoAuthNoPriv) => name.is_empty(),
        _ => false,
    }
}

/// The message that the datagram is, whose layout was read, where its digest is right or it has none. `made`
/// is the localised key where the cache has none.
pub(crate) fn verify<'a>(
    users: &UserTable,
    cache: &KeyCache,
    role: Role<'_>,
    datagram: &'a [u8],
    layout: &Layout<'a>,
    made: &mut Option<CachedKey>,
) -> Result<Checked<'a>, RefusedAt>
    requires cache { AreCached users.now cache.now }
    requires none { made.old ≡ None }
    requires layout { IsLayoutOf datagram.now layout.now }
    ensures rows { Verifies (side_of role.entry) users.now datagram.now (checked_answer result) }
    ensures made { IfOk result
        (λ c. IfSome made.new
        (IsCachedAt users.now (key_id c.security.user.now c.security.engine.now Authentication))) }
{
    let (message, security, level) = (layout.message, layout.security, layout.level);
    let Some(engine) = engine_for(role, security.engine) else {
        return Err(RefusedAt::plain(Refusal::UnknownEngine));
    };
    match users.user_named(security.user) {
        Some(user) => {
            if !user.supports(level) {
                return Err(RefusedAt::plain(Refusal::UnsupportedLevel));
            }
            if !is_digest_right(user, cache, datagram, &message, &security, made) {
                return Err(RefusedAt::plain(Refusal::WrongDigest));
            }
        }
        None => {
            if !allows_no_user(role, security.user, level) {
                return Err(RefusedAt::plain(Refusal::UnknownUser));
            }
        }
    }
    Ok(Checked {
        message,
        security,
        engine,
        level,
    })
}
