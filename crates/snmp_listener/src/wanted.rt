//! Which of the messages that were accepted are to be told.

ghost use Rattle.std.specs.Prelude.{◌≡◌, ◌<◌, ◌≤◌, ◌↔◌, true, All, IsTrue, MatchBool, MatchOption};
ghost use Rattle.snmp_msg.specs.Variables.{variables_of};
ghost use Rattle.snmp_ber.specs.Level.{level_number};
ghost use Rattle.snmp_ber.specs.declared.level.Level.TheVariants.{NoAuthNoPriv};
ghost use Rattle.usm_users.specs.Users.{HasUserAt};
ghost use Rattle.snmp_outgoing.specs.Bodies.{has_auth};
ghost use Rattle.snmp_incoming.specs.Answers.{given_of};
ghost use Rattle.snmp_listener.specs.Wanted.{InNotifyView, IsForManager, IsHighEnough, IsLow, IsNamed};
ghost use Rattle.snmp_listener.specs.Wanted.{IsUnwanted, IsWanted, notified_in};

use crate::dropped::Dropped;
use crate::rules::{ListenerRules, is_named};
use engine_clock::EngineId;
use snmp_ber::{Level, Oid};
use snmp_incoming::{Kept, Taken};
use snmp_manager::Manager;
use snmp_msg::{
    Pdu, USER_BASED, one_content, one_cut, one_message, one_pdu, read_message, read_security,
};
use vacm_core::laws::order_is_free;
use vacm_core::{Access, Vacm, ViewType};

/// Returns true if a datagram is the manager's: it is under another engine ID than the listener's own, and asks for no
/// report (RFC 3412, section 6.4; RFC 3414, section 3.1). Each other one is the agent's.
pub(crate) fn is_for_manager(engine: &EngineId, datagram: &[u8]) -> bool
    ensures { IsTrue result ↔ IsForManager engine.now datagram.now }
{
    one_message();
    one_cut();
    let Ok(message) = read_message(datagram) else {
        return false;
    };
    let Ok(security) = read_security(datagram, &message) else {
        return false;
    };
    if security.engine == engine.as_slice() {
        return false;
    }
    !message.header.reportable
}

/// Returns true if the variable of this name is in the notify view of the message's user, at its level, in this context
/// (RFC 3415, section 3).
fn is_seen(tables: &Vacm, taken: &Taken<'_>, context: &[u8], name: &Oid) -> bool
    ensures { IsTrue result ↔ notified_in tables.now (given_of taken.now) context.now name.now }
{
    order_is_free();
    let answer = tables.is_access_allowed(
        USER_BASED,
        taken.user,
        taken.level,
        ViewType::Notify,
        context,
        name,
    );
    matches!(answer, Access::AccessAllowed)
}

/// Returns true if each variable of a PDU is in that view.
fn is_list_seen(tables: &Vacm, taken: &Taken<'_>, context: &[u8], pdu: &Pdu<'_>) -> bool
    ensures { IsTrue result ↔ All (λ v. notified_in tables.now (given_of taken.now) context.now v.name)
        (variables_of pdu.now.list.now) }
{
    for binding in pdu.variable_bindings() {
        if !is_seen(tables, taken, context, &binding.name.oid()) {
            return false;
        }
    }
    true
}

/// Returns true if each variable of an accepted message is in the notify view of its user (RFC 3413, section 3.3, step
/// 3).
fn is_in_view(tables: &Vacm, taken: &Taken<'_>) -> bool
    ensures { IsTrue result ↔ InNotifyView tables.now (given_of taken.now) }
{
    one_content();
    one_pdu();
    let scoped = taken.scoped();
    let pdu = taken.pdu();
    is_list_seen(tables, taken, scoped.name, &pdu)
}

/// Returns true if a level is below another one, for which the user has the keys.
fn is_below(manager: &Manager, user: &[u8], level: Level, other: Level) -> bool
    requires { has_auth other ≡ true }
    ensures { MatchBool result
        (HasUserAt manager.now.users user.now other × (level_number level < level_number other))
        (HasUserAt manager.now.users user.now other → level_number other ≤ level_number level) }
{
    if level >= other {
        return false;
    }
    manager.supports(user, other).is_ok()
}

impl ListenerRules {
    /// Returns true if messages of this user at this level are below the least level.
    fn is_low(&self, manager: &Manager, user: &[u8], level: Level) -> bool
        ensures { MatchBool result (IsLow self.now.least_level manager.now.users user.now level)
            (IsHighEnough self.now.least_level manager.now.users user.now level) }
    {
        let Some(least) = self.least_level else {
            return is_below(manager, user, level, Level::AuthPriv)
                || is_below(manager, user, level, Level::AuthNoPriv);
        };
        level < least
    }

    /// Returns true if messages at this level are taken from this address.
    fn takes_from(&self, level: Level, from: &[u8]) -> bool
        ensures { MatchBool result (level ≡ NoAuthNoPriv → IsNamed self.now.sources.items from.now)
            ((level ≡ NoAuthNoPriv) × ¬ IsNamed self.now.sources.items from.now) }
    {
        if level != Level::NoAuthNoPriv {
            return true;
        }
        if is_named(&self.sources, from) {
            return true;
        }
        false
    }

    /// Returns true if an accepted message is in the notify view of its user, or its user needs none.
    fn shows(&self, tables: &Vacm, taken: &Taken<'_>) -> bool
        ensures { MatchBool result
            (IsNamed self.now.viewed.items taken.now.user.now → InNotifyView tables.now (given_of taken.now))
            (IsNamed self.now.viewed.items taken.now.user.now × ¬ InNotifyView tables.now (given_of taken.now)) }
    {
        if !is_named(&self.viewed, taken.user) {
            return true;
        }
        if is_in_view(tables, taken) {
            return true;
        }
        false
    }

    /// Returns why an accepted message isn't to be told. None: it is, unless it was told before.
    pub(crate) fn reason_against(
        &self,
        manager: &Manager,
        tables: &Vacm,
        tag: u8,
        from: &[u8],
        taken: &Taken<'_>,
    ) -> Option<Dropped>
        ensures { MatchOption result
            (IsWanted self.now manager.now.users tables.now tag from.now (given_of taken.now))
            (IsUnwanted self.now manager.now.users tables.now tag from.now (given_of taken.now)) }
    {
        if taken.tag != tag {
            return Some(Dropped::OtherPdu);
        }
        if self.is_low(manager, taken.user, taken.level) {
            return Some(Dropped::LowLevel);
        }
        if !self.takes_from(taken.level, from) {
            return Some(Dropped::OtherAddress);
        }
        if !self.shows(tables, taken) {
            return Some(Dropped::OutsideView);
        }
        None
    }

    /// Returns the same of a message that was kept.
    pub(crate) fn reason_against_kept(
        &self,
        manager: &Manager,
        tables: &Vacm,
        tag: u8,
        from: &[u8],
        kept: &Kept,
    ) -> Option<Dropped>
        ensures { MatchOption result (IsWanted self.now manager.now.users tables.now tag from.now kept.now)
            (IsUnwanted self.now manager.now.users tables.now tag from.now kept.now) }
    {
        let taken = kept.taken();
        self.reason_against(manager, tables, tag, from, &taken)
    }
}
