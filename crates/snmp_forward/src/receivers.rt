//! Who is sent notifications, and who may be notified of which.

ghost use Rattle.std.specs.Prelude.{◌≡◌, ◌↔◌, All, IfOk, IsTrue, MatchOption, MatchResult};
ghost use Rattle.snmp_msg.specs.Variables.{variables_of};
ghost use Rattle.snmp_forward.specs.Receivers.{ArePlaces, IsFirstLong, IsShort, MayBeNotified, notified_in};

use crate::notification::DeviceNotification;
use snmp_ber::{Level, Oid};
use snmp_msg::{Pdu, USER_BASED};
use std::alloc::{AllocError, Global};
use vacm_core::laws::order_is_free;
use vacm_core::{Access, Vacm, ViewType};

/// The most octets of msgUserName (RFC 3414, section 2.4).
pub const USER_NAME_LIMIT: usize = 32;

/// How a receiver is notified (RFC 3413, section 4.1, snmpNotifyType).
#[derive(Clone, Copy, Debug, PartialEq, Eq)]
pub enum NotifyType {
    /// By an SNMPv2-Trap, which nobody acknowledges.
    Trap,
    /// By an InformRequest, which the receiver acknowledges.
    Inform,
}

/// Who is sent notifications: a management target (RFC 3413, section 4.1).
#[derive(Drop)]
pub struct Receiver {
    /// The name of the user for whom notifications are sealed, at most 32 octets.
    pub user: Vec<u8>,
    /// The level at which they are sealed.
    pub level: Level,
    pub notify_type: NotifyType,
}

/// Why receivers can't be sent notifications: the name of a user has more than 32 octets.
#[derive(Clone, Copy, Debug, PartialEq, Eq)]
pub struct LongUserName {
    /// The number of the first receiver with such a user, counted from 0.
    pub number: usize,
}

/// The receivers of notifications. Each is known by its number, counted from 0. Where it listens is the caller's.
#[derive(Drop)]
pub struct Receivers {
    pub(crate) list: Vec<Receiver>,
    ghost short: { All IsShort list.items },
}

/// Returns the number of the first receiver whose user's name is too long.
fn first_long(receivers: &[Receiver]) -> Option<usize>
    ensures { MatchOption result (All IsShort receivers.now) (IsFirstLong receivers.now) }
{
    for (number, receiver) in receivers.iter().enumerate() {
        if receiver.user.len() > USER_NAME_LIMIT {
            return Some(number);
        }
    }
    None
}

impl Receivers {
    /// Returns these receivers, in this order. The error is that a user's name is longer than 32 octets. It takes no
    /// memory.
    pub fn new(list: Vec<Receiver>) -> Result<Receivers, LongUserName>
        ensures { MatchResult result (λ receivers. receivers.list.items ≡ list.items)
            (λ e. IsFirstLong list.items e.number) }
    {
        if let Some(number) = first_long(&list) {
            return Err(LongUserName { number });
        }
        Ok(Receivers { list })
    }

    /// Returns the receivers, in their order.
    pub fn list(&self) -> &[Receiver]
        ensures { result.now ≡ self.now.list.items }
    {
        self.list.as_slice()
    }
}

impl Receiver {
    /// Returns true if the variable of this name is in the notify view of the receiver's user, at its level, in this
    /// context (RFC 3415, section 3).
    fn is_notified_of(&self, tables: &Vacm, context: &[u8], name: &Oid) -> bool
        ensures { IsTrue result ↔ notified_in tables.now self.now context.now name.now }
    {
        order_is_free();
        let answer = tables.is_access_allowed(
            USER_BASED,
            &self.user,
            self.level,
            ViewType::Notify,
            context,
            name,
        );
        matches!(answer, Access::AccessAllowed)
    }

    /// Returns true if each variable of a notification is in that view.
    fn is_notified_of_all(&self, tables: &Vacm, context: &[u8], pdu: &Pdu<'_>) -> bool
        ensures { IsTrue result ↔ All (λ v. notified_in tables.now self.now context.now v.name)
            (variables_of pdu.now.list.now) }
    {
        for binding in pdu.variable_bindings() {
            if !self.is_notified_of(tables, context, &binding.name.oid()) {
                return false;
            }
        }
        true
    }

    /// Returns true if the receiver may be notified of this, which comes from the device that this contextName names
    /// (RFC 3413, section 3.3, steps 3 and 4): each of its variables, and its snmpTrapOID, is in the notify view of the
    /// receiver's user. It takes no memory.
    pub fn may_be_notified(
        &self,
        tables: &Vacm,
        context: &[u8],
        notification: &DeviceNotification<'_>,
    ) -> bool
        ensures { IsTrue result ↔ MayBeNotified tables.now self.now context.now
            (variables_of notification.now.pdu.list.now) notification.now.trap_oid }
    {
        self.is_notified_of(tables, context, &notification.trap_oid.oid())
            && self.is_notified_of_all(tables, context, &notification.pdu)
    }
}

impl Receivers {
    /// Returns the numbers of all receivers that may be notified of this, as `Receiver::may_be_notified` says, the
    /// least first. The error is out of memory.
    pub fn choose(
        &self,
        alloc: Global,
        tables: &Vacm,
        context: &[u8],
        notification: &DeviceNotification<'_>,
    ) -> Result<Vec<usize>, AllocError>
        ensures { IfOk result (λ numbers. ArePlaces
            (λ r. MayBeNotified tables.now r context.now (variables_of notification.now.pdu.list.now)
            notification.now.trap_oid) self.now.list.items numbers.items) }
    {
        let mut numbers = Vec::new(alloc);
        for (number, receiver) in self.list.iter().enumerate() {
            if receiver.may_be_notified(tables, context, notification) {
                numbers.push(number)?;
            }
        }
        Ok(numbers)
    }
}
