//! The numbers by which calls name levels, views, counters, answers on access and what becomes of messages.

ghost use Rattle.std.specs.Prelude.{◌≡◌};
ghost use Rattle.snmp_handles.specs.Numbers as spec;

use snmp_agent::Unhandled;
use snmp_ber::Level;
use snmp_outgoing::Counter;
use vacm_core::{Access, ViewType};

/// The level of this number: 1 noAuthNoPriv, 2 authNoPriv, 3 authPriv; None where no level has it.
pub fn level_of(number: u32) -> Option<Level>
    ensures { result ≡ spec.level_of number }
{
    if number == 1 {
        Some(Level::NoAuthNoPriv)
    } else if number == 2 {
        Some(Level::AuthNoPriv)
    } else if number == 3 {
        Some(Level::AuthPriv)
    } else {
        None
    }
}

/// The view of this number: 0 read, 1 write, 2 notify; None where no view has it.
pub fn view_of(number: u32) -> Option<ViewType>
    ensures { result ≡ spec.view_of number }
{
    if number == 0 {
        Some(ViewType::Read)
    } else if number == 1 {
        Some(ViewType::Write)
    } else if number == 2 {
        Some(ViewType::Notify)
    } else {
        None
    }
}

/// The answer on access of this number, as `Access::number` has it.
pub(crate) fn access_of(number: u32) -> Option<Access>
    ensures { result ≡ spec.access_of number }
{
    match number {
        0 => Some(Access::AccessAllowed),
        1 => Some(Access::NotInView),
        2 => Some(Access::NoSuchView),
        3 => Some(Access::NoAccessEntry),
        4 => Some(Access::NoGroupName),
        5 => Some(Access::NoSuchContext),
        _ => None,
    }
}

/// The counter of this number, behind usmStats 1 to 6: 7 snmpUnknownPDUHandlers, 8 snmpUnavailableContexts, 9
/// snmpUnknownContexts, 10 snmpInBadVersions, 11 snmpInASNParseErrs, 12 snmpUnknownSecurityModels, 13
/// snmpInvalidMsgs, 14 snmpSilentDrops.
pub fn counter_of(number: u32) -> Option<Counter>
    ensures { result ≡ spec.counter_of number }
{
    match number {
        7 => Some(Counter::UnknownPduHandlers),
        8 => Some(Counter::UnavailableContexts),
        9 => Some(Counter::UnknownContexts),
        10 => Some(Counter::InBadVersions),
        11 => Some(Counter::InAsnParseErrs),
        12 => Some(Counter::UnknownSecurityModels),
        13 => Some(Counter::InvalidMsgs),
        14 => Some(Counter::SilentDrops),
        _ => None,
    }
}

/// Why nothing answers a message, by its number: 1 no request waits for it, or the number of its counter, 7 to 9.
pub fn unhandled_of(number: u32) -> Option<Unhandled>
    ensures { result ≡ spec.unhandled_of number }
{
    match number {
        1 => Some(Unhandled::NoRequest),
        7 => Some(Unhandled::UnknownPduHandlers),
        8 => Some(Unhandled::UnavailableContexts),
        9 => Some(Unhandled::UnknownContexts),
        _ => None,
    }
}

/// The number of why nothing answers a message, or 0 where it is to be answered.
pub(crate) fn unhandled_number(why: Option<Unhandled>) -> u8
    ensures { result ≡ spec.unhandled_number why }
{
    match why {
        None => 0,
        Some(Unhandled::NoRequest) => 1,
        Some(Unhandled::UnknownPduHandlers) => 7,
        Some(Unhandled::UnavailableContexts) => 8,
        Some(Unhandled::UnknownContexts) => 9,
    }
}
