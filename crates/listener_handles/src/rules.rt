//! The rules of a listener, by its settings.

ghost use Rattle.std.specs.Prelude.{◌≡◌, IfErr, IfOk, MatchOption, map};
ghost use Rattle.vacm_core.specs.Tables.{tables_of};
ghost use Rattle.snmp_message.specs.declared.refusal.Refusal.TheVariants.{OutOfMemory};
ghost use Rattle.snmp_handles.specs.declared.fault.CallFault.TheVariants.{Refused};
ghost use Rattle.listener_handles.specs.Rules.{AreRules, RefusesRules, has_notify_view, is_viewed, least_of};
ghost use Rattle.listener_handles.specs.Rules.{viewed_names};

use crate::settings::{ListenerSettings, NotifyingSource};
use snmp_ber::Level;
use snmp_handles::{CallFault, level_of};
use snmp_listener::ListenerRules;
use snmp_msg::{Refusal, USER_BASED};
use snmpsec_config::{AccessConfig, ConfigFault};
use std::alloc::{AllocError, Global};
use vacm_core::{AccessRow, GroupRow, Rows};

/// Memory ran out.
pub(crate) const NO_MEMORY: CallFault = CallFault::Refused(Refusal::OutOfMemory);

/// Returns the least level of this number: 1 to 3, or 0 for the highest of each user. None: no level has it.
pub(crate) fn least_of(number: u32) -> Option<Option<Level>>
    ensures { result ≡ least_of number }
{
    if number == 0 {
        return Some(None);
    }
    match level_of(number) {
        Some(level) => Some(Some(level)),
        None => None,
    }
}

/// Returns the addresses. The error is out of memory.
fn sources_of(alloc: Global, sources: &[NotifyingSource<'_>]) -> Result<Vec<Vec<u8>>, AllocError>
    ensures { IfOk result (λ list. map (λ v. v.items) list.items ≡ map (λ s. s.octets.now) sources.now) }
{
    let mut list = Vec::new(alloc);
    for source in sources {
        let octets = Vec::from_slice(alloc, source.octets)?;
        list.push(octets)?;
    }
    Ok(list)
}

/// Returns true if one of the rows gives the group a notify view.
fn has_notify_view(access: &[AccessRow], group: &[u8]) -> bool
    ensures { result ≡ has_notify_view access.now group.now }
{
    access.iter().any(|row| row.group.as_slice() == group && !row.notify.as_slice().is_empty())
}

/// Returns true if the row has a user whose group has a notify view.
fn is_viewed(access: &[AccessRow], row: &GroupRow) -> bool
    ensures { result ≡ is_viewed access.now row.now }
{
    row.model == USER_BASED && has_notify_view(access, row.group.as_slice())
}

/// Returns the names of the users whose groups have a notify view. The error is out of memory.
fn viewed_of(alloc: Global, rows: &Rows) -> Result<Vec<Vec<u8>>, AllocError>
    ensures { IfOk result (λ names. map (λ v. v.items) names.items ≡ viewed_names (tables_of rows.now)) }
{
    let mut names = Vec::new(alloc);
    for row in &rows.groups {
        if is_viewed(&rows.access, row) {
            let name = Vec::from_slice(alloc, row.name.as_slice())?;
            names.push(name)?;
        }
    }
    Ok(names)
}

/// Returns the rules of these settings, with this least level.
///
/// The errors are BadConfiguration, and out of memory.
pub(crate) fn rules_of(
    alloc: Global,
    settings: &ListenerSettings<'_>,
    least_level: Option<Level>,
) -> Result<ListenerRules, CallFault>
    ensures ok { IfOk result (AreRules settings.now least_level) }
    ensures err { IfErr result (RefusesRules settings.now.config.now) }
{
    let said = match AccessConfig::read(alloc, settings.config) {
        Ok(said) => said,
        Err(ConfigFault::OutOfMemory) => return Err(NO_MEMORY),
        Err(_) => return Err(CallFault::BadConfiguration),
    };
    let Ok(viewed) = viewed_of(alloc, &said.rows.access) else {
        return Err(NO_MEMORY);
    };
    let Ok(sources) = sources_of(alloc, settings.sources) else {
        return Err(NO_MEMORY);
    };
    Ok(ListenerRules {
        least_level,
        sources,
        viewed,
        most: settings.most,
    })
}
