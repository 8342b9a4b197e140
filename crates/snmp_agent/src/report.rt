//! Reports (RFC 3414, section 3.2).

ghost use Rattle.std.specs.Prelude.{◌≡◌, ◌≤◌, Some, None, IfOk, IsErr, OnErr, IfSome, length};
ghost use Rattle.snmp_ber.specs.declared.level.Level.TheVariants.{AuthNoPriv};
ghost use Rattle.engine_clock.specs.Pairs.{IsPair};
ghost use Rattle.usm_users.specs.Users.{HasUserAt};
ghost use Rattle.usm_core.specs.Layouts.{IsLayoutOf};
ghost use Rattle.usm_core.specs.Sealed.{SealedText};
ghost use Rattle.snmp_incoming.specs.Outcome.{Outcome, own_pair};
ghost use Rattle.usm_core.specs.Table.{refusal_answer};
ghost use Rattle.snmp_agent.specs.RefusalCounters.{counter_of};
ghost use Rattle.snmp_agent.specs.Agent.{taker_at};
ghost use Rattle.snmp_agent.specs.CounterReports.{report_level};
ghost use Rattle.snmp_agent.specs.Report.{IsReport, IsShortReport, Offers, least_max_size, report_of, reporting_of};

use crate::counter_report::write_counter_report;
use crate::engine::Engine;
use crate::refusal_counters::counter_of;
use crate::reportable::asking;
use crate::reported_message::ReportedMessage;
use crate::response_laws::report_is_short;
use engine_clock::{EngineId, Pair};
use snmp_ber::{Level, Oid};
use snmp_msg::{Refusal, RefusedAt, one_cut, one_message};
use snmp_outgoing::{Envelope, counter_name};
use std::alloc::AllocError;
use usm_core::{Layout, Users, verified_was_read};

/// The report on a refusal of the datagram, or None where none is offered: by what was read of it before, and the
/// counters after the refusal.
///
/// The error is out of memory. Where no report is offered, no memory is taken.
pub(crate) fn report(
    users: &mut Users,
    engine: &Engine,
    now: u64,
    counters: &[u32; 6],
    why: Refusal,
    datagram: &[u8],
    read: &Result<Layout<'_>, RefusedAt>,
) -> Result<Option<Vec<u8>>, AllocError>
    requires rows { IfSome (refusal_answer why)
        (Outcome (taker_at engine.now) users.old.users now datagram.now) }
    requires layout { IfOk read.now (IsLayoutOf datagram.now) }
    requires unread { IsErr read.now → counter_of why ≡ None }
    ensures users { users.new.users ≡ users.old.users }
    ensures report { IfOk result
        (λ r. IsReport users.old.users engine.now.id
        (own_pair engine.now.boots engine.now.started now) counters.now datagram.now why
        (report_of r)) }
    ensures short { IfOk result IsShortReport }
    ensures memory { OnErr result (Offers datagram.now why) }
{
    one_message();
    one_cut();
    verified_was_read();
    let Some(n) = counter_of(why) else {
        return Ok(None);
    };
    let Ok(layout) = read else {
        return Ok(None);
    };
    let Some(asking) = asking(datagram, layout) else {
        return Ok(None);
    };
    let Some(own) = engine.pair(now) else {
        unreachable!();
    };
    let value = counters[usize::from(n) - 1];
    let text = write_report(users, &engine.id, own, n, value, &asking)?;
    Ok(Some(text))
}

/// The level at which counter n is reported (RFC 3414, section 3.2, step 7).
fn report_level(n: u8) -> Level
    ensures { result ≡ report_level n }
{
    if n == 2 {
        Level::AuthNoPriv
    } else {
        Level::NoAuthNoPriv
    }
}

/// The report of counter n. A report is short, and at a level with authentication its user has been
/// authenticated; so the error is out of memory.
fn write_report(
    users: &mut Users,
    engine: &EngineId,
    own: Pair,
    n: u8,
    value: u32,
    asking: &ReportedMessage<'_>,
) -> Result<Vec<u8>, AllocError>
    requires known { n ≡ 2 → HasUserAt users.old.users asking.now.user.now AuthNoPriv }
    requires pair { IsPair own }
    ensures users { users.new.users ≡ users.old.users }
    ensures text { IfOk result
        (λ text. SealedText users.old.users
        (reporting_of engine.now own n asking.now value) text.items) }
    ensures short { IfOk result (λ text. length text.items ≤ least_max_size) }
{
    report_is_short();
    let Some(name) = Oid::of(&counter_name(n)) else {
        unreachable!();
    };
    let envelope = Envelope {
        level: report_level(n),
        id: asking.id,
        reportable: false,
        engine: engine.as_slice(),
        pair: own,
        user: asking.user,
        salt: [0; 8],
    };
    match write_counter_report(users, &envelope, engine, asking.request_id, name, value) {
        Ok(text) => Ok(text),
        Err(fault) => {
            if !fault.is_memory() {
                unreachable!();
            }
            Err(AllocError)
        }
    }
}
