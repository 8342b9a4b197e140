//! Reading [gate].

ghost use Rattle.std.specs.Prelude.{◌∷◌, [], IfOk, IfErr, MatchOption, Option};
ghost use Rattle.std.specs.Prelude.{List};
ghost use Rattle.std.specs.declared.net.socket_addr.SocketAddr.{SocketAddr as Address};
ghost use Rattle.toml.specs.View.{table_view, items_view};
ghost use Rattle.snmpsec_gate_config.specs.Keys.{at};
ghost use Rattle.snmpsec_gate_config.specs.Rows.{IsGate, AreGateLimits};
ghost use Rattle.snmpsec_gate_config.specs.Refusals.{TellsNoTable, TellsNoAddresses, TellsNoAddressesIfAny};
ghost use Rattle.snmpsec_gate_config.specs.Values.{IsFirstFault, AreAddresses, AreAddressesIfAny, AreAddressesIn};
ghost use Rattle.snmpsec_gate_config.specs.declared.table.GateTable.TheVariants as tables;
ghost use Rattle.snmpsec_gate_config.specs.declared.table.GateKey.TheVariants as keys;
ghost use Rattle.snmpsec_gate_config.specs.declared.table.LimitKey.TheVariants as limits;

use crate::fault::GateTableFault;
use crate::listed::only_listed;
use crate::settings::{GateSettings, GatewayLimits};
use crate::table::{GateKey, GateTable, LimitKey};
use crate::values::{GateValueFault, address_in, engine, fault, flag, limit, path, value, values};
use std::alloc::{AllocError, Global};
use std::net::SocketAddr;
use toml::{Table, Value};

/// The limits of a gateway.
fn gate_limits(row: &Table) -> Result<GatewayLimits, GateValueFault>
    ensures ok { IfOk result (AreGateLimits (table_view row.now)) }
    ensures fault { IfErr result (IsFirstFault (table_view row.now)
        (keys.Limit limits.Waiting ∷ keys.Limit limits.Rounds ∷ keys.Limit limits.Again
        ∷ keys.Limit limits.Tries ∷ keys.Limit limits.Last ∷ keys.Limit limits.Gather
        ∷ keys.Limit limits.WaitingPerDevice ∷ [])) }
{
    let waiting = limit(row, LimitKey::Waiting)?;
    let rounds = limit(row, LimitKey::Rounds)?;
    let again = limit(row, LimitKey::Again)?;
    let tries = limit(row, LimitKey::Tries)?;
    let last = limit(row, LimitKey::Last)?;
    let gather = limit(row, LimitKey::Gather)?;
    let waiting_per_device = limit(row, LimitKey::WaitingPerDevice)?;
    Ok(GatewayLimits {
        waiting: waiting as usize,
        waiting_per_device: waiting_per_device as usize,
        rounds,
        again: u64::from(again),
        tries,
        last: u64::from(last),
        gather: u64::from(gather),
    })
}

/// The addresses that values are. None: one isn't an address.
fn addresses_in(alloc: Global, values: &[Value]) -> Result<Option<Vec<SocketAddr>>, AllocError>
    ensures { IfOk result (λ read. MatchOption read
        ((addresses : List Address) → ¬ AreAddressesIn (items_view values.now) addresses)
        (λ addresses. AreAddressesIn (items_view values.now) addresses.items)) }
{
    let mut addresses = Vec::new(alloc);
    for value in values {
        let Some(address) = address_in(value) else {
            return Ok(None);
        };
        addresses.push(address)?;
    }
    Ok(Some(addresses))
}

/// The addresses at a key, at least one.
fn addresses(alloc: Global, row: &Table, key: GateKey) -> Result<Vec<SocketAddr>, GateTableFault>
    ensures ok { IfOk result (λ addresses. AreAddresses (at (table_view row.now) key) addresses.items) }
    ensures fault { IfErr result (TellsNoAddresses (table_view row.now) key) }
{
    let Some(values) = values(row, key) else {
        return Err(GateTableFault::from(fault(row, key)));
    };
    match addresses_in(alloc, values)? {
        Some(addresses) if !addresses.is_empty() => Ok(addresses),
        _ => Err(GateTableFault::from(fault(row, key))),
    }
}

/// The addresses at a key, none where it is absent.
fn addresses_if_any(
    alloc: Global,
    row: &Table,
    key: GateKey,
) -> Result<Vec<SocketAddr>, GateTableFault>
    ensures ok { IfOk result (λ addresses. AreAddressesIfAny (at (table_view row.now) key) addresses.items) }
    ensures fault { IfErr result (TellsNoAddressesIfAny (table_view row.now) key) }
{
    if value(row, key).is_none() {
        return Ok(Vec::new(alloc));
    }
    addresses(alloc, row, key)
}

/// Reads [gate].
pub(crate) fn read_gate(alloc: Global, row: &Table) -> Result<GateSettings, GateTableFault>
    ensures gate { IfOk result (IsGate (table_view row.now)) }
    ensures fault { IfErr result (TellsNoTable tables.Gate IsGate (table_view row.now)) }
{
    only_listed(alloc, row, GateTable::Gate)?;
    let engine = engine(row, GateKey::Engine)?;
    let path = path(row, GateKey::Boots)?;
    let listen = addresses(alloc, row, GateKey::Listen)?;
    let traps = addresses_if_any(alloc, row, GateKey::Traps)?;
    let limits = gate_limits(row)?;
    let long_answers = flag(row, GateKey::LongAnswers)?;
    let report_unreachable = flag(row, GateKey::ReportUnreachable)?;
    let boots = String::from_str(alloc, path)?;
    Ok(GateSettings {
        engine,
        boots,
        listen,
        traps,
        limits,
        long_answers,
        report_unreachable,
    })
}
