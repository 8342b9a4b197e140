//! Reading a device.

ghost use Rattle.std.specs.Prelude.{◌≡◌, ◌∷◌, [], IfOk, IfErr, option_map};
ghost use Rattle.toml.specs.View.{table_view};
ghost use Rattle.snmpsec_gate_config.specs.Rows.{IsDevice, AreDeviceLimits};
ghost use Rattle.snmpsec_gate_config.specs.Refusals.{TellsNoTable};
ghost use Rattle.snmpsec_gate_config.specs.Values.{IsFirstFault};
ghost use Rattle.snmpsec_gate_config.specs.declared.table.GateTable.TheVariants as tables;
ghost use Rattle.snmpsec_gate_config.specs.declared.table.GateKey.TheVariants as keys;
ghost use Rattle.snmpsec_gate_config.specs.declared.table.LimitKey.TheVariants as limits;

use crate::fault::GateTableFault;
use crate::listed::only_listed;
use crate::settings::{DeviceLimits, DeviceSettings};
use crate::table::{GateKey, GateTable, LimitKey};
use crate::values::{GateValueFault, address, community, community_if_any, limit, name};
use std::alloc::{AllocError, Global};
use toml::Table;

/// The octets of a text.
fn octets(alloc: Global, text: &str) -> Result<Vec<u8>, AllocError>
    ensures { IfOk result (λ made. made.items ≡ text.now) }
{
    Vec::from_slice(alloc, text.as_bytes())
}

/// The octets of a text, if there is one.
fn octets_if_any(alloc: Global, text: Option<&str>) -> Result<Option<Vec<u8>>, AllocError>
    ensures { IfOk result
        (λ made. option_map (λ m. m.items) made ≡ option_map (λ t. t.now) text.entry) }
{
    match text {
        Some(text) => Ok(Some(octets(alloc, text)?)),
        None => Ok(None),
    }
}

/// The limits of a device.
fn device_limits(row: &Table) -> Result<DeviceLimits, GateValueFault>
    ensures ok { IfOk result (AreDeviceLimits (table_view row.now)) }
    ensures fault { IfErr result (IsFirstFault (table_view row.now)
        (keys.Limit limits.Repetitions ∷ keys.Limit limits.MaxSize ∷ keys.Limit limits.AtOnce ∷ [])) }
{
    let repetitions = limit(row, LimitKey::Repetitions)?;
    let max_size = limit(row, LimitKey::MaxSize)?;
    let at_once = limit(row, LimitKey::AtOnce)?;
    Ok(DeviceLimits {
        repetitions: repetitions as usize,
        max_size: max_size as usize,
        at_once: at_once as u16,
    })
}

/// Reads a device.
pub(crate) fn read_device(alloc: Global, row: &Table) -> Result<DeviceSettings, GateTableFault>
    ensures device { IfOk result (IsDevice (table_view row.now)) }
    ensures fault { IfErr result (TellsNoTable tables.Device IsDevice (table_view row.now)) }
{
    only_listed(alloc, row, GateTable::Device)?;
    let context = name(row, GateKey::Context)?;
    let address = address(row, GateKey::Address)?;
    let community = community(row, GateKey::Community)?;
    let write_community = community_if_any(row, GateKey::WriteCommunity)?;
    let limits = device_limits(row)?;
    let community = octets(alloc, community)?;
    let write_community = octets_if_any(alloc, write_community)?;
    Ok(DeviceSettings {
        context,
        address,
        community,
        write_community,
        limits,
    })
}
