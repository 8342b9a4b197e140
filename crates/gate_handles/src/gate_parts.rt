//! The gateway's machine, of a configuration.

ghost use Rattle.std.specs.Prelude.{◌≡◌, ℕ, List, [], string_bytes, IfOk, IfErr};
ghost use Rattle.snmp_message.specs.declared.refusal.Refusal.TheVariants.{OutOfMemory};
ghost use Rattle.vacm_core.specs.Tables.{tables_of};
ghost use Rattle.snmpsec_gate_config.specs.Refusals.{Loads, Refuses, SaysSound};
ghost use Rattle.snmpsec_gate_config.specs.Rows.{HaveOwnContexts};
ghost use Rattle.snmpsec_gate_config.specs.Views.{views_without_family};
ghost use Rattle.snmp_handles.specs.declared.fault.CallFault.TheVariants.{Refused};
ghost use Rattle.gate_handles.specs.Gates.{RefusesConfig, IsAccessOf, IsNewGate, IsEmptyAgent};
ghost use Rattle.gate_handles.specs.Gates.{IsAgentWithoutUsers, limits_said};

use crate::handle::NO_MEMORY;
use crate::making::{devices_of, limits_of};
use engine_clock::EngineId;
use snmp_agent::Agent;
use snmp_gate::{Devices, Gate};
use snmp_handles::CallFault;
use snmpsec_gate_config::{
    DeviceSettings, GateConfig, GateFault, GateRows, GateSettings, GatewayLimits,
    views_without_family,
};
use std::alloc::{AllocError, Global};
use usm_core::{UserRow, Users};
use vacm_core::{AccessRow, Name, Rows, Vacm};

/// Returns the fault of a call that was given a text that is refused so.
fn fault_of(fault: &GateFault) -> CallFault
    ensures { (config : List ℕ) → Refuses config fault.now → RefusesConfig config result }
{
    if fault.is_memory() {
        NO_MEMORY
    } else {
        CallFault::BadConfiguration
    }
}

/// Returns what a configuration says, and its rows.
pub(crate) fn rows_of(alloc: Global, config: &[u8]) -> Result<GateRows, CallFault>
    ensures says { IfOk result (λ said. SaysSound config.now said.gate said.devices.items
        said.receivers.items said.rows.users.items (tables_of said.rows.access)) }
    ensures refuses { IfErr result (RefusesConfig config.now) }
{
    match GateRows::read(alloc, config) {
        Ok(said) => Ok(said),
        Err(fault) => Err(fault_of(&fault)),
    }
}

/// Returns the read views that no family row has.
pub(crate) fn views_of(alloc: Global, rows: &Rows) -> Result<Vec<Name>, CallFault>
    ensures views { IfOk result (λ views. views.items
        ≡ views_without_family rows.now.families.items rows.now.access.items) }
    ensures no_memory { IfErr result (λ fault. fault ≡ Refused OutOfMemory) }
{
    match views_without_family(alloc, rows) {
        Ok(views) => Ok(views),
        Err(_) => Err(NO_MEMORY),
    }
}

/// The access rows that a configuration says, and the read views of theirs that no family row has.
#[derive(Drop)]
pub(crate) struct SaidAccess {
    pub(crate) access: Vec<AccessRow>,
    pub(crate) views: Vec<Name>,
}

/// Returns what a configuration says of access.
pub(crate) fn access_of(alloc: Global, config: &[u8]) -> Result<SaidAccess, CallFault>
    ensures access { IfOk result (λ said. IsAccessOf config.now said.access.items said.views.items) }
    ensures refuses { IfErr result (RefusesConfig config.now) }
{
    let said = rows_of(alloc, config)?;
    let rows = said.rows;
    let views = views_of(alloc, &rows.access)?;
    let tables = rows.access;
    Ok(SaidAccess {
        access: tables.access,
        views,
    })
}

/// Returns what a configuration says.
pub(crate) fn config_of(alloc: Global, config: &[u8]) -> Result<GateConfig, CallFault>
    ensures loads { IfOk result (λ said. Loads config.now said.gate said.devices.items
        said.receivers.items said.users.users said.access) }
    ensures own_contexts { IfOk result (λ said. HaveOwnContexts said.devices.items) }
    ensures refuses { IfErr result (RefusesConfig config.now) }
{
    match GateConfig::read(alloc, config) {
        Ok(said) => Ok(said),
        Err(fault) => Err(fault_of(&fault)),
    }
}

/// Returns a gateway with this agent to the devices that a configuration says.
pub(crate) fn gate_of(
    alloc: Global,
    agent: Agent,
    said: &GateSettings,
    devices: &[DeviceSettings],
) -> Result<Gate, AllocError>
    requires { HaveOwnContexts devices.now }
    ensures new { IfOk result (IsNewGate agent devices.now) }
    ensures limits { IfOk result (λ gate. gate.limits ≡ limits_said said.now) }
{
    let list = devices_of(alloc, devices)?;
    let Ok(devices) = Devices::new(list) else {
        unreachable!();
    };
    Gate::new(alloc, agent, devices, limits_of(said))
}

/// Returns no users.
pub(crate) fn empty_users(alloc: Global) -> Result<Users, CallFault>
    ensures users { IfOk result (λ users. users.users ≡ []) }
    ensures no_memory { IfErr result (λ fault. fault ≡ Refused OutOfMemory) }
{
    let rows: Vec<UserRow> = Vec::new(alloc);
    match Users::load(alloc, &rows) {
        Ok(users) => Ok(users),
        Err(_) => Err(NO_MEMORY),
    }
}

/// Returns an agent of this engine without users, which has these rows. Where they can't be loaded, it answers that
/// memory ran out: they are of a configuration, in which none is at fault.
pub(crate) fn agent_without_users(
    alloc: Global,
    engine: EngineId,
    rows: &Rows,
) -> Result<Agent, CallFault>
    ensures agent { IfOk result (IsAgentWithoutUsers engine (tables_of rows.now)) }
    ensures no_memory { IfErr result (λ fault. fault ≡ Refused OutOfMemory) }
{
    let users = empty_users(alloc)?;
    let Ok(tables) = Vacm::load(alloc, rows) else {
        return Err(NO_MEMORY);
    };
    Ok(Agent::new(alloc, engine, 0, 0, users, tables))
}

/// Returns an agent without users and rows.
pub(crate) fn empty_agent(alloc: Global) -> Result<Agent, CallFault>
    ensures agent { IfOk result IsEmptyAgent }
    ensures no_memory { IfErr result (λ fault. fault ≡ Refused OutOfMemory) }
{
    let Some(engine) = EngineId::of(&[0; 5]) else {
        unreachable!();
    };
    let rows = Rows {
        contexts: Vec::new(alloc),
        groups: Vec::new(alloc),
        access: Vec::new(alloc),
        families: Vec::new(alloc),
    };
    agent_without_users(alloc, engine, &rows)
}

/// Returns what a configuration without addresses would say.
pub(crate) fn empty_settings(alloc: Global, engine: EngineId) -> GateSettings
    ensures path { string_bytes result.boots ≡ [] }
    ensures listen { result.listen.items ≡ [] }
    ensures traps { result.traps.items ≡ [] }
{
    GateSettings {
        engine,
        boots: String::new(alloc),
        listen: Vec::new(alloc),
        traps: Vec::new(alloc),
        limits: GatewayLimits {
            waiting: 1,
            waiting_per_device: 1,
            rounds: 1,
            again: 1,
            tries: 1,
            last: 1,
            gather: 0,
        },
        long_answers: false,
        report_unreachable: false,
    }
}
