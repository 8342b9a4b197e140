//! Reading a gateway's configuration.

ghost use Rattle.std.specs.Prelude.{◌≡◌, IfErr, IfOk, MatchBool, MatchOption, map};
ghost use Rattle.toml.specs.Data.{no_members};
ghost use Rattle.toml.specs.View.{view, table_view};
ghost use Rattle.vacm_core.specs.Tables.{tables_of};
ghost use Rattle.snmpsec_config.specs.Rows.{AreRows};
ghost use Rattle.snmpsec_config.specs.Documents.{AreTables};
ghost use Rattle.snmpsec_gate_config.specs.Documents.{IsTop, IsBadTop, IsTopMember, IsArrayName, StandsFor};
ghost use Rattle.snmpsec_gate_config.specs.Documents.{gate_of, devices_of, receivers_of, AreConfigRows};
ghost use Rattle.snmpsec_gate_config.specs.Refusals.{Says, SaysSound, Loads, Refuses, RefusesDocument, TellsNoGate};
ghost use Rattle.snmpsec_gate_config.specs.Refusals.{TellsNoDevices, TellsNoReceivers, TellsNoRows};
ghost use Rattle.snmpsec_gate_config.specs.Refusals.{device_refusal, receiver_refusal};
ghost use Rattle.snmpsec_gate_config.specs.Receivers.{AreReceivers};
ghost use Rattle.snmpsec_gate_config.specs.Rows.{IsGate, IsDevice, IsReceiver, HaveOwnContexts, context_row};

use crate::device::read_device;
use crate::fault::{GateFault, GateKeyFault, GateTableFault};
use crate::gate::read_gate;
use crate::receiver::{check_receivers, read_receiver};
use crate::settings::{DeviceSettings, GateSettings, ReceiverSettings};
use crate::table::GateKey;
use snmpsec_config::{
    ConfigFault, ConfigRows, document_of, is_array_of_tables, read_rows, values_at,
};
use std::alloc::{AllocError, Global};
use toml::{Table, Value};
use usm_core::{UserRow, Users};
use vacm_core::{ContextRow, Rows, Vacm};

/// What a gateway's configuration says, and the rows of users and access, in the order of its text. The contexts are
/// those of the devices.
#[derive(Drop)]
pub struct GateRows {
    pub gate: GateSettings,
    pub devices: Vec<DeviceSettings>,
    pub receivers: Vec<ReceiverSettings>,
    pub rows: ConfigRows,
}

/// What a gateway's configuration says.
#[derive(Drop)]
pub struct GateConfig {
    /// The gateway.
    pub gate: GateSettings,
    /// The devices behind it. No two have one context.
    pub devices: Vec<DeviceSettings>,
    /// Who is sent notifications of the devices. Each has a user that supports its level, and no two have one address
    /// and user.
    pub receivers: Vec<ReceiverSettings>,
    /// The users, with the keys of their passwords.
    pub users: Users,
    /// Who may see what.
    pub access: Vacm,
}

impl GateConfig {
    /// Reads a gateway's configuration.
    ///
    /// The error is the first of these: the text is nested too deep; it isn't TOML; its top is wrong; [gate], a device,
    /// or a receiver can't be read; a row can't be read, the tables in their order and the rows of each from 0; a user
    /// is at fault; two devices have one context; another row of view-based access is at fault; notifications can't be
    /// sent to a receiver.
    pub fn read(alloc: Global, text: &[u8]) -> Result<GateConfig, GateFault>
        ensures loads { IfOk result (λ config. Loads text.now config.gate config.devices.items
            config.receivers.items config.users.users config.access) }

        // So a contextName names one device.
        ensures own_contexts { IfOk result (λ config. HaveOwnContexts config.devices.items) }
        ensures refuses { IfErr result (Refuses text.now) }
    {
        let GateRows {
            gate,
            devices,
            receivers,
            rows,
        } = rows_of_text(alloc, text)?;
        let users = Users::load(alloc, &rows.users)?;
        let access = Vacm::load(alloc, &rows.access)?;
        check_receivers(&rows.users, &receivers)?;
        Ok(GateConfig {
            gate,
            devices,
            receivers,
            users,
            access,
        })
    }
}

impl GateRows {
    /// Reads a gateway's configuration. It refuses what `GateConfig::read` refuses, and makes no key of a password.
    pub fn read(alloc: Global, text: &[u8]) -> Result<GateRows, GateFault>
        ensures says { IfOk result (λ said. SaysSound text.now said.gate said.devices.items
            said.receivers.items said.rows.users.items (tables_of said.rows.access)) }
        ensures refuses { IfErr result (Refuses text.now) }
    {
        let said = rows_of_text(alloc, text)?;
        Users::check(alloc, &said.rows.users)?;
        Vacm::load(alloc, &said.rows.access)?;
        check_receivers(&said.rows.users, &said.receivers)?;
        Ok(said)
    }
}

/// What a text says.
fn rows_of_text(alloc: Global, text: &[u8]) -> Result<GateRows, GateFault>
    ensures says { IfOk result (λ said. Says text.now said.gate said.devices.items
        said.receivers.items said.rows.users.items (tables_of said.rows.access)) }
    ensures refuses { IfErr result (Refuses text.now) }
{
    let document = document_of(alloc, text)?;
    rows_of(alloc, &document)
}

/// What a document says.
fn rows_of(alloc: Global, document: &Table) -> Result<GateRows, GateFault>
    ensures stands { IfOk result (λ said. StandsFor (table_view document.now) said.gate said.devices.items
        said.receivers.items said.rows.users.items (tables_of said.rows.access)) }
    ensures refuses { IfErr result (RefusesDocument (table_view document.now)) }
{
    if let Some(key) = bad_top(document) {
        return Err(GateFault::Top {
            key: String::from_str(alloc, key)?,
        });
    }
    let gate = gate_of(alloc, document)?;
    let devices = devices_of(alloc, document)?;
    let receivers = receivers_of(alloc, document)?;
    let contexts = context_rows(alloc, &devices)?;
    let rows = config_rows(alloc, document, contexts)?;
    Ok(GateRows {
        gate,
        devices,
        receivers,
        rows,
    })
}

/// Whether a key is that of an array of tables.
fn is_array_name(key: &str) -> bool
    ensures { MatchBool result (IsArrayName key.now) (¬ IsArrayName key.now) }
{
    matches!(
        key,
        "device" | "receiver" | "user" | "group" | "access" | "family"
    )
}

/// Whether a key has its place at the top, and its value.
fn has_place(key: &str, value: &Value) -> bool
    ensures { MatchBool result (IsTopMember key.now (view value.now)) (¬ IsTopMember key.now (view value.now)) }
{
    if key == "gate" {
        value.is_table()
    } else {
        is_array_name(key) && is_array_of_tables(value)
    }
}

/// The first key that has no place at the top, or whose value hasn't.
fn bad_top(document: &Table) -> Option<&str>
    ensures { MatchOption result (IsTop (table_view document.now))
        (λ key. IsBadTop (table_view document.now) key.now) }
{
    for (key, value) in document.iter() {
        if !has_place(key.as_str(), value) {
            return Some(key.as_str());
        }
    }
    None
}

/// The table [gate], if it is there.
fn gate_table(document: &Table) -> Option<&Table>
    ensures { MatchOption result (gate_of (table_view document.now) ≡ no_members)
        (λ row. table_view row.now ≡ gate_of (table_view document.now)) }
{
    match document.get("gate") {
        Some(value) => value.as_table(),
        None => None,
    }
}

/// What is said of the gateway.
fn gate_of(alloc: Global, document: &Table) -> Result<GateSettings, GateFault>
    ensures gate { IfOk result (IsGate (gate_of (table_view document.now))) }
    ensures fault { IfErr result (TellsNoGate (table_view document.now)) }
{
    let Some(row) = gate_table(document) else {
        return Err(GateFault::Gate {
            fault: GateKeyFault::Missing {
                key: GateKey::Engine,
            },
        });
    };
    match read_gate(alloc, row) {
        Ok(gate) => Ok(gate),
        Err(GateTableFault::Key(fault)) => Err(GateFault::Gate { fault }),
        Err(GateTableFault::OutOfMemory) => Err(AllocError.into()),
    }
}

/// The refusal of the device at this position.
fn refusal(position: usize, fault: GateTableFault) -> GateFault
    ensures { result ≡ device_refusal position fault }
{
    match fault {
        GateTableFault::Key(fault) => GateFault::Device { position, fault },
        GateTableFault::OutOfMemory => AllocError.into(),
    }
}

/// What is said of the devices.
fn devices_of(alloc: Global, document: &Table) -> Result<Vec<DeviceSettings>, GateFault>
    requires tables { AreTables (devices_of (table_view document.now)) }
    ensures devices { IfOk result (λ devices. AreRows IsDevice (devices_of (table_view document.now)) devices.items) }
    ensures fault { IfErr result (TellsNoDevices (table_view document.now)) }
{
    let values = values_at(document, "device");
    let mut devices = Vec::new(alloc);
    for (position, value) in values.iter().enumerate() {
        let Some(row) = value.as_table() else {
            unreachable!();
        };
        match read_device(alloc, row) {
            Ok(device) => devices.push(device)?,
            Err(fault) => return Err(refusal(position, fault)),
        }
    }
    Ok(devices)
}

/// The refusal of the receiver at this position.
fn refusal_of_receiver(position: usize, fault: GateTableFault) -> GateFault
    ensures { result ≡ receiver_refusal position fault }
{
    match fault {
        GateTableFault::Key(fault) => GateFault::Receiver { position, fault },
        GateTableFault::OutOfMemory => AllocError.into(),
    }
}

/// What is said of the receivers.
fn receivers_of(alloc: Global, document: &Table) -> Result<Vec<ReceiverSettings>, GateFault>
    requires tables { AreTables (receivers_of (table_view document.now)) }
    ensures receivers { IfOk result
        (λ receivers. AreRows IsReceiver (receivers_of (table_view document.now)) receivers.items) }
    ensures fault { IfErr result (TellsNoReceivers (table_view document.now)) }
{
    let values = values_at(document, "receiver");
    let mut receivers = Vec::new(alloc);
    for (position, value) in values.iter().enumerate() {
        let Some(row) = value.as_table() else {
            unreachable!();
        };
        match read_receiver(alloc, row) {
            Ok(receiver) => receivers.push(receiver)?,
            Err(fault) => return Err(refusal_of_receiver(position, fault)),
        }
    }
    Ok(receivers)
}

/// The rows of vacmContextTable that devices are.
fn context_rows(alloc: Global, devices: &[DeviceSettings]) -> Result<Vec<ContextRow>, AllocError>
    ensures { IfOk result (λ rows. rows.items ≡ map context_row devices.now) }
{
    devices
        .iter()
        .map(|device| ContextRow {
            name: device.context.copy(),
        })
        .collect(alloc)
}

/// The rows of users and access, with these contexts.
fn config_rows(
    alloc: Global,
    document: &Table,
    contexts: Vec<ContextRow>,
) -> Result<ConfigRows, ConfigFault>
    requires top { IsTop (table_view document.now) }
    ensures rows { IfOk result (λ rows. AreConfigRows (table_view document.now) contexts.items rows.users.items
        (tables_of rows.access)) }
    ensures fault { IfErr result (TellsNoRows (table_view document.now)) }
{
    let users: Vec<UserRow> = read_rows(alloc, document)?;
    let groups = read_rows(alloc, document)?;
    let access = read_rows(alloc, document)?;
    let families = read_rows(alloc, document)?;
    let access = Rows {
        contexts,
        groups,
        access,
        families,
    };
    Ok(ConfigRows { users, access })
}
