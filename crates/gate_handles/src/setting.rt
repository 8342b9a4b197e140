//! What a gateway's configuration says, as texts.

ghost use Rattle.std.specs.Prelude.{◌≡◌, IfOk, Some, option_map, slice_get};
ghost use Rattle.std.specs.Net.Text.{socket_text};
ghost use Rattle.snmpsec_gate_config.specs.Oddities.{oddity_words};
ghost use Rattle.snmpsec_gate_config.specs.Values.{kind_word};
ghost use Rattle.snmpsec_config.specs.Words.{level_word};
ghost use Rattle.gate_handles.specs.Told.{IsNote, IsSetting, setting_of};

use snmpsec_config::level_word;
use snmpsec_gate_config::{
    DeviceOddity, DeviceSettings, GateSettings, ReceiverKind, ReceiverSettings,
};
use std::alloc::{AllocError, Global};
use std::net::SocketAddr;
use vacm_core::{AccessRow, Name};

/// What a gateway's configuration says, as texts.
#[derive(Clone, Copy, Debug, PartialEq, Eq)]
pub enum GateText {
    /// The path of the file with its snmpEngineBoots.
    Boots,
    /// An address at which it takes requests.
    Listen,
    /// A device's contextName.
    Context,
    /// Where a device takes requests.
    Address,
    /// What about a device is probably a mistake.
    Note,
    /// An address at which it takes Traps.
    Traps,
    /// Where a receiver takes notifications.
    ReceiverAddress,
    /// The name of a receiver's user.
    ReceiverUser,
    /// The level at which a receiver's notifications are sealed.
    ReceiverLevel,
    /// How a receiver is notified.
    ReceiverKind,
    /// A read view of access rows that no family row has.
    ViewWithoutFamily,
}

impl GateText {
    /// Returns the setting of this number: 0 boots, 1 listen, 2 context, 3 address, 4 note, 5 traps, 6 the
    /// address of a receiver, 7 its user, 8 its level, 9 how it is notified, 10 a read view that no family row has.
    pub fn of(number: u32) -> Option<GateText>
        ensures { result ≡ setting_of number }
    {
        match number {
            0 => Some(GateText::Boots),
            1 => Some(GateText::Listen),
            2 => Some(GateText::Context),
            3 => Some(GateText::Address),
            4 => Some(GateText::Note),
            5 => Some(GateText::Traps),
            6 => Some(GateText::ReceiverAddress),
            7 => Some(GateText::ReceiverUser),
            8 => Some(GateText::ReceiverLevel),
            9 => Some(GateText::ReceiverKind),
            10 => Some(GateText::ViewWithoutFamily),
            _ => None,
        }
    }
}

/// Returns an address and its port, as a configuration writes them.
fn address_text(alloc: Global, address: &SocketAddr) -> Result<Vec<u8>, AllocError>
    ensures { IfOk result (λ text. text.items ≡ socket_text address.now) }
{
    let text = format!(in alloc; "{address}")?;
    Ok(text.into_bytes())
}

/// Returns a note in words.
fn oddity_text(alloc: Global, oddity: DeviceOddity) -> Result<Vec<u8>, AllocError>
    ensures { IfOk result (λ text. text.items ≡ oddity_words oddity) }
{
    let text = format!(in alloc; "{oddity}")?;
    Ok(text.into_bytes())
}

/// Returns what about the device at this position is probably a mistake, in words.
fn note_text(
    alloc: Global,
    devices: &[DeviceSettings],
    access: &[AccessRow],
    position: usize,
) -> Result<Option<Vec<u8>>, AllocError>
    ensures { IfOk result (λ text. IsNote devices.now access.now position (option_map (λ v. v.items) text)) }
{
    let Some(device) = devices.get(position) else {
        return Ok(None);
    };
    let Some(oddity) = DeviceOddity::of(device, access) else {
        return Ok(None);
    };
    let text = oddity_text(alloc, oddity)?;
    Ok(Some(text))
}

/// Returns the address at this position.
fn one_address_text(
    alloc: Global,
    addresses: &[SocketAddr],
    position: usize,
) -> Result<Option<Vec<u8>>, AllocError>
    ensures { IfOk result (λ text. option_map (λ v. v.items) text
        ≡ option_map socket_text (slice_get addresses.now position)) }
{
    let Some(address) = addresses.get(position) else {
        return Ok(None);
    };
    let text = address_text(alloc, address)?;
    Ok(Some(text))
}

/// Returns the contextName of the device at this position.
fn context_text(
    alloc: Global,
    devices: &[DeviceSettings],
    position: usize,
) -> Result<Option<Vec<u8>>, AllocError>
    ensures { IfOk result (λ text. option_map (λ v. v.items) text
        ≡ option_map (λ device. device.context) (slice_get devices.now position)) }
{
    let Some(device) = devices.get(position) else {
        return Ok(None);
    };
    let text = Vec::from_slice(alloc, device.context.as_slice())?;
    Ok(Some(text))
}

/// Returns the address of the device at this position.
fn device_text(
    alloc: Global,
    devices: &[DeviceSettings],
    position: usize,
) -> Result<Option<Vec<u8>>, AllocError>
    ensures { IfOk result (λ text. option_map (λ v. v.items) text
        ≡ option_map (λ device. socket_text device.address) (slice_get devices.now position)) }
{
    let Some(device) = devices.get(position) else {
        return Ok(None);
    };
    let text = address_text(alloc, &device.address)?;
    Ok(Some(text))
}

/// Returns the address of the receiver at this position.
fn receiver_text(
    alloc: Global,
    receivers: &[ReceiverSettings],
    position: usize,
) -> Result<Option<Vec<u8>>, AllocError>
    ensures { IfOk result (λ text. option_map (λ v. v.items) text
        ≡ option_map (λ receiver. socket_text receiver.address) (slice_get receivers.now position)) }
{
    let Some(receiver) = receivers.get(position) else {
        return Ok(None);
    };
    let text = address_text(alloc, &receiver.address)?;
    Ok(Some(text))
}

/// Returns the name of the user of the receiver at this position.
fn user_text(
    alloc: Global,
    receivers: &[ReceiverSettings],
    position: usize,
) -> Result<Option<Vec<u8>>, AllocError>
    ensures { IfOk result (λ text. option_map (λ v. v.items) text
        ≡ option_map (λ receiver. receiver.user) (slice_get receivers.now position)) }
{
    let Some(receiver) = receivers.get(position) else {
        return Ok(None);
    };
    let text = Vec::from_slice(alloc, receiver.user.as_slice())?;
    Ok(Some(text))
}

/// Returns the word for the level of the receiver at this position.
fn level_text(
    alloc: Global,
    receivers: &[ReceiverSettings],
    position: usize,
) -> Result<Option<Vec<u8>>, AllocError>
    ensures { IfOk result (λ text. option_map (λ v. v.items) text
        ≡ option_map (λ receiver. level_word receiver.level) (slice_get receivers.now position)) }
{
    let Some(receiver) = receivers.get(position) else {
        return Ok(None);
    };
    let text = Vec::from_slice(alloc, level_word(receiver.level).as_bytes())?;
    Ok(Some(text))
}

/// Returns the word by which a configuration says how a receiver is notified.
fn kind_word(kind: ReceiverKind) -> &'static str
    ensures { result.now ≡ kind_word kind }
{
    match kind {
        ReceiverKind::Trap => "trap",
        ReceiverKind::Inform => "inform",
    }
}

/// Returns the word for how the receiver at this position is notified.
fn kind_text(
    alloc: Global,
    receivers: &[ReceiverSettings],
    position: usize,
) -> Result<Option<Vec<u8>>, AllocError>
    ensures { IfOk result (λ text. option_map (λ v. v.items) text
        ≡ option_map (λ receiver. kind_word receiver.kind) (slice_get receivers.now position)) }
{
    let Some(receiver) = receivers.get(position) else {
        return Ok(None);
    };
    let text = Vec::from_slice(alloc, kind_word(receiver.kind).as_bytes())?;
    Ok(Some(text))
}

/// Returns the view at this position.
fn view_text(alloc: Global, views: &[Name], position: usize) -> Result<Option<Vec<u8>>, AllocError>
    ensures { IfOk result (λ text. option_map (λ v. v.items) text ≡ slice_get views.now position) }
{
    let Some(view) = views.get(position) else {
        return Ok(None);
    };
    let text = Vec::from_slice(alloc, view.as_slice())?;
    Ok(Some(text))
}

/// Returns what the configuration says at this position. None: it says nothing there.
pub(crate) fn setting_text(
    alloc: Global,
    said: &GateSettings,
    devices: &[DeviceSettings],
    receivers: &[ReceiverSettings],
    access: &[AccessRow],
    views: &[Name],
    setting: GateText,
    position: usize,
) -> Result<Option<Vec<u8>>, AllocError>
    ensures { IfOk result (λ text. IsSetting said.now devices.now receivers.now access.now views.now setting position
        (option_map (λ v. v.items) text)) }
{
    match setting {
        GateText::Boots => {
            let text = Vec::from_slice(alloc, said.boots.as_bytes())?;
            Ok(Some(text))
        }
        GateText::Listen => one_address_text(alloc, &said.listen, position),
        GateText::Context => context_text(alloc, devices, position),
        GateText::Address => device_text(alloc, devices, position),
        GateText::Note => note_text(alloc, devices, access, position),
        GateText::Traps => one_address_text(alloc, &said.traps, position),
        GateText::ReceiverAddress => receiver_text(alloc, receivers, position),
        GateText::ReceiverUser => user_text(alloc, receivers, position),
        GateText::ReceiverLevel => level_text(alloc, receivers, position),
        GateText::ReceiverKind => kind_text(alloc, receivers, position),
        GateText::ViewWithoutFamily => view_text(alloc, views, position),
    }
}
