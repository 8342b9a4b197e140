//! The values at the keys of [gate], of a device and of a receiver.

ghost use Rattle.std.specs.Prelude.{◌≡◌, ◌≢◌, ◌<◌, ℕ, List, slice_index, EachIndex, Ok, Bool, IfOk, IfErr};
ghost use Rattle.std.specs.Prelude.{Option, Some, MatchOption, MatchBool, option_map};
ghost use Rattle.std.specs.Net.Grammar.{IsSocketText};
ghost use Rattle.std.specs.Net.Socket.{socket_port};
ghost use Rattle.std.specs.declared.net.socket_addr.SocketAddr.{SocketAddr as Address};
ghost use Rattle.hex.specs.Hex.{decode_of};
ghost use Rattle.engine_clock.specs.Engines.{IsEngine};
ghost use Rattle.toml.specs.Data.{array, Items};
ghost use Rattle.toml.specs.View.{view, table_view, items_view};
ghost use Rattle.snmp_ber.specs.declared.level.Level.{Level as ALevel};
ghost use Rattle.snmpsec_config.specs.Values.{IsText, IsName, IsLevel};
ghost use Rattle.snmpsec_gate_config.specs.Keys.{at};
ghost use Rattle.snmpsec_gate_config.specs.Values.{IsEngineId, IsPath, IsAddress, IsCommunity, IsCommunityIfAny};
ghost use Rattle.snmpsec_gate_config.specs.Values.{IsKindOrTrap, kind_word};
ghost use Rattle.snmpsec_gate_config.specs.Values.{IsNumber, IsLimit, IsFlagOrFalse, value_fault};
ghost use Rattle.snmpsec_gate_config.specs.declared.settings.ReceiverKind.{ReceiverKind as AKind};
ghost use Rattle.snmpsec_gate_config.specs.declared.table.GateKey.TheVariants as keys;

use crate::settings::ReceiverKind;
use crate::table::{GateKey, LimitKey};
use engine_clock::EngineId;
use snmp_ber::Level;
use snmpsec_config::level_of;
use std::net::SocketAddr;
use toml::{Table, Value};
use vacm_core::Name;

/// The most octets of an snmpEngineID (RFC 3411, section 5).
const ENGINE_MAX: usize = 32;

/// The most octets of a community.
const COMMUNITY_MAX: usize = 255;

/// A key that is missing, or whose value isn't what is expected.
#[derive(Clone, Copy, Debug, PartialEq, Eq)]
pub struct GateValueFault {
    pub(crate) key: GateKey,
    pub(crate) is_missing: bool,
}

/// The value at a key.
pub(crate) fn value<'a>(row: &'a Table, key: GateKey) -> Option<&'a Value>
    ensures { option_map (λ v. view v.now) result ≡ at (table_view row.now) key }
{
    row.get(key.name())
}

/// The fault of the value at a key.
pub(crate) fn fault(row: &Table, key: GateKey) -> GateValueFault
    ensures { result ≡ value_fault (at (table_view row.now) key) key }
{
    let is_missing = value(row, key).is_none();
    GateValueFault { key, is_missing }
}

/// The text at a key.
fn text<'a>(row: &'a Table, key: GateKey) -> Option<&'a str>
    ensures { MatchOption result ((text : List ℕ) → ¬ IsText (at (table_view row.now) key) text)
        (λ text. IsText (at (table_view row.now) key) text.now) }
{
    value(row, key)?.as_str()
}

/// The values of the array at a key.
pub(crate) fn values<'a>(row: &'a Table, key: GateKey) -> Option<&'a [Value]>
    ensures { MatchOption result ((values : Items) → at (table_view row.now) key ≢ Some (array values))
        (λ values. at (table_view row.now) key ≡ Some (array (items_view values.now))) }
{
    match value(row, key)?.as_array() {
        Some(values) => Some(values.as_slice()),
        None => None,
    }
}

/// The engine ID that these digits spell, in hex of either case.
fn engine_of(digits: &str) -> Option<EngineId>
    ensures { MatchOption result ((engine : List ℕ) → decode_of digits.now ≡ Ok engine
        → IsEngine engine → ⊥)
        (λ engine. (decode_of digits.now ≡ Ok engine) × IsEngine engine) }
{
    let count = digits.len() / 2;
    if count > ENGINE_MAX {
        return None;
    }
    let mut octets = [0u8; ENGINE_MAX];
    let octets = &mut octets[..count];
    hex::decode_to_slice(digits, octets).ok()?;
    EngineId::of(octets)
}

/// The engine ID at a key.
pub(crate) fn engine(row: &Table, key: GateKey) -> Result<EngineId, GateValueFault>
    ensures ok { IfOk result (λ engine. IsEngineId (at (table_view row.now) key) engine) }
    ensures fault { IfErr result
        (λ f. (f ≡ value_fault (at (table_view row.now) key) key)
        × ((engine : List ℕ) → ¬ IsEngineId (at (table_view row.now) key) engine)) }
{
    let Some(digits) = text(row, key) else {
        return Err(fault(row, key));
    };
    match engine_of(digits) {
        Some(engine) => Ok(engine),
        None => Err(fault(row, key)),
    }
}

/// Whether no octet is 0.
fn has_no_nul(octets: &[u8]) -> bool
    ensures { MatchBool result (EachIndex octets.now (λ k. slice_index octets.now k ≢ 0))
        (¬ EachIndex octets.now (λ k. slice_index octets.now k ≢ 0)) }
{
    octets.iter().all(|octet| *octet != 0)
}

/// The path of a file at a key.
pub(crate) fn path<'a>(row: &'a Table, key: GateKey) -> Result<&'a str, GateValueFault>
    ensures ok { IfOk result (λ path. IsPath (at (table_view row.now) key) path.now) }
    ensures fault { IfErr result
        (λ f. (f ≡ value_fault (at (table_view row.now) key) key)
        × ((path : List ℕ) → ¬ IsPath (at (table_view row.now) key) path)) }
{
    match text(row, key) {
        Some(path) if !path.is_empty() && has_no_nul(path.as_bytes()) => Ok(path),
        _ => Err(fault(row, key)),
    }
}

/// The address and port that a text spells. No port is 0.
fn address_of(text: &str) -> Option<SocketAddr>
    ensures { MatchOption result
        ((address : Address) → IsSocketText text.now address → 0 < socket_port address → ⊥)
        (λ address. IsSocketText text.now address × (0 < socket_port address)) }
{
    let address = SocketAddr::parse_ascii(text.as_bytes()).ok()?;
    if address.port() == 0 {
        return None;
    }
    Some(address)
}

/// The address that a value is.
pub(crate) fn address_in(value: &Value) -> Option<SocketAddr>
    ensures { MatchOption result ((address : Address) → ¬ IsAddress (Some (view value.now)) address)
        (IsAddress (Some (view value.now))) }
{
    address_of(value.as_str()?)
}

/// The address at a key.
pub(crate) fn address(row: &Table, key: GateKey) -> Result<SocketAddr, GateValueFault>
    ensures ok { IfOk result (IsAddress (at (table_view row.now) key)) }
    ensures fault { IfErr result
        (λ f. (f ≡ value_fault (at (table_view row.now) key) key)
        × ((address : Address) → ¬ IsAddress (at (table_view row.now) key) address)) }
{
    let Some(value) = value(row, key) else {
        return Err(fault(row, key));
    };
    match address_in(value) {
        Some(address) => Ok(address),
        None => Err(fault(row, key)),
    }
}

/// The name at a key, of at most 32 octets.
pub(crate) fn name(row: &Table, key: GateKey) -> Result<Name, GateValueFault>
    ensures ok { IfOk result (λ name. IsName (at (table_view row.now) key) name) }
    ensures fault { IfErr result
        (λ f. (f ≡ value_fault (at (table_view row.now) key) key)
        × ((name : List ℕ) → ¬ IsName (at (table_view row.now) key) name)) }
{
    let Some(text) = text(row, key) else {
        return Err(fault(row, key));
    };
    match Name::of(text.as_bytes()) {
        Some(name) => Ok(name),
        None => Err(fault(row, key)),
    }
}

/// The community at a key.
pub(crate) fn community<'a>(row: &'a Table, key: GateKey) -> Result<&'a str, GateValueFault>
    ensures ok { IfOk result (λ community. IsCommunity (at (table_view row.now) key) community.now) }
    ensures fault { IfErr result
        (λ f. (f ≡ value_fault (at (table_view row.now) key) key)
        × ((community : List ℕ) → ¬ IsCommunity (at (table_view row.now) key) community)) }
{
    match text(row, key) {
        Some(community) if community.len() <= COMMUNITY_MAX => Ok(community),
        _ => Err(fault(row, key)),
    }
}

/// The community at a key, if any.
pub(crate) fn community_if_any<'a>(
    row: &'a Table,
    key: GateKey,
) -> Result<Option<&'a str>, GateValueFault>
    ensures ok { IfOk result (λ own. IsCommunityIfAny (at (table_view row.now) key)
        (option_map (λ community. community.now) own)) }
    ensures fault { IfErr result
        (λ f. (f ≡ value_fault (at (table_view row.now) key) key)
        × ((own : Option (List ℕ)) → ¬ IsCommunityIfAny (at (table_view row.now) key) own)) }
{
    if value(row, key).is_none() {
        return Ok(None);
    }
    match community(row, key) {
        Ok(community) => Ok(Some(community)),
        Err(fault) => Err(fault),
    }
}

/// The level at a key.
pub(crate) fn level(row: &Table, key: GateKey) -> Result<Level, GateValueFault>
    ensures ok { IfOk result (IsLevel (at (table_view row.now) key)) }
    ensures fault { IfErr result
        (λ f. (f ≡ value_fault (at (table_view row.now) key) key)
        × ((level : ALevel) → ¬ IsLevel (at (table_view row.now) key) level)) }
{
    let Some(word) = text(row, key) else {
        return Err(fault(row, key));
    };
    match level_of(word) {
        Some(level) => Ok(level),
        None => Err(fault(row, key)),
    }
}

/// The kind of notification that this word names.
fn kind_of(word: &str) -> Option<ReceiverKind>
    ensures { MatchOption result ((kind : AKind) → word.now ≢ kind_word kind)
        (λ kind. word.now ≡ kind_word kind) }
{
    match word {
        "trap" => Some(ReceiverKind::Trap),
        "inform" => Some(ReceiverKind::Inform),
        _ => None,
    }
}

/// The kind of notification at a key, or a Trap.
pub(crate) fn kind(row: &Table, key: GateKey) -> Result<ReceiverKind, GateValueFault>
    ensures ok { IfOk result (IsKindOrTrap (at (table_view row.now) key)) }
    ensures fault { IfErr result
        (λ f. (f ≡ value_fault (at (table_view row.now) key) key)
        × ((kind : AKind) → ¬ IsKindOrTrap (at (table_view row.now) key) kind)) }
{
    let Some(value) = value(row, key) else {
        return Ok(ReceiverKind::Trap);
    };
    let Some(word) = value.as_str() else {
        return Err(fault(row, key));
    };
    match kind_of(word) {
        Some(kind) => Ok(kind),
        None => Err(fault(row, key)),
    }
}

/// The number that a value is, within the limit of this key.
fn number(value: &Value, key: LimitKey) -> Option<u32>
    ensures { MatchOption result ((n : ℕ) → ¬ IsNumber key (Some (view value.now)) n)
        (IsNumber key (Some (view value.now))) }
{
    let limit = key.limit();
    let number = u32::try_from(value.as_integer()?).ok()?;
    if number < limit.least || number > limit.most {
        return None;
    }
    Some(number)
}

/// The number at a key, or its limit's default.
pub(crate) fn limit(row: &Table, key: LimitKey) -> Result<u32, GateValueFault>
    ensures ok { IfOk result (IsLimit key (at (table_view row.now) (keys.Limit key))) }
    ensures fault { IfErr result
        (λ f. (f ≡ value_fault (at (table_view row.now) (keys.Limit key)) (keys.Limit key))
        × ((n : ℕ) → ¬ IsLimit key (at (table_view row.now) (keys.Limit key)) n)) }
{
    let Some(value) = value(row, GateKey::Limit(key)) else {
        return Ok(key.limit().default);
    };
    match number(value, key) {
        Some(number) => Ok(number),
        None => Err(fault(row, GateKey::Limit(key))),
    }
}

/// The truth value at a key, or false.
pub(crate) fn flag(row: &Table, key: GateKey) -> Result<bool, GateValueFault>
    ensures ok { IfOk result (IsFlagOrFalse (at (table_view row.now) key)) }
    ensures fault { IfErr result
        (λ f. (f ≡ value_fault (at (table_view row.now) key) key)
        × ((flag : Bool) → ¬ IsFlagOrFalse (at (table_view row.now) key) flag)) }
{
    let Some(value) = value(row, key) else {
        return Ok(false);
    };
    match value.as_bool() {
        Some(flag) => Ok(flag),
        None => Err(fault(row, key)),
    }
}
