//! The values at the keys of a row.

ghost use Rattle.std.specs.Prelude.{◌≡◌, ◌≤◌, ℕ, List, length, Ok, Bool, IfOk, IfErr, Option, MatchOption};
ghost use Rattle.std.specs.Prelude.{option_map, is_some};
ghost use Rattle.hex.specs.Hex.{decode_of};
ghost use Rattle.snmp_ber.specs.declared.level.Level.{Level as ALevel};
ghost use Rattle.vacm_core.specs.declared.rows.Matching.{Matching as AMatching};
ghost use Rattle.toml.specs.View.{view, table_view};
ghost use Rattle.snmpsec_config.specs.Keys.{at};
ghost use Rattle.snmpsec_config.specs.Values.{IsText, IsTextIfAny, IsTextOrEmpty, IsName, IsNameOrEmpty, IsModel};
ghost use Rattle.snmpsec_config.specs.Values.{IsLevel, IsMatching, IsOid, IsMask, IsFlag, AreAuth, IsAuthFault};
ghost use Rattle.snmpsec_config.specs.Values.{value_fault};
ghost use Rattle.snmpsec_config.specs.declared.table.ConfigKey.TheVariants as keys;
ghost use Rattle.snmpsec_config.specs.Words.{auth_word};
ghost use Rattle.usm_keys.specs.declared.auth.Auth.{Auth as AnAuth};

use crate::table::ConfigKey;
use crate::words::{auth_of, level_of, matching_of};
use snmp_ber::{Level, MAX_INTEGER32, Oid};
use toml::{Table, Value};
use usm_keys::Auth;
use vacm_core::{Mask, Matching, Name};

/// The most octets of a mask (vacmViewTreeFamilyMask, RFC 3415, section 4).
const MASK_MAX: usize = 16;

/// A key that is missing, or whose value isn't what is wanted.
#[derive(Clone, Copy, Debug, PartialEq, Eq)]
pub(crate) struct ValueFault {
    pub(crate) key: ConfigKey,
    pub(crate) is_missing: bool,
}

/// The value at a key.
fn value<'a>(row: &'a Table, key: ConfigKey) -> Option<&'a Value>
    ensures { option_map (λ v. view v.now) result ≡ at (table_view row.now) key }
{
    row.get(key.name())
}

/// The fault of the value at a key.
fn fault(row: &Table, key: ConfigKey) -> ValueFault
    ensures { result ≡ value_fault (at (table_view row.now) key) key }
{
    let is_missing = value(row, key).is_none();
    ValueFault { key, is_missing }
}

/// The text at a key, if any.
pub(crate) fn optional_text<'a>(
    row: &'a Table,
    key: ConfigKey,
) -> Result<Option<&'a str>, ValueFault>
    ensures ok { IfOk result (λ text. IsTextIfAny (at (table_view row.now) key)
        (option_map (λ t. t.now) text)) }
    ensures fault { IfErr result
        (λ f. (f ≡ value_fault (at (table_view row.now) key) key)
        × ((text : Option (List ℕ)) → ¬ IsTextIfAny (at (table_view row.now) key) text)) }
{
    match value(row, key) {
        None => Ok(None),
        Some(value) => match value.as_str() {
            Some(text) => Ok(Some(text)),
            None => Err(fault(row, key)),
        },
    }
}

/// The text at a key.
fn text<'a>(row: &'a Table, key: ConfigKey) -> Option<&'a str>
    ensures { MatchOption result ((text : List ℕ) → ¬ IsText (at (table_view row.now) key) text)
        (λ text. IsText (at (table_view row.now) key) text.now) }
{
    value(row, key)?.as_str()
}

/// The text at a key, or the empty one where the key is absent.
fn text_or_empty<'a>(row: &'a Table, key: ConfigKey) -> Option<&'a str>
    ensures { MatchOption result ((text : List ℕ)
        → ¬ IsTextOrEmpty (at (table_view row.now) key) text)
        (λ text. IsTextOrEmpty (at (table_view row.now) key) text.now) }
{
    match value(row, key) {
        None => Some(""),
        Some(value) => value.as_str(),
    }
}

/// The text at a key.
pub(crate) fn required_text<'a>(row: &'a Table, key: ConfigKey) -> Result<&'a str, ValueFault>
    ensures ok { IfOk result (λ text. IsText (at (table_view row.now) key) text.now) }
    ensures fault { IfErr result
        (λ f. (f ≡ value_fault (at (table_view row.now) key) key)
        × ((text : List ℕ) → ¬ IsText (at (table_view row.now) key) text)) }
{
    match text(row, key) {
        Some(text) => Ok(text),
        None => Err(fault(row, key)),
    }
}

/// The name at a key, of at most 32 octets.
pub(crate) fn name(row: &Table, key: ConfigKey) -> Result<Name, ValueFault>
    ensures ok { IfOk result (λ name. IsName (at (table_view row.now) key) name) }
    ensures fault { IfErr result
        (λ f. (f ≡ value_fault (at (table_view row.now) key) key)
        × ((name : List ℕ) → ¬ IsName (at (table_view row.now) key) name)) }
{
    let Some(text) = text(row, key) else {
        return Err(fault(row, key));
    };
    match Name::of(text.as_bytes()) {
        Some(name) => Ok(name),
        None => Err(fault(row, key)),
    }
}

/// The name at a key, empty where the key is absent.
pub(crate) fn name_or_empty(row: &Table, key: ConfigKey) -> Result<Name, ValueFault>
    ensures ok { IfOk result (λ name. IsNameOrEmpty (at (table_view row.now) key) name) }
    ensures fault { IfErr result
        (λ f. (f ≡ value_fault (at (table_view row.now) key) key)
        × ((name : List ℕ) → ¬ IsNameOrEmpty (at (table_view row.now) key) name)) }
{
    let Some(text) = text_or_empty(row, key) else {
        return Err(fault(row, key));
    };
    match Name::of(text.as_bytes()) {
        Some(name) => Ok(name),
        None => Err(fault(row, key)),
    }
}

/// The number of a security model, or 0.
pub(crate) fn model(row: &Table, key: ConfigKey) -> Result<u32, ValueFault>
    ensures ok { IfOk result (λ model. IsModel (at (table_view row.now) key) model) }
    ensures fault { IfErr result
        (λ f. (f ≡ value_fault (at (table_view row.now) key) key)
        × ((model : ℕ) → ¬ IsModel (at (table_view row.now) key) model)) }
{
    match number(row, key) {
        Some(model) => Ok(model),
        None => Err(fault(row, key)),
    }
}

/// The number of a security model, or 0.
fn number(row: &Table, key: ConfigKey) -> Option<u32>
    ensures { MatchOption result ((model : ℕ) → ¬ IsModel (at (table_view row.now) key) model)
        (IsModel (at (table_view row.now) key)) }
{
    let number = value(row, key)?.as_integer()?;
    let model = u32::try_from(number).ok()?;
    if model > MAX_INTEGER32 {
        return None;
    }
    Some(model)
}

/// The security level whose name is at a key.
pub(crate) fn level(row: &Table, key: ConfigKey) -> Result<Level, ValueFault>
    ensures ok { IfOk result (IsLevel (at (table_view row.now) key)) }
    ensures fault { IfErr result
        (λ f. (f ≡ value_fault (at (table_view row.now) key) key)
        × ((level : ALevel) → ¬ IsLevel (at (table_view row.now) key) level)) }
{
    let Some(text) = text(row, key) else {
        return Err(fault(row, key));
    };
    match level_of(text) {
        Some(level) => Ok(level),
        None => Err(fault(row, key)),
    }
}

/// How a context prefix is compared.
pub(crate) fn matching(row: &Table, key: ConfigKey) -> Result<Matching, ValueFault>
    ensures ok { IfOk result (IsMatching (at (table_view row.now) key)) }
    ensures fault { IfErr result
        (λ f. (f ≡ value_fault (at (table_view row.now) key) key)
        × ((matching : AMatching) → ¬ IsMatching (at (table_view row.now) key) matching)) }
{
    let Some(text) = text(row, key) else {
        return Err(fault(row, key));
    };
    match matching_of(text) {
        Some(matching) => Ok(matching),
        None => Err(fault(row, key)),
    }
}

/// The identifier whose dotted text is at a key.
pub(crate) fn oid(row: &Table, key: ConfigKey) -> Result<Oid, ValueFault>
    ensures ok { IfOk result (λ oid. IsOid (at (table_view row.now) key) oid) }
    ensures fault { IfErr result
        (λ f. (f ≡ value_fault (at (table_view row.now) key) key)
        × ((arcs : List ℕ) → ¬ IsOid (at (table_view row.now) key) arcs)) }
{
    let Some(text) = text(row, key) else {
        return Err(fault(row, key));
    };
    match Oid::from_text(text) {
        Some(oid) => Ok(oid),
        None => Err(fault(row, key)),
    }
}

/// The truth value at a key.
pub(crate) fn flag(row: &Table, key: ConfigKey) -> Result<bool, ValueFault>
    ensures ok { IfOk result (IsFlag (at (table_view row.now) key)) }
    ensures fault { IfErr result
        (λ f. (f ≡ value_fault (at (table_view row.now) key) key)
        × ((flag : Bool) → ¬ IsFlag (at (table_view row.now) key) flag)) }
{
    let Some(value) = value(row, key) else {
        return Err(fault(row, key));
    };
    match value.as_bool() {
        Some(flag) => Ok(flag),
        None => Err(fault(row, key)),
    }
}

/// The mask that these digits spell, in hex of either case.
fn mask_of(digits: &str) -> Option<Mask>
    ensures { MatchOption result ((mask : List ℕ) → decode_of digits.now ≡ Ok mask
        → length mask ≤ 16 → ⊥)
        (λ mask. (decode_of digits.now ≡ Ok mask) × (length mask ≤ 16)) }
{
    let count = digits.len() / 2;
    if count > MASK_MAX {
        return None;
    }
    let mut octets = [0u8; MASK_MAX];
    let octets = &mut octets[..count];
    hex::decode_to_slice(digits, octets).ok()?;
    Mask::of(octets)
}

/// The mask at a key, empty where the key is absent.
pub(crate) fn mask(row: &Table, key: ConfigKey) -> Result<Mask, ValueFault>
    ensures ok { IfOk result (λ mask. IsMask (at (table_view row.now) key) mask) }
    ensures fault { IfErr result
        (λ f. (f ≡ value_fault (at (table_view row.now) key) key)
        × ((mask : List ℕ) → ¬ IsMask (at (table_view row.now) key) mask)) }
{
    let Some(digits) = text_or_empty(row, key) else {
        return Err(fault(row, key));
    };
    match mask_of(digits) {
        Some(mask) => Ok(mask),
        None => Err(fault(row, key)),
    }
}

/// The protocol whose name is at a key.
fn protocol(row: &Table, key: ConfigKey) -> Result<Auth, ValueFault>
    ensures ok { IfOk result (λ auth. IsText (at (table_view row.now) key) (auth_word auth)) }
    ensures fault { IfErr result
        (λ f. (f ≡ value_fault (at (table_view row.now) key) key)
        × ((auth : AnAuth) → ¬ IsText (at (table_view row.now) key) (auth_word auth))) }
{
    let Some(text) = text(row, key) else {
        return Err(fault(row, key));
    };
    match auth_of(text) {
        Some(auth) => Ok(auth),
        None => Err(fault(row, key)),
    }
}

/// Whether the key is in the row.
fn has(row: &Table, key: ConfigKey) -> bool
    ensures { result ≡ is_some (at (table_view row.now) key) }
{
    value(row, key).is_some()
}

/// A user's protocol and password for authentication: both or neither.
pub(crate) fn auth<'a>(row: &'a Table) -> Result<Option<(Auth, &'a str)>, ValueFault>
    ensures ok { IfOk result
        (λ own. AreAuth (at (table_view row.now) keys.Auth)
        (at (table_view row.now) keys.AuthPassword)
        (option_map (λ o. (o.0, o.1.now)) own)) }
    ensures fault { IfErr result (IsAuthFault (table_view row.now)) }
{
    if !has(row, ConfigKey::Auth) {
        if has(row, ConfigKey::AuthPassword) {
            return Err(fault(row, ConfigKey::Auth));
        }
        return Ok(None);
    }
    let auth = protocol(row, ConfigKey::Auth)?;
    let password = required_text(row, ConfigKey::AuthPassword)?;
    Ok(Some((auth, password)))
}
