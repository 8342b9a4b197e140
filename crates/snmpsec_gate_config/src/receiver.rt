//! Reading a receiver of notifications, and whether notifications can be sent to it.

ghost use Rattle.std.specs.Prelude.{◌↔◌, All, IfErr, IfOk, IsTrue, MatchBool, MatchOption, OnOk};
ghost use Rattle.toml.specs.View.{table_view};
ghost use Rattle.snmpsec_gate_config.specs.Receivers.{AreReceivers, AreSame, HasUser, HasUserAtLevel, IsDouble};
ghost use Rattle.snmpsec_gate_config.specs.Receivers.{IsFirstUnfit, IsFit, IsUserAtLevel, IsUserOf};
ghost use Rattle.snmpsec_gate_config.specs.Receivers.{SupportsLevel, TellsReceiver};
ghost use Rattle.snmpsec_gate_config.specs.Refusals.{TellsNoTable};
ghost use Rattle.snmpsec_gate_config.specs.Rows.{IsReceiver};
ghost use Rattle.snmpsec_gate_config.specs.declared.table.GateTable.TheVariants as tables;

use crate::fault::GateTableFault;
use crate::listed::only_listed;
use crate::settings::ReceiverSettings;
use crate::table::{GateKey, GateTable};
use crate::values::{address, kind, level, name};
use snmp_ber::Level;
use std::alloc::Global;
use toml::Table;
use usm_core::UserRow;

/// Why notifications can't be sent to a receiver.
#[derive(Clone, Copy, Debug, PartialEq, Eq)]
pub enum ReceiverFault {
    /// No user has the name that it gives.
    UnknownUser,
    /// Its user has no passwords for its level.
    UnsupportedLevel,
    /// An earlier receiver has its address and its user.
    Duplicate,
}

/// The first receiver to which notifications can't be sent. Positions count from 0.
#[derive(Clone, Copy, Debug, PartialEq, Eq)]
pub(crate) struct UnfitReceiver {
    pub(crate) position: usize,
    pub(crate) fault: ReceiverFault,
}

/// Reads a receiver.
pub(crate) fn read_receiver(alloc: Global, row: &Table) -> Result<ReceiverSettings, GateTableFault>
    ensures receiver { IfOk result (IsReceiver (table_view row.now)) }
    ensures fault { IfErr result (TellsNoTable tables.Receiver IsReceiver (table_view row.now)) }
{
    only_listed(alloc, row, GateTable::Receiver)?;
    let address = address(row, GateKey::Address)?;
    let user = name(row, GateKey::User)?;
    let level = level(row, GateKey::Level)?;
    let kind = kind(row, GateKey::Kind)?;
    Ok(ReceiverSettings {
        address,
        user,
        level,
        kind,
    })
}

/// The receiver's user is this one.
fn is_user_of(receiver: &ReceiverSettings, user: &UserRow) -> bool
    ensures { IsTrue result ↔ IsUserOf receiver.now user.now }
{
    user.name.as_slice() == receiver.user.as_slice()
}

/// The user has the passwords that messages of this level need (RFC 3414, section 3.1, steps 2 and 3).
fn supports_level(level: Level, user: &UserRow) -> bool
    ensures { IsTrue result ↔ SupportsLevel level user.now }
{
    match level {
        Level::NoAuthNoPriv => true,
        Level::AuthNoPriv => user.auth.is_some(),
        Level::AuthPriv => user.auth.is_some() && user.privacy.is_some(),
    }
}

/// The receiver's user is this one, and it supports the receiver's level.
fn is_user_at_level(receiver: &ReceiverSettings, user: &UserRow) -> bool
    ensures { IsTrue result ↔ IsUserAtLevel receiver.now user.now }
{
    is_user_of(receiver, user) && supports_level(receiver.level, user)
}

/// One of the users is the receiver's.
fn has_user(users: &[UserRow], receiver: &ReceiverSettings) -> bool
    ensures { MatchBool result (HasUser users.now receiver.now)
        (All (λ user. ¬ IsUserOf receiver.now user) users.now) }
{
    for user in users {
        if is_user_of(receiver, user) {
            return true;
        }
    }
    false
}

/// One of the users is the receiver's, and supports its level.
fn has_user_at_level(users: &[UserRow], receiver: &ReceiverSettings) -> bool
    ensures { MatchBool result (HasUserAtLevel users.now receiver.now)
        (All (λ user. ¬ IsUserAtLevel receiver.now user) users.now) }
{
    for user in users {
        if is_user_at_level(receiver, user) {
            return true;
        }
    }
    false
}

/// The two have one address and one user.
fn are_same(receiver: &ReceiverSettings, other: &ReceiverSettings) -> bool
    ensures { IsTrue result ↔ AreSame receiver.now other.now }
{
    other.address == receiver.address && other.user == receiver.user
}

/// One of the earlier receivers has this one's address and user.
fn is_double(earlier: &[ReceiverSettings], receiver: &ReceiverSettings) -> bool
    ensures { IsTrue result ↔ IsDouble earlier.now receiver.now }
{
    earlier.iter().any(|other| are_same(receiver, other))
}

/// Why notifications can't be sent to a receiver, where these are the users and the earlier receivers.
fn fault_of(
    users: &[UserRow],
    earlier: &[ReceiverSettings],
    receiver: &ReceiverSettings,
) -> Option<ReceiverFault>
    ensures { MatchOption result (IsFit users.now earlier.now receiver.now)
        (TellsReceiver users.now earlier.now receiver.now) }
{
    if !has_user(users, receiver) {
        return Some(ReceiverFault::UnknownUser);
    }
    if !has_user_at_level(users, receiver) {
        return Some(ReceiverFault::UnsupportedLevel);
    }
    if is_double(earlier, receiver) {
        return Some(ReceiverFault::Duplicate);
    }
    None
}

/// Refuses receivers to which notifications can't be sent.
pub(crate) fn check_receivers(
    users: &[UserRow],
    receivers: &[ReceiverSettings],
) -> Result<(), UnfitReceiver>
    ensures ok { OnOk result (AreReceivers users.now receivers.now) }
    ensures unfit { IfErr result
        (λ unfit. IsFirstUnfit users.now receivers.now unfit.position unfit.fault) }
{
    for (position, receiver) in receivers.iter().enumerate() {
        if let Some(fault) = fault_of(users, &receivers[..position], receiver) {
            return Err(UnfitReceiver { position, fault });
        }
    }
    Ok(())
}
