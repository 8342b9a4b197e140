//! Why a gateway's configuration is refused, and how that is printed.

ghost use Rattle.std.specs.Prelude.{◌≡◌, ◌≢◌, Some, MatchBool};
ghost use Rattle.snmpsec_config.specs.declared.fault.ConfigFault.TheVariants as config_faults;
ghost use Rattle.snmpsec_gate_config.specs.Refusals.{key_fault, user_fault, access_fault, refusal_line, unfit_word};
ghost use Rattle.snmpsec_gate_config.specs.declared.fault.GateTableFault.TheVariants as table_faults;
ghost use Rattle.snmpsec_gate_config.specs.declared.fault.GateFault.TheVariants as faults;

use crate::near::nearest;
use crate::receiver::{ReceiverFault, UnfitReceiver};
use crate::table::{GateKey, GateTable};
use crate::values::GateValueFault;
use snmpsec_config::{ConfigFault, shown_key};
use std::alloc::{AllocError, AllocFailed, Global};
use std::fmt;
use usm_core::UserFault;
use vacm_core::{Table, VacmFault};

/// What is wrong with the keys of [gate], of a device or of a receiver.
#[derive(Debug, PartialEq, Eq, Drop)]
pub enum GateKeyFault {
    /// The table doesn't list this key.
    Unlisted { key: String },
    /// This key is missing.
    Missing { key: GateKey },
    /// The value at this key isn't what is expected.
    Value { key: GateKey },
}

/// Why [gate], a device or a receiver isn't read.
#[derive(Debug, Drop)]
pub enum GateTableFault {
    Key(GateKeyFault),
    OutOfMemory,
}

impl From<GateValueFault> for GateTableFault {
    ghost from_gives = { λ f e. e ≡ table_faults.Key (key_fault f) };

    fn from(fault: GateValueFault) -> GateTableFault {
        let key = fault.key;
        GateTableFault::Key(if fault.is_missing {
            GateKeyFault::Missing { key }
        } else {
            GateKeyFault::Value { key }
        })
    }
}

impl From<AllocError> for GateTableFault {
    ghost from_gives = { λ _ e. e ≡ table_faults.OutOfMemory };

    fn from(_fault: AllocError) -> GateTableFault {
        GateTableFault::OutOfMemory
    }
}

impl<T: Drop> From<AllocFailed<T>> for GateTableFault {
    ghost from_gives = { λ _ e. e ≡ table_faults.OutOfMemory };

    fn from(_fault: AllocFailed<T>) -> GateTableFault {
        GateTableFault::OutOfMemory
    }
}

/// Why a gateway's configuration isn't read. Positions count from 0.
#[derive(Debug, Drop)]
pub enum GateFault {
    /// This key at the top has no place there, or its value hasn't.
    Top {
        key: String,
    },
    /// The table [gate] can't be read.
    Gate {
        fault: GateKeyFault,
    },
    /// A device can't be read.
    Device {
        position: usize,
        fault: GateKeyFault,
    },
    /// An earlier device has this device's context.
    Duplicate {
        position: usize,
    },
    /// A receiver can't be read.
    Receiver {
        position: usize,
        fault: GateKeyFault,
    },
    /// Notifications can't be sent to a receiver.
    Unfit {
        position: usize,
        fault: ReceiverFault,
    },
    /// The text is nested too deep or isn't TOML; or a row of users, groups, access or view families is at fault; or
    /// memory ran out.
    Config {
        fault: ConfigFault,
    },
}

/// What is expected at a key, in words.
fn wanted_words(alloc: Global, key: GateKey) -> Result<String, AllocError> {
    match key {
        GateKey::Engine => format!(in alloc; "an engine ID of 5 to 32 octets in hex"),
        GateKey::Boots => format!(in alloc; "the path of a file"),
        GateKey::Listen => format!(in alloc;
            "an array of at least one address with its port, as [\"192.0.2.1:161\"]"
        ),
        GateKey::Traps => format!(in alloc;
            "an array of at least one address with its port, as [\"192.0.2.1:162\"]"
        ),
        GateKey::LongAnswers | GateKey::ReportUnreachable => format!(in alloc; "true or false"),
        GateKey::Context | GateKey::User => format!(in alloc; "a text of at most 32 octets"),
        GateKey::Level => format!(in alloc; "one of noAuthNoPriv, authNoPriv, authPriv"),
        GateKey::Kind => format!(in alloc; "\"trap\" or \"inform\""),
        GateKey::Address => format!(in alloc;
            "an IPv4 address and a port, as \"10.1.0.7:161\", or an IPv6 address in brackets and a port"
        ),
        GateKey::Community | GateKey::WriteCommunity => {
            format!(in alloc; "a text of at most 255 octets")
        }
        GateKey::Limit(key) => {
            let limit = key.limit();
            format!(in alloc; "a whole number from {} to {}", limit.least, limit.most)
        }
    }
}

/// The words for a key that the table doesn't list, with a listed one that is like it.
fn unlisted_words(alloc: Global, table: GateTable, key: &str) -> Result<String, AllocError> {
    let shown = shown_key(alloc, key)?;
    match nearest(table, key) {
        Some(near) => format!(in alloc; "{shown}: not a key of this table, the nearest is {near}"),
        None => format!(in alloc; "{shown}: not a key of this table"),
    }
}

impl GateKeyFault {
    /// What is wrong with a row of this table, and what is expected, in words.
    fn words(&self, alloc: Global, table: GateTable) -> Result<String, AllocError> {
        match self {
            GateKeyFault::Unlisted { key } => unlisted_words(alloc, table, key.as_str()),
            GateKeyFault::Missing { key } => {
                let wanted = wanted_words(alloc, *key)?;
                format!(in alloc; "{key}: missing, {wanted}")
            }
            GateKeyFault::Value { key } => {
                let wanted = wanted_words(alloc, *key)?;
                format!(in alloc; "{key}: {wanted}")
            }
        }
    }
}

/// The words for a key that has no place at the top.
fn top_words(alloc: Global, key: &str) -> Result<String, AllocError> {
    let shown = shown_key(alloc, key)?;
    format!(in alloc;
        "{shown}: at the top are the table gate and the arrays of tables device, receiver, user, group, \
         access and family"
    )
}

/// The words for a receiver to which notifications can't be sent.
fn unfit_words(alloc: Global, position: usize, fault: ReceiverFault) -> Result<String, AllocError> {
    let why = match fault {
        ReceiverFault::UnknownUser => "no user has this name",
        ReceiverFault::UnsupportedLevel => "its user has no passwords for this level",
        ReceiverFault::Duplicate => "an earlier receiver has this address and user",
    };
    format!(in alloc; "receiver {position}: {why}")
}

impl GateFault {
    /// Returns whether memory ran out, which says nothing of the text.
    pub fn is_memory(&self) -> bool
        ensures { MatchBool result (self.now ≡ faults.Config config_faults.OutOfMemory)
            (self.now ≢ faults.Config config_faults.OutOfMemory) }
    {
        match self {
            GateFault::Config { fault } => fault.is_memory(),
            _ => false,
        }
    }

    /// Returns what is wrong with the text and what is expected, in words, for who wrote it. Of a text that isn't TOML
    /// it is where in the text, counted from 1, and the TOML reader's own words.
    pub fn why(&self, alloc: Global) -> Result<String, AllocError> {
        match self {
            GateFault::Top { key } => top_words(alloc, key.as_str()),
            GateFault::Gate { fault } => {
                let words = fault.words(alloc, GateTable::Gate)?;
                format!(in alloc; "gate: {words}")
            }
            GateFault::Device { position, fault } => {
                let words = fault.words(alloc, GateTable::Device)?;
                format!(in alloc; "device {position}: {words}")
            }
            GateFault::Duplicate { position } => {
                format!(in alloc; "device {position}: an earlier device has this context")
            }
            GateFault::Receiver { position, fault } => {
                let words = fault.words(alloc, GateTable::Receiver)?;
                format!(in alloc; "receiver {position}: {words}")
            }
            GateFault::Unfit { position, fault } => unfit_words(alloc, *position, *fault),
            GateFault::Config { fault } => fault.why(alloc),
        }
    }
}

impl fmt::Display for ReceiverFault {
    ghost output = { λ fault. Some (unfit_word fault) };

    fn fmt<W: fmt::Write>(&self, f: &mut fmt::Formatter<W>) -> fmt::Result {
        match self {
            ReceiverFault::UnknownUser => f.write_str("UnknownUser"),
            ReceiverFault::UnsupportedLevel => f.write_str("UnsupportedLevel"),
            ReceiverFault::Duplicate => f.write_str("Duplicate"),
        }
    }
}

impl fmt::Display for GateFault {
    ghost output = { λ fault. Some (refusal_line fault) };

    fn fmt<W: fmt::Write>(&self, f: &mut fmt::Formatter<W>) -> fmt::Result {
        match self {
            GateFault::Top { .. } => f.write_str("refused config top"),
            GateFault::Gate { .. } => f.write_str("refused config gate BadKey"),
            GateFault::Device { position, .. } => write!(
                f,
                "refused config device {position} BadKey"
            ),
            GateFault::Duplicate { position } => {
                write!(f, "refused config device {position} Duplicate")
            }
            GateFault::Receiver { position, .. } => write!(
                f,
                "refused config receiver {position} BadKey"
            ),
            GateFault::Unfit { position, fault } => {
                write!(f, "refused config receiver {position} {fault}")
            }
            GateFault::Config { fault } => write!(f, "{fault}"),
        }
    }
}

impl From<UnfitReceiver> for GateFault {
    ghost from_gives = { λ unfit e. e ≡ faults.Unfit unfit.position unfit.fault };

    fn from(unfit: UnfitReceiver) -> GateFault {
        GateFault::Unfit {
            position: unfit.position,
            fault: unfit.fault,
        }
    }
}

impl From<ConfigFault> for GateFault {
    ghost from_gives = { λ fault e. e ≡ faults.Config fault };

    fn from(fault: ConfigFault) -> GateFault {
        GateFault::Config { fault }
    }
}

impl From<AllocError> for GateFault {
    ghost from_gives = { λ _ e. e ≡ faults.Config config_faults.OutOfMemory };

    fn from(_fault: AllocError) -> GateFault {
        GateFault::Config {
            fault: ConfigFault::OutOfMemory,
        }
    }
}

impl<T: Drop> From<AllocFailed<T>> for GateFault {
    ghost from_gives = { λ _ e. e ≡ faults.Config config_faults.OutOfMemory };

    fn from(_fault: AllocFailed<T>) -> GateFault {
        GateFault::Config {
            fault: ConfigFault::OutOfMemory,
        }
    }
}

impl From<UserFault> for GateFault {
    ghost from_gives = { λ fault e. e ≡ user_fault fault };

    fn from(fault: UserFault) -> GateFault {
        GateFault::Config {
            fault: ConfigFault::from(fault),
        }
    }
}

impl From<VacmFault> for GateFault {
    ghost from_gives = { λ fault e. e ≡ access_fault fault };

    fn from(fault: VacmFault) -> GateFault {
        match fault {
            VacmFault::Duplicate {
                table: Table::Contexts,
                position,
            } => GateFault::Duplicate { position },
            fault => GateFault::Config {
                fault: ConfigFault::from(fault),
            },
        }
    }
}
