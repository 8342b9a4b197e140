//! Why a configuration is refused, and how that is printed.

ghost use Rattle.std.specs.Prelude.{◌≡◌, ◌≢◌, Some, MatchBool};
ghost use Rattle.snmpsec_config.specs.Refusals.{user_refusal, vacm_refusal, wrong_name, refusal_line};
ghost use Rattle.snmpsec_config.specs.declared.fault.ConfigFault.TheVariants.{OutOfMemory};

use crate::near::nearest;
use crate::shown::shown_key;
use crate::table::{ConfigKey, ConfigTable};
use crate::wanted::Wanted;
use std::alloc::{AllocError, AllocFailed, Global};
use std::fmt;
use thiserror::Error;
use usm_core::UserFault;
use vacm_core::VacmFault;

/// What is wrong with the keys of a row.
#[derive(Debug, PartialEq, Eq, Drop)]
pub enum KeyFault {
    /// The table doesn't list this key.
    Unlisted { key: String },
    /// This key is missing.
    Missing { key: ConfigKey },
    /// The value at this key isn't what is wanted.
    Value { key: ConfigKey },
}

impl KeyFault {
    /// What is wrong with a row of this table, and what is wanted, in words.
    fn words(&self, alloc: Global, table: ConfigTable) -> Result<String, AllocError> {
        match self {
            KeyFault::Unlisted { key } => unlisted_words(alloc, table, key.as_str()),
            KeyFault::Missing { key } => {
                format!(in alloc; "{key}: missing, {}", Wanted::at(table, *key))
            }
            KeyFault::Value { key } => format!(in alloc; "{key}: {}", Wanted::at(table, *key)),
        }
    }
}

/// The words for a key that the table doesn't list, with a listed one that is like it.
fn unlisted_words(alloc: Global, table: ConfigTable, key: &str) -> Result<String, AllocError> {
    let shown = shown_key(alloc, key)?;
    match nearest(table, key) {
        Some(near) => format!(in alloc; "{shown}: not a key of this table, the nearest is {near}"),
        None => format!(in alloc; "{shown}: not a key of this table"),
    }
}

/// The words for a key that has no place at the top.
fn top_words(alloc: Global, key: &str) -> Result<String, AllocError> {
    let shown = shown_key(alloc, key)?;
    format!(in alloc;
        "{shown}: at the top stand the arrays of tables user, context, group, access and family, and nothing else"
    )
}

/// What is wrong with a row whose keys are right.
#[derive(Clone, Copy, Debug, PartialEq, Eq)]
pub enum LoadFault {
    /// A user's name or passwords are none that a user can have.
    BadUser,
    /// A password has fewer than 8 octets.
    ShortPassword,
    /// An earlier user has the name.
    DuplicateUser,
    /// A row of view-based access has a value that isn't allowed.
    BadRow,
    /// An earlier row of the table has this row's index.
    Duplicate,
}

/// Why a configuration isn't read. Positions count from 0.
#[derive(Debug, Drop)]
pub enum ConfigFault {
    /// The bracket here, counted from 1, opens beside 16 that are open.
    Nested {
        line: usize,
        column: usize,
    },
    /// The text isn't TOML in UTF-8.
    Toml {
        fault: toml::de::Error,
    },
    /// This key at the top isn't one of the tables, or its value isn't an array of tables.
    Top {
        key: String,
    },
    /// A row of a table can't be read.
    BadKey {
        table: ConfigTable,
        position: usize,
        fault: KeyFault,
    },
    /// A row can't be loaded.
    Row {
        table: ConfigTable,
        position: usize,
        wrong: LoadFault,
    },
    OutOfMemory,
}

impl LoadFault {
    /// The word that is printed.
    pub fn name(self) -> &'static str
        ensures { result.now ≡ wrong_name self }
    {
        match self {
            LoadFault::BadUser => "BadUser",
            LoadFault::ShortPassword => "ShortPassword",
            LoadFault::DuplicateUser => "DuplicateUser",
            LoadFault::BadRow => "BadRow",
            LoadFault::Duplicate => "Duplicate",
        }
    }

    /// What is wrong with a row of this table, and what is wanted, in words.
    fn words(self, table: ConfigTable) -> &'static str {
        match self {
            LoadFault::BadUser => {
                "a name of 1 to 32 octets is wanted, and a priv-password only beside auth and auth-password"
            }
            LoadFault::ShortPassword => "passwords of at least 8 octets are wanted",
            LoadFault::DuplicateUser => "an earlier user has this name",
            LoadFault::BadRow => table.bad_words(),
            LoadFault::Duplicate => table.index_words(),
        }
    }
}

impl fmt::Display for LoadFault {
    ghost output = { λ wrong. Some (wrong_name wrong) };

    fn fmt<W: fmt::Write>(&self, f: &mut fmt::Formatter<W>) -> fmt::Result {
        f.write_str(self.name())
    }
}

impl ConfigFault {
    /// Whether memory ran out, which says nothing of the text.
    pub fn is_memory(&self) -> bool
        ensures { MatchBool result (self.now ≡ OutOfMemory) (self.now ≢ OutOfMemory) }
    {
        matches!(self, ConfigFault::OutOfMemory)
    }

    /// What is wrong with the text and what is wanted, in words, for who wrote it. Of a text that isn't TOML
    /// it is where in the text, counted from 1, and the TOML reader's own words.
    pub fn why(&self, alloc: Global) -> Result<String, AllocError> {
        match self {
            ConfigFault::Nested { line, column } => format!(in alloc;
                "line {line}, column {column}: 16 brackets are open, and no more may be"
            ),
            ConfigFault::Toml { fault } => toml_words(alloc, fault),
            ConfigFault::Top { key } => top_words(alloc, key.as_str()),
            ConfigFault::BadKey {
                table,
                position,
                fault,
            } => {
                let words = fault.words(alloc, *table)?;
                format!(in alloc; "{table} {position}: {words}")
            }
            ConfigFault::Row {
                table,
                position,
                wrong,
            } => {
                let words = wrong.words(*table);
                format!(in alloc; "{table} {position}: {words}")
            }
            ConfigFault::OutOfMemory => format!(in alloc; "out of memory"),
        }
    }
}

/// The words of the TOML reader, in one line.
fn toml_words(alloc: Global, fault: &toml::de::Error) -> Result<String, AllocError> {
    let text = format!(in alloc; "{fault}")?;
    let mut words = String::new(alloc);
    for line in text.as_str().trim().split('\n') {
        if !words.as_str().is_empty() {
            words.push_str(": ")?;
        }
        words.push_str(line)?;
    }
    Ok(words)
}

impl fmt::Display for ConfigFault {
    ghost output = { λ fault. Some (refusal_line fault) };

    fn fmt<W: fmt::Write>(&self, f: &mut fmt::Formatter<W>) -> fmt::Result {
        match self {
            ConfigFault::Nested { .. } => f.write_str("refused config nesting"),
            ConfigFault::Toml { .. } => f.write_str("refused config toml"),
            ConfigFault::Top { .. } => f.write_str("refused config top"),
            ConfigFault::BadKey {
                table,
                position,
                ..
            } => write!(f, "refused config {table} {position} BadKey"),
            ConfigFault::Row {
                table,
                position,
                wrong,
            } => write!(f, "refused config {table} {position} {wrong}"),
            ConfigFault::OutOfMemory => f.write_str("out of memory"),
        }
    }
}

impl From<AllocError> for ConfigFault {
    ghost from_gives = { λ _ e. e ≡ OutOfMemory };

    fn from(_fault: AllocError) -> ConfigFault {
        ConfigFault::OutOfMemory
    }
}

impl<T: Drop> From<AllocFailed<T>> for ConfigFault {
    ghost from_gives = { λ _ e. e ≡ OutOfMemory };

    fn from(_fault: AllocFailed<T>) -> ConfigFault {
        ConfigFault::OutOfMemory
    }
}

impl From<UserFault> for ConfigFault {
    ghost from_gives = { λ fault e. e ≡ user_refusal fault };

    fn from(fault: UserFault) -> ConfigFault {
        let (position, wrong) = match fault {
            UserFault::BadUser { position } => (position, LoadFault::BadUser),
            UserFault::ShortPassword { position } => (position, LoadFault::ShortPassword),
            UserFault::DuplicateUser { position } => (position, LoadFault::DuplicateUser),
            UserFault::OutOfMemory => return ConfigFault::OutOfMemory,
        };
        ConfigFault::Row {
            table: ConfigTable::User,
            position,
            wrong,
        }
    }
}

impl From<VacmFault> for ConfigFault {
    ghost from_gives = { λ fault e. e ≡ vacm_refusal fault };

    fn from(fault: VacmFault) -> ConfigFault {
        let (table, position, wrong) = match fault {
            VacmFault::BadRow { table, position } => (table, position, LoadFault::BadRow),
            VacmFault::Duplicate { table, position } => (table, position, LoadFault::Duplicate),
            VacmFault::OutOfMemory => return ConfigFault::OutOfMemory,
        };
        ConfigFault::Row {
            table: ConfigTable::from(table),
            position,
            wrong,
        }
    }
}
