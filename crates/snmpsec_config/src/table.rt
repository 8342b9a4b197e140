//! The tables of a configuration, and the keys that they list.

ghost use Rattle.std.specs.Prelude.{◌≡◌, Some, MatchBool};
ghost use Rattle.snmpsec_config.specs.Keys.{table_name, key_name, listed, IsListed};

use std::fmt;
use vacm_core::Table;

/// The tables of a configuration, in the order in which they are looked at.
#[derive(Clone, Copy, Debug, PartialEq, Eq)]
pub enum ConfigTable {
    /// Users (RFC 3414, usmUserTable).
    User,
    /// Contexts (RFC 3415, vacmContextTable).
    Context,
    /// Groups of security names (vacmSecurityToGroupTable).
    Group,
    /// Access rows (vacmAccessTable).
    Access,
    /// View families (vacmViewTreeFamilyTable).
    Family,
}

impl ConfigTable {
    /// The key at the top of the configuration.
    pub fn name(self) -> &'static str
        ensures { result.now ≡ table_name self }
    {
        match self {
            ConfigTable::User => "user",
            ConfigTable::Context => "context",
            ConfigTable::Group => "group",
            ConfigTable::Access => "access",
            ConfigTable::Family => "family",
        }
    }

    /// The keys that it lists.
    pub(crate) fn keys(self) -> &'static [ConfigKey]
        ensures { result.now ≡ listed self }
    {
        match self {
            ConfigTable::User => &[
                ConfigKey::Name,
                ConfigKey::Auth,
                ConfigKey::AuthPassword,
                ConfigKey::PrivPassword,
            ],
            ConfigTable::Context => &[ConfigKey::Name],
            ConfigTable::Group => &[ConfigKey::Model, ConfigKey::Name, ConfigKey::Group],
            ConfigTable::Access => &[
                ConfigKey::Group,
                ConfigKey::Prefix,
                ConfigKey::Model,
                ConfigKey::Level,
                ConfigKey::Match,
                ConfigKey::Read,
                ConfigKey::Write,
                ConfigKey::Notify,
            ],
            ConfigTable::Family => &[
                ConfigKey::View,
                ConfigKey::Subtree,
                ConfigKey::Include,
                ConfigKey::Mask,
            ],
        }
    }

    /// Whether it lists this key.
    pub(crate) fn lists(self, name: &str) -> bool
        ensures { MatchBool result (IsListed self name.now) (¬ IsListed self name.now) }
    {
        self.keys().iter().any(|key| key.name() == name)
    }

    /// What no row of it may have, in words.
    pub(crate) fn bad_words(self) -> &'static str {
        match self {
            ConfigTable::User => "its name or its passwords are none that a user can have",
            ConfigTable::Context => "no such row",
            ConfigTable::Group => {
                "a model from 1 to 2147483647 is wanted, and a name and a group that aren't empty"
            }
            ConfigTable::Access => "a group that isn't empty is wanted",
            ConfigTable::Family => "a view that isn't empty is wanted",
        }
    }

    /// That a row has the index of an earlier one, in words.
    pub(crate) fn index_words(self) -> &'static str {
        match self {
            ConfigTable::User | ConfigTable::Context => "an earlier row has this name",
            ConfigTable::Group => "an earlier row has this model and name",
            ConfigTable::Access => "an earlier row has this group, prefix, model and level",
            ConfigTable::Family => "an earlier row has this view and subtree",
        }
    }
}

impl From<Table> for ConfigTable {
    ghost use Rattle.snmpsec_config.specs.Refusals.{vacm_table};

    ghost from_gives = { λ table e. e ≡ vacm_table table };

    fn from(table: Table) -> ConfigTable {
        match table {
            Table::Contexts => ConfigTable::Context,
            Table::Groups => ConfigTable::Group,
            Table::Access => ConfigTable::Access,
            Table::Families => ConfigTable::Family,
        }
    }
}

impl fmt::Display for ConfigTable {
    ghost output = { λ table. Some (table_name table) };

    fn fmt<W: fmt::Write>(&self, f: &mut fmt::Formatter<W>) -> fmt::Result {
        f.write_str(self.name())
    }
}

/// The keys that tables list.
#[derive(Clone, Copy, Debug, PartialEq, Eq)]
pub enum ConfigKey {
    Name,
    Auth,
    AuthPassword,
    PrivPassword,
    Model,
    Group,
    Prefix,
    Level,
    Match,
    Read,
    Write,
    Notify,
    View,
    Subtree,
    Include,
    Mask,
}

impl ConfigKey {
    /// Its name in the text.
    pub fn name(self) -> &'static str
        ensures { result.now ≡ key_name self }
    {
        match self {
            ConfigKey::Name => "name",
            ConfigKey::Auth => "auth",
            ConfigKey::AuthPassword => "auth-password",
            ConfigKey::PrivPassword => "priv-password",
            ConfigKey::Model => "model",
            ConfigKey::Group => "group",
            ConfigKey::Prefix => "prefix",
            ConfigKey::Level => "level",
            ConfigKey::Match => "match",
            ConfigKey::Read => "read",
            ConfigKey::Write => "write",
            ConfigKey::Notify => "notify",
            ConfigKey::View => "view",
            ConfigKey::Subtree => "subtree",
            ConfigKey::Include => "include",
            ConfigKey::Mask => "mask",
        }
    }
}

impl fmt::Display for ConfigKey {
    ghost output = { λ key. Some (key_name key) };

    fn fmt<W: fmt::Write>(&self, f: &mut fmt::Formatter<W>) -> fmt::Result {
        f.write_str(self.name())
    }
}
