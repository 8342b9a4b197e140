//! What is wanted at the keys of a configuration.

ghost use Rattle.std.specs.Prelude.{◌≡◌};
ghost use Rattle.snmpsec_config.specs.Values.{wanted_at};

use crate::table::{ConfigKey, ConfigTable};
use std::fmt;

/// What is wanted at a key.
#[derive(Clone, Copy, Debug, PartialEq, Eq)]
pub enum Wanted {
    Text,
    Name,
    Model,
    Level,
    Matching,
    Oid,
    Mask,
    Flag,
    Auth,
}

impl Wanted {
    /// What a table wants at a key.
    pub fn at(table: ConfigTable, key: ConfigKey) -> Wanted
        ensures { result ≡ wanted_at table key }
    {
        match key {
            ConfigKey::Name => match table {
                ConfigTable::User => Wanted::Text,
                _ => Wanted::Name,
            },
            ConfigKey::AuthPassword | ConfigKey::PrivPassword => Wanted::Text,
            ConfigKey::Auth => Wanted::Auth,
            ConfigKey::Model => Wanted::Model,
            ConfigKey::Level => Wanted::Level,
            ConfigKey::Match => Wanted::Matching,
            ConfigKey::Subtree => Wanted::Oid,
            ConfigKey::Include => Wanted::Flag,
            ConfigKey::Mask => Wanted::Mask,
            ConfigKey::Group
            | ConfigKey::Prefix
            | ConfigKey::Read
            | ConfigKey::Write
            | ConfigKey::Notify
            | ConfigKey::View => { Wanted::Name }
        }
    }
}

impl fmt::Display for Wanted {
    fn fmt<W: fmt::Write>(&self, f: &mut fmt::Formatter<W>) -> fmt::Result {
        f.write_str(match self {
            Wanted::Text => "a text",
            Wanted::Name => "a text of at most 32 octets",
            Wanted::Model => "a whole number from 0 to 2147483647",
            Wanted::Level => "one of noAuthNoPriv, authNoPriv, authPriv",
            Wanted::Matching => "one of exact, prefix",
            Wanted::Oid => "an object identifier in dotted decimal",
            Wanted::Mask => "at most 16 octets in hex",
            Wanted::Flag => "true or false",
            Wanted::Auth => "one of md5, sha1, sha256",
        })
    }
}
