//! Who asks, the tables that say what it may see, and bindings as they are shown.

use crate::row::{Row, keep};
use crate::shown::Hex;
use snmp_ber::Level;
use snmp_msg::Binding;
use snmp_responder::Viewer;
use snmpsec_config::AccessConfig;
use std::fmt;
use vacm_core::{Name, Vacm};

/// The number of the User-based Security Model (RFC 3411, section 5).
const USM: u32 = 3;

/// `tables TEXT`: the tables of contexts, groups, access rows and views in TOML.
pub fn load(tables: &mut Option<Vacm>, row: &mut Row<'_>) {
    match AccessConfig::read(row.alloc, row.octets()) {
        Ok(config) => keep(tables, config.access),
        Err(fault) if fault.is_memory() => row.lack(),
        Err(_) => row.fail("tables that are read"),
    }
}

/// A name of at most 32 octets, or `-` for the empty one.
fn name_of(row: &mut Row<'_>) -> Option<Name> {
    let name = Name::of(row.name());
    if name.is_none() {
        row.fail("a name has at most 32 octets");
    }
    name
}

/// Who asks.
#[derive(Drop)]
pub struct Asker {
    name: Name,
    level: Level,
    context: Name,
}

/// Who asks, by NAME LEVEL CONTEXT.
pub fn asker_in(row: &mut Row<'_>) -> Option<Asker> {
    let (name, level, context) = (name_of(row), row.level(), name_of(row));
    Some(Asker {
        name: name?,
        level,
        context: context?,
    })
}

impl Asker {
    /// What these tables let it see.
    pub fn viewer<'a>(&'a self, vacm: &'a Vacm) -> Viewer<'a> {
        Viewer {
            vacm,
            model: USM,
            name: self.name.as_slice(),
            level: self.level,
            context: self.context.as_slice(),
        }
    }
}

/// Bindings, each as its name, the tag of its value and its content: `1.3.6=05:-`.
#[derive(Clone, Copy)]
pub struct Shown<'a>(pub &'a [Binding<'a>]);

impl fmt::Display for Shown<'_> {
    fn fmt<W: fmt::Write>(&self, f: &mut fmt::Formatter<W>) -> fmt::Result {
        for binding in self.0 {
            let content = Hex(binding.content);
            write!(f, " {}={:02x}:{content}", binding.name, binding.tag)?;
        }
        Ok(())
    }
}
