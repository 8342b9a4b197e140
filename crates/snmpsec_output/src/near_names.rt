//! Which name of a configuration is meant by one that it hasn't.

use crate::choices::nearest;
use snmpsec_access::quoted_text;
use snmpsec_config::{AccessConfig, ConfigFault};
use std::alloc::{AllocError, Global};
use vacm_core::GroupRow;

/// That no group row of this model has the name, and which name of such a row is most like it, if one is: for a
/// question that is answered by noGroupName. None where the configuration isn't read. The error is out of memory.
pub fn group_why(
    alloc: Global,
    config: &[u8],
    model: u32,
    name: &str,
) -> Result<Option<String>, AllocError> {
    match AccessConfig::read(alloc, config) {
        Ok(config) => Ok(Some(why_of(alloc, &config.rows.access.groups, model, name)?)),
        Err(ConfigFault::OutOfMemory) => Err(AllocError),
        Err(_) => Ok(None),
    }
}

/// The same, of these rows.
fn why_of(
    alloc: Global,
    groups: &[GroupRow],
    model: u32,
    name: &str,
) -> Result<String, AllocError> {
    let mut known = Vec::new(alloc);
    for row in groups {
        if row.model == model {
            if let Ok(name) = std::str::from_utf8(row.name.as_slice()) {
                known.push(name)?;
            }
        }
    }
    let asked = quoted_text(alloc, name.as_bytes())?;
    match nearest(&known, name) {
        Some(near) => {
            let near = quoted_text(alloc, near.as_bytes())?;
            format!(in alloc;
                "no group row of model {model} has the name {asked}, the nearest is {near}"
            )
        }
        None => format!(in alloc; "no group row of model {model} has the name {asked}"),
    }
}
