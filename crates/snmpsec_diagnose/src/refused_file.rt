//! The line in JSON that refuses a file.

use serde_json::{Value as Json, json};
use snmpsec_commands::FaultPlace;
use std::alloc::{AllocError, Global};

/// The object of the line that refuses the file of this name at this place.
pub(crate) fn refusal_object(
    alloc: Global,
    name: &str,
    place: FaultPlace,
) -> Result<String, AllocError> {
    let (octet, line, column) = match place {
        FaultPlace::Octet(octet) => (Some(octet), None, None),
        FaultPlace::Line(line) => (None, Some(line), None),
        FaultPlace::Column { line, column } => (None, Some(line), Some(column)),
    };
    let place = json!(in alloc; {
        "file": name, "octet": Json::from(octet), "line": Json::from(line), "column": Json::from(column)
    })?;
    let object = json!(in alloc; {"refused_datagrams": place})?;
    let text = object.to_string(alloc)?;
    format!(in alloc; "{text}\n")
}
