//! What decides on an access, a line each.

use snmpsec_access::name_text;
use std::alloc::{AllocError, Global};
use vacm_core::ContextStep;

/// What decides, as far as it comes: the lines `context POSITION`, `group POSITION NAME`, `access POSITION`,
/// `view NAME` and `family POSITION`. A name is printed as all commands print it. The error says that memory ran out.
pub(crate) fn steps_text(
    alloc: Global,
    context: &Option<ContextStep>,
) -> Result<String, AllocError> {
    let mut text = String::new(alloc);
    let Some(context) = context else {
        return Ok(text);
    };
    let position = context.position;
    write!(text, "context {position}\n")?;
    let Some(group) = &context.group else {
        return Ok(text);
    };
    let (position, name) = (group.position, name_text(alloc, group.name.as_slice())?);
    write!(text, "group {position} {name}\n")?;
    let Some(access) = &group.access else {
        return Ok(text);
    };
    let position = access.position;
    write!(text, "access {position}\n")?;
    let Some(view) = &access.view else {
        return Ok(text);
    };
    let name = name_text(alloc, view.name.as_slice())?;
    write!(text, "view {name}\n")?;
    if let Some(position) = view.family {
        write!(text, "family {position}\n")?;
    }
    Ok(text)
}
