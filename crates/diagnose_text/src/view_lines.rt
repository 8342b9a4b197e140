//! What is printed of what the views say.

use crate::views::{RowPlace, Viewed};
use serde_json::{Value as Json, json};
use snmpsec_access::{access_word, name_text, quoted_text};
use std::alloc::{AllocError, Global};
use vacm_core::Name;

/// Adds a line for each variable. It has its name unless the request has it alone.
pub(crate) fn put_views(
    alloc: Global,
    out: &mut String,
    is_alone: bool,
    views: &[Viewed],
) -> Result<(), AllocError> {
    for viewed in views {
        let answer = access_word(viewed.answer);
        write!(out, "    by this configuration {answer}")?;
        if !is_alone {
            let name = &viewed.name;
            write!(out, " for {name}")?;
        }
        put_rows(alloc, out, viewed)?;
        out.push_str("\n")?;
    }
    Ok(())
}

/// Adds the last of the rows that decide, from the access row on if there is one.
fn put_rows(alloc: Global, out: &mut String, viewed: &Viewed) -> Result<(), AllocError> {
    match (&viewed.access, &viewed.group) {
        (Some(access), _) => {
            put_row(out, ": access", Some(*access))?;
            put_view(alloc, out, viewed)
        }
        (None, Some((row, name))) => {
            put_row(out, ": group", Some(*row))?;
            let name = quoted_text(alloc, name.as_slice())?;
            write!(out, ", group {name}")
        }
        (None, None) => put_row(out, ": context", viewed.context),
    }
}

/// Adds the view and its row, behind the access row.
fn put_view(alloc: Global, out: &mut String, viewed: &Viewed) -> Result<(), AllocError> {
    let Some(view) = &viewed.view else {
        return Ok(());
    };
    let name = quoted_text(alloc, view.as_slice())?;
    write!(out, ", view {name}")?;
    put_row(out, ", family", viewed.family)
}

/// Adds a row of this table and the line in which it begins, if there is one and the line is known.
fn put_row(out: &mut String, table: &str, row: Option<RowPlace>) -> Result<(), AllocError> {
    let Some(RowPlace { position, line }) = row else {
        return Ok(());
    };
    write!(out, "{table} row {position}")?;
    match line {
        Some(line) => write!(out, " (line {line})"),
        None => Ok(()),
    }
}

/// The object of a variable.
pub(crate) fn view_object(alloc: Global, viewed: &Viewed) -> Result<Json, AllocError> {
    let group = match &viewed.group {
        Some((_, name)) => name_or_null(alloc, Some(name))?,
        None => Json::Null,
    };
    json!(in alloc; {
        "name": Json::try_from_str(alloc, &viewed.name)?,
        "answer": access_word(viewed.answer),
        "context_row": row_or_null(alloc, viewed.context)?,
        "group_row": row_or_null(alloc, viewed.group.as_ref().map(|group| group.0))?,
        "access_row": row_or_null(alloc, viewed.access)?,
        "family_row": row_or_null(alloc, viewed.family)?,
        "group": group,
        "view": name_or_null(alloc, viewed.view.as_ref())?
    })
}

/// A row, or null.
fn row_or_null(alloc: Global, row: Option<RowPlace>) -> Result<Json, AllocError> {
    match row {
        Some(row) => json!(in alloc; {"position": row.position, "line": Json::from(row.line)}),
        None => Ok(Json::Null),
    }
}

/// A name, or null.
fn name_or_null(alloc: Global, name: Option<&Name>) -> Result<Json, AllocError> {
    match name {
        Some(name) => Ok(Json::from(name_text(alloc, name.as_slice())?)),
        None => Ok(Json::Null),
    }
}
