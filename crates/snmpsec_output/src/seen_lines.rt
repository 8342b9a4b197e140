//! What a name sees, a line each.

use snmpsec_access::{Deciding, Seen, access_word, context_text, view_word};
use snmpsec_config::level_word;
use std::alloc::{AllocError, Global};
use vacm_core::{Access, FamilyRow};

/// The lines of what a name sees.
pub(crate) fn seen_text(alloc: Global, seen: &[Seen<'_>]) -> Result<String, AllocError> {
    let mut text = String::new(alloc);
    for seen in seen {
        put_seen(alloc, &mut text, seen)?;
    }
    Ok(text)
}

/// Appends the lines of the rows that decide, or that of the one answer.
fn put_seen(alloc: Global, out: &mut String, seen: &Seen<'_>) -> Result<(), AllocError> {
    let (level, view) = (level_word(seen.level), view_word(seen.view));
    let context = context_text(alloc, seen.context)?;
    let front = format!(in alloc; "{level} {view} {context}")?;
    match &seen.deciding {
        Deciding::Refusal(answer) => put_answer(out, &front, *answer),
        Deciding::Rows(rows) if rows.is_empty() => put_answer(out, &front, Access::NotInView),
        Deciding::Rows(rows) => put_rows(out, &front, rows),
    }
}

/// Appends the line of an answer.
fn put_answer(out: &mut String, front: &str, answer: Access) -> Result<(), AllocError> {
    let answer = access_word(answer);
    write!(out, "{front} {answer}\n")
}

/// Appends the lines of rows.
fn put_rows(out: &mut String, front: &str, rows: &[&FamilyRow]) -> Result<(), AllocError> {
    for row in rows {
        let sign = if row.include { "+" } else { "-" };
        write!(out, "{front} {sign} ")?;
        put_subtree(out, row)?;
        out.push_str("\n")?;
    }
    Ok(())
}

/// Appends the subtree of a row, with `*` for an arc that the mask leaves free.
fn put_subtree(out: &mut String, row: &FamilyRow) -> Result<(), AllocError> {
    for (k, arc) in row.subtree.as_slice().iter().enumerate() {
        if k > 0 {
            out.push_str(".")?;
        }
        if row.mask.compares(k) {
            write!(out, "{arc}")?;
        } else {
            out.push_str("*")?;
        }
    }
    Ok(())
}
