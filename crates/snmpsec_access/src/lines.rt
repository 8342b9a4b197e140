//! Hints as lines.

ghost use Rattle.std.specs.Prelude.{◌≡◌, [], IfOk};
ghost use Rattle.vacm_core.specs.Tables.{tables_of};
ghost use Rattle.snmpsec_access.specs.Hints.{hints_of};

use crate::headings::RowLines;
use crate::hint::Hint;
use crate::names_printed::put_quoted;
use crate::row_hints::hints;
use snmpsec_config::ConfigRows;
use std::alloc::{AllocError, Global};

/// Appends the line of a hint on the row that begins in this line, where that is known.
fn put_hint(
    alloc: Global,
    out: &mut Vec<u8>,
    hint: &Hint<'_>,
    line: Option<usize>,
) -> Result<(), AllocError> {
    let (table, position, words) = (hint.what.table(), hint.position, hint.what.words());
    let front = match line {
        Some(line) => format!(in alloc; "snmpsec: {table} {position}, line {line}: {words}")?,
        None => format!(in alloc; "snmpsec: {table} {position}: {words}")?,
    };
    out.extend_from_slice(front.as_bytes())?;
    put_quoted(out, hint.name)?;
    out.extend_from_slice(b"\n")
}

/// The hints of a configuration's rows as lines of standard error, `snmpsec: TABLE POSITION, line LINE: WORDS
/// "NAME"`, with the name as a TOML basic string. They stand in the order of `hints`. LINE, from 1, is that
/// of the row's heading `[[TABLE]]` in the text that has these rows; where not each row of the table has such
/// a heading at the beginning of a line, `, line LINE` isn't there. Nothing is printed where there is no hint. The
/// error is out of memory.
pub fn hint_text(alloc: Global, text: &[u8], rows: &ConfigRows) -> Result<Vec<u8>, AllocError>
    ensures { IfOk result (λ out. hints_of rows.now.users.items (tables_of rows.now.access) ≡ []
        → out.items ≡ []) }
{
    let hints = hints(alloc, rows)?;
    let mut out = Vec::new(alloc);
    if hints.is_empty() {
        return Ok(out);
    }
    let places = RowLines::of(alloc, text, rows)?;
    for hint in &hints {
        let line = places.line_of(hint.what.table(), hint.position);
        put_hint(alloc, &mut out, hint, line)?;
    }
    Ok(out)
}
