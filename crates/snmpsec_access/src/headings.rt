//! In which line of a configuration a row begins.

ghost use Rattle.std.specs.Prelude.{◌≡◌, IfOk};
ghost use Rattle.vacm_core.specs.Tables.{tables_of};
ghost use Rattle.snmpsec_access.specs.Headings.{lines};
ghost use Rattle.snmpsec_access.specs.Headings as spec;
ghost use Rattle.snmpsec_access.specs.Found.{AreRowLines, line_in};

use snmp_ber::split_once;
use snmpsec_config::{ConfigRows, ConfigTable};
use std::alloc::{AllocError, Global};

/// The lines in which the rows of each table begin, from 1; none of a table where not each row has a heading
/// `[[TABLE]]` at the beginning of a line.
#[derive(Drop)]
pub(crate) struct RowLines {
    users: Vec<usize>,
    contexts: Vec<usize>,
    groups: Vec<usize>,
    access: Vec<usize>,
    families: Vec<usize>,
}

impl RowLines {
    /// Those of a configuration's text, which has these rows.
    pub(crate) fn of(alloc: Global, text: &[u8], rows: &ConfigRows) -> Result<RowLines, AllocError>
        ensures { IfOk result (AreRowLines text.now rows.now.users.items
            (tables_of rows.now.access)) }
    {
        let access = &rows.access;
        Ok(RowLines {
            users: row_lines(alloc, text, ConfigTable::User, rows.users.len())?,
            contexts: row_lines(alloc, text, ConfigTable::Context, access.contexts.len())?,
            groups: row_lines(alloc, text, ConfigTable::Group, access.groups.len())?,
            access: row_lines(alloc, text, ConfigTable::Access, access.access.len())?,
            families: row_lines(alloc, text, ConfigTable::Family, access.families.len())?,
        })
    }

    /// The line in which the row at this position of its table begins.
    pub(crate) fn line_of(&self, table: ConfigTable, position: usize) -> Option<usize>
        ensures { result ≡ line_in self.now table position }
    {
        let lines = match table {
            ConfigTable::User => &self.users,
            ConfigTable::Context => &self.contexts,
            ConfigTable::Group => &self.groups,
            ConfigTable::Access => &self.access,
            ConfigTable::Family => &self.families,
        };
        lines.get(position).copied()
    }
}

/// The lines of the headings of a table that has so many rows.
fn row_lines(
    alloc: Global,
    text: &[u8],
    table: ConfigTable,
    rows: usize,
) -> Result<Vec<usize>, AllocError>
    ensures { IfOk result (λ it. it.items ≡ spec.row_lines text.now table rows) }
{
    let numbers = numbers_of(alloc, text, heading(table))?;
    if numbers.len() == rows {
        Ok(numbers)
    } else {
        Ok(Vec::new(alloc))
    }
}

/// The numbers of the lines that begin with this, from 1.
fn numbers_of(alloc: Global, text: &[u8], begin: &[u8]) -> Result<Vec<usize>, AllocError>
    ensures { IfOk result (λ it. it.items ≡ spec.numbers_of begin.now 1 (lines text.now)) }
{
    let mut numbers = Vec::new(alloc);
    let mut rest = text;
    let mut number = 1;
    'lines: while let Some((line, later)) = split_once(rest, b'\n') {
        if line.starts_with(begin) {
            numbers.push(number)?;
        }
        rest = later;
        number += 1;
    }
    if rest.starts_with(begin) {
        numbers.push(number)?;
    }
    Ok(numbers)
}

/// The heading of a row.
fn heading(table: ConfigTable) -> &'static [u8]
    ensures { result.now ≡ spec.heading table }
{
    match table {
        ConfigTable::User => b"[[user]]",
        ConfigTable::Context => b"[[context]]",
        ConfigTable::Group => b"[[group]]",
        ConfigTable::Access => b"[[access]]",
        ConfigTable::Family => b"[[family]]",
    }
}
