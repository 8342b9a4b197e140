//! The keys of a table that aren't listed.

ghost use Rattle.std.specs.Prelude.{IfErr, OnOk, MatchOption};
ghost use Rattle.toml.specs.View.{table_view};
ghost use Rattle.snmpsec_gate_config.specs.Keys.{HasOnlyListed, IsFirstUnlisted};
ghost use Rattle.snmpsec_gate_config.specs.Refusals.{TellsUnlisted};

use crate::fault::{GateKeyFault, GateTableFault};
use crate::table::GateTable;
use std::alloc::Global;
use toml::Table;

/// The first key that the table doesn't list.
fn first_unlisted<'a>(row: &'a Table, table: GateTable) -> Option<&'a str>
    ensures { MatchOption result (HasOnlyListed table (table_view row.now))
        (λ key. IsFirstUnlisted table (table_view row.now) key.now) }
{
    for (key, _) in row.iter() {
        if !table.lists(key.as_str()) {
            return Some(key.as_str());
        }
    }
    None
}

/// Refuses a row with a key that the table doesn't list.
pub(crate) fn only_listed(
    alloc: Global,
    row: &Table,
    table: GateTable,
) -> Result<(), GateTableFault>
    ensures ok { OnOk result (HasOnlyListed table (table_view row.now)) }
    ensures fault { IfErr result (TellsUnlisted table (table_view row.now)) }
{
    match first_unlisted(row, table) {
        None => Ok(()),
        Some(key) => Err(GateTableFault::Key(GateKeyFault::Unlisted {
            key: String::from_str(alloc, key)?,
        })),
    }
}
