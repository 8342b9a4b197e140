//! What rows of a configuration decide on an access, and in which lines of its text they begin.

ghost use Rattle.std.specs.Prelude.{◌≡◌, IfOk, MatchBool};
ghost use Rattle.vacm_core.specs.Allowed.{Allowed};
ghost use Rattle.vacm_core.specs.Steps.{TellsContext, requester_of};
ghost use Rattle.vacm_core.specs.Tables.{tables_of};
ghost use Rattle.snmpsec_access.specs.Explaining.{AnswersAlike, HasRow};
ghost use Rattle.snmpsec_access.specs.Found.{AreRowLines, line_in};

use crate::headings::RowLines;
use snmpsec_config::{AccessConfig, ConfigTable};
use std::alloc::{AllocError, Global};
use std::marker::Model;
use vacm_core::{Asking, Explained, Rows, Vacm};

/// The rows of a configuration that decide on access, and the lines of its text in which they begin.
#[derive(Drop)]
pub struct Explainer {
    rows: Rows,
    access: Vacm,
    lines: RowLines,
}

impl Model for Explainer {
    ghost use Rattle.vacm_core.specs.Tables.{tables_of};
    ghost use Rattle.snmpsec_access.specs.Explaining.{AnswersAlike, Explaining};

    ghost Value = { Explaining };

    ghost view = { λ e. record { tables = tables_of e.rows; lines = e.lines } };

    ghost invariant = { λ e. AnswersAlike (tables_of e.rows) e.access };
}

impl Explainer {
    /// Explains by what was read of this text. The error is out of memory.
    pub fn of(alloc: Global, text: &[u8], config: AccessConfig) -> Result<Explainer, AllocError>
        requires { AnswersAlike (tables_of config.rows.access) config.access }
        ensures tables { IfOk result (λ made. made.tables ≡ tables_of config.rows.access) }
        ensures lines { IfOk result (λ made. AreRowLines text.now config.rows.users.items
            (tables_of config.rows.access) made.lines) }
    {
        let AccessConfig { rows, access } = config;
        let lines = RowLines::of(alloc, text, &rows)?;
        Ok(Explainer {
            rows: rows.access,
            access,
            lines,
        })
    }

    /// Some table has a row.
    pub fn has_rows(&self) -> bool
        ensures { MatchBool result (HasRow self.now.tables) (¬ HasRow self.now.tables) }
    {
        let rows = &self.rows;
        !(rows.contexts.is_empty()
            && rows.groups.is_empty()
            && rows.access.is_empty()
            && rows.families.is_empty())
    }

    /// The answer to the question, and the rows that decide, by their positions. It takes no memory, and goes over
    /// each table once at most.
    pub fn explain(&self, asking: &Asking<'_>) -> Explained
        ensures answer { Allowed self.now.tables
            (requester_of asking.now) asking.now.view asking.now.variable.now result.answer }
        ensures steps { TellsContext self.now.tables
            (requester_of asking.now) asking.now.view asking.now.variable.now result.context }
    {
        self.access.explain(&self.rows, asking)
    }

    /// The line in which the row at this position of its table begins, from 1. It isn't known where not each row of
    /// the table has a heading `[[TABLE]]` at the beginning of a line.
    pub fn line_of(&self, table: ConfigTable, position: usize) -> Option<usize>
        ensures { result ≡ line_in self.now.lines table position }
    {
        self.lines.line_of(table, position)
    }
}
