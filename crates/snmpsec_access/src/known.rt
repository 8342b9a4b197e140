//! The rows of a configuration, and the names that rows of each table have.

ghost use Rattle.std.specs.Prelude.{◌≡◌, IfOk};
ghost use Rattle.snmpsec_access.specs.Known.{IsKnown};

use crate::names::Names;
use snmpsec_config::ConfigRows;
use std::alloc::{AllocError, Global};

/// Rows, and what is looked up of them.
#[derive(Drop)]
pub(crate) struct Known<'a> {
    pub(crate) rows: &'a ConfigRows,
    /// The names of users.
    pub(crate) users: Names<'a>,
    /// The names that group rows of the user-based model have.
    pub(crate) grouped: Names<'a>,
    /// The groups that group rows have.
    pub(crate) groups: Names<'a>,
    /// The groups that access rows have.
    pub(crate) with_access: Names<'a>,
    /// The views that family rows have.
    pub(crate) with_family: Names<'a>,
    /// The views that access rows name.
    pub(crate) named: Names<'a>,
}

impl<'a> Known<'a> {
    /// What is known of these rows.
    pub(crate) fn of(alloc: Global, rows: &'a ConfigRows) -> Result<Known<'a>, AllocError>
        ensures known { IfOk result IsKnown }
        ensures rows { IfOk result (λ known. known.rows.now ≡ rows.now) }
    {
        let access = &rows.access;
        Ok(Known {
            rows,
            users: Names::of_users(alloc, &rows.users)?,
            grouped: Names::of_members(alloc, &access.groups)?,
            groups: Names::of_groups(alloc, &access.groups)?,
            with_access: Names::with_access(alloc, &access.access)?,
            with_family: Names::with_family(alloc, &access.families)?,
            named: Names::of_access(alloc, &access.access)?,
        })
    }
}
