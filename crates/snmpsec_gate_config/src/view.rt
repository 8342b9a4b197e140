//! Read views that no family row has.

ghost use Rattle.std.specs.Prelude.{◌≡◌, ◌||◌, ℕ, List, IfOk, OnOk};
ghost use Rattle.std.specs.Str.{bytes_eq};
ghost use Rattle.snmpsec_gate_config.specs.Views.{AreKnown, AreViewsOf, has, views_without_family, with_view};
ghost use Rattle.vacm_core.specs.declared.rows.FamilyRow.{FamilyRow as FamilyRowIs};

use std::alloc::{AllocError, Global};
use std::collections::HashSet;
use vacm_core::{AccessRow, FamilyRow, Name, Rows};

/// Names of views, each once.
#[derive(Drop)]
struct KnownViews<'a> {
    names: HashSet<&'a [u8]>,
}

impl<'a> KnownViews<'a> {
    /// Adds a view.
    fn insert(&mut self, view: &'a [u8]) -> Result<(), AllocError>
        ensures { OnOk result
            ((other : List ℕ) → has self.new other
            ≡ (has self.old other || bytes_eq other view.now)) }
    {
        self.names.insert(view)?;
        Ok(())
    }

    /// Whether the view is among them.
    fn has(&self, view: &[u8]) -> bool
        ensures { result ≡ has self.now view.now }
    {
        self.names.contains(view)
    }

    /// The views that family rows have.
    fn of_families(alloc: Global, families: &'a [FamilyRow]) -> Result<KnownViews<'a>, AllocError>
        ensures { IfOk result (AreViewsOf families.now) }
    {
        let mut known = KnownViews {
            names: HashSet::new(alloc),
        };
        for row in families {
            known.insert(row.view.as_slice())?;
        }
        Ok(known)
    }
}

/// Adds the row's read view, where it isn't empty and isn't known.
fn put_view<'a>(
    known: &mut KnownViews<'a>,
    views: &mut Vec<Name>,
    row: &'a AccessRow,
) -> Result<(), AllocError>
    ensures { OnOk result ((families : List FamilyRowIs) → AreKnown families views.old.items known.old
        → AreKnown families views.new.items known.new
        × (views.new.items ≡ with_view families views.old.items row.now)) }
{
    let view = row.read.as_slice();
    if !view.is_empty() && !known.has(view) {
        known.insert(view)?;
        views.push(row.read.copy())?;
    }
    Ok(())
}

/// Returns the read views of the access rows that no family row has, each once, in the order of the rows. So a group
/// that has such a view reads nothing by it. An empty name isn't a view. The error is out of memory.
pub fn views_without_family(alloc: Global, rows: &Rows) -> Result<Vec<Name>, AllocError>
    ensures { IfOk result (λ views. views.items
        ≡ views_without_family rows.now.families.items rows.now.access.items) }
{
    let mut known = KnownViews::of_families(alloc, &rows.families)?;
    let mut views = Vec::new(alloc);
    for row in &rows.access {
        put_view(&mut known, &mut views, row)?;
    }
    Ok(views)
}
