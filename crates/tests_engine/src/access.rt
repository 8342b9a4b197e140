//! Rows of access, and tables of them.

use snmp_ber::{Level, Oid};
use std::alloc::Global;
use std::test::Fail;
use vacm_core::*;

/// A row of the subtree of this arc.
fn family(arc: u32) -> FamilyRow {
    let (Some(view), Some(subtree), Some(mask)) = (Name::of(b"v"), Oid::of(&[arc]), Mask::of(b""))
    else {
        unreachable!();
    };
    FamilyRow {
        view,
        subtree,
        mask,
        include: true,
    }
}

/// No rows.
fn no_rows(alloc: Global) -> Rows {
    Rows {
        contexts: Vec::new(alloc),
        groups: Vec::new(alloc),
        access: Vec::new(alloc),
        families: Vec::new(alloc),
    }
}

/// The tables of these rows, looked for once more where memory is wanting.
fn loaded_again(alloc: Global, rows: &Rows) -> Result<Vacm, VacmFault> {
    match Vacm::load(alloc, rows) {
        Err(VacmFault::OutOfMemory) => Vacm::load(alloc, rows),
        other => other,
    }
}

/// Whether the tables of these rows have no context.
fn has_no_context(alloc: Global, rows: &Rows, variable: &Oid) -> Result<bool, VacmFault> {
    let vacm = loaded_again(alloc, rows)?;
    let level = Level::AuthPriv;
    let answer = vacm.is_access_allowed(3, b"ann", level, ViewType::Read, b"", variable);
    drop(vacm);
    Ok(answer == Access::NoSuchContext)
}

#[test]
fn a_refused_growth_leaves_the_rows(rt: HostRuntime) -> Result<(), Fail> {
    let mut rows = no_rows(rt.alloc());
    let mut row = family(1);
    if let Err(refused) = rows.families.push(row) {
        row = refused.value;
        rows.families.push(row)?;
    }
    let variable = Oid::of(&[1, 3]).ok_or("an identifier")?;
    assert!(rt; has_no_context(rt.alloc(), &rows, &variable)?);
    Ok(())
}
