//! `vacm_next`: a group without an access row sees no name.
use snmp_ber::{Level, Oid};
use std::alloc::Global;
use std::test::Fail;
use vacm_core::{ContextRow, GroupRow, Name, Rows, Vacm, ViewType};
use vacm_next::next_in_view;

/// Puts ann into the group of readers.
fn add_ann(rows: &mut Rows) -> Result<(), Fail> {
    let context = Name::of(b"").ok_or("a name")?;
    rows.contexts.push(ContextRow { name: context })?;
    let name = Name::of(b"ann").ok_or("a name")?;
    let group = Name::of(b"readers").ok_or("a name")?;
    rows.groups.push(GroupRow {
        model: 3,
        name,
        group,
    })?;
    Ok(())
}

/// Tables in which the group of readers has no access row.
fn tables(alloc: Global) -> Result<Vacm, Fail> {
    let mut rows = Rows {
        contexts: Vec::new(alloc),
        groups: Vec::new(alloc),
        access: Vec::new(alloc),
        families: Vec::new(alloc),
    };
    add_ann(&mut rows)?;
    Ok(Vacm::load(alloc, &rows)?)
}

/// The next name from here on that ann may see.
fn next_name(alloc: Global, from: &Oid) -> Result<Option<Oid>, Fail> {
    let vacm = tables(alloc)?;
    let level = Level::AuthPriv;
    let next = next_in_view(&vacm, 3, b"ann", level, ViewType::Read, b"", from);
    drop(vacm);
    Ok(next)
}

#[test]
fn a_group_without_access_sees_no_name(rt: HostRuntime) -> Result<(), Fail> {
    let from = Oid::from_text("1.3.6.1.2.1").ok_or("arcs")?;
    let next = next_name(rt.alloc(), &from)?;
    assert_eq!(rt; next.is_none(), true);
    Ok(())
}
