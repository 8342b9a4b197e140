//! `vacm_core`: a name in a group that has no access row, and a name in no group.
use snmp_ber::{Level, Oid};
use std::alloc::Global;
use std::test::Fail;
use vacm_core::{Access, ContextRow, GroupRow, Name, Rows, Vacm, ViewType};

/// Puts ann into the group of readers.
fn add_ann(rows: &mut Rows) -> Result<(), Fail> {
    let context = Name::of(b"").ok_or("a name")?;
    rows.contexts.push(ContextRow { name: context })?;
    let name = Name::of(b"ann").ok_or("a name")?;
    let group = Name::of(b"readers").ok_or("a name")?;
    rows.groups.push(GroupRow {
        model: 3,
        name,
        group,
    })?;
    Ok(())
}

/// Tables in which the group of readers has no access row.
fn tables(alloc: Global) -> Result<Vacm, Fail> {
    let mut rows = Rows {
        contexts: Vec::new(alloc),
        groups: Vec::new(alloc),
        access: Vec::new(alloc),
        families: Vec::new(alloc),
    };
    add_ann(&mut rows)?;
    Ok(Vacm::load(alloc, &rows)?)
}

/// What the tables answer to a name that reads a variable.
fn answer(vacm: &Vacm, name: &[u8], variable: &Oid) -> Access {
    vacm.is_access_allowed(3, name, Level::AuthPriv, ViewType::Read, b"", variable)
}

/// What they answer to ann and to bob, who read sysName.0.
fn answers(alloc: Global) -> Result<(Access, Access), Fail> {
    let variable = Oid::from_text("1.3.6.1.2.1.1.5.0").ok_or("arcs")?;
    let vacm = tables(alloc)?;
    let ann = answer(&vacm, b"ann", &variable);
    let bob = answer(&vacm, b"bob", &variable);
    drop(vacm);
    Ok((ann, bob))
}

#[test]
fn a_group_without_access_sees_nothing(rt: HostRuntime) -> Result<(), Fail> {
    let (ann, bob) = answers(rt.alloc())?;
    assert_eq!(rt; ann, Access::NoAccessEntry);
    assert_eq!(rt; bob, Access::NoGroupName);
    Ok(())
}
