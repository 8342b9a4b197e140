//! `vacm_core`: the rows of a name, from the best down.
use std::test::Fail;
use vacm_core::{GroupRow, Name, OrderedTable};

/// A row of ann's under a security model.
fn row_of(model: u32) -> Option<GroupRow> {
    Some(GroupRow {
        model,
        name: Name::of(b"ann")?,
        group: Name::of(b"readers")?,
    })
}

#[test]
fn rows_of_a_name_stand_from_the_best_down(rt: HostRuntime) -> Result<(), Fail> {
    let mut rows = Vec::new(rt.alloc());
    rows.push(row_of(2).ok_or("a row")?)?;
    rows.push(row_of(3).ok_or("a row")?)?;
    let table = OrderedTable::of(rt.alloc(), &rows)?;
    assert_eq!(rt; table.rows_of(b"ann").first().map(|row| row.model), Some(3));
    assert_eq!(rt; table.rows_of(b"bob").len(), 0);
    Ok(())
}
