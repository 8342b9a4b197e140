//! What a Response to a GetBulkRequest holds.

ghost use Rattle.std.specs.Prelude.{◌≡◌, ◌↔◌, ◌++◌, List, map, IsTrue, IfOk, OnOk};
ghost use Rattle.snmp_msg.specs.Variables.{Variable, variable_of};
ghost use Rattle.snmp_walk.specs.Front.{AreKnown, AreOverAt, IsFront, IsRowOrCut};

use crate::bulk_column::BulkColumn;
use snmp_msg::Binding;
use std::alloc::{AllocError, Global};

/// Returns true if each of the columns is at its end before the repetition of this number.
fn are_over(columns: &[BulkColumn], repetition: usize) -> bool
    ensures { IsTrue result ↔ AreOverAt columns.now repetition }
{
    for column in columns {
        if !column.is_over(repetition) {
            return false;
        }
    }
    true
}

/// Adds what the columns have in the repetition of this number, up to the first one of which nothing is known. Returns
/// true if all are known.
fn push_row<'a>(
    bindings: &mut Vec<Binding<'a>>,
    columns: &'a [BulkColumn],
    repetition: usize,
) -> Result<bool, AllocError>
    ensures { IfOk result (λ is_whole. (row : List Variable)
        × (map variable_of bindings.new.items ≡ map variable_of bindings.old.items ++ row)
        × IsRowOrCut columns.now repetition is_whole row) }
{
    for column in columns {
        let Some(binding) = column.binding(repetition) else {
            return Ok(false);
        };
        bindings.push(binding)?;
    }
    Ok(true)
}

/// Adds so many repetitions: fewer, if all are endOfMibView in one, or not all is known.
fn push_repetitions<'a>(
    bindings: &mut Vec<Binding<'a>>,
    columns: &'a [BulkColumn],
    most: usize,
) -> Result<(), AllocError>
    ensures { OnOk result ((rest : List Variable)
        × (map variable_of bindings.new.items ≡ map variable_of bindings.old.items ++ rest)
        × AreKnown columns.now most 0 rest) }
{
    let mut repetition = 0;
    while repetition < most {
        if !push_row(bindings, columns, repetition)? {
            return Ok(());
        }
        if are_over(columns, repetition) {
            return Ok(());
        }
        repetition += 1;
    }
    Ok(())
}

/// Returns what the Response holds: the non-repeaters, and then the repetitions, up to one in which all are
/// endOfMibView, or to the first binding that isn't known. The error is out of memory.
pub(crate) fn front_of<'a>(
    alloc: Global,
    columns: &'a [BulkColumn],
    non_repeaters: usize,
    most: usize,
) -> Result<Vec<Binding<'a>>, AllocError>
    ensures { IfOk result (λ front. IsFront non_repeaters most columns.now (map variable_of front.items)) }
{
    let single = non_repeaters.min(columns.len());
    let mut bindings = Vec::new(alloc);
    if !push_row(&mut bindings, &columns[..single], 0)? {
        return Ok(bindings);
    }
    push_repetitions(&mut bindings, &columns[single..], most)?;
    Ok(bindings)
}
