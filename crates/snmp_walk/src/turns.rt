//! To which columns the bindings of an answer to a GetBulkRequest belong.

ghost use Rattle.std.specs.Prelude.{◌≡◌, ◌⊎◌, ◌<◌, ◌≤◌, ◌∷◌, [], length, drop, IfOk, MatchOption};
ghost use Rattle.snmp_walk.specs.Turns.{AreAsked, turns, turns_from, turns_left};

use crate::bulk_column::BulkColumn;
use std::alloc::{AllocError, Global};

/// The numbers of the columns to which the bindings of an answer belong, one after another.
#[derive(Drop)]
pub(crate) struct Turns {
    /// All columns that were asked.
    once: Vec<usize>,
    /// How many of these had their turn.
    at: usize,
    /// The repeaters that were asked, which each further repetition has.
    again: Vec<usize>,
    /// How many of these had their turn in this repetition.
    at_again: usize,
    /// How many repetitions come behind this one.
    left: usize,
}

/// Returns the numbers of the columns that were asked, from this number on.
fn numbers_asked(
    alloc: Global,
    columns: &[BulkColumn],
    from: usize,
) -> Result<Vec<usize>, AllocError>
    ensures numbers { IfOk result (λ numbers. numbers.items ≡ turns_from from (drop from columns.now)) }
    ensures asked { IfOk result (λ numbers. AreAsked columns.now numbers.items) }
{
    let mut numbers = Vec::new(alloc);
    let mut number = from;
    while number < columns.len() {
        if columns[number].is_asked() {
            numbers.push(number)?;
        }
        number += 1;
    }
    Ok(numbers)
}

impl Turns {
    /// Returns the turns of an answer with so many repetitions. The error is out of memory.
    pub(crate) fn new(
        alloc: Global,
        columns: &[BulkColumn],
        non_repeaters: usize,
        repetitions: usize,
    ) -> Result<Turns, AllocError>
        ensures left { IfOk result (λ t. turns_left t ≡ turns non_repeaters repetitions columns.now) }
        ensures asked { IfOk result (λ t. AreAsked columns.now (turns_left t)) }
    {
        let once = numbers_asked(alloc, columns, 0)?;
        let again = numbers_asked(alloc, columns, non_repeaters)?;
        Ok(Turns {
            once,
            at: 0,
            at_again: again.len(),
            again,
            left: repetitions.saturating_sub(1),
        })
    }

    /// Begins the next repetition, if this one is over.
    fn begin_again(&mut self)
        requires { length self.old.once.items ≤ self.old.at }
        ensures left { turns_left self.new ≡ turns_left self.old }
        ensures at { self.new.at ≡ self.old.at }
        ensures once { self.new.once.items ≡ self.old.once.items }
        ensures over { (self.new.at_again < length self.new.again.items) ⊎ (turns_left self.new ≡ []) }
    {
        if self.at_again < self.again.len() || self.left == 0 {
            return;
        }
        self.left -= 1;
        self.at_again = 0;
    }

    /// Returns the number of the column whose turn it is, if there is one.
    pub(crate) fn next(&mut self) -> Option<usize>
        ensures { MatchOption result (turns_left self.old ≡ [])
            (λ number. turns_left self.old ≡ number ∷ turns_left self.new) }
    {
        if self.at < self.once.len() {
            let number = self.once[self.at];
            self.at += 1;
            return Some(number);
        }
        self.begin_again();
        if self.at_again >= self.again.len() {
            return None;
        }
        let number = self.again[self.at_again];
        self.at_again += 1;
        Some(number)
    }
}
