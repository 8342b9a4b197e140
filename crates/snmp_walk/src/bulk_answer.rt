//! Answers of the device to a GetBulkRequest.

ghost use Rattle.std.specs.Prelude.{◌≡◌, [], ℕ, List, All, true, false, IfOk, MatchOption, OnErr, OnOk};
ghost use Rattle.std.specs.List.{AllZip};
ghost use Rattle.snmp_msg.specs.Variables.{variables_of};
ghost use Rattle.snmp_responder.specs.Code.{seen_by};
ghost use Rattle.snmp_walk.specs.BulkAnswer.{AllSaySame, IsBulkFault, IsRead, IsReadFault, ReadSoFar};
ghost use Rattle.snmp_walk.specs.BulkSteps.{Grows, IsBegun, IsForgotten, IsMarked, IsSettled, IsUnread};
ghost use Rattle.snmp_walk.specs.Turns.{AreAsked, AreTurns, turns_left};

use crate::answer::AnswerFault;
use crate::bulk_column::BulkColumn;
use crate::turns::Turns;
use snmp_msg::Pdu;
use snmp_responder::Viewer;
use std::alloc::{AllocError, Global};

/// Notes how many variables each column has before an answer is read.
fn mark_each(columns: &mut Vec<BulkColumn>)
    ensures { AllZip IsMarked columns.old.items columns.new.items }
{
    for column in columns.iter_mut() {
        column.mark();
    }
}

/// Begins to read an answer. The error is out of memory.
fn begin_each(columns: &mut Vec<BulkColumn>, alloc: Global) -> Result<(), AllocError>
    requires { All IsUnread columns.old.items }
    ensures grows { AllZip Grows columns.old.items columns.new.items }
    ensures begun { OnOk result (AllZip IsBegun columns.old.items columns.new.items) }
{
    for column in columns.iter_mut() {
        column.begin(alloc)?;
    }
    Ok(())
}

/// Settles what was read of an answer.
fn settle_each(columns: &mut Vec<BulkColumn>)
    ensures { AllZip IsSettled columns.old.items columns.new.items }
{
    for column in columns.iter_mut() {
        column.settle();
    }
}

/// Forgets what was read of an answer.
fn forget_each(columns: &mut Vec<BulkColumn>)
    ensures { AllZip IsForgotten columns.old.items columns.new.items }
{
    for column in columns.iter_mut() {
        column.forget();
    }
}

/// Reads each binding of an answer for the column whose turn it is.
fn read_each(
    columns: &mut Vec<BulkColumn>,
    alloc: Global,
    viewer: &Viewer<'_>,
    answer: &Pdu<'_>,
    turns: &mut Turns,
) -> Result<Option<AnswerFault>, AllocError>
    requires { AreTurns columns.old.items (turns_left turns.old) }
    ensures grows { AllZip Grows columns.old.items columns.new.items }
    ensures reads { IfOk result (λ found. MatchOption found
        (ReadSoFar (seen_by viewer.now) columns.old.items (turns_left turns.old)
        (variables_of answer.now.list.now) (turns_left turns.new) columns.new.items)
        (IsReadFault (seen_by viewer.now) false columns.old.items (turns_left turns.old)
        (variables_of answer.now.list.now))) }
{
    let mut place: usize = 0;
    for binding in answer.variable_bindings() {
        let Some(number) = turns.next() else {
            return Ok(Some(AnswerFault::TooMany));
        };
        if let Some(misfit) = columns[number].read(alloc, viewer, &binding)? {
            return Ok(Some(AnswerFault::AtBinding(place, misfit)));
        }
        place = place.saturating_add(1);
    }
    Ok(None)
}

/// Reads an answer in these turns, and returns why its bindings don't answer what was asked, if they don't.
fn read_turns(
    columns: &mut Vec<BulkColumn>,
    alloc: Global,
    viewer: &Viewer<'_>,
    answer: &Pdu<'_>,
    turns: Turns,
    is_whole: bool,
) -> Result<Option<AnswerFault>, AllocError>
    requires { AreTurns columns.old.items (turns_left turns) }
    ensures grows { AllZip Grows columns.old.items columns.new.items }
    ensures reads { IfOk result (λ found. MatchOption found
        ((left : List ℕ) × (is_whole ≡ true → left ≡ [])
        × ReadSoFar (seen_by viewer.now) columns.old.items (turns_left turns) (variables_of answer.now.list.now)
        left columns.new.items)
        (IsReadFault (seen_by viewer.now) is_whole columns.old.items (turns_left turns)
        (variables_of answer.now.list.now))) }
{
    let mut turns = turns;
    if let Some(fault) = read_each(columns, alloc, viewer, answer, &mut turns)? {
        return Ok(Some(fault));
    }
    if !is_whole {
        return Ok(None);
    }
    match turns.next() {
        Some(_) => Ok(Some(AnswerFault::TooFew)),
        None => Ok(None),
    }
}

/// Reads an answer in these turns, of which nothing was read before, and returns why its bindings don't answer what was
/// asked, if they don't.
fn read_marked(
    columns: &mut Vec<BulkColumn>,
    alloc: Global,
    viewer: &Viewer<'_>,
    answer: &Pdu<'_>,
    turns: Turns,
    is_whole: bool,
) -> Result<Option<AnswerFault>, AllocError>
    requires unread { All IsUnread columns.old.items }
    requires asked { AreAsked columns.old.items (turns_left turns) }
    ensures grows { AllZip Grows columns.old.items columns.new.items }
    ensures reads { IfOk result (λ found. (begun : List BulkColumn) × AllZip IsBegun columns.old.items begun
        × MatchOption found
        ((left : List ℕ) × (is_whole ≡ true → left ≡ [])
        × ReadSoFar (seen_by viewer.now) begun (turns_left turns) (variables_of answer.now.list.now)
        left columns.new.items)
        (IsReadFault (seen_by viewer.now) is_whole begun (turns_left turns) (variables_of answer.now.list.now))) }
{
    begin_each(columns, alloc)?;
    let fault = read_turns(columns, alloc, viewer, answer, turns, is_whole)?;
    Ok(fault)
}

/// Reads an answer in these turns. Its bindings answer what was asked, and each column has its own; or it is returned
/// why they don't, and nothing changes. `is_whole`: none of the bindings may be missing. The error is out of memory,
/// and nothing changes.
pub(crate) fn read_answer(
    columns: &mut Vec<BulkColumn>,
    alloc: Global,
    viewer: &Viewer<'_>,
    answer: &Pdu<'_>,
    turns: Turns,
    is_whole: bool,
) -> Result<Option<AnswerFault>, AllocError>
    requires { AreAsked columns.old.items (turns_left turns) }
    ensures reads { IfOk result (λ found. MatchOption found
        (IsRead (seen_by viewer.now) is_whole columns.old.items (turns_left turns)
        (variables_of answer.now.list.now) columns.new.items)
        (λ fault. AllSaySame columns.old.items columns.new.items
        × IsBulkFault (seen_by viewer.now) is_whole columns.old.items (turns_left turns)
        (variables_of answer.now.list.now) fault)) }
    ensures err { OnErr result (AllSaySame columns.old.items columns.new.items) }
{
    mark_each(columns);
    match read_marked(columns, alloc, viewer, answer, turns, is_whole) {
        Ok(None) => {
            settle_each(columns);
            Ok(None)
        }
        Ok(Some(fault)) => {
            forget_each(columns);
            Ok(Some(fault))
        }
        Err(refused) => {
            forget_each(columns);
            Err(refused)
        }
    }
}
