//! What a dialogue for a GetBulkRequest takes from its device.

ghost use Rattle.std.specs.Prelude.{◌≡◌, ◌↔◌, ℕ, [], List, None, Some, IfOk, IsTrue, MatchOption};
ghost use Rattle.std.specs.Prelude.{OnErr};
ghost use Rattle.snmp_msg.specs.Variables.{Variable, variables_of};
ghost use Rattle.snmp_responder.specs.Code.{seen_by};
ghost use Rattle.snmp_walk.specs.BulkDialogue.{BulkAllStand};
ghost use Rattle.snmp_walk.specs.BulkDialogue.{bulk_requests};
ghost use Rattle.snmp_walk.specs.Answer.{IsNoError};
ghost use Rattle.snmp_walk.specs.BulkAnswered.{BulkTells, DialogueSaysSame, HasNothing, IsBulkAnswered, IsBulkAskedAt};
ghost use Rattle.snmp_walk.specs.BulkAnswered.{IsLessAnswered, is_next, repetitions_of};
ghost use Rattle.snmp_walk.specs.ObjectIds.{BulkAllNamed};

use crate::bulk_answer::read_answer;
use crate::bulk_ask::{BulkAsk, count_asked};
use crate::bulk_column::BulkColumn;
use crate::bulk_dialogue::{BulkAnswered, BulkDialogue, has_front, wait_each};
use crate::dialogue::is_no_error;
use crate::failure::{NO_SUCH_NAME, TOO_BIG};
use crate::turns::Turns;
use snmp_msg::Pdu;
use snmp_responder::Viewer;
use std::alloc::{AllocError, Global};

/// Returns the number of the column to which the error-index belongs, which counts the columns that were asked from 1.
fn column_at(columns: &[BulkColumn], answer: &Pdu<'_>) -> Option<usize>
    ensures { MatchOption result ((number : ℕ) → ¬ IsBulkAskedAt columns.now answer.now.third number)
        (IsBulkAskedAt columns.now answer.now.third) }
{
    let Ok(wanted) = usize::try_from(answer.third) else {
        return None;
    };
    let mut asked = 0;
    for (number, column) in columns.iter().enumerate() {
        if column.is_asked() {
            asked += 1;
            if asked == wanted {
                return Some(number);
            }
        }
    }
    None
}

/// Returns true if the answer has tooBig.
fn is_too_big(answer: &Pdu<'_>) -> bool
    ensures { IsTrue result ↔ (answer.now.second ≡ TOO_BIG) }
{
    answer.second == TOO_BIG
}

/// Returns the number of the column that the answer ends, whose error-index belongs to this column.
fn ended_by(answer: &Pdu<'_>, column: Option<usize>) -> Option<usize>
    ensures { MatchOption result (answer.now.second ≡ NO_SUCH_NAME → column ≡ None)
        (λ number. (answer.now.second ≡ NO_SUCH_NAME) × (column ≡ Some number)) }
{
    if answer.second == NO_SUCH_NAME {
        return column;
    }
    None
}

/// Returns true if the answer has no bindings.
fn is_empty(answer: &Pdu<'_>) -> bool
    ensures { IsTrue result ↔ (variables_of answer.now.list.now ≡ []) }
{
    answer.variable_bindings().next().is_none()
}

/// Returns true if a device is asked by a GetNextRequest.
fn is_next_asked(ask: BulkAsk) -> bool
    ensures { result ≡ is_next ask }
{
    matches!(ask, BulkAsk::GetNext)
}

/// Returns how many repetitions a device is asked for.
fn repetitions_asked(ask: BulkAsk) -> usize
    ensures { result ≡ repetitions_of ask }
{
    match ask {
        BulkAsk::GetNext => 1,
        BulkAsk::GetBulk(_, repetitions) => repetitions,
    }
}

impl BulkDialogue {
    /// Takes an answer that says that the device can't answer so much.
    fn take_too_big(&mut self) -> BulkAnswered
        ensures { IsLessAnswered self.old self.new result }
    {
        if let BulkAsk::GetBulk(_, repetitions) = self.ask {
            self.repetitions = repetitions / 2;
            wait_each(&mut self.columns);
            return BulkAnswered::Less;
        }
        let asked = count_asked(self.columns.as_slice());
        if asked > 1 {
            self.at_once = asked / 2;
            wait_each(&mut self.columns);
            return BulkAnswered::Less;
        }
        if has_front(self.columns.as_slice()) {
            return BulkAnswered::Front;
        }
        BulkAnswered::TooBig
    }

    /// Takes an answer with another error than tooBig.
    fn take_error(&mut self, answer: &Pdu<'_>) -> BulkAnswered
        requires { (¬ IsNoError answer.now) × ¬ (answer.now.second ≡ TOO_BIG) }
        ensures { (viewer : Viewer) → IsBulkAnswered (seen_by viewer) answer.now self.old self.new result }
    {
        let column = column_at(self.columns.as_slice(), answer);
        let Some(number) = ended_by(answer, column) else {
            return BulkAnswered::Failed(column);
        };
        self.columns[number].end();
        wait_each(&mut self.columns);
        BulkAnswered::Ended(number)
    }

    /// Takes an answer without an error, which has bindings.
    fn take_bindings(
        &mut self,
        alloc: Global,
        viewer: &Viewer<'_>,
        answer: &Pdu<'_>,
    ) -> Result<BulkAnswered, AllocError>
        requires { IsNoError answer.now × ¬ HasNothing self.old answer.now }
        ensures answered { IfOk result
            (λ answered. IsBulkAnswered (seen_by viewer.now) answer.now self.old self.new answered) }
        ensures err { OnErr result (DialogueSaysSame self.old self.new) }
    {
        let repetitions = repetitions_asked(self.ask);
        let turns = Turns::new(alloc, &self.columns, self.non_repeaters, repetitions)?;
        let is_whole = is_next_asked(self.ask);
        match read_answer(&mut self.columns, alloc, viewer, answer, turns, is_whole)? {
            Some(fault) => Ok(BulkAnswered::Unfit(fault)),
            None => Ok(BulkAnswered::Taken),
        }
    }

    /// Takes the device's answer. If its bindings don't answer what was asked, or it has an error, that is returned and
    /// nothing changes, but that a device that can't answer so much is to be asked for less, and that noSuchName ends a
    /// column. The error is out of memory, and nothing changes.
    ///
    /// It takes memory for the variables that the message may see, and for a number of each column.
    pub fn take(
        &mut self,
        alloc: Global,
        viewer: &Viewer<'_>,
        answer: &Pdu<'_>,
    ) -> Result<BulkAnswered, AllocError>
        ensures answered { IfOk result
            (λ answered. IsBulkAnswered (seen_by viewer.now) answer.now self.old self.new answered) }
        ensures err { OnErr result (DialogueSaysSame self.old self.new) }
        ensures requests { bulk_requests self.new ≡ bulk_requests self.old }
        ensures stand { (told : List Variable) → BulkAllStand (seen_by viewer.now) told self.old
            → IfOk result (λ answered. BulkTells self.old answer.now answered told
            → BulkAllStand (seen_by viewer.now) told self.new) }
        ensures named { BulkAllNamed self.old → BulkAllNamed self.new }
    {
        if is_too_big(answer) {
            return Ok(self.take_too_big());
        }
        if !is_no_error(answer) {
            return Ok(self.take_error(answer));
        }
        if !is_next_asked(self.ask) && is_empty(answer) {
            return Ok(self.take_too_big());
        }
        self.take_bindings(alloc, viewer, answer)
    }
}
