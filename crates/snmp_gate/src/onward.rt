//! How a request goes on, after it came and after each answer of its device.

ghost use Rattle.std.specs.Prelude.{◌≡◌, ◌≢◌, ◌<◌, ◌≤◌, ℕ, List, IfOk, IfSome, OnErr};
ghost use Rattle.vacm_core.specs.Tables.{Tables};
ghost use Rattle.snmp_msg.specs.Pdu.{pdu_of};
ghost use Rattle.snmp_msg.specs.Variables.{Variable};
ghost use Rattle.snmp_responder.specs.Code.{seen_by};
ghost use Rattle.snmp_walk.specs.ObjectIds.{AllNamed, BulkAllNamed};
ghost use Rattle.snmp_gate.specs.Question.{Question};
ghost use Rattle.snmp_gate.specs.Messages.{IsViewerOf};
ghost use Rattle.snmp_gate.specs.ReadAsks.{bulk_request_by, read_request};
ghost use Rattle.snmp_walk.specs.declared.bulk_ask.BulkAsk.{BulkAsk as BulkAskIs};
ghost use Rattle.snmp_gate.specs.Work.{AsksNoSet, BulkAskStands, BulkStandsFor, OnwardStands, ReadStands, SaysAll};
ghost use Rattle.snmp_gate.specs.Work.{IsAskedBy, RepeatsAtMost, TaskHas, most_repetitions};
ghost use Rattle.snmp_gate.specs.declared.set_answer.ResponseStatus.{ResponseStatus as Says};
ghost use Rattle.snmp_gate.specs.Causes.{HasResponse, IfOnwardEnds};
ghost use Rattle.snmp_gate.specs.Ends.{EndsIfSet, ErrsSo, FailsOrGoesOn, IsEndFor, IsFailing, IsStatusOfFailure};
ghost use Rattle.snmp_gate.specs.declared.task.Task.TheVariants as TaskIs;
ghost use Rattle.snmp_gate.specs.ReadErrors.{IsIndexAmong};
ghost use Rattle.snmp_gate.specs.Fits.{BulkFits, ReadFits, fault_of};
ghost use Rattle.snmp_gate.specs.Taking.{BulkSaysSame};
ghost use Rattle.snmp_gate.specs.Said.{Said};

use crate::named_task::NamedTask;
use crate::set_answer::{GEN_ERR, NO_SUCH_NAME, ResponseStatus, TOO_BIG};
use crate::task::Task;
use crate::whole_dialogue::WholeDialogue;
use crate::work::RequestEnd;
use snmp_msg::Pdu;
use snmp_responder::Viewer;
use snmp_walk::{
    AnswerFault, Answered, BulkAnswered, BulkDialogue, BulkNext, Dialogue, Failure, FailureStatus,
    Next, ReadOperation,
};
use std::alloc::{AllocError, Global};

/// The tag of endOfMibView (RFC 3416, section 3).
pub const END_OF_MIB_VIEW: u8 = 0x82;

/// How a request goes on.
#[derive(Drop)]
pub enum Onward {
    /// Its device is to be asked this.
    Asks(NamedTask),
    /// It ends so.
    Ends(RequestEnd),
}

/// What a device's answer is to a request.
#[derive(Clone, Copy, Debug, PartialEq, Eq)]
pub enum AnswerTaken {
    /// The request goes on.
    GoesOn,
    /// The Response holds the front of what a GetBulkRequest asks for.
    Front,
    /// The Response has this status.
    Ends(ResponseStatus),
    /// Its bindings don't answer what was asked. The Response has genErr.
    Unfit(AnswerFault),
}

/// Returns why an answer's bindings don't answer what was asked, if they don't.
pub(crate) fn fault_in(taken: AnswerTaken) -> Option<AnswerFault>
    ensures { result ≡ fault_of taken }
{
    match taken {
        AnswerTaken::Unfit(fault) => Some(fault),
        AnswerTaken::GoesOn | AnswerTaken::Front | AnswerTaken::Ends(_) => None,
    }
}

/// Returns the error-index of a column, which counts from 1, or 0 for none.
fn index_of(column: Option<usize>) -> i32
    ensures { (bindings : ℕ) → IfSome column (λ number. number < bindings) → IsIndexAmong result bindings }
{
    let Some(number) = column else {
        return 0;
    };
    let Ok(index) = i32::try_from(number) else {
        return 0;
    };
    index.saturating_add(1)
}

/// Returns genErr, with the index of this column.
pub(crate) fn gen_err(column: Option<usize>) -> ResponseStatus
    ensures status { result.status ≡ GEN_ERR }
    ensures index { (bindings : ℕ) → IfSome column (λ number. number < bindings)
        → IsIndexAmong result.index bindings }
{
    ResponseStatus {
        status: GEN_ERR,
        index: index_of(column),
    }
}

/// Returns what a Response says of an error of the device.
fn status_of(failure: Failure) -> ResponseStatus
    ensures fails { IsFailing result }
    ensures is { (bindings : ℕ) → IfSome failure.column (λ number. number < bindings)
        → IsStatusOfFailure failure.status bindings result }
{
    match failure.status {
        FailureStatus::TooBig => ResponseStatus {
            status: TOO_BIG,
            index: 0,
        },
        FailureStatus::NoSuchName => ResponseStatus {
            status: NO_SUCH_NAME,
            index: index_of(failure.column),
        },
        FailureStatus::GenErr => gen_err(failure.column),
    }
}

/// Returns how a GetRequest or a GetNextRequest goes on.
pub(crate) fn read_on(
    operation: ReadOperation,
    mut dialogue: Dialogue,
    viewer: &Viewer<'_>,
) -> Onward
    requires { AllNamed dialogue }
    ensures stands { (tables : Tables) (q : Question) (told : Said) → IsViewerOf tables q viewer.now
        → ReadStands tables q told operation dialogue → OnwardStands tables q told result }
    ensures no_set { AsksNoSet result }
    ensures repeats { (most : ℕ) → RepeatsAtMost most result }
    ensures responds { IfOnwardEnds HasResponse result }
{
    match dialogue.go_on(viewer) {
        Next::Asks => Onward::Asks(NamedTask {
            task: Task::Read(operation, dialogue),
        }),
        Next::Ends => Onward::Ends(RequestEnd::Columns(WholeDialogue { dialogue })),
        Next::RoundsUsedUp(number) => Onward::Ends(RequestEnd::RoundsUsedUp(gen_err(Some(number)))),
    }
}

/// Returns how a GetBulkRequest goes on.
pub(crate) fn bulk_on(mut dialogue: BulkDialogue, viewer: &Viewer<'_>) -> Onward
    requires { BulkAllNamed dialogue }
    ensures stands { (tables : Tables) (q : Question) (told : Said) → IsViewerOf tables q viewer.now
        → BulkStandsFor tables q told dialogue → OnwardStands tables q told result }
    ensures no_set { AsksNoSet result }
    ensures repeats { RepeatsAtMost dialogue.repetitions result }
    ensures responds { IfOnwardEnds HasResponse result }
{
    match dialogue.go_on(viewer) {
        BulkNext::Asks(by) => Onward::Asks(NamedTask {
            task: Task::Bulk(by, dialogue),
        }),
        BulkNext::Ends => Onward::Ends(RequestEnd::Front(dialogue)),
        BulkNext::RoundsUsedUp(number) => Onward::Ends(RequestEnd::RoundsUsedUp(gen_err(Some(
            number,
        )))),
    }
}

/// Takes the answer to a GetRequest or a GetNextRequest. The error is out of memory, and nothing changes.
pub(crate) fn take_read(
    alloc: Global,
    dialogue: &mut Dialogue,
    viewer: &Viewer<'_>,
    answer: &Pdu<'_>,
) -> Result<AnswerTaken, AllocError>
    ensures named { AllNamed dialogue.old → AllNamed dialogue.new }
    ensures stands { IfOk result (λ _. (tables : Tables) (q : Question) (told : Said)
        → (operation : ReadOperation) → IsViewerOf tables q viewer.now
        → SaysAll (read_request operation dialogue.old) answer.now told
        → ReadStands tables q told operation dialogue.old → ReadStands tables q told operation dialogue.new) }
    ensures fails { IfOk result FailsOrGoesOn }
    ensures errs { IfOk result (λ taken. (tables : Tables) (q : Question) (told : Said) (operation : ReadOperation)
        → SaysAll (read_request operation dialogue.old) answer.now told
        → ReadStands tables q told operation dialogue.old → ErrsSo tables q told taken) }
    ensures fits { IfOk result (λ taken. ReadFits dialogue.old (pdu_of answer.now) (fault_of taken)) }
    ensures err { OnErr result (dialogue.new ≡ dialogue.old) }
{
    match dialogue.take(alloc, viewer, answer)? {
        Answered::Taken | Answered::Ended(_) => Ok(AnswerTaken::GoesOn),
        Answered::Unfit(fault) => Ok(AnswerTaken::Unfit(fault)),
        Answered::Failed(failure) => Ok(AnswerTaken::Ends(status_of(failure))),
    }
}

/// Takes the answer to a request for a GetBulkRequest. The error is out of memory, and nothing changes.
pub(crate) fn take_bulk(
    alloc: Global,
    dialogue: &mut BulkDialogue,
    viewer: &Viewer<'_>,
    answer: &Pdu<'_>,
) -> Result<AnswerTaken, AllocError>
    ensures named { BulkAllNamed dialogue.old → BulkAllNamed dialogue.new }
    ensures stands { IfOk result (λ _. (tables : Tables) (q : Question) (told : Said) (by : BulkAskIs)
        → IsViewerOf tables q viewer.now
        → SaysAll (bulk_request_by by dialogue.old) answer.now told
        → BulkAskStands tables q told by dialogue.old → BulkStandsFor tables q told dialogue.new) }
    ensures fails { IfOk result FailsOrGoesOn }
    ensures errs { IfOk result (λ taken. (tables : Tables) (q : Question) (told : Said)
        → BulkStandsFor tables q told dialogue.old → ErrsSo tables q told taken) }
    ensures repeats { IfOk result (λ _. (by : BulkAskIs) → IsAskedBy dialogue.old by
        → dialogue.new.repetitions ≤ dialogue.old.repetitions) }
    ensures fits { IfOk result (λ taken.
        BulkFits (seen_by viewer.now) dialogue.old (pdu_of answer.now) (fault_of taken)) }
    ensures err { OnErr result (BulkSaysSame dialogue.old dialogue.new) }
{
    match dialogue.take(alloc, viewer, answer)? {
        BulkAnswered::Taken | BulkAnswered::Less | BulkAnswered::Ended(_) => {
            Ok(AnswerTaken::GoesOn)
        }
        BulkAnswered::Front => Ok(AnswerTaken::Front),
        BulkAnswered::Unfit(fault) => Ok(AnswerTaken::Unfit(fault)),
        BulkAnswered::TooBig => Ok(AnswerTaken::Ends(ResponseStatus {
            status: TOO_BIG,
            index: 0,
        })),
        BulkAnswered::Failed(column) => Ok(AnswerTaken::Ends(gen_err(column))),
    }
}

/// Returns how a request goes on after its device's answer, which isn't the end of it. A GetBulkRequest that is `late`
/// ends with its front if that has a whole repetition.
fn after_task(named: NamedTask, is_front: bool, viewer: &Viewer<'_>, late: bool) -> Onward
    ensures stands { (tables : Tables) (q : Question) (told : Said) → IsViewerOf tables q viewer.now
        → TaskHas tables q told named.task → OnwardStands tables q told result }
    ensures no_set { AsksNoSet result }
    ensures responds { named.task ≢ TaskIs.Set → IfOnwardEnds HasResponse result }
    ensures repeats { RepeatsAtMost (most_repetitions named.task) result }
{
    let NamedTask { task } = named;
    match task {
        Task::Read(operation, dialogue) => read_on(operation, dialogue, viewer),
        Task::Bulk(_, dialogue) => {
            if is_front || (late && dialogue.has_repetition()) {
                return Onward::Ends(RequestEnd::Front(dialogue));
            }
            bulk_on(dialogue, viewer)
        }
        Task::Set => Onward::Ends(RequestEnd::Silent),
    }
}

/// Returns how a request goes on after its device's answer.
pub(crate) fn after(named: NamedTask, taken: AnswerTaken, viewer: &Viewer<'_>, late: bool) -> Onward
    ensures stands { (tables : Tables) (q : Question) (told : Said) → IsViewerOf tables q viewer.now
        → IsEndFor tables q told taken
        → TaskHas tables q told named.task → OnwardStands tables q told result }
    ensures no_set { AsksNoSet result }
    ensures responds { EndsIfSet named.task taken → IfOnwardEnds HasResponse result }
    ensures repeats { RepeatsAtMost (most_repetitions named.task) result }
    ensures ends { (says : Says) → taken ≡ AnswerTaken.Ends says → result ≡ Onward.Ends (RequestEnd.Own says) }
{
    match taken {
        AnswerTaken::Ends(status) => Onward::Ends(RequestEnd::Own(status)),
        AnswerTaken::Unfit(_) => Onward::Ends(RequestEnd::Own(gen_err(None))),
        AnswerTaken::Front => after_task(named, true, viewer, late),
        AnswerTaken::GoesOn => after_task(named, false, viewer, late),
    }
}
