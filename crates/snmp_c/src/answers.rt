//! What a manager's calls on the answers to its requests do, without pointers.

ghost use Rattle.std.specs.Prelude.{◌≡◌};
ghost use Rattle.snmp_c.specs.ManagerCalls.{Answered, TookAnswer, ToldReport, FoundAnswer};
ghost use Rattle.snmp_c.specs.ManagerCalls.{tells_answer, tells_value, tells_report, tells_heard, tells_answered};

use crate::manager_asked::ManagerSaid;
use snmp_handles::ManagerHandle;
use snmp_manager::{Answer, Report};
use snmp_requests::{AnsweredRequest, Heard};

/// The Response to a request.
const RESPONSE: u32 = 0;
/// Neither its Response nor a Report on it.
const OTHER: u32 = 1;
/// A Report on it.
const REPORT: u32 = 2;

/// Tells what a message is to the request.
fn tell_answer(answer: Answer, said: &mut ManagerSaid)
    ensures { said.new ≡ tells_answer said.old answer }
{
    (said.kind, said.counter) = match answer {
        Answer::Response => (RESPONSE, 0),
        Answer::NotForIt => (OTHER, 0),
        Answer::Report(counter) => (REPORT, u32::from(counter)),
    };
}

/// Tells what the message that is kept is to the request.
#[inline(never)]
pub(crate) fn answer(handle: &mut ManagerHandle, said: &mut ManagerSaid) -> i32
    ensures { Answered said.old said.new handle.old handle.new result }
{
    match handle.answer() {
        Ok(answer) => {
            tell_answer(answer, said);
            0
        }
        Err(fault) => fault.code(),
    }
}

/// Tells the same; its Response isn't waited for any more.
#[inline(never)]
pub(crate) fn take_answer(handle: &mut ManagerHandle, said: &mut ManagerSaid) -> i32
    ensures { TookAnswer said.old said.new handle.old handle.new result }
{
    match handle.take_answer() {
        Ok(answer) => {
            tell_answer(answer, said);
            0
        }
        Err(fault) => fault.code(),
    }
}

/// Tells the value of a counter, where there is one.
fn tell_value(value: Option<u32>, said: &mut ManagerSaid)
    ensures { said.new ≡ tells_value said.old value }
{
    match value {
        Some(value) => {
            said.value = value;
            said.has_value = true;
        }
        None => {
            said.value = 0;
            said.has_value = false;
        }
    }
}

/// Tells what a Report tells, or that the message is none.
fn tell_report(told: Option<Report>, said: &mut ManagerSaid)
    ensures { said.new ≡ tells_report said.old told }
{
    match told {
        Some(report) => {
            said.is_report = true;
            said.counter = u32::from(report.counter);
            said.authentic = report.authenticated;
            tell_value(report.value, said);
        }
        None => said.is_report = false,
    }
}

/// Tells whether the message that is kept is a Report on the request, and what that tells.
#[inline(never)]
pub(crate) fn report(handle: &mut ManagerHandle, said: &mut ManagerSaid) -> i32
    ensures { ToldReport said.old said.new handle.old handle.new result }
{
    match handle.report() {
        Ok(told) => {
            tell_report(told, said);
            0
        }
        Err(fault) => fault.code(),
    }
}

/// Tells what a message is to one of many requests.
fn tell_heard(heard: Heard, said: &mut ManagerSaid)
    ensures { said.new ≡ tells_heard said.old heard }
{
    match heard {
        Heard::Response => {
            said.kind = RESPONSE;
            said.counter = 0;
            said.authentic = false;
        }
        Heard::Report { counter, authentic } => {
            said.kind = REPORT;
            said.counter = u32::from(counter);
            said.authentic = authentic;
        }
    }
}

/// Tells which of many requests a message answers, and what it is to it.
fn tell_answered(told: Option<AnsweredRequest>, said: &mut ManagerSaid)
    ensures { said.new ≡ tells_answered said.old told }
{
    match told {
        Some(told) => {
            said.token = told.token;
            tell_heard(told.heard, said);
        }
        None => {
            said.kind = OTHER;
            said.counter = 0;
            said.authentic = false;
        }
    }
}

/// Tells which of many requests the message that is kept answers.
#[inline(never)]
pub(crate) fn find_answer(handle: &mut ManagerHandle, said: &mut ManagerSaid) -> i32
    ensures { FoundAnswer said.old said.new handle.old handle.new result }
{
    match handle.find_answer() {
        Ok(told) => {
            tell_answered(told, said);
            0
        }
        Err(fault) => fault.code(),
    }
}
