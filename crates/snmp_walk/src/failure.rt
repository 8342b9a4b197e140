//! Errors of the device.

ghost use Rattle.std.specs.Prelude.{◌≡◌, ◌↔◌, ◌<◌, ℕ, length, IfSome, IsTrue, MatchOption};
ghost use Rattle.snmp_walk.specs.Failure.{EndsWalk, IsAskedAt, IsFailure, IsFailureStatus};

use crate::column::Column;
use crate::operation::ReadOperation;
use snmp_msg::Pdu;

/// The number of tooBig (RFC 3416, section 3).
pub(crate) const TOO_BIG: i32 = 1;

/// The number of noSuchName (RFC 3416, section 3).
pub const NO_SUCH_NAME: i32 = 2;

/// What an error of the device becomes.
#[derive(Clone, Copy, Debug, PartialEq, Eq)]
pub enum FailureStatus {
    /// tooBig: so the Response has it, with no bindings.
    TooBig,
    /// noSuchName of a binding that was asked: so the Response to a GetRequest has it, and a walk is at its end.
    NoSuchName,
    /// Any other error: the Response has genErr.
    GenErr,
}

/// An error of the device.
#[derive(Clone, Copy, Debug, PartialEq, Eq)]
pub struct Failure {
    /// What it becomes.
    pub status: FailureStatus,
    /// The number of the column to which the error-index belongs, counted from 0. None: the error-index is of no
    /// binding that was asked.
    pub column: Option<usize>,
}

/// Returns what an error-status becomes that belongs to this column.
fn status_of(status: i32, column: Option<usize>) -> FailureStatus
    ensures { IsFailureStatus status column result }
{
    if status == TOO_BIG {
        return FailureStatus::TooBig;
    }
    if status == NO_SUCH_NAME && column.is_some() {
        return FailureStatus::NoSuchName;
    }
    FailureStatus::GenErr
}

/// Returns the number of the column to which this error-index belongs, which counts the columns that were asked from 1.
fn column_at(columns: &[Column], index: i32) -> Option<usize>
    ensures { MatchOption result ((number : ℕ) → ¬ IsAskedAt columns.now index number)
        (IsAskedAt columns.now index) }
{
    let Ok(wanted) = usize::try_from(index) else {
        return None;
    };
    let mut asked = 0;
    for (number, column) in columns.iter().enumerate() {
        if column.is_asked() {
            asked += 1;
            if asked == wanted {
                return Some(number);
            }
        }
    }
    None
}

/// Returns what the answer's error becomes, which isn't noError.
pub(crate) fn failure_of(columns: &[Column], answer: &Pdu<'_>) -> Failure
    ensures { IsFailure columns.now answer.now result }
{
    let column = column_at(columns, answer.third);
    Failure {
        status: status_of(answer.second, column),
        column,
    }
}

/// Returns true if it is noSuchName.
fn is_no_such_name(status: FailureStatus) -> bool
    ensures { IsTrue result ↔ (status ≡ FailureStatus.NoSuchName) }
{
    matches!(status, FailureStatus::NoSuchName)
}

/// Returns true if it is GetNext.
fn is_walk(operation: ReadOperation) -> bool
    ensures { IsTrue result ↔ (operation ≡ ReadOperation.GetNext) }
{
    matches!(operation, ReadOperation::GetNext)
}

/// Returns the number of the column whose walk the failure ends, if it ends one.
pub(crate) fn ended_walk(columns: &[Column], failure: Failure) -> Option<usize>
    requires { IfSome failure.column (λ number. number < length columns.now) }
    ensures { MatchOption result ((number : ℕ) → ¬ EndsWalk columns.now failure number)
        (EndsWalk columns.now failure) }
{
    let Some(number) = failure.column else {
        return None;
    };
    if is_no_such_name(failure.status) && is_walk(columns[number].operation()) {
        return Some(number);
    }
    None
}
