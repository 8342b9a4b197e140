//! What becomes of a request.

ghost use Rattle.std.specs.Prelude.{◌≡◌};
ghost use Rattle.snmp_gate.specs.Told.{end_told};

use crate::named_task::NamedTask;
use crate::set_answer::ResponseStatus;
use crate::timer::Timer;
use crate::whole_dialogue::WholeDialogue;
use snmp_agent::Unhandled;
use snmp_walk::BulkDialogue;

/// How a request ends.
#[derive(Drop)]
pub enum RequestEnd {
    /// A Response without an error, with a binding of each column.
    Columns(WholeDialogue),
    /// A Response without an error, with the front of what a GetBulkRequest asks for.
    Front(BulkDialogue),
    /// A Response with this status, and the request's own bindings; with tooBig it has none.
    Own(ResponseStatus),
    /// The same for a Set whose datagram came before, and was told this then.
    Repeated(ResponseStatus),
    /// The same with genErr, since its device was asked as often as it may be for one request, and not all is known.
    RoundsUsedUp(ResponseStatus),
    /// The request isn't answered, and a report may tell why.
    Unhandled(Unhandled),
    /// Nothing is sent.
    Silent,
}

/// How a request ended of which a message is answered, or isn't.
#[derive(Clone, Copy, Debug, PartialEq, Eq)]
pub enum EndedBy {
    /// By what its device answered, or by an error of the gateway's own.
    Answer,
    /// By what its datagram was told before: it is a Set that came again.
    Repeated,
    /// By genErr, since its device was asked as often as it may be for one request.
    RoundsUsedUp,
    /// No application answers it, for this cause; or it was given up, and its context is unavailable.
    Unhandled(Unhandled),
    /// It was given up, and nothing is said of it.
    Silence,
}

/// Returns how a request ended.
pub(crate) fn ended_by(ending: &RequestEnd) -> EndedBy
    ensures { result ≡ end_told ending.now }
{
    match ending {
        RequestEnd::Columns(_) | RequestEnd::Front(_) | RequestEnd::Own(_) => EndedBy::Answer,
        RequestEnd::Repeated(_) => EndedBy::Repeated,
        RequestEnd::RoundsUsedUp(_) => EndedBy::RoundsUsedUp,
        RequestEnd::Unhandled(why) => EndedBy::Unhandled(*why),
        RequestEnd::Silent => EndedBy::Silence,
    }
}

/// A request whose device is to be asked, or to answer.
#[derive(Drop)]
pub struct OpenRequest {
    /// The number of the device, counted from 0.
    pub device: usize,
    pub timer: Timer,
    /// The request-id with which the device is asked now.
    pub asked: Option<u32>,
    pub task: NamedTask,
}

/// What becomes of a request.
#[derive(Drop)]
pub enum Work {
    /// Its device is to be asked, or to answer.
    Open(OpenRequest),
    /// Its messages can be answered.
    Ends(RequestEnd),
}

/// What is to be done for a request now.
#[derive(Clone, Copy, Debug, PartialEq, Eq)]
pub enum Todo {
    /// Its first message is to be answered.
    Answer,
    /// Its device is to be asked, with a new request-id.
    Ask,
    /// Its device is to be asked the same again, with the request-id that it was asked with.
    AskAgain,
    /// It is to be given up.
    GiveUp,
}
