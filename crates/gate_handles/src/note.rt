//! What a call on a gateway was about, and what it tells besides its event.

ghost use Rattle.std.specs.Prelude.{◌≡◌};
ghost use Rattle.gate_handles.specs.Notes.{binding_number, fault_numbers, misfit_number, natural, note_to, tag_number};
ghost use Rattle.gate_handles.specs.Notes.{ended_number, tells_note, unhandled_number};

use snmp_agent::Unhandled;
use snmp_gate::{EndedBy, ResponseStatus};
use snmp_walk::{AnswerFault, Misfit};

/// What the last call on a gateway was about, and what it told besides its event. What it didn't tell is 0.
#[repr(C)]
#[derive(Clone, Copy)]
pub struct GateInfo {
    /// The number of the request that the last call was about, if it was about one.
    pub request: u64,
    /// The number of the device that it was about, counted from 0.
    pub device: usize,
    /// How many requests wait.
    pub waiting: usize,
    /// How many bindings of a device's answer the request's message may not see.
    pub hidden: usize,
    /// The number of the first binding of a device's answer that doesn't answer what it was asked, counted from 1.
    pub binding: u64,
    /// Why a device's answer doesn't answer what it was asked: 1 it has too few bindings, 2 too many, 3 one of another
    /// name, 4 one of a name that isn't after the one asked, 5 one without a value, 6 one with a value behind
    /// endOfMibView.
    pub misfit: u32,
    /// error-status of a Response that goes to a client, or of a device's answer (RFC 3416, section 3). One below 0 is
    /// 4294967295.
    pub status: u32,
    /// error-index of the same.
    pub index: u32,
    /// The tag of the PDU by which a client's message that waits asks.
    pub pdu: u32,
    /// How the request ended of which a message is answered, or isn't: 1 by an answer, 2 by what was answered before, 3
    /// since its device was asked as often as it may be, 4 no application answers it, 5 it was given up in silence.
    pub ended: u32,
    /// The counter of a request that no application answers: 7 snmpUnknownPDUHandlers, 8 snmpUnavailableContexts, 9
    /// snmpUnknownContexts; or 1, of a PDU that no answer is for.
    pub unhandled: u32,
    /// Whether a Report goes to a client.
    pub is_report: bool,
    /// Whether the device is asked the same again, since it didn't answer.
    pub again: bool,
    /// How often a device was asked the same that didn't answer.
    pub times: u32,
}

/// What the last call on a gateway tells besides its event.
#[derive(Clone, Copy)]
pub(crate) enum GateNote {
    Nothing,
    /// The request for which a client's message waits, by the tag of its PDU.
    Request(Option<u8>),
    /// The datagram to the client is a Response with this error-status and error-index, to a request that ended so.
    Response(ResponseStatus, EndedBy),
    /// The datagram to the client is a Report on a request that ended so.
    Report(EndedBy),
    /// A message isn't answered, of a request that ended so.
    Unanswered(EndedBy),
    /// Whether the device is asked the same again.
    Asked(bool),
    /// A device was given up that was asked the same so often.
    GivenUp(u32),
    /// A device's answer: its error-status and error-index, why its bindings don't answer what it was asked, if they
    /// don't, and how many of them are hidden.
    Answer(ResponseStatus, Option<AnswerFault>, usize),
}

impl GateNote {
    /// Returns what a datagram to a client is: a Response with this error-status and error-index, or a Report.
    pub(crate) fn to_client(says: Option<ResponseStatus>, ended: EndedBy) -> GateNote
        ensures { result ≡ note_to says ended }
    {
        match says {
            Some(says) => GateNote::Response(says, ended),
            None => GateNote::Report(ended),
        }
    }

    /// Returns what is reported of a call that was about this, with what it told.
    pub(crate) fn info(self, about: GateInfo) -> GateInfo
        ensures { result ≡ tells_note about self }
    {
        match self {
            GateNote::Nothing => about,
            GateNote::Request(tag) => GateInfo {
                pdu: tag_number(tag),
                ..about
            },
            GateNote::Response(says, ended) => GateInfo {
                status: natural(says.status),
                index: natural(says.index),
                ended: ended_number(ended),
                unhandled: unhandled_number(ended),
                ..about
            },
            GateNote::Report(ended) => GateInfo {
                is_report: true,
                ended: ended_number(ended),
                unhandled: unhandled_number(ended),
                ..about
            },
            GateNote::Unanswered(ended) => GateInfo {
                ended: ended_number(ended),
                unhandled: unhandled_number(ended),
                ..about
            },
            GateNote::Asked(again) => GateInfo { again, ..about },
            GateNote::GivenUp(times) => GateInfo { times, ..about },
            GateNote::Answer(says, fault, hidden) => {
                let (status, index) = (natural(says.status), natural(says.index));
                let (misfit, binding) = fault_numbers(fault);
                GateInfo {
                    status,
                    index,
                    misfit,
                    binding,
                    hidden,
                    ..about
                }
            }
        }
    }
}

/// Returns the number of how a request ended.
fn ended_number(ended: EndedBy) -> u32
    ensures { result ≡ ended_number ended }
{
    match ended {
        EndedBy::Answer => 1,
        EndedBy::Repeated => 2,
        EndedBy::RoundsUsedUp => 3,
        EndedBy::Unhandled(_) => 4,
        EndedBy::Silence => 5,
    }
}

/// Returns the number of why no application answers a request, or 0 if it ended otherwise.
fn unhandled_number(ended: EndedBy) -> u32
    ensures { result ≡ unhandled_number ended }
{
    match ended {
        EndedBy::Unhandled(Unhandled::NoRequest) => 1,
        EndedBy::Unhandled(Unhandled::UnknownPduHandlers) => 7,
        EndedBy::Unhandled(Unhandled::UnavailableContexts) => 8,
        EndedBy::Unhandled(Unhandled::UnknownContexts) => 9,
        EndedBy::Answer | EndedBy::Repeated | EndedBy::RoundsUsedUp | EndedBy::Silence => 0,
    }
}

/// Returns the tag of a PDU, or 0 if there is none.
fn tag_number(tag: Option<u8>) -> u32
    ensures { result ≡ tag_number tag }
{
    match tag {
        Some(tag) => u32::from(tag),
        None => 0,
    }
}

/// Returns the number, or 4294967295 if it is below 0.
fn natural(number: i32) -> u32
    ensures { result ≡ natural number }
{
    let Ok(natural) = u32::try_from(number) else {
        return u32::MAX;
    };
    natural
}

/// Returns the number of a binding that counts from 0, counted from 1.
fn binding_number(place: usize) -> u64
    ensures { result ≡ binding_number place }
{
    (place as u64).saturating_add(1)
}

/// Returns the number of what is wrong with a binding.
fn misfit_number(misfit: Misfit) -> u32
    ensures { result ≡ misfit_number misfit }
{
    match misfit {
        Misfit::OtherName => 3,
        Misfit::NotAfter => 4,
        Misfit::NotValue => 5,
        Misfit::AfterEnd => 6,
    }
}

/// Returns the number of what doesn't fit, and that of the binding. If all fits, both are 0.
fn fault_numbers(fault: Option<AnswerFault>) -> (u32, u64)
    ensures { result ≡ fault_numbers fault }
{
    match fault {
        None => (0, 0),
        Some(AnswerFault::TooFew) => (1, 0),
        Some(AnswerFault::TooMany) => (2, 0),
        Some(AnswerFault::AtBinding(place, misfit)) => {
            (misfit_number(misfit), binding_number(place))
        }
    }
}
