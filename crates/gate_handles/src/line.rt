//! What the last call on a gateway says as a line of a log. No definition has the words: lines are for people.

ghost use Rattle.gate_handles.specs.Lines.{CopiesLine};

use crate::handle::{GateHandle, NO_MEMORY};
use crate::last::Last;
use crate::line_words::{
    asked_words, context_words, counter_name, fault_words, in_context, named_user, octet_words,
    refusal_name, status_words,
};
use snmp_gate::{EndedBy, ResponseStatus, WaitingMessage};
use snmp_handles::{CallFault, copied_message};
use snmp_msg::{PduType, Refusal};
use snmp_walk::AnswerFault;
use std::alloc::{AllocError, Global};

/// The kinds of lines, as bits of `GateHandle::lines`.
const REFUSED: u32 = 1;

const UNHANDLED: u32 = 2;

const SET: u32 = 4;

const GIVEN_UP: u32 = 8;

const DEVICE: u32 = 16;

const STATUS: u32 = 32;

const DROPPED: u32 = 64;

const UNANSWERED: u32 = 128;

const MISFIT: u32 = 256;

const ROUNDS: u32 = 512;

/// error-status noAccess and authorizationError, by which a device refuses a community.
const NO_ACCESS: i32 = 6;

const AUTHORIZATION_ERROR: i32 = 16;

/// Returns the kinds of the lines of a message that is answered, or isn't.
fn end_kinds(ended: EndedBy, is_answered: bool) -> u32 {
    if counter_name(ended, is_answered).is_some() {
        return UNHANDLED;
    }
    match ended {
        EndedBy::Repeated => SET,
        EndedBy::RoundsUsedUp => ROUNDS,
        EndedBy::Answer | EndedBy::Unhandled(_) | EndedBy::Silence => 0,
    }
}

/// Returns the kinds of the lines of a device's answer that fits what was asked. By tooBig a device is asked for less,
/// which has no line.
fn answer_kinds(status: i32, is_set: bool) -> u32 {
    match status {
        NO_ACCESS | AUTHORIZATION_ERROR if is_set => SET | STATUS,
        _ if is_set => SET,
        0 | 1 => 0,
        _ => STATUS,
    }
}

/// What lines say of a request.
#[derive(Drop)]
struct RequestWords {
    /// Who asks, as "user ann from 192.0.2.9:50112".
    asker: String,
    /// What is asked.
    asked: String,
    /// In which context, as ", context other".
    context: String,
}

/// Returns what lines say of the request of a message, whose client has this address.
fn request_words(
    alloc: Global,
    message: &WaitingMessage,
    client: &str,
) -> Result<RequestWords, AllocError> {
    let taken = message.kept.taken();
    let user = octet_words(alloc, taken.user)?;
    let asked = asked_words(alloc, &taken.pdu())?;
    let context = in_context(alloc, taken.scoped().name)?;
    Ok(RequestWords {
        asker: format!(in alloc; "user {user} from {client}")?,
        asked,
        context,
    })
}

/// Returns the line of a refused datagram. A refusal by steps 7 and 8 of RFC 3414, section 3.2, is of an authentic
/// message.
fn refused_line(
    alloc: Global,
    refusal: Refusal,
    client: &str,
    datagram: &[u8],
) -> Result<String, AllocError> {
    let number = refusal.number();
    let name = refusal_name(alloc, refusal)?;
    let user = named_user(alloc, datagram)?;
    let how = match refusal {
        Refusal::NotInWindow | Refusal::DecryptionError => "authenticated",
        _ => "not authenticated",
    };
    format!(in alloc; "refused {number} {name} from {client} user {user} ({how})")
}

impl GateHandle {
    /// Returns the message that is answered, or isn't; or else the first one of the request that the last call was
    /// about.
    fn message_asked(&self) -> Option<&WaitingMessage> {
        match &self.answered {
            Some(message) => Some(message),
            None => self.gate.request_message(self.request),
        }
    }

    /// Returns true if the request that the last call was about is a Set.
    fn is_set(&self) -> bool {
        match self.message_asked() {
            Some(message) => message.kept.taken().pdu().tag == PduType::SetRequest.tag(),
            None => false,
        }
    }

    /// Returns the kinds of the lines of the last call, each by its bit: 1 refused, 2 unhandled, 4 of a Set, 8 given
    /// up, 16 of what a device sends, 32 an error-status, 64 dropped, 128 unanswered, 256 an answer that doesn't fit,
    /// 512 too many rounds. It takes no memory.
    pub fn lines(&self) -> u32 {
        match self.last {
            Last::Nothing | Last::Refused(Refusal::UnknownEngine) => 0,
            Last::Refused(_) => REFUSED,
            Last::NoRoom => DROPPED,
            Last::SetOfBefore => SET,
            Last::Answers(_, Some(_)) => MISFIT,
            Last::Answers(says, None) => answer_kinds(says.status, self.is_set()),
            Last::NotWaitedFor | Last::Unreadable => DEVICE,
            Last::GivenUp(times) if times > 0 && self.is_set() => SET,
            Last::GivenUp(_) => GIVEN_UP,
            Last::ToClient(_, ended) => end_kinds(ended, true),
            Last::Unanswered(Some(_), _) => UNANSWERED,
            Last::Unanswered(None, ended) => end_kinds(ended, false),
        }
    }

    /// Copies the line of this kind, by its bit, to the front of the buffer. The client's address is a text of the
    /// caller's, and the datagram is the one that the last call took. The errors are NothingTaken, if the last call
    /// has no such line, ShortBuffer, and out of memory.
    pub fn line(
        &self,
        kind: u32,
        client: &[u8],
        datagram: &[u8],
        out: &mut [u8],
        written: &mut usize,
    ) -> Result<(), CallFault>
        ensures { CopiesLine out.old out.new written.old written.new result }
    {
        if self.lines() & kind == 0 {
            return Err(CallFault::NothingTaken);
        }
        match self.line_text(kind, client, datagram) {
            Ok(text) => copied_message(&text, out, written),
            Err(_) => Err(NO_MEMORY),
        }
    }

    /// Returns the line of this kind.
    fn line_text(
        &self,
        kind: u32,
        client: &[u8],
        datagram: &[u8],
    ) -> Result<Option<Vec<u8>>, AllocError> {
        let alloc = self.alloc;
        let client = octet_words(alloc, client)?;
        let text = match self.message_asked() {
            _ if !self.last.is_of_request() => self.line_without(&client, datagram)?,
            Some(message) => {
                let words = request_words(alloc, message, &client)?;
                self.line_of(kind, &words, datagram)?
            }
            None => return Ok(None),
        };
        Ok(Some(text.into_bytes()))
    }

    /// Returns the device's name.
    fn device_words(&self) -> Result<String, AllocError> {
        match self.devices.get(self.device) {
            Some(device) => context_words(self.alloc, device.context.as_slice()),
            None => String::from_str(self.alloc, "?"),
        }
    }

    /// Returns the line of what is of no request.
    fn line_without(&self, client: &str, datagram: &[u8]) -> Result<String, AllocError> {
        let alloc = self.alloc;
        let user = named_user(alloc, datagram)?;
        let device = self.device_words()?;
        match self.last {
            Last::Refused(refusal) => refused_line(alloc, refusal, client, datagram),
            Last::NoRoom => format!(in alloc; "no room for a message from {client} user {user}"),
            Last::SetOfBefore => format!(in alloc;
                "a repeated Set from {client} user {user}: its outcome isn't known, and it isn't done again"
            ),
            Last::NotWaitedFor => {
                format!(in alloc; "device {device} sends an answer for which nothing waits")
            }
            _ => format!(in alloc;
                "device {device} sends a datagram that isn't a Response of SNMPv2c"
            ),
        }
    }

    /// Returns the line of this kind, of a request.
    fn line_of(
        &self,
        kind: u32,
        words: &RequestWords,
        datagram: &[u8],
    ) -> Result<String, AllocError> {
        match self.last {
            Last::Answers(_, Some(fault)) => self.misfit_line(words, fault, datagram),
            Last::Answers(says, None) => self.answer_line(kind, words, says),
            Last::GivenUp(times) => self.given_up_line(kind, words, times),
            Last::ToClient(says, ended) => self.answered_line(words, says, ended),
            Last::Unanswered(Some(why), _) => {
                let (asker, why) = (words.asker.as_str(), why.words());
                format!(in self.alloc; "a message of {asker} isn't answered: {why}")
            }
            Last::Unanswered(None, ended) => self.unhandled_line(words, ended, false),
            _ => Ok(String::new(self.alloc)),
        }
    }

    /// Returns the line of an answer that doesn't fit what was asked.
    fn misfit_line(
        &self,
        words: &RequestWords,
        fault: AnswerFault,
        datagram: &[u8],
    ) -> Result<String, AllocError> {
        let (asker, asked) = (words.asker.as_str(), words.asked.as_str());
        let device = self.device_words()?;
        let why = fault_words(self.alloc, fault, datagram)?;
        format!(in self.alloc; "device {device} answers wrongly to {asked} of {asker}: {why}")
    }

    /// Returns a line of a device's answer.
    fn answer_line(
        &self,
        kind: u32,
        words: &RequestWords,
        says: ResponseStatus,
    ) -> Result<String, AllocError> {
        let (asker, asked) = (words.asker.as_str(), words.asked.as_str());
        let device = self.device_words()?;
        let how = status_words(self.alloc, says)?;
        if kind == SET {
            return format!(in self.alloc; "{asked} by {asker} at device {device}: {how}");
        }
        if self.is_set() {
            return format!(in self.alloc;
                "device {device} refuses a Set, its write-community may not: {asked} of {asker}"
            );
        }
        format!(in self.alloc; "device {device} answers {how}, to {asked} of {asker}")
    }

    /// Returns the line of a device that didn't answer. A Set is asked once.
    fn given_up_line(
        &self,
        kind: u32,
        words: &RequestWords,
        times: u32,
    ) -> Result<String, AllocError> {
        let (asker, asked) = (words.asker.as_str(), words.asked.as_str());
        let device = self.device_words()?;
        if kind == SET {
            return format!(in self.alloc;
                "{asked} by {asker} at device {device}: no answer, so it may have been done"
            );
        }
        format!(in self.alloc;
            "device {device} doesn't answer: {asker}, {asked}, asked {times} times"
        )
    }

    /// Returns the line of a message that is answered.
    fn answered_line(
        &self,
        words: &RequestWords,
        says: Option<ResponseStatus>,
        ended: EndedBy,
    ) -> Result<String, AllocError> {
        let (asker, asked) = (words.asker.as_str(), words.asked.as_str());
        match (ended, says) {
            (EndedBy::Repeated, Some(says)) => {
                let how = status_words(self.alloc, says)?;
                format!(in self.alloc; "a repeated Set by {asker} has its first answer: {how}")
            }
            (EndedBy::RoundsUsedUp, _) => {
                let rounds = self.settings.limits.rounds;
                format!(in self.alloc; "{asker} wants more than {rounds} rounds: {asked}")
            }
            _ => self.unhandled_line(words, ended, true),
        }
    }

    /// Returns the line of a message that a counter counts.
    fn unhandled_line(
        &self,
        words: &RequestWords,
        ended: EndedBy,
        is_answered: bool,
    ) -> Result<String, AllocError> {
        let (asker, context) = (words.asker.as_str(), words.context.as_str());
        let counter = counter_name(ended, is_answered).unwrap_or("");
        format!(in self.alloc; "unhandled, {asker}{context}: {counter}")
    }
}
