//! A datagram of a capture, and what is known of it as the first of an exchange.

ghost use Rattle.std.specs.Prelude.{◌≡◌, ◌≤◌, ◌↔◌, IsTrue, Some, length, true};
ghost use Rattle.snmp_incoming.specs.Answers.{given_of};
ghost use Rattle.diagnose_text.specs.Facts.{IsAlone, IsCaptured, IsJudged, IsPlain, IsRequestIdIn, IsSender};
ghost use Rattle.diagnose_text.specs.Facts.{LacksRequest};
ghost use Rattle.diagnose_text.specs.declared.facts.Remark.TheVariants.{EnginesLimit};
ghost use Rattle.diagnose_text.specs.declared.facts.What.TheVariants.{Sealed, Unreadable};

use crate::facts::{First, Remark, Sender, Sent, What};
use crate::heads::Stamp;
use crate::unread::Unread;
use capture_files::Route;
use diagnose_judge::Verdict;
use engine_clock::EngineId;
use snmp_incoming::Taken;
use snmp_msg::{PduType, Refusal};
use usm_users::UserName;

/// A datagram, and how it was captured.
#[derive(Clone, Copy)]
pub(crate) struct Line {
    pub(crate) number: u64,
    pub(crate) at: Stamp,
    pub(crate) route: Option<Route>,
    /// The number of the first datagram with the same octets.
    pub(crate) copy_of: Option<u64>,
    /// Whether it is a request by the agents that the user names, if they tell it.
    pub(crate) told: Option<bool>,
}

impl Line {
    /// What is known of it where nobody is known to have sent it.
    pub(crate) fn first(self, what: What) -> First
        ensures captured { IsCaptured self result }
        ensures plain { IsPlain result }
        ensures what { result.what ≡ what }
    {
        First {
            at: self.at,
            route: self.route,
            sender: None,
            engine: None,
            context: None,
            request_id: None,
            what,
            copy_of: self.copy_of,
            again: None,
            remark: Remark::Nothing,
            refusal: None,
        }
    }

    /// What is known of a message that was opened, with this context.
    fn message_first(self, taken: &Taken<'_>, context: Option<Vec<u8>>, what: What) -> First
        ensures captured { IsCaptured self result }
        ensures plain { IsPlain result }
        ensures sender { IsSender (given_of taken.now) result }
        ensures context { result.context ≡ context }
        ensures request_id { IsRequestIdIn (given_of taken.now).text result.request_id }
        ensures what { result.what ≡ what }
    {
        let mut first = self.first(what);
        first.sender = Some(sender_of(taken));
        first.engine = Some(taken.engine.copy());
        first.context = context;
        first.request_id = Some(taken.pdu().id);
        first
    }

    /// What is known of a request that was opened, and that is sent again.
    pub(crate) fn request(
        self,
        taken: &Taken<'_>,
        context: Option<Vec<u8>>,
        what: What,
        again: Option<Sent>,
        verdict: Verdict,
    ) -> First
        ensures captured { IsCaptured self result }
        ensures sender { IsSender (given_of taken.now) result }
        ensures context { result.context ≡ context }
        ensures request_id { IsRequestIdIn (given_of taken.now).text result.request_id }
        ensures what { result.what ≡ what }
        ensures again { result.again ≡ again }
        ensures judged { IsJudged verdict result }
    {
        let mut first = self.message_first(taken, context, what);
        first.again = again;
        match verdict {
            Verdict::Accepted => {}
            Verdict::Unweighed => first.remark = Remark::WindowNotJudged,
            Verdict::Refused(refusal) => first.refusal = Some(refusal),
        }
        first
    }

    /// What is known of a notification, or of an answer that answers no request for this reason.
    pub(crate) fn alone(
        self,
        taken: &Taken<'_>,
        context: Option<Vec<u8>>,
        what: What,
        why: Remark,
    ) -> First
        ensures captured { IsCaptured self result }
        ensures sender { IsSender (given_of taken.now) result }
        ensures context { result.context ≡ context }
        ensures request_id { IsRequestIdIn (given_of taken.now).text result.request_id }
        ensures what { result.what ≡ what }
        ensures alone { IsAlone self taken.now.tag why result }
    {
        let mut first = self.message_first(taken, context, what);
        if self.lacks_request(taken.tag) {
            first.remark = why;
        }
        first
    }

    /// It is neither a notification nor a copy, so that a request should wait for it.
    fn lacks_request(self, tag: u8) -> bool
        ensures { IsTrue result ↔ LacksRequest self tag }
    {
        tag != PduType::SNMPv2Trap.tag() && self.copy_of.is_none()
    }

    /// What is known of a datagram that isn't a message.
    pub(crate) fn unreadable(self, refusal: Refusal) -> First
        ensures captured { IsCaptured self result }
        ensures what { result.what ≡ Unreadable }
        ensures refused { result.refusal ≡ Some refusal }
    {
        let mut first = self.first(What::Unreadable);
        first.refusal = Some(refusal);
        first
    }

    /// What is known of a message that wasn't opened, with this remark.
    pub(crate) fn unread(self, unread: Unread, refusal: Refusal, remark: Remark) -> First
        ensures captured { IsCaptured self result }
        ensures sender { result.sender ≡ Some unread.sender }
        ensures engine { result.engine ≡ unread.engine }
        ensures what { result.what ≡ unread.contents.what }
        ensures refused { result.refusal ≡ Some refusal }
    {
        let contents = unread.contents;
        let mut first = self.first(contents.what);
        first.sender = Some(unread.sender);
        first.engine = unread.engine;
        first.refusal = Some(refusal);
        first.remark = remark;
        first
    }

    /// What is known of a message of an engine beyond the limit.
    pub(crate) fn left_out(self, engine: EngineId) -> First
        ensures captured { IsCaptured self result }
        ensures engine { result.engine ≡ Some engine }
        ensures what { result.what ≡ Sealed true }
        ensures remark { result.remark ≡ EnginesLimit }
    {
        let mut first = self.first(What::Sealed { is_guess: true });
        first.engine = Some(engine);
        first.remark = Remark::EnginesLimit;
        first
    }
}

/// A user name of a message, cut after 32 octets.
pub(crate) fn user_of(octets: &[u8]) -> UserName
    ensures { length octets.now ≤ 32 → result ≡ octets.now }
{
    match UserName::of(octets) {
        Some(user) => user,
        None => cut_name(octets),
    }
}

/// The first 32 octets as a user name.
fn cut_name(octets: &[u8]) -> UserName {
    let most = octets.len().min(32);
    match UserName::of(&octets[..most]) {
        Some(user) => user,
        None => unreachable!(),
    }
}

/// Who sends a message that was opened.
fn sender_of(taken: &Taken<'_>) -> Sender
    ensures user { result.user ≡ taken.now.user.now }
    ensures level { result.level ≡ Some taken.now.level }
{
    Sender {
        user: user_of(taken.user),
        level: Some(taken.level),
    }
}
