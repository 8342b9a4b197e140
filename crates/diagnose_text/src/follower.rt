//! Takes the datagrams of a capture one after another, and makes exchanges of them.

ghost use Rattle.std.specs.Prelude.{◌≡◌, ◌≢◌, ℕ, [], Option, Some, true, false, IfOk, IfSome, OnOk};
ghost use Rattle.snmp_msg.specs.PduTypes.{pdu_tag};
ghost use Rattle.snmp_msg.specs.declared.pdu_type.PduType.TheVariants.{SNMPv2Trap};
ghost use Rattle.snmp_incoming.specs.Answers.{given_of};
ghost use Rattle.diagnose_judge.specs.Judging.{Judgement, discovery, IsDiscovery as IsDiscoveryMessage};
ghost use Rattle.diagnose_exchanges.specs.Exchanges.{Takes, answers, begins, claims};
ghost use Rattle.diagnose_exchanges.specs.declared.exchange.Ending.TheVariants.{Waits};
ghost use Rattle.diagnose_text.specs.Datagrams.{Asks, IsAnswerRead, IsClaim, IsNamed, IsPduIn};
ghost use Rattle.diagnose_text.specs.Datagrams.{IsRequest, IsSentStep, IsStepOf, MayBeForged, asked_of};
ghost use Rattle.diagnose_text.specs.Datagrams.{IsUnasked, StandsAlone, is_counted};
ghost use Rattle.diagnose_text.specs.Facts.{IsContextIn};
ghost use Rattle.diagnose_text.specs.Following.{Follows, Sees};

use crate::agents::Agents;
use crate::bearing::{Bearing, bearing_of};
use crate::facts::{Answer, First, Remark, Says, Sent, What};
use crate::line::Line;
use crate::reading::{names_of, says_of};
use crate::report::Report;
use crate::unread::engine_in;
use crate::views::{Viewed, views_of};
use diagnose_exchanges::{Asked, Copies, Exchanges, digest_of};
use diagnose_judge::{Judged, Observer, Verdict};
use engine_clock::{Clocks, EngineId};
use snmp_incoming::Taken;
use snmp_msg::{PduType, read_message};
use snmpsec_access::Explainer;
use std::alloc::{AllocError, Global};
use usm_core::Users;

/// Takes the datagrams of a capture one after another, and makes exchanges of them.
#[derive(Drop)]
pub(crate) struct Follower {
    pub(crate) alloc: Global,
    observer: Observer,
    views: Option<Explainer>,
    agents: Agents,
    pub(crate) exchanges: Exchanges<Asked, First, Answer>,
    requests: Copies<Sent>,
}

impl Follower {
    /// Nothing was captured yet.
    pub(crate) fn new(
        alloc: Global,
        users: Users,
        clocks: Clocks,
        views: Option<Explainer>,
    ) -> Follower
        ensures none { result.exchanges.list.items ≡ [] }
        ensures gone { result.exchanges.gone ≡ 0 }
        ensures users { result.observer.users ≡ users.users }
        ensures clocks { result.observer.clocks ≡ clocks }
    {
        Follower {
            alloc,
            observer: Observer::new(users, clocks),
            views,
            agents: Agents::new(alloc),
            exchanges: Exchanges::new(alloc),
            requests: Copies::new(alloc),
        }
    }

    /// The summary of what was printed, and of the engines that are known.
    pub(crate) fn summary(&self, report: &Report) -> Result<String, AllocError> {
        report.summary(self.observer.clocks(), &self.agents)
    }

    /// Takes a datagram, by exactly one step that begins an exchange with it or answers one by it.
    pub(crate) fn take(&mut self, line: Line, datagram: &[u8]) -> Result<(), AllocError>
        ensures { OnOk result ((judgement : Option Judgement)
            × Sees line datagram.now judgement self.old self.new) }
    {
        if let Some(engine) = engine_in(datagram) {
            if self.agents.leaves_out(&engine) {
                return self.tell(line, line.left_out(engine));
            }
        }
        match self.observer.judge(line.at.seconds, datagram)? {
            Judged::SentTo { taken, verdict } => self.request(line, &taken, verdict),
            Judged::SentBy { taken, in_window } => self.sent_by(line, &taken, in_window),
            Judged::Discovery => self.discovery(line, datagram),
            Judged::Unread(refused) => self.unread(line, datagram, refused.refusal),
        }
    }

    /// The datagram is an exchange of its own.
    pub(crate) fn tell(&mut self, line: Line, first: First) -> Result<(), AllocError>
        ensures follows { OnOk result
            (Follows (StandsAlone line (λ held. held ≡ first)) self.old self.new) }
        ensures observer { self.new.observer ≡ self.old.observer }
    {
        self.exchanges.tell(line.number, first)
    }

    /// A request, which waits for its answer from now on, unless it is a copy. What asked the same before gets none,
    /// unless it is the one that is sent again.
    pub(crate) fn ask(&mut self, line: Line, id: u32, first: First) -> Result<(), AllocError>
        ensures follows { OnOk result (Follows (Asks line id (λ held. held ≡ first)) self.old self.new) }
        ensures observer { self.new.observer ≡ self.old.observer }
    {
        if line.copy_of.is_some() {
            return self.tell(line, first);
        }
        self.ask_anew(line.number, Asked::by_request(line.route, id), first)
    }

    /// A request with this number that isn't a copy.
    fn ask_anew(&mut self, number: u64, asked: Asked, first: First) -> Result<(), AllocError>
        ensures follows { OnOk result
            (Follows (λ step. step ≡ begins number first (is_counted first) (Waits asked)) self.old self.new) }
        ensures observer { self.new.observer ≡ self.old.observer }
    {
        let again = first.again.map(|again| again.place);
        let counts = first.again.is_none() && !first.is_discovery();
        self.exchanges.ask_anew(number, asked, again, counts, first)
    }

    /// A request that was opened.
    fn request(&mut self, line: Line, taken: &Taken<'_>, verdict: Verdict) -> Result<(), AllocError>
        ensures follows { OnOk result
            (Follows (Asks line taken.now.id (IsRequest line (given_of taken.now) verdict)) self.old self.new) }
        ensures observer { self.new.observer ≡ self.old.observer }
    {
        let again = self.note_request(line, taken)?;
        let context = context_of(self.alloc, taken)?;
        let what = what_of(self.alloc, taken)?;
        self.ask(
            line,
            taken.id,
            line.request(taken, context, what, again, verdict),
        )
    }

    /// The request with the same user and PDU that was seen before, unless this is a copy.
    fn note_request(&mut self, line: Line, taken: &Taken<'_>) -> Result<Option<Sent>, AllocError>
        ensures exchanges { self.new.exchanges ≡ self.old.exchanges }
        ensures observer { self.new.observer ≡ self.old.observer }
    {
        let digest = digest_of(taken.user, taken.scoped().pdu);
        let sent = Sent {
            number: line.number,
            place: self.exchanges.next_place(),
        };
        let found = self.requests.note(digest, sent)?;
        if line.copy_of.is_some() {
            return Ok(None);
        }
        Ok(found)
    }

    /// What an engine sent.
    fn sent_by(&mut self, line: Line, taken: &Taken<'_>, in_window: bool) -> Result<(), AllocError>
        ensures follows { OnOk result
            (Follows (IsSentStep line (given_of taken.now) in_window) self.old self.new) }
        ensures observer { self.new.observer ≡ self.old.observer }
    {
        let from = line.route.map(|route| route.from);
        let notifies = taken.tag == PduType::SNMPv2Trap.tag();
        self.agents.saw(&taken.engine, from, notifies)?;
        if notifies {
            self.tell_alone(line, taken, Remark::NoRequest)
        } else {
            self.answer(line, taken, in_window)
        }
    }

    /// An answer that was opened.
    fn answer(&mut self, line: Line, taken: &Taken<'_>, in_window: bool) -> Result<(), AllocError>
        requires { taken.now.tag ≢ pdu_tag SNMPv2Trap }
        ensures follows { OnOk result
            (Follows (IsSentStep line (given_of taken.now) in_window) self.old self.new) }
        ensures observer { self.new.observer ≡ self.old.observer }
    {
        let asked = Asked::by_answer(line.route, taken.id);
        match self.bearing(&asked, taken) {
            Bearing::Answers => self.take_answer(line, &asked, taken, in_window),
            Bearing::Claims => self.take_claim(line, &asked, taken, in_window),
            Bearing::Differs(why) => self.tell_alone(line, taken, why),
        }
    }

    /// What an answer that was opened is to the request that waits for one to what it asked.
    fn bearing(&self, asked: &Asked, taken: &Taken<'_>) -> Bearing
        ensures claims { IsClaim result → MayBeForged (given_of taken.now) }
    {
        match self.asked_first(asked) {
            Some(first) => bearing_of(first, taken),
            None => Bearing::Differs(Remark::NoRequest),
        }
    }

    /// An answer to what was asked, which was opened.
    fn take_answer(
        &mut self,
        line: Line,
        asked: &Asked,
        taken: &Taken<'_>,
        in_window: bool,
    ) -> Result<(), AllocError>
        requires tag { taken.now.tag ≢ pdu_tag SNMPv2Trap }
        requires asked { asked.now ≡ asked_of line taken.now.id }
        ensures follows { OnOk result
            (Follows (IsSentStep line (given_of taken.now) in_window) self.old self.new) }
        ensures observer { self.new.observer ≡ self.old.observer }
    {
        let Some(answer) = self.answer_of(line, asked, taken, in_window)? else {
            return self.tell_alone(line, taken, Remark::NoRequest);
        };
        if self.answers(asked, line.number, answer) {
            return Ok(());
        }
        self.tell_alone(line, taken, Remark::NoRequest)
    }

    /// A Report without authentication to what was asked, which was opened.
    fn take_claim(
        &mut self,
        line: Line,
        asked: &Asked,
        taken: &Taken<'_>,
        in_window: bool,
    ) -> Result<(), AllocError>
        requires forged { MayBeForged (given_of taken.now) }
        requires asked { asked.now ≡ asked_of line taken.now.id }
        ensures follows { OnOk result
            (Follows (IsSentStep line (given_of taken.now) in_window) self.old self.new) }
        ensures observer { self.new.observer ≡ self.old.observer }
    {
        let Some(answer) = self.answer_of(line, asked, taken, in_window)? else {
            return self.tell_alone(line, taken, Remark::NoRequest);
        };
        if self.claims(asked, line.number, answer) {
            return Ok(());
        }
        self.tell_alone(line, taken, Remark::NoRequest)
    }

    /// What is known of an answer to what was asked, if something waits for it.
    fn answer_of(
        &self,
        line: Line,
        asked: &Asked,
        taken: &Taken<'_>,
        in_window: bool,
    ) -> Result<Option<Answer>, AllocError>
        ensures { IfOk result
            (λ found. IfSome found (IsAnswerRead line (given_of taken.now) in_window)) }
    {
        let says = match self.asks_engine(asked) {
            Some(true) => Says::Engine(taken.engine.copy()),
            Some(false) => says_of(self.alloc, &taken.pdu())?,
            None => return Ok(None),
        };
        let views = self.views_said(asked, &says, taken)?;
        Ok(Some(Answer {
            at: line.at,
            says,
            views,
            in_window,
        }))
    }

    /// Whether the datagram with this number answers the exchange that waits for an answer with these, if one does.
    pub(crate) fn answers(&mut self, asked: &Asked, number: u64, answer: Answer) -> bool
        ensures follows { result ≡ true → Follows
            (λ step. (place : ℕ) × (step ≡ answers place number asked.now answer)) self.old self.new }
        ensures exchanges { result ≡ false → (self.new.exchanges.gone ≡ self.old.exchanges.gone)
            × (self.new.exchanges.list.items ≡ self.old.exchanges.list.items) }
        ensures observer { self.new.observer ≡ self.old.observer }
    {
        let Ok(place) = self.exchanges.answer(asked, number, answer) else {
            return false;
        };
        self.end_first(place);
        true
    }

    /// Whether the datagram with this number, which may be forged, says how the exchange ended that waits for an answer
    /// with these, if one does of which nothing was said before.
    pub(crate) fn claims(&mut self, asked: &Asked, number: u64, answer: Answer) -> bool
        ensures follows { result ≡ true → Follows
            (λ step. (place : ℕ) × (step ≡ claims place number asked.now answer)) self.old self.new }
        ensures exchanges { result ≡ false → (self.new.exchanges.gone ≡ self.old.exchanges.gone)
            × (self.new.exchanges.list.items ≡ self.old.exchanges.list.items) }
        ensures observer { self.new.observer ≡ self.old.observer }
    {
        let Ok(_place) = self.exchanges.claim(asked, number, answer) else {
            return false;
        };
        true
    }

    /// What the views say of the variables of an answer to what was asked.
    fn views_said(
        &self,
        asked: &Asked,
        says: &Says,
        taken: &Taken<'_>,
    ) -> Result<Vec<Viewed>, AllocError> {
        let (Some(explainer), Some(first)) = (&self.views, self.asked_first(asked)) else {
            return Ok(Vec::new(self.alloc));
        };
        let context = taken.scoped().name;
        views_of(self.alloc, explainer, first, says, context, &taken.pdu())
    }

    /// The first datagram of the exchange that waits for an answer with these.
    pub(crate) fn asked_first(&self, asked: &Asked) -> Option<&First> {
        let place = self.exchanges.waits(asked)?;
        let exchange = self.exchanges.at(place)?;
        Some(&exchange.first)
    }

    /// Whether what waits for an answer with these is a discovery, if something waits.
    fn asks_engine(&self, asked: &Asked) -> Option<bool> {
        Some(self.asked_first(asked)?.is_discovery())
    }

    /// The request that was sent again with the one at this place, which has its answer now, is answered too.
    fn end_first(&mut self, place: u64)
        ensures gone { self.new.exchanges.gone ≡ self.old.exchanges.gone }
        ensures takes { Takes [] self.old.exchanges.gone self.old.exchanges.list.items
            self.new.exchanges.list.items }
        ensures observer { self.new.observer ≡ self.old.observer }
    {
        let again = match self.exchanges.at(place) {
            Some(exchange) => exchange.first.again,
            None => None,
        };
        if let Some(again) = again {
            self.exchanges.sent_again(again.place, place);
        }
    }

    /// A notification, or an answer that answers no request for this reason.
    fn tell_alone(&mut self, line: Line, taken: &Taken<'_>, why: Remark) -> Result<(), AllocError>
        ensures follows { OnOk result
            (Follows (StandsAlone line (IsUnasked line (given_of taken.now))) self.old self.new) }
        ensures observer { self.new.observer ≡ self.old.observer }
    {
        let context = context_of(self.alloc, taken)?;
        let what = what_of(self.alloc, taken)?;
        self.tell(line, line.alone(taken, context, what, why))
    }

    /// A discovery.
    fn discovery(&mut self, line: Line, datagram: &[u8]) -> Result<(), AllocError>
        requires { IsDiscoveryMessage datagram.now }
        ensures follows { OnOk result
            (Follows (IsStepOf line datagram.now (Some discovery)) self.old self.new) }
        ensures observer { self.new.observer ≡ self.old.observer }
    {
        let Ok(message) = read_message(datagram) else {
            unreachable!();
        };
        self.ask(line, message.header.id, line.first(What::Discovery))
    }
}

/// The name of the context of a message that was opened, unless it is empty.
fn context_of(alloc: Global, taken: &Taken<'_>) -> Result<Option<Vec<u8>>, AllocError>
    ensures { IfOk result (IsContextIn (given_of taken.now).text) }
{
    let name = taken.scoped().name;
    if name.is_empty() {
        return Ok(None);
    }
    Ok(Some(Vec::from_slice(alloc, name)?))
}

/// An accepted PDU by its type and its first names.
fn what_of(alloc: Global, taken: &Taken<'_>) -> Result<What, AllocError>
    ensures { IfOk result (IsNamed (IsPduIn (given_of taken.now).text)) }
{
    Ok(What::Pdu(names_of(alloc, &taken.pdu())?))
}
