//! Takes datagrams that weren't opened.

ghost use Rattle.std.specs.Prelude.{◌≡◌, ℕ, List, OnOk};
ghost use Rattle.diagnose_text.specs.Datagrams.{IsUnopenedStep, IsUnread, IsUnreadSaid, IsUnreadStep, asked_of};
ghost use Rattle.diagnose_text.specs.Following.{Follows};

use crate::bearing::{Bearing, unread_bearing_of};
use crate::facts::{Answer, Remark, Says};
use crate::follower::Follower;
use crate::line::Line;
use crate::unread::{Unread, unread_in};
use capture_files::SNMP_PORTS;
use diagnose_exchanges::Asked;
use snmp_msg::Refusal;
use std::alloc::AllocError;

impl Follower {
    /// A datagram that wasn't opened.
    pub(crate) fn unread(
        &mut self,
        line: Line,
        datagram: &[u8],
        refusal: Refusal,
    ) -> Result<(), AllocError>
        ensures follows { OnOk result (Follows (IsUnreadStep line datagram.now refusal) self.old self.new) }
        ensures observer { self.new.observer ≡ self.old.observer }
    {
        let Some(unread) = unread_in(self.alloc, datagram, line.told)? else {
            return self.tell(line, line.unreadable(refusal));
        };
        if self.is_request(line, &unread) {
            let id = unread.id;
            self.ask(line, id, line.unread(unread, refusal, Remark::Nothing))
        } else {
            self.unread_answer(line, unread, refusal)
        }
    }

    /// Whether a datagram that wasn't opened is a request: by its PDU if it isn't sealed, or else by the agents that
    /// the user names, or else by what waits for an answer, and by the ports.
    fn is_request(&self, line: Line, unread: &Unread) -> bool {
        if let Some(is_request) = unread.contents.is_request {
            return is_request;
        }
        let request = Asked::by_answer(line.route, unread.id);
        if self.exchanges.waits(&request).is_some() {
            return false;
        }
        match line.route {
            Some(route) => !SNMP_PORTS.contains(&route.from.port())
                || SNMP_PORTS.contains(&route.to.port()),
            None => true,
        }
    }

    /// An answer that wasn't opened.
    fn unread_answer(
        &mut self,
        line: Line,
        unread: Unread,
        refusal: Refusal,
    ) -> Result<(), AllocError>
        ensures follows { (w : List ℕ) → IsUnread w line.told unread
            → OnOk result (Follows (IsUnopenedStep line w unread.id refusal) self.old self.new) }
        ensures observer { self.new.observer ≡ self.old.observer }
    {
        let asked = Asked::by_answer(line.route, unread.id);
        let bearing = match self.asked_first(&asked) {
            Some(first) => unread_bearing_of(first, &unread),
            None => Bearing::Differs(Remark::Nothing),
        };
        match bearing {
            Bearing::Answers => self.take_unread_answer(line, &asked, unread, refusal),
            Bearing::Claims => self.take_unread_claim(line, &asked, unread, refusal),
            Bearing::Differs(why) => self.tell(line, line.unread(unread, refusal, why)),
        }
    }

    /// What answers what was asked, and wasn't opened.
    fn take_unread_answer(
        &mut self,
        line: Line,
        asked: &Asked,
        mut unread: Unread,
        refusal: Refusal,
    ) -> Result<(), AllocError>
        requires { asked.now ≡ asked_of line unread.id }
        ensures follows { (w : List ℕ) → IsUnread w line.told unread
            → OnOk result (Follows (IsUnopenedStep line w unread.id refusal) self.old self.new) }
        ensures observer { self.new.observer ≡ self.old.observer }
    {
        let answer = Answer {
            at: line.at,
            says: said_unread(unread.contents.report.take(), refusal),
            views: Vec::new(self.alloc),
            in_window: true,
        };
        if self.answers(asked, line.number, answer) {
            return Ok(());
        }
        self.tell(line, line.unread(unread, refusal, Remark::Nothing))
    }

    /// A Report without authentication to what was asked, which wasn't opened.
    fn take_unread_claim(
        &mut self,
        line: Line,
        asked: &Asked,
        mut unread: Unread,
        refusal: Refusal,
    ) -> Result<(), AllocError>
        requires { asked.now ≡ asked_of line unread.id }
        ensures follows { (w : List ℕ) → IsUnread w line.told unread
            → OnOk result (Follows (IsUnopenedStep line w unread.id refusal) self.old self.new) }
        ensures observer { self.new.observer ≡ self.old.observer }
    {
        let answer = Answer {
            at: line.at,
            says: said_unread(unread.contents.report.take(), refusal),
            views: Vec::new(self.alloc),
            in_window: true,
        };
        if self.claims(asked, line.number, answer) {
            return Ok(());
        }
        self.tell(line, line.unread(unread, refusal, Remark::NoRequest))
    }
}

/// What an answer that wasn't opened says. A Report that isn't sealed says why the agent refuses the request. It came
/// without authentication, or its code is wrong, so it is a claim.
fn said_unread(report: Option<Says>, refusal: Refusal) -> Says
    ensures { IsUnreadSaid refusal report result }
{
    match report {
        Some(report) => report,
        None => Says::Unread(refusal),
    }
}
