//! How the exchanges of each user ended.

use crate::facts::{Answer, First, Says};
use diagnose_exchanges::{Ending, Exchange};
use serde_json::{Value as Json, json};
use snmpsec_access::name_text;
use std::alloc::{AllocError, Global};
use usm_users::UserName;

/// Of how many users the exchanges are counted.
const USERS: usize = 1_024;

/// How the exchanges of a user ended.
#[derive(Drop)]
struct UserCounts {
    user: UserName,
    answered: u64,
    errors: u64,
    refused: u64,
    no_answer: u64,
}

/// How the exchanges of each user ended.
#[derive(Drop)]
pub(crate) struct Counts {
    users: Vec<UserCounts>,
}

impl Counts {
    pub(crate) fn new(alloc: Global) -> Counts {
        Counts {
            users: Vec::new(alloc),
        }
    }

    /// Counts an exchange by its user.
    pub(crate) fn count<K: Drop>(
        &mut self,
        exchange: &Exchange<K, First, Answer>,
    ) -> Result<(), AllocError> {
        let user = exchange.first.user();
        for counts in self.users.iter_mut() {
            if counts.user.as_slice() == user {
                counts.count(exchange);
                return Ok(());
            }
        }
        if self.users.len() >= USERS {
            return Ok(());
        }
        let Some(user) = UserName::of(user) else {
            return Ok(());
        };
        let mut counts = UserCounts::none(user);
        counts.count(exchange);
        self.users.push(counts)?;
        Ok(())
    }

    /// Adds a line for each user.
    pub(crate) fn put_lines(&self, alloc: Global, out: &mut String) -> Result<(), AllocError> {
        for counts in &self.users {
            counts.put_line(alloc, out)?;
        }
        Ok(())
    }

    /// An object for each user.
    pub(crate) fn array(&self, alloc: Global) -> Result<Json, AllocError> {
        let mut list = Vec::new(alloc);
        for counts in &self.users {
            list.push(counts.object(alloc)?)?;
        }
        Ok(Json::from(list))
    }
}

impl UserCounts {
    fn none(user: UserName) -> UserCounts {
        UserCounts {
            user,
            answered: 0,
            errors: 0,
            refused: 0,
            no_answer: 0,
        }
    }

    fn count<K: Drop>(&mut self, exchange: &Exchange<K, First, Answer>) {
        match (&exchange.ending, &exchange.claim) {
            (Ending::Answered { answer, .. }, _) => self.count_answer(&answer.says),
            (Ending::NoAnswer | Ending::NotFollowed, Some(claim)) => {
                self.count_answer(&claim.answer.says);
            }
            (Ending::NoAnswer | Ending::NotFollowed, None) => {
                self.no_answer = self.no_answer.saturating_add(1);
            }
            (Ending::Waits(_) | Ending::Alone | Ending::SentAgain(_), _) => {}
        }
    }

    fn count_answer(&mut self, says: &Says) {
        match says {
            Says::Values(..) | Says::Engine(_) => self.answered = self.answered.saturating_add(1),
            Says::Error(..) | Says::Unread(_) => self.errors = self.errors.saturating_add(1),
            Says::Report(..) => self.refused = self.refused.saturating_add(1),
        }
    }

    /// Adds the line of the user.
    fn put_line(&self, alloc: Global, out: &mut String) -> Result<(), AllocError> {
        out.push_str("  ")?;
        if self.user.as_slice().is_empty() {
            out.push_str("(no user)")?;
        } else {
            let name = name_text(alloc, self.user.as_slice())?;
            out.push_str(&name)?;
        }
        let (answered, errors) = (self.answered, self.errors);
        let (refused, no_answer) = (self.refused, self.no_answer);
        write!(
            out,
            "  answered {answered}, errors {errors}, refused {refused}, no answer {no_answer}\n"
        )
    }

    /// The object of the user.
    fn object(&self, alloc: Global) -> Result<Json, AllocError> {
        json!(in alloc; {
            "user": name_text(alloc, self.user.as_slice())?,
            "answered": self.answered,
            "errors": self.errors,
            "refused": self.refused,
            "no_answer": self.no_answer
        })
    }
}
