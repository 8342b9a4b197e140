//! Whether something was printed, and else what there is that wasn't wanted.

use crate::facts::{Answer, First};
use diagnose_exchanges::{Ending, Exchange};
use snmpsec_access::name_text;
use std::alloc::{AllocError, Global};
use std::net::SocketAddr;
use usm_users::UserName;

/// How many users and how many agents are named.
const NAMED: usize = 8;

/// Whether an exchange was printed, and the first users and agents of those that weren't wanted.
#[derive(Drop)]
pub(crate) struct Others {
    has_printed: bool,
    users: Vec<UserName>,
    agents: Vec<SocketAddr>,
}

impl Others {
    pub(crate) fn new(alloc: Global) -> Others {
        Others {
            has_printed: false,
            users: Vec::new(alloc),
            agents: Vec::new(alloc),
        }
    }

    /// An exchange is printed.
    pub(crate) fn note_printed(&mut self) {
        self.has_printed = true;
    }

    /// The exchange isn't wanted. A request goes to an agent.
    pub(crate) fn note<K: Drop>(
        &mut self,
        exchange: &Exchange<K, First, Answer>,
    ) -> Result<(), AllocError> {
        if self.has_printed {
            return Ok(());
        }
        self.note_user(exchange.first.user())?;
        match (&exchange.ending, exchange.first.route) {
            (Ending::Alone, _) | (_, None) => Ok(()),
            (_, Some(route)) => self.note_agent(route.to),
        }
    }

    fn note_user(&mut self, user: &[u8]) -> Result<(), AllocError> {
        let is_known = self.users.iter().any(|known| known.as_slice() == user);
        if user.is_empty() || is_known || self.users.len() >= NAMED {
            return Ok(());
        }
        match UserName::of(user) {
            Some(user) => Ok(self.users.push(user)?),
            None => Ok(()),
        }
    }

    fn note_agent(&mut self, agent: SocketAddr) -> Result<(), AllocError> {
        let is_known = self.agents.iter().any(|known| *known == agent);
        if is_known || self.agents.len() >= NAMED {
            return Ok(());
        }
        Ok(self.agents.push(agent)?)
    }

    /// What there is where nothing was printed, for a line that begins with the name of the file.
    pub(crate) fn text(&self, alloc: Global) -> Result<Option<String>, AllocError> {
        if self.has_printed {
            return Ok(None);
        }
        let mut text = String::new(alloc);
        if self.users.is_empty() && self.agents.is_empty() {
            text.push_str(
                "no datagram of SNMP from or to the ports that are looked at; --port names others",
            )?;
            return Ok(Some(text));
        }
        text.push_str("no exchange that is wanted")?;
        self.put_users(alloc, &mut text)?;
        self.put_agents(&mut text)?;
        Ok(Some(text))
    }

    /// Adds the users.
    fn put_users(&self, alloc: Global, out: &mut String) -> Result<(), AllocError> {
        let mut before = "; the users there: ";
        for user in &self.users {
            let name = name_text(alloc, user.as_slice())?;
            write!(out, "{before}{name}")?;
            before = ", ";
        }
        Ok(())
    }

    /// Adds the agents.
    fn put_agents(&self, out: &mut String) -> Result<(), AllocError> {
        let mut before = "; the agents there: ";
        for agent in &self.agents {
            write!(out, "{before}{agent}")?;
            before = ", ";
        }
        Ok(())
    }
}
