//! What of a capture is printed, and how.

ghost use Rattle.std.specs.Prelude.{◌≡◌, ◌↔◌, [], IsTrue, option_map};
ghost use Rattle.diagnose_text.specs.Wanted.{direction, is_agent_at, is_engine_of, is_in, is_named};
ghost use Rattle.diagnose_text.specs.Wanted.{is_one_of, is_same_address, is_wanted, is_way_of};

use capture_files::Route;
use engine_clock::EngineId;
use std::alloc::Global;
use std::net::{IpAddr, SocketAddr};
use usm_users::UserName;

/// How exchanges are printed.
#[derive(Clone, Copy, Drop)]
pub enum Style {
    /// Blocks of lines, and the summary.
    Text,
    /// A JSON object a line.
    Json,
}

/// An agent as the user names it.
#[derive(Clone, Copy)]
pub struct NamedAgent {
    pub address: IpAddr,
    /// Its port; each where there is none.
    pub port: Option<u16>,
}

impl NamedAgent {
    /// The agent is there.
    fn is_at(self, endpoint: SocketAddr) -> bool
        ensures { result ≡ is_agent_at endpoint self }
    {
        let is_port = match self.port {
            Some(port) => port == endpoint.port(),
            None => true,
        };
        is_port && self.address == endpoint.ip()
    }
}

/// What of a capture is printed, and how. An exchange that isn't wanted isn't counted either.
#[derive(Drop)]
pub struct DiagnoseOptions {
    pub style: Style,
    /// The users whose exchanges are wanted; all where there is none.
    pub users: Vec<UserName>,
    /// The engines whose exchanges are wanted; all where there is none.
    pub engines: Vec<EngineId>,
    /// The agents whose exchanges are wanted; all where there is none. What is sent to one is a request, and what one
    /// sends is an answer.
    pub agents: Vec<NamedAgent>,
}

impl DiagnoseOptions {
    /// All as text. This takes no memory.
    pub fn all(alloc: Global) -> DiagnoseOptions
        ensures style { result.style ≡ Style.Text }
        ensures users { result.users.items ≡ [] }
        ensures engines { result.engines.items ≡ [] }
        ensures agents { result.agents.items ≡ [] }
    {
        DiagnoseOptions {
            style: Style::Text,
            users: Vec::new(alloc),
            engines: Vec::new(alloc),
            agents: Vec::new(alloc),
        }
    }

    /// One of the agents is there.
    fn names(&self, endpoint: SocketAddr) -> bool
        ensures { result ≡ is_named self.now.agents.items endpoint }
    {
        self.agents.iter().any(|agent| agent.is_at(endpoint))
    }

    /// Whether a datagram on this way is a request: it goes to an agent and comes from none. None where neither end
    /// is an agent, or both are.
    pub(crate) fn told_request(&self, route: Route) -> Option<bool>
        ensures { result ≡ direction self.now.agents.items route }
    {
        match (self.names(route.to), self.names(route.from)) {
            (true, false) => Some(true),
            (false, true) => Some(false),
            _ => None,
        }
    }

    /// Exchanges of all users, engines and agents are wanted.
    pub(crate) fn wants_all(&self) -> bool {
        self.users.is_empty() && self.engines.is_empty() && self.agents.is_empty()
    }

    /// The exchange of this user, engine and way is wanted.
    pub(crate) fn wants(&self, user: &[u8], engine: Option<&EngineId>, route: Option<Route>) -> bool
        ensures { result ≡ is_wanted self.now user.now (option_map (λ e. e.now) engine.entry) route }
    {
        self.wants_user(user) && self.wants_engine(engine) && self.wants_way(route)
    }

    fn wants_user(&self, user: &[u8]) -> bool
        ensures { result ≡ is_one_of self.now.users.items user.now }
    {
        self.users.is_empty() || self.names_user(user)
    }

    fn names_user(&self, user: &[u8]) -> bool
        ensures { result ≡ is_in self.now.users.items user.now }
    {
        self.users.iter().any(|wanted| wanted.as_slice() == user)
    }

    fn wants_engine(&self, engine: Option<&EngineId>) -> bool
        ensures { result ≡ is_engine_of self.now.engines.items (option_map (λ e. e.now) engine.entry) }
    {
        match engine {
            Some(engine) => self.wants_octets(engine.as_slice()),
            None => self.engines.is_empty(),
        }
    }

    /// The engine with these octets is wanted.
    fn wants_octets(&self, engine: &[u8]) -> bool
        ensures { result ≡ is_one_of self.now.engines.items engine.now }
    {
        self.engines.is_empty() || self.names_engine(engine)
    }

    fn names_engine(&self, engine: &[u8]) -> bool
        ensures { result ≡ is_in self.now.engines.items engine.now }
    {
        self.engines
            .iter()
            .any(|wanted| wanted.as_slice() == engine)
    }

    /// A datagram on this way is of an agent that is wanted.
    fn wants_way(&self, route: Option<Route>) -> bool
        ensures { result ≡ is_way_of self.now.agents.items route }
    {
        match route {
            Some(route) => self.agents.is_empty() || self.names(route.from) || self.names(route.to),
            None => self.agents.is_empty(),
        }
    }
}
