//! An SNMPv3 engine: managers, agents, and worlds of managers. It takes datagrams, moments and salts, and
//! gives opened messages, refusals, reports, sealed datagrams and access answers (RFC 3412, RFC 3414, RFC
//! 3415).
//!
//! Each item is in a crate below, under the same name.
//!
//! ```
//! use engine_clock::{Clocks, EngineId};
//! use snmp_engine::{Agent, Answer, Manager, answer_of};
//! use std::alloc::Global;
//! use usm_core::Users;
//! use vacm_core::{Rows, Vacm, VacmFault};
//!
//! /// Tables without rows.
//! fn tables(alloc: Global) -> Result<Vacm, VacmFault> {
//!     let rows = Rows {
//!         contexts: Vec::new(alloc),
//!         groups: Vec::new(alloc),
//!         access: Vec::new(alloc),
//!         families: Vec::new(alloc),
//!     };
//!     Vacm::load(alloc, &rows)
//! }
//!
//! /// An agent without users and rows, of boots 1.
//! fn agent(alloc: Global) -> Result<Agent, Fail> {
//!     let engine = EngineId::of(b"\x80\x00\x1f\x88\x04k").ok_or("an engine ID")?;
//!     let users = Users::load(alloc, &[])?;
//!     let vacm = tables(alloc)?;
//!     Ok(Agent::new(alloc, engine, 1, 0, users, vacm))
//! }
//!
//! /// The report of this agent on a request.
//! fn report_of(agent: &mut Agent, request: &[u8]) -> Result<Vec<u8>, Fail> {
//!     match agent.take(1000, request) {
//!         Ok(_) => Err("a refusal".into()),
//!         Err(refused) => Ok(refused.report.ok_or("a report")?),
//!     }
//! }
//!
//! /// The report of an agent on a request.
//! fn report_on(alloc: Global, request: &[u8]) -> Result<Vec<u8>, Fail> {
//!     let mut agent = agent(alloc)?;
//!     let report = report_of(&mut agent, request);
//!     drop(agent);
//!     report
//! }
//!
//! /// What the report is to a manager that discovers.
//! fn discovery(alloc: Global, manager: &mut Manager) -> Result<Answer, Fail> {
//!     let (request, pending) = manager.discover(7)?;
//!     let report = report_on(alloc, &request)?;
//!     let taken = manager.take(2000, &report)?;
//!     Ok(answer_of(&pending, &taken))
//! }
//!
//! let users = Users::load(rt.alloc(), &[])?;
//! let mut manager = Manager::new(rt.alloc(), users, Clocks::new(rt.alloc()));
//! assert_eq!(rt; discovery(rt.alloc(), &mut manager)?, Answer::Report(4));
//! ```
#![tactic(auto)]

pub mod laws;
pub mod world;

pub use snmp_agent::{Agent, Decision, Refused};
pub use snmp_incoming::{Kept, TakeFault, Taken};
pub use snmp_manager::{Answer, Manager, Outcome, Pending, Stopped, Target, answer_of};
pub use snmp_outgoing::{Body, Front};
