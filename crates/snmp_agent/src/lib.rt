//! The agent: an authoritative SNMPv3 engine (RFC 3414, section 1.5.1). It accepts datagrams, counts and
//! reports those that it refuses, decides what their senders may see (RFC 3413, section 3.2), and writes
//! Responses and notifications (RFC 3416, section 4.2).
//!
//! ```
//! use engine_clock::EngineId;
//! use snmp_agent::Agent;
//! use std::alloc::Global;
//! use usm_core::Users;
//! use vacm_core::{Rows, Vacm, VacmFault};
//!
//! /// Tables without rows.
//! fn tables(alloc: Global) -> Result<Vacm, VacmFault> {
//!     let rows = Rows {
//!         contexts: Vec::new(alloc),
//!         groups: Vec::new(alloc),
//!         access: Vec::new(alloc),
//!         families: Vec::new(alloc),
//!     };
//!     Vacm::load(alloc, &rows)
//! }
//!
//! /// An agent without users and rows, of boots 1.
//! fn agent(alloc: Global) -> Result<Agent, Fail> {
//!     let engine = EngineId::of(b"\x80\x00\x1f\x88\x04k").ok_or("an engine ID")?;
//!     let users = Users::load(alloc, &[])?;
//!     let vacm = tables(alloc)?;
//!     Ok(Agent::new(alloc, engine, 1, 0, users, vacm))
//! }
//!
//! /// Whether an agent takes what isn't a message, and how many engines it has refused.
//! fn took(alloc: Global) -> Result<(bool, Option<u32>), Fail> {
//!     let mut agent = agent(alloc)?;
//!     let is_taken = agent.take(1000, b"no message").is_ok();
//!     let count = agent.counter(4);
//!     drop(agent);
//!     Ok((is_taken, count))
//! }
//!
//! let (is_taken, count) = took(rt.alloc())?;
//! assert!(rt; !is_taken);
//! assert_eq!(rt; count, Some(0));
//! ```
//!
//! ```
//! use snmp_agent::{Status, status_of};
//! use snmp_msg::PduType;
//! use vacm_core::Access;
//!
//! assert_eq!(rt;
//!     status_of(Access::NotInView, PduType::GetRequest.tag()),
//!     Status::NoSuchObject
//! );
//! assert_eq!(rt;
//!     status_of(Access::NotInView, PduType::SetRequest.tag()),
//!     Status::NoAccess
//! );
//! ```
#![tactic(auto)]

mod agent;
mod answers;
mod commands;
mod counter;
mod counter_report;
mod decision;
mod dispatch;
mod engine;
mod judge;
mod laws;
mod notification;
mod notify;
mod refusal;
mod refusal_counters;
mod refused;
mod report;
mod reportable;
mod reported_message;
mod respond;
mod response;
mod response_laws;
mod status;
mod unhandled;

pub use agent::Agent;
pub use counter_report::write_counter_report;
pub use decision::Decision;
pub use laws::{agents_decide_alike, notification_is_accepted};
pub use refusal::{Counted, write_refusal_report};
pub use refused::Refused;
pub use response::Response;
pub use response_laws::{
    no_text_is_longer, refusal_is_short, report_is_accepted, report_is_short, response_is_accepted,
    too_big_is_short,
};
pub use status::{Status, status_of};
pub use unhandled::Unhandled;
