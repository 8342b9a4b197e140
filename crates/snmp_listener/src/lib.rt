//! The receiver of notifications.
//!
//! ```
//! ghost use Rattle.std.specs.Prelude.{◌≡◌, IfOk};
//!
//! use engine_clock::{Clocks, EngineId};
//! use snmp_agent::Agent;
//! use snmp_ber::Level;
//! use snmp_listener::{Dropped, Listener, ListenerRules};
//! use snmp_manager::Manager;
//! use snmpsec_config::{Config, ConfigFault};
//! use std::alloc::{AllocError, Global};
//!
//! /// Eve has no passwords.
//! const USERS: &[u8] = b"[[user]]\nname = 'eve'\n";
//!
//! /// coldStart, at noAuthNoPriv, from the engine "far" for user "eve".
//! static TRAP: &[u8] =
//!     b"\x30\x73\x02\x01\x03\x30\x0e\x02\x01\x09\x02\x03\x00\xff\xe3\x04\x01\x00\x02\x01\x03\
//! \x04\x1b\x30\x19\x04\x08\x80\x00\x1f\x88\x04far\x02\x01\x01\x02\x01\x05\x04\x03eve\x04\x00\x04\x00\
//! \x30\x41\x04\x08\x80\x00\x1f\x88\x04far\x04\x00\
//! \xa7\x33\x02\x01\x07\x02\x01\x00\x02\x01\x00\x30\x28\
//! \x30\x0d\x06\x08\x2b\x06\x01\x02\x01\x01\x03\x00\x43\x01\x05\
//! \x30\x17\x06\x0a\x2b\x06\x01\x06\x03\x01\x01\x04\x01\x00\x06\x09\x2b\x06\x01\x06\x03\x01\x01\x05\x01";
//!
//! /// Notifications without authentication are taken from one address.
//! fn rules(alloc: Global) -> Result<ListenerRules, AllocError> {
//!     let mut sources = Vec::new(alloc);
//!     sources.push(Vec::from_slice(alloc, b"192.0.2.1")?)?;
//!     Ok(ListenerRules {
//!         least_level: Some(Level::NoAuthNoPriv),
//!         sources,
//!         viewed: Vec::new(alloc),
//!         most: 4_096,
//!     })
//! }
//!
//! fn agent(alloc: Global, engine: EngineId) -> Result<Agent, ConfigFault>
//!     ensures { IfOk result (λ agent. agent.engine ≡ engine) }
//! {
//!     let config = Config::read(alloc, USERS)?;
//!     Ok(Agent::new(alloc, engine, 1, 0, config.users, config.access))
//! }
//!
//! fn manager(alloc: Global) -> Result<Manager, ConfigFault> {
//!     let config = Config::read(alloc, USERS)?;
//!     Ok(Manager::new(alloc, config.users, Clocks::new(alloc)))
//! }
//!
//! fn listener(alloc: Global) -> Result<Listener, AllocError> {
//!     let engine = EngineId::of(b"\x80\x00\x1f\x88\x04own").ok_or(AllocError)?;
//!     let rules = rules(alloc)?;
//!     let manager = manager(alloc).map_err(|_| AllocError)?;
//!     let agent = agent(alloc, engine.copy()).map_err(|_| AllocError)?;
//!     Ok(Listener::new(alloc, engine, agent, manager, rules))
//! }
//!
//! /// Why the Trap isn't reported that comes from this address.
//! fn reason(listener: &mut Listener, from: &[u8]) -> Result<Option<Dropped>, AllocError> {
//!     Ok(listener.take(60, from, TRAP, [0; 8])?.reason())
//! }
//!
//! /// Why it isn't reported from another address, then from this one, and then from this one again.
//! type Reasons = (Option<Dropped>, Option<Dropped>, Option<Dropped>);
//!
//! fn reasons_of(listener: &mut Listener) -> Result<Reasons, AllocError> {
//!     let other = reason(listener, b"198.51.100.1")?;
//!     let first = reason(listener, b"192.0.2.1")?;
//!     let again = reason(listener, b"192.0.2.1")?;
//!     Ok((other, first, again))
//! }
//!
//! fn reasons(alloc: Global) -> Result<Reasons, AllocError> {
//!     let mut listener = listener(alloc)?;
//!     let reasons = reasons_of(&mut listener);
//!     drop(listener);
//!     reasons
//! }
//!
//! let (other, first, again) = reasons(rt.alloc())?;
//! assert_eq!(rt; other, Some(Dropped::OtherAddress));
//! assert_eq!(rt; first, None);
//! assert_eq!(rt; again, Some(Dropped::Copy));
//! ```
#![tactic(auto)]

mod acknowledgement;
mod dropped;
mod laws;
mod listener;
mod rules;
mod told;
mod wanted;

pub use dropped::Dropped;
pub use laws::{
    a_notification_is_told_if_it_is_to_be_told, a_notification_is_told_once,
    an_inform_is_acknowledged_if_it_is_told, what_is_dropped_is_counted,
};
pub use listener::{Listener, ListenerTaken};
pub use rules::ListenerRules;
pub use told::REMEMBERED;
