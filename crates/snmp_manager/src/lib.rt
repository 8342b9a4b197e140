//! The manager: an SNMPv3 engine that isn't authoritative (RFC 3414, section 1.5.1). It accepts datagrams,
//! keeps for each engine the greatest pair of boots and time that it authenticated, and writes requests. A
//! `World` is managers that share saved clocks.
//!
//! ```
//! use engine_clock::Clocks;
//! use snmp_manager::{Manager, Outcome};
//! use snmp_msg::{Refusal, RefusedAt};
//! use usm_core::Users;
//!
//! let users = Users::load(rt.alloc(), &[])?;
//! let mut manager = Manager::new(rt.alloc(), users, Clocks::new(rt.alloc()));
//! let (datagram, _pending) = manager.discover(1)?;
//! let outcome = manager.take_one(1700000000, &datagram)?;
//! assert_eq!(rt;
//!     outcome,
//!     Outcome::Refused(RefusedAt::plain(Refusal::UnknownEngine))
//! );
//! ```
//!
//! ```
//! use engine_clock::{Clocks, EngineId, Pair};
//! use snmp_manager::{Event, World};
//! use usm_core::Users;
//!
//! let engine = EngineId::of(b"\x80\x00\x1f\x88\x04k").ok_or("an engine ID")?;
//! let mut first = Clocks::new(rt.alloc());
//! first.learn(engine.clone()?, Pair::of(3, 100).ok_or("a pair")?, 50)?;
//! let users = Users::load(rt.alloc(), &[])?;
//! let mut world = World::new(rt.alloc(), &users, &[first, Clocks::new(rt.alloc())])?;
//! world.step(&Event::Save { manager: 0 })?;
//! world.step(&Event::Absorb {
//!     manager: 1,
//!     file: 0,
//!     now: 60,
//! })?;
//! assert_eq!(rt; world.pair(1, &engine), Pair::of(3, 100));
//! ```
#![tactic(auto)]

mod discover;
mod event;
mod file;
mod laws;
mod learning;
mod manager;
mod outcome;
mod pending;
mod replies;
mod requests;
mod steps;
mod target;
mod weighing;
mod world;
mod world_laws;

pub use event::{Event, WorldFault, WorldStopped};
pub use laws::{
    pieces_are_joined, same_authentic_same_latest, same_authentic_same_pairs,
    taken_holds_the_latest, takes_are_joined,
};
pub use learning::{is_fresh_once_learned, learn, pair_of};
pub use manager::Manager;
pub use outcome::{Outcome, Stopped};
pub use pending::{Answer, Pending};
pub use replies::{Report, answer_of, report_of, take_answer};
pub use target::Target;
pub use world::World;
pub use world_laws::{
    equal_knowledge_equal_marks, equal_knowledge_in_two_worlds, equal_pairs_known_equal_pairs,
    every_mark_has_an_origin, no_pair_goes_back, steps_leave_the_greatest,
};
