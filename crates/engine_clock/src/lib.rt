//! What an SNMP engine knows of the clocks of others (RFC 3414 section 2.3): for each engine the greatest pair of boots
//! and time that was received, joined in any order, saved as text and read again; and the time windows.
//!
//! ```
//! use engine_clock::{Clocks, EngineId, Pair};
//!
//! let engine = EngineId::of(b"\x80\x00\x1f\x88\x04k").ok_or("an engine ID")?;
//! let mut clocks = Clocks::new(rt.alloc());
//! clocks.learn(engine.clone()?, Pair::of(3, 100).ok_or("a pair")?, 50)?;
//! clocks.learn(engine.clone()?, Pair::of(2, 900).ok_or("a pair")?, 60)?;
//! assert_eq!(rt; clocks.pair(&engine), Pair::of(3, 100));
//! assert_eq!(rt; clocks.notion(&engine, 70), Some(120));
//! ```
#![tactic(auto)]

mod clocks;
mod engine_id;
mod join;
pub mod laws;
mod mark;
mod pair;
mod saved;
mod window;

pub use clocks::Clocks;
pub use engine_id::EngineId;
pub use join::Join;
pub use mark::Mark;
pub use pair::Pair;
pub use saved::ClockFault;
pub use window::{in_window_agent, in_window_manager};
