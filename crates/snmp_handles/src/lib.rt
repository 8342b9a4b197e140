//! An agent and a manager for callers in other languages. Each keeps the message that it accepted last and
//! the message that it wrote last. Calls take plain numbers and octets, and write into the caller's buffers.
//! A value out of range is a fault of the call.
//!
//! ```
//! use snmp_handles::AgentHandle;
//!
//! let config = b"[[user]]\nname = 'eve'\n";
//! let mut agent = AgentHandle::of(rt.alloc(), config, b"\x80\x00\x1f\x88\x04k", 1, 0)?;
//! assert!(rt; agent.take(1000, b"no message").is_err());
//! assert_eq!(rt; agent.counter(4)?, 0);
//! ```
//!
//! ```
//! use snmp_handles::{CallFault, code_of, read_binding_at};
//!
//! let list = b"\x30\x07\x06\x03\x2b\x06\x01\x05\x00";
//! let mut arcs = [0; 128];
//! let mut numbers = [0; 5];
//! read_binding_at(list, 0, &mut arcs, &mut numbers)?;
//! assert_eq!(rt; &arcs[..4], [1, 3, 6, 1].as_slice());
//! assert_eq!(rt; numbers, [4, 5, 9, 0, 9]);
//! assert_eq!(rt; code_of(Err(CallFault::ShortBuffer)), -5);
//! ```
#![tactic(auto)]

mod agent;
mod bindings;
mod configuration;
mod dispatch;
mod fault;
mod in_range;
mod kept;
mod manager;
mod many_requests;
mod numbers;
mod parts;
mod reports;
mod scoped;
mod sealing;
mod walks;

pub use agent::{AgentHandle, NoticeTo};
pub use bindings::{bindings_of, read_binding_at, write_binding};
pub use configuration::tell_config;
pub use fault::{CallFault, code_of, status_code_of, unhandled_code_of};
pub use kept::KeptHandle;
pub use manager::{AskedOf, ManagerHandle};
pub use numbers::{counter_of, level_of, unhandled_of, view_of};
pub use parts::{Part, copied_message, copied_part, max_size_of, numbers_of};
pub use scoped::{ScopedOf, write_scoped_pdu};
pub use sealing::SealedOf;
