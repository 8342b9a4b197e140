//! What the C in `lib/src` calls, for programs in C, Rust and Python.
//!
//! An export on a handle takes a pointer that its `_new` wrote; what lies there is lent to one call and comes
//! back as its contract says. All other arguments may be anything: what is out of range is answered by a
//! number. A number answers each call: 0 where it was done, 1 to 18 for a refusal by its number, and a
//! negative one for a fault of the call. Keys, codes, sealed texts and bindings need no handle: those exports
//! keep nothing between two calls.
#![tactic(auto)]

pub mod accepted;
pub mod agent;
pub mod agent_asked;
mod agent_calls;
mod answers;
pub mod bindings;
pub mod configuration;
mod copied;
mod counters;
pub mod devices;
pub mod dispatch;
pub mod forward;
pub mod forward_asked;
mod forward_calls;
pub mod gate;
pub mod gate_asked;
mod gate_calls;
mod gate_copied;
pub mod kept;
mod kept_calls;
pub mod keys;
pub mod listener;
pub mod listener_asked;
mod listener_calls;
pub mod manager;
pub mod manager_asked;
mod manager_calls;
pub mod privacy;
mod requests;
mod responses;
pub mod scoped;
