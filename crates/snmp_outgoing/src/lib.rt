//! What goes out: the body of a message and its envelope, and the one way of writing them.
//!
//! ```
//! use snmp_outgoing::Counter;
//!
//! let name = Counter::UnknownPduHandlers.name();
//! assert_eq!(rt; name, [1, 3, 6, 1, 6, 3, 11, 2, 1, 3, 0].as_slice());
//! ```
#![tactic(auto)]

mod body;
mod count;
mod counter;
mod envelope;
mod front;
mod laws;
mod measured;
mod sending;

pub use body::Body;
pub use count::count_within;
pub use counter::{Counter, counter_name};
pub use envelope::Envelope;
pub use front::{Front, Fronted};
pub use laws::{request_is_accepted, sealed_is_accepted, spoken_is_accepted};
pub use sending::{supports, write_body, write_body_of, write_front, write_plain, write_within};
