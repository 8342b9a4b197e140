//! What refusals mostly come from, and which counter a Report tells.
//!
//! ```
//! use snmp_message::Refusal;
//! use snmpsec_causes::{cause, counter_named};
//!
//! let counter = counter_named("1.3.6.1.6.3.15.1.1.5.0");
//! assert_eq!(rt; counter, Some("usmStatsWrongDigests"));
//! assert!(rt; cause(Refusal::WrongDigest).starts_with("the password or the hash"));
//! ```
#![tactic(auto)]

mod causes;
mod counters;

pub use causes::cause;
pub use counters::counter_named;
