//! What each datagram of a capture is, and what its receiver makes of it, judged by someone who reads the traffic of
//! engines: which of the two engines is authoritative (RFC 3414, section 1.5.1), and by whose time window.
//!
//! ```
//! use diagnose_judge::{Judged, Observer};
//! use engine_clock::Clocks;
//! use usm_core::Users;
//!
//! const DISCOVERY: &[u8] =
//!     b"08\x02\x01\x030\x0e\x02\x01\x01\x02\x03\0\xff\xe3\x04\x01\x04\x02\x01\x03\
//! \x04\x100\x0e\x04\0\x02\x01\0\x02\x01\0\x04\0\x04\0\x04\00\x11\x04\0\x04\0\xa0\x0b\
//! \x02\x01\0\x02\x01\0\x02\x01\00\0";
//!
//! let users = Users::load(rt.alloc(), &[])?;
//! let mut observer = Observer::new(users, Clocks::new(rt.alloc()));
//! let judged = observer.judge(7, DISCOVERY)?;
//! assert!(rt; matches!(&judged, Judged::Discovery));
//! ```
#![tactic(auto)]

mod discovery;
mod judged;
mod laws;
mod observer;

pub use judged::{Judged, Verdict};
pub use laws::requests_change_nothing;
pub use observer::Observer;
