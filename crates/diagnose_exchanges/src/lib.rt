//! Exchanges in a capture: which answer is of which request, and which datagram is a copy of one before.
//!
//! ```
//! use diagnose_exchanges::{Copies, digest_of};
//!
//! let digest = digest_of(b"10.0.0.9:40001 > 10.0.0.5:161", b"0\x03\x02\x01\x03");
//! let mut copies = Copies::new(rt.alloc());
//! assert!(rt; copies.note(digest, 1)? == None);
//! assert!(rt; copies.note(digest, 2)? == Some(1) && !copies.is_full());
//! ```
#![tactic(auto)]

mod asked;
mod copies;
mod exchange;
mod exchanges;
mod laws;
mod waiting;

pub use asked::Asked;
pub use copies::{COPIES_LIMIT, Copies, digest_of};
pub use exchange::{Claim, Ending, Exchange};
pub use exchanges::{EXCHANGES_LIMIT, Exchanges};
pub use laws::{
    each_datagram_is_in_one_exchange, each_exchange_holds_what_its_datagrams_gave,
    each_request_is_counted_once,
};
pub use waiting::Waiting;
