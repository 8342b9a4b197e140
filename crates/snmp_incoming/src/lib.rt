//! What a datagram is answered: the table of refusals, from RFC 3412, section 7.2, and RFC 3414, section 3.2;
//! and what is given on of a datagram that none of them refuses.
//!
//! ```
//! use snmp_incoming::TakeFault;
//! use snmp_msg::Refusal;
//!
//! let fault = TakeFault::plain(Refusal::WrongDigest);
//! assert_eq!(rt;
//!     (fault.number(), fault.name(), fault.at),
//!     (9, "WrongDigest", None)
//! );
//! ```
#![tactic(auto)]

use snmp_msg::RefusedAt;

mod kept;
mod laws;
mod octets;
mod place;
mod reading;
mod taken;

pub use kept::Kept;
pub use laws::{bad_scoped_is_sealed, one_answer, one_text, replay_bound};
pub use octets::Octets;
pub use reading::{read_text, scoped_octets};
/// A refusal of a datagram, or of a message that was to go out: a `RefusedAt`.
pub use snmp_msg::RefusedAt as TakeFault;
pub use taken::Taken;
