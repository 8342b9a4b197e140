//! Messages of version-1 and SNMPv2c: a version, a community and a PDU (RFC 1157, section 4; RFC 1901, section 3),
//! read and written.
//!
//! A message is read from slices of the datagram, without memory, and written in its canonical spelling, in which
//! every length is the shortest. Its PDU is read and written by `snmp_msg`.
//!
//! ```
//! use snmp_community::{
//!     Version, read_community_message, read_community_pdu, write_community_message,
//! };
//! use snmp_msg::PduType;
//!
//! /// A GetRequest of sysName.0, with the community "public".
//! static REQUEST: &[u8] = b"\x30\x26\x02\x01\x01\x04\x06public\
//! \xa0\x19\x02\x01\x07\x02\x01\x00\x02\x01\x00\x30\x0e\x30\x0c\x06\x08\x2b\x06\x01\x02\x01\x01\x05\x00\x05\x00";
//!
//! let message = read_community_message(REQUEST)?;
//! assert_eq!(rt; (message.version, message.pdu_at), (Version::Version2c, 13));
//! assert_eq!(rt; message.community, b"public".as_slice());
//! let pdu = read_community_pdu(REQUEST, &message)?;
//! assert_eq!(rt; (pdu.tag, pdu.id), (PduType::GetRequest.tag(), 7));
//! let again = write_community_message(
//!     rt.alloc(),
//!     message.version,
//!     message.community,
//!     message.pdu,
//! )?;
//! assert_eq!(rt; again.as_slice(), REQUEST);
//! ```
#![tactic(auto)]

mod bindings;
mod laws;
mod message;
mod version;
mod writing;

pub use bindings::{CommunityFront, write_community_bindings};
pub use laws::{community_written_again, one_community_fault, one_community_message};
pub use message::{CommunityMessage, read_community_message, read_community_pdu};
pub use version::Version;
pub use writing::write_community_message;
