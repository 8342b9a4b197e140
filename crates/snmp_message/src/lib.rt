//! The outer layers of SNMPv3 messages: the message, its security parameters and its ScopedPDU (RFC 3412,
//! section 6; RFC 3414, section 2.4), read and written.
//!
//! Each layer is read from slices of the datagram, without memory, and written in its canonical spelling, in
//! which every length is the shortest.
//!
//! ```
//! use snmp_message::{read_message, read_security};
//!
//! /// The request that a manager discovers an engine with (RFC 3414, section 4).
//! static DISCOVERY: &[u8] =
//!     b"\x30\x38\x02\x01\x03\x30\x0e\x02\x01\x01\x02\x03\x00\xff\xe3\x04\x01\x04\x02\x01\
//! \x03\x04\x10\x30\x0e\x04\x00\x02\x01\x00\x02\x01\x00\x04\x00\x04\x00\x04\x00\x30\x11\x04\x00\x04\x00\xa0\x0b\
//! \x02\x01\x01\x02\x01\x00\x02\x01\x00\x30\x00";
//!
//! let message = read_message(DISCOVERY)?;
//! assert_eq!(rt; (message.header.id, message.header.max_size), (1, 65507));
//! let security = read_security(DISCOVERY, &message)?;
//! assert_eq!(rt; (security.boots, security.user.len()), (0, 0));
//! ```
#![tactic(auto)]

mod field;
mod header;
mod laws;
mod message;
mod pieces;
mod refusal;
mod refused_at;
mod scoped;
mod scoped_pdu;
mod security;

pub use field::{
    INTEGER, OBJECT_IDENTIFIER, OCTET_STRING, SEQUENCE, element_len, integer_len, read_element,
    read_signed,
};
pub use header::{Header, USER_BASED};
pub use laws::{
    field_filled, longer_whole, message_size, one_content, one_cut, one_message, plain_from_data,
    whole_slice, written_again,
};
pub use message::{Data, LARGEST, Message, message_len, put_front, read_message, write_message};
pub use pieces::cut;
pub use refusal::Refusal;
pub use refused_at::RefusedAt;
pub use scoped::{
    Scoped, ScopedPlace, contexts_len, place_scoped_front, put_contexts, read_scoped,
    read_scoped_front, write_scoped,
};
pub use scoped_pdu::{ScopedOctets, ScopedPdu};
pub use security::{
    Cut, Security, is_short, put_security, read_security, security_len, write_security,
};
