//! SNMPv3 messages (RFC 3412, section 6; RFC 3414, section 2.4; RFC 3416, section 3), read and written: PDUs
//! and their variable bindings, and messages with all their layers.
//!
//! Each layer of a message is read from slices of the datagram, without memory, and written in its canonical
//! spelling, in which every length is the shortest. The outer layers stand in `snmp_message`, and are to be
//! had here under the same names.
//!
//! ```
//! use snmp_msg::{PduType, read_pdu};
//!
//! /// A GetRequest of sysName.0.
//! static REQUEST: &[u8] =
//!     b"\xa0\x19\x02\x01\x07\x02\x01\x00\x02\x01\x00\x30\x0e\x30\x0c\x06\x08\x2b\x06\x01\x02\x01\x01\x05\x00\x05\x00";
//!
//! let pdu = read_pdu(REQUEST, 0, REQUEST.len())?;
//! assert_eq!(rt; (pdu.tag, pdu.id), (PduType::GetRequest.tag(), 7));
//! let variable = pdu.bindings().next().ok_or("a binding")?;
//! assert_eq!(rt;
//!     variable.name.as_slice(),
//!     [1, 3, 6, 1, 2, 1, 1, 5, 0].as_slice()
//! );
//! ```
#![tactic(auto)]

mod binding;
mod laws;
mod list;
mod pdu;
mod pdu_type;
mod value;
mod variable;
mod whole;

pub use binding::{Binding, Bindings, VarBind, read_binding};
pub use laws::{canonical_again, one_pdu, one_whole, pdu_written_again};
pub use list::{Spelled, binding_len, bindings_len};
pub use pdu::{Pdu, put_pdu_of, read_pdu, write_pdu, write_pdu_of, written_pdu_len};
pub use pdu_type::{PduType, is_confirmed, is_pdu_tag};
pub use snmp_message::{
    Cut, Data, Header, LARGEST, Message, Refusal, RefusedAt, Scoped, ScopedPlace, Security,
    USER_BASED, cut, field_filled, longer_whole, message_size, one_content, one_cut, one_message,
    place_scoped_front, plain_from_data, read_message, read_scoped, read_scoped_front,
    read_security, whole_slice, write_message, write_scoped, write_security, written_again,
};
/// Why a layout isn't read: a `RefusedAt`.
pub use snmp_message::RefusedAt as MsgFault;
/// Why there is no canonical spelling: a `RefusedAt`.
pub use snmp_message::RefusedAt as CanonFault;
pub use value::{COUNTER32, Syntax, value_is};
pub use variable::{VariableBinding, VariableBindings};
pub use whole::{Layer, Layers, canonical, read_layers, write_layers};
