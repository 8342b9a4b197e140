//! The part of the Basic Encoding Rules that SNMP uses (X.690; RFC 3417, section 8), and SNMP's security levels.
//!
//! Elements, INTEGERs and OBJECT IDENTIFIERs are read from slices, without memory, and appended to a `Vec` in their
//! shortest spelling.
//!
//! ```
//! use snmp_ber::{Oid, read_int, read_tlv};
//!
//! let element = read_tlv(&[0x02, 0x02, 0x01, 0x00], 0, 4)?;
//! assert_eq!(rt; element.tag, 0x02);
//! assert_eq!(rt; read_int(element.content), Some(256));
//! let system = Oid::from_text("1.3.6.1").ok_or("arcs")?;
//! assert_eq!(rt; system.as_slice(), [1, 3, 6, 1].as_slice());
//! ```
#![tactic(auto)]

mod decimal;
mod element;
mod fault;
mod identifier;
mod laws;
mod level;
mod number;
mod object_name;
mod oid;
mod split;

pub use decimal::read_decimal;
pub use element::{Tlv, head_len, put_head, put_tlv, read_tlv};
pub use fault::BerFault;
pub use identifier::{is_oid, oid_len, put_oid, read_oid};
pub use laws::{one_element, one_identifier, one_integer};
pub use level::{Level, levels_rise};
pub use number::{MAX_INTEGER32, int_content, is_unsigned64, put_int, read_int, read_unsigned};
pub use object_name::ObjectName;
pub use oid::Oid;
pub use split::{find, split_once};
