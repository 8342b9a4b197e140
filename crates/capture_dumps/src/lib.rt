//! Octets as text: pasted hex, and dumps, which are lines that begin with the offset of their first octet and
//! may end with a column of characters.
//!
//! ```
//! use capture_dumps::read_dumps;
//!
//! let dumps = read_dumps(rt.alloc(), b"00000000  30 03 02 01 03  |0....|\n00000005\n")?;
//! assert_eq!(rt; dumps.len(), 1);
//! assert_eq!(rt; dumps[0].as_slice(), b"\x30\x03\x02\x01\x03".as_slice());
//! ```
//!
//! ```
//! use capture_dumps::read_hex;
//!
//! let octets = read_hex(rt.alloc(), b"0x30, 0x03,\n02:01 AF\n")?;
//! assert_eq!(rt; octets.as_slice(), b"\x30\x03\x02\x01\xaf".as_slice());
//! ```
#![tactic(auto)]

mod base;
mod column;
mod dump;
mod dumps;
pub mod hex_laws;
pub mod laws;
mod line;
mod offset;
mod part;
mod place;
mod row;
mod text;

pub use dump::{blanks, colon_size, dump_line, is_blank, prefix_size};
pub use dumps::{DumpFault, read_dumps};
pub use part::digit_value;
pub use text::{HexFault, read_hex};
