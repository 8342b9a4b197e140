//! Reads and writes of streams, and files that the command line names. An interrupted call is tried again.
//!
//! ```
//! use snmpsec_io::{read_full, write_whole};
//!
//! let mut text: Vec<u8> = Vec::new(rt.alloc());
//! write_whole(&mut text, b"snmp-clocks 2\n")?;
//! let mut first = [0; 4];
//! let mut reader = text.as_slice();
//! assert_eq!(rt; read_full(&mut reader, &mut first)?, 4);
//! assert_eq!(rt; first.as_slice(), b"snmp".as_slice());
//! ```
//!
//! ```
//! use snmpsec_io::{FileFault, read_file};
//!
//! let read = read_file(&rt, "no/such/file");
//! assert_eq!(rt; read.err(), Some(FileFault::CannotRead));
//! ```
#![tactic(auto)]

mod digits;
mod fault;
mod files;
mod quoted;
mod transfer;
mod watched;
mod whole;

pub use digits::{DigitsFault, digits_fault, octet_digits_fault};
pub use fault::ReadFault;
pub use files::{load_file, open_log, read_file};
pub use quoted::{Excerpt, Quoted};
pub use transfer::{Failed, TRIES, read_full, read_octet, read_some, write_whole};
pub use watched::Watched;
pub use whole::{FILE_LIMIT, FileFault, read_whole, read_whole_behind};
