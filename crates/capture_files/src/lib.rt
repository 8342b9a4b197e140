//! The datagrams of a capture (pcap, pcapng): the packets of a file, the UDP datagram that a packet carries
//! whole, and why a packet carries none.
//!
//! ```
//! use capture_files::begins_capture;
//!
//! assert!(rt; begins_capture(b"\xd4\xc3\xb2\xa1\x02\x00\x04\x00"));
//! assert!(rt; !begins_capture(b"30 38 02 01 03"));
//! ```
//!
//! ```
//! use capture_files::{Found, find_datagram};
//!
//! let packet =
//!     b"E\0\0\x1e\0\0\0\0\x40\x11\0\0\xc0\0\x02\x01\xc0\0\x02\x02\x9c\x40\0\xa1\0\x0a\0\0hi";
//! let found = Found::Datagram {
//!     source: 40_000,
//!     destination: 161,
//!     octets: b"hi",
//! };
//! assert_eq!(rt; find_datagram(101, packet, true), found);
//! ```
#![tactic(auto)]

mod blocks;
mod datagrams;
mod endpoints;
mod fault;
mod field;
mod format;
mod interface;
mod item;
mod log_lines;
mod packet;
mod packets;
mod pcap;
mod pcapng;
mod printer;
mod tally;

pub use datagrams::print_datagrams_behind;
pub use endpoints::{Route, SNMP_PORTS, route_of};
pub use fault::CaptureFault;
pub use field::{Order, read_16_by, read_32, read_64};
pub use format::begins_capture;
pub use log_lines::log_line;
pub use packet::{Found, find_datagram};
pub use packets::{PacketLog, packets_log};
pub use pcap::HEADER;
pub use printer::{Lines, Printed, Printer};
pub use tally::{Reason, Tally};
