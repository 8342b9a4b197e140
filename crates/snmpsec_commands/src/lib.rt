//! The commands of `snmpsec`: from the command line and the files that it names to what is printed, and the status;
//! and what the programs of import-snmpd and diagnose have in common with it.
//!
//! ```
//! use snmpsec_commands::replay::{Beginning, ReplayEnd, replay};
//! use snmpsec_replay::Printing;
//!
//! let beginning = Beginning {
//!     moment: 0,
//!     config: b"",
//!     clocks_name: "clocks",
//!     clocks: b"snmp-clocks 2\n",
//! };
//! let printing = Printing {
//!     first: 1,
//!     lines: true,
//! };
//! let mut log = b"1700000000 3005\n".as_slice();
//! let mut answers: Vec<u8> = Vec::new(rt.alloc());
//! let end = replay(rt.alloc(), beginning, printing, &mut log, &mut answers)?;
//! assert!(rt; matches!(end, ReplayEnd::Replayed));
//! let wanted = b"1 1700000000 refused 1 NotMessage\nsnmp-clocks 2\n";
//! assert_eq!(rt; answers.as_slice(), wanted.as_slice());
//! ```
#![tactic(auto)]

mod access;
mod arguments;
mod checks;
mod command;
mod complaint;
mod datagrams;
mod files;
mod log;
mod merge;
mod piped;
pub mod replay;
mod replay_source;
pub mod run;
mod source_log;

pub use command::Snmpsec;
pub use complaint::Complaint;
pub use datagrams::{SourceOptions, print_source, stop, wanted_of};
pub use files::{Source, log_of, octets_of};
pub use source_log::{FaultPlace, RefusalLine, SourceLog};
