//! A log of datagrams, taken by a manager line by line.
//!
//! ```
//! use engine_clock::Clocks;
//! use snmp_manager::Manager;
//! use snmpsec_replay::replay_log;
//! use std::io::BufReader;
//! use usm_core::Users;
//!
//! let users = Users::load(rt.alloc(), &[])?;
//! let manager = Manager::new(rt.alloc(), users, Clocks::new(rt.alloc()));
//! let mut log = BufReader::new(rt.alloc(), b"1700000000 3005\n".as_slice())?;
//! let mut answers: Vec<u8> = Vec::new(rt.alloc());
//! replay_log(rt.alloc(), manager, &mut log, &mut answers)?;
//! let wanted = b"1 1700000000 refused 1 NotMessage\nsnmp-clocks 2\n";
//! assert_eq!(rt; answers.as_slice(), wanted.as_slice());
//! ```
#![tactic(auto)]

mod checked;
mod entries;
mod fault;
mod laws;
mod line_fault;
mod log;
mod printing;
mod replay;

pub use checked::{CheckedLog, check_log};
pub use entries::{NextEntry, next_entry};
pub use fault::ReplayFault;
pub use laws::{one_log, pieces_of_logs_are_joined};
pub use line_fault::LogLineFault;
pub use log::{LINE_LIMIT, LoggedDatagram};
pub use printing::Printing;
pub use replay::{answer_line, replay_as, replay_log};
