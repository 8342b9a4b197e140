//! What `snmpsec diagnose` prints: who asked whom for what, and what became of it.
//!
//! ```
//! use diagnose_text::{DiagnoseOptions, Diagnoser};
//! use engine_clock::Clocks;
//! use usm_core::Users;
//!
//! let users = Users::load(rt.alloc(), &[])?;
//! let options = DiagnoseOptions::all(rt.alloc());
//! let mut diagnoser = Diagnoser::new(rt.alloc(), users, Clocks::new(rt.alloc()), None, options);
//! let (text, failed) = diagnoser.finish()?;
//! assert!(rt; text.starts_with(b"summary\n") && !failed);
//! ```
#![tactic(auto)]

mod agents;
mod answers;
mod bearing;
mod blocks;
mod counts;
mod diagnoser;
mod facts;
mod follower;
mod heads;
mod laws;
mod line;
mod names;
mod objects;
mod options;
mod others;
mod reading;
mod report;
mod summary;
mod unread;
mod unread_answers;
mod values;
mod view_lines;
mod views;

pub use diagnoser::Diagnoser;
pub use laws::{calls_print_as_one, each_exchange_is_of_its_own_datagrams};
pub use options::{DiagnoseOptions, NamedAgent, Style};
