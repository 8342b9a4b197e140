//! What the commands of `snmpsec` print of a message, of an answer on access, of a configuration and of saved
//! clocks, and their status. `open` uses the keys of users.
//!
//! ```
//! use snmpsec_output::show_text;
//!
//! let output = show_text(rt.alloc(), "3005")?;
//! assert_eq!(rt;
//!     output.out.as_slice(),
//!     b"refused 1 NotMessage at 0\n".as_slice()
//! );
//! assert_eq!(rt; output.status, 1);
//! ```
#![tactic(auto)]

mod arguments;
mod causes;
mod check;
mod check_config;
mod choices;
mod clocks;
mod community;
mod counters;
mod explain;
mod laws;
mod lines;
mod merge;
mod messages;
mod names;
mod near_names;
mod open;
mod opened;
mod output;
mod refusal_text;
mod seen_lines;
mod sees;
mod show;
mod steps;
mod variables;
mod who_sees;
mod words;

pub use arguments::argument_words;
pub use check::check_text;
pub use check_config::{check_config_hinted, check_config_text, refusal_and_why};
pub use community::{show_any_version, show_any_version_text};
pub use explain::explain_text;
pub use laws::one_opening;
pub use merge::{merge_text, refused_clocks};
pub use near_names::group_why;
pub use open::{open_datagram, open_named};
pub use output::Output;
pub use sees::sees_text;
pub use show::{show_datagram, show_named, show_text};
pub use who_sees::who_text;
pub use words::{model_of, moment_of};
