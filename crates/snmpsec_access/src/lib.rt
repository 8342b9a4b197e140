//! Who may see what, over all questions that a configuration can answer (RFC 3415, section 3), and what in a
//! configuration is probably a mistake: a name of one table that no row of another has, or a write view
//! without authentication.
//!
//! ```
//! use snmpsec_access::{access_word, name_text, view_word};
//! use vacm_core::{Access, ViewType};
//!
//! assert_eq!(rt; view_word(ViewType::Read), "read");
//! assert_eq!(rt; access_word(Access::NotInView), "notInView");
//! let word = name_text(rt.alloc(), b"tom tom")?;
//! assert_eq!(rt; word.as_str(), "\"tom tom\"");
//! ```
//!
//! ```
//! use snmpsec_access::hint_text;
//! use snmpsec_config::AccessConfig;
//! use std::alloc::{AllocError, Global};
//!
//! /// What is probably a mistake in a configuration.
//! fn hints(alloc: Global, text: &[u8]) -> Result<Vec<u8>, AllocError> {
//!     let config = AccessConfig::read(alloc, text).map_err(|_| AllocError)?;
//!     hint_text(alloc, text, &config.rows)
//! }
//!
//! let text = b"[[group]]\nmodel = 3\nname = 'ann'\ngroup = 'g'\n";
//! let hints = hints(rt.alloc(), text)?;
//! assert!(rt; hints.starts_with(b"snmpsec: group 0, line 1: "));
//! ```
#![tactic(auto)]

mod deciding;
mod explainer;
mod extent;
mod headings;
mod hint;
mod known;
mod laws;
mod lines;
mod names;
mod names_printed;
mod row_hints;
mod subtrees;
mod users;
mod viewer;
mod who;
mod words;

pub use deciding::Deciding;
pub use explainer::Explainer;
pub use extent::Extent;
pub use hint::{Hint, Oddity};
pub use laws::{name_is_read_back, no_other_sees};
pub use lines::hint_text;
pub use names_printed::{context_text, name_text, quoted_text};
pub use row_hints::hints;
pub use viewer::{Seen, any_includes, sees};
pub use who::{AllowedAsker, WhoSeesQuery, who_sees};
pub use words::{access_word, view_word};
