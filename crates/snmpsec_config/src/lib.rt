//! The configuration: users, contexts, groups, access rows and view families, as arrays of tables in TOML.
//!
//! `Config::read` promises which rows a text stands for, and why a text is refused. A fault of a key says
//! which key and what is wanted there. `AccessConfig::read` does the same without the keys of the users'
//! passwords.
//!
//! ```
//! use snmpsec_config::Config;
//!
//! let config = Config::read(rt.alloc(), b"[[user]]\nname = 'eve'\n")?;
//! assert_eq!(rt; config.users.cached(), 0);
//! assert!(rt; Config::read(rt.alloc(), b"[[user]]\nnam = 'eve'\n").is_err());
//! ```
#![tactic(auto)]

mod config;
mod fault;
mod keys;
mod laws;
mod near;
mod nesting;
mod rows;
mod shown;
mod table;
mod wanted;
mod words;

pub use config::{
    AccessConfig, Config, ConfigRows, document_of, is_array_of_tables, read_rows, values_at,
};
pub use fault::{ConfigFault, KeyFault, LoadFault};
pub use laws::one_configuration;
pub use near::likeness;
pub use rows::{Row, RowFault};
pub use shown::shown_key;
pub use table::{ConfigKey, ConfigTable};
pub use wanted::Wanted;
pub use words::{level_of, level_word};
