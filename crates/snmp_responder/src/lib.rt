//! What a device answers by RFC 3416, sections 4.2.1 to 4.2.3, of those variables that a message may see.
//!
//! The answers are definitions (`specs`): they take the standard's words one by one, and say what faster agents,
//! gateways and walks have to answer. What stands here as code is who asks, and the exceptions.
//!
//! ```
//! use snmp_ber::{Level, Oid};
//! use snmp_responder::{Viewer, no_such_object};
//! use snmpsec_config::{Config, ConfigFault};
//! use std::alloc::Global;
//!
//! const TABLES: &[u8] = b"\
//! [[context]]\nname = ''\n\
//! [[group]]\nmodel = 3\nname = 'ann'\ngroup = 'readers'\n\
//! [[access]]\ngroup = 'readers'\nprefix = ''\nmatch = 'exact'\nmodel = 3\nlevel = 'noAuthNoPriv'\nread = 'all'\n\
//! [[family]]\nview = 'all'\nsubtree = '1.3'\ninclude = true\n";
//!
//! /// Whether ann may see the variable of this name.
//! fn is_seen(alloc: Global, name: &Oid) -> Result<bool, ConfigFault> {
//!     let config = Config::read(alloc, TABLES)?;
//!     let viewer = Viewer {
//!         vacm: &config.access,
//!         model: 3,
//!         name: b"ann",
//!         level: Level::NoAuthNoPriv,
//!         context: b"",
//!     };
//!     let seen = viewer.sees(name);
//!     drop(config);
//!     Ok(seen)
//! }
//!
//! let name = Oid::from_text("1.3.6.1.2.1.1.5.0").ok_or("arcs")?;
//! let hidden = Oid::from_text("2.1").ok_or("arcs")?;
//! assert!(rt; is_seen(rt.alloc(), &name)?);
//! assert!(rt; !is_seen(rt.alloc(), &hidden)?);
//! assert_eq!(rt; no_such_object(&hidden).tag, 0x80);
//! ```
#![tactic(auto)]

mod exception;
mod laws;
mod viewer;

pub use exception::{end_of_mib_view, no_such_object};
pub use laws::one_answer;
pub use viewer::Viewer;
