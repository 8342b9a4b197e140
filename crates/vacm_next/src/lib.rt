//! The next name that a message may see (RFC 3415, section 3), for walks: RFC 3416, sections 4.2.2 and 4.2.3.
//!
//! ```
//! use snmp_ber::{Level, Oid};
//! use std::alloc::Global;
//! use vacm_core::{ContextRow, GroupRow, Name, Rows, Vacm, ViewType};
//! use vacm_next::next_in_view;
//!
//! /// Puts ann into the group of readers.
//! fn add_ann(rows: &mut Rows) -> Result<(), Fail> {
//!     let context = Name::of(b"").ok_or("a name")?;
//!     rows.contexts.push(ContextRow { name: context })?;
//!     let name = Name::of(b"ann").ok_or("a name")?;
//!     let group = Name::of(b"readers").ok_or("a name")?;
//!     rows.groups.push(GroupRow {
//!         model: 3,
//!         name,
//!         group,
//!     })?;
//!     Ok(())
//! }
//!
//! /// Tables in which the group of readers has no access row.
//! fn tables(alloc: Global) -> Result<Vacm, Fail> {
//!     let mut rows = Rows {
//!         contexts: Vec::new(alloc),
//!         groups: Vec::new(alloc),
//!         access: Vec::new(alloc),
//!         families: Vec::new(alloc),
//!     };
//!     add_ann(&mut rows)?;
//!     Ok(Vacm::load(alloc, &rows)?)
//! }
//!
//! /// The next name from here on that ann may see.
//! fn next_name(alloc: Global, from: &Oid) -> Result<Option<Oid>, Fail> {
//!     let vacm = tables(alloc)?;
//!     let level = Level::AuthPriv;
//!     let next = next_in_view(&vacm, 3, b"ann", level, ViewType::Read, b"", from);
//!     drop(vacm);
//!     Ok(next)
//! }
//!
//! let from = Oid::from_text("1.3.6.1.2.1").ok_or("arcs")?;
//! let next = next_name(rt.alloc(), &from)?;
//! assert_eq!(rt; next.is_none(), true);
//! ```
#![tactic(auto)]

mod arc;
mod name;
mod next;
mod opening;
mod walk;

pub use next::next_in_view;
pub use opening::opens;
pub use walk::walk_from;
