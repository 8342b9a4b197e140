//! View-based access control (RFC 3415): contexts, groups, access rows and view tree families, and the
//! decision whether a message may see a variable. Tables keep rows in order, and find them by name.
//!
//! ```
//! use snmp_ber::{Level, Oid};
//! use std::alloc::Global;
//! use vacm_core::{Access, ContextRow, GroupRow, Name, Rows, Vacm, ViewType};
//!
//! /// Puts ann into the group of readers.
//! fn add_ann(rows: &mut Rows) -> Result<(), Fail> {
//!     let context = Name::of(b"").ok_or("a name")?;
//!     rows.contexts.push(ContextRow { name: context })?;
//!     let name = Name::of(b"ann").ok_or("a name")?;
//!     let group = Name::of(b"readers").ok_or("a name")?;
//!     rows.groups.push(GroupRow {
//!         model: 3,
//!         name,
//!         group,
//!     })?;
//!     Ok(())
//! }
//!
//! /// Tables in which the group of readers has no access row.
//! fn tables(alloc: Global) -> Result<Vacm, Fail> {
//!     let mut rows = Rows {
//!         contexts: Vec::new(alloc),
//!         groups: Vec::new(alloc),
//!         access: Vec::new(alloc),
//!         families: Vec::new(alloc),
//!     };
//!     add_ann(&mut rows)?;
//!     Ok(Vacm::load(alloc, &rows)?)
//! }
//!
//! /// What the tables answer to a name that reads a variable.
//! fn answer(vacm: &Vacm, name: &[u8], variable: &Oid) -> Access {
//!     vacm.is_access_allowed(3, name, Level::AuthPriv, ViewType::Read, b"", variable)
//! }
//!
//! /// What they answer to ann and to bob, who read sysName.0.
//! fn answers(alloc: Global) -> Result<(Access, Access), Fail> {
//!     let variable = Oid::from_text("1.3.6.1.2.1.1.5.0").ok_or("arcs")?;
//!     let vacm = tables(alloc)?;
//!     let ann = answer(&vacm, b"ann", &variable);
//!     let bob = answer(&vacm, b"bob", &variable);
//!     drop(vacm);
//!     Ok((ann, bob))
//! }
//!
//! let (ann, bob) = answers(rt.alloc())?;
//! assert_eq!(rt; ann, Access::NoAccessEntry);
//! assert_eq!(rt; bob, Access::NoGroupName);
//! ```
//!
//! ```
//! use vacm_core::{GroupRow, Name, OrderedTable};
//!
//! /// A row of ann's under a security model.
//! fn row_of(model: u32) -> Option<GroupRow> {
//!     Some(GroupRow {
//!         model,
//!         name: Name::of(b"ann")?,
//!         group: Name::of(b"readers")?,
//!     })
//! }
//!
//! let mut rows = Vec::new(rt.alloc());
//! rows.push(row_of(2).ok_or("a row")?)?;
//! rows.push(row_of(3).ok_or("a row")?)?;
//! let table = OrderedTable::of(rt.alloc(), &rows)?;
//! assert_eq!(rt; table.rows_of(b"ann").first().map(|row| row.model), Some(3));
//! assert_eq!(rt; table.rows_of(b"bob").len(), 0);
//! ```
#![tactic(auto)]

mod access;
mod ask;
mod explain;
mod fault;
mod front;
pub mod laws;
mod mask;
mod name;
mod named_row;
mod place;
mod row;
mod rows;
mod steps;
mod table;
mod under;
mod vacm;
mod view;
mod view_rows;
mod wildcard;

pub use access::{Access, ViewType};
pub use fault::{Table, VacmFault};
pub use mask::Mask;
pub use name::Name;
pub use named_row::NamedRow;
pub use rows::{AccessRow, ContextRow, FamilyRow, GroupRow, Matching, Rows, arcs_order};
pub use steps::{AccessStep, Asking, ContextStep, Explained, GroupStep, ViewStep};
pub use table::OrderedTable;
pub use vacm::Vacm;
pub use view_rows::ViewRows;
