//! The user-based security model for SNMPv3 (RFC 3414): what users with the keys of their passwords make of a
//! message that comes in or goes out.
//!
//! ```
//! use usm_core::{Role, Users};
//!
//! let mut users = Users::load(rt.alloc(), &[])?;
//! let answer = users.open_auth(Role::Manager, &[0x30, 0x05]).err();
//! let answer = answer.map(|refused| (refused.name(), refused.at));
//! assert_eq!(rt; answer, Some(("NotMessage", Some(0))));
//! ```
#![tactic(auto)]

use snmp_message::RefusedAt;

mod checked;
mod digest;
mod laws;
mod layout;
mod privacy;
mod seal;
mod size;
mod spell;
mod users;
mod verify;

pub use checked::{Checked, Role};
pub use laws::{
    one_answer, one_authentic, one_sealed, sealed_is_authentic, sealed_is_opened, sealed_is_read,
    sealed_says, sealed_size, some_sealed, users_by_name, verified_was_read,
};
pub use layout::{Layout, read_layout};
pub use users::Users;
/// A refusal of the user-based security model: a `RefusedAt`.
pub use snmp_message::RefusedAt as UsmFault;
pub use usm_users::{UserFault, UserRow};
