//! Users of the User-based Security Model (RFC 3414, sections 2.1 and 2.6): the rows that define them, a
//! table that finds a user by name, and localised keys that are kept for the next message.
//!
//! ```
//! use snmp_ber::Level;
//! use usm_keys::Auth;
//! use usm_users::{UserRow, table_of};
//!
//! let mut rows = Vec::new(rt.alloc());
//! rows.push(UserRow {
//!     name: b"ann".to_vec(rt.alloc())?,
//!     auth: Some((Auth::Sha256, b"maplesyrup".to_vec(rt.alloc())?)),
//!     privacy: None,
//! })?;
//! let table = table_of(rt.alloc(), &rows)?;
//! let user = table.user_named(b"ann").ok_or("a user")?;
//! assert!(rt; user.supports(Level::AuthNoPriv));
//! assert!(rt; !user.supports(Level::AuthPriv));
//! ```
//!
//! ```
//! use usm_keys::{Auth, localise, password_key};
//! use usm_users::{CachedKey, KeyCache, Purpose};
//!
//! const ENGINE: &[u8] = b"\x80\x00\x1f\x88\x04k";
//!
//! let key = localise(&password_key(Auth::Sha1, b"maplesyrup")?, ENGINE);
//! let mut cache = KeyCache::new(rt.alloc())?;
//! let made = Some(CachedKey::for_authentication(key));
//! cache.note_use(b"ann", ENGINE, Purpose::Authentication, made);
//! assert!(rt;
//!     cache
//!         .find(b"ann", ENGINE, Purpose::Authentication)
//!         .is_some()
//! );
//! assert!(rt; cache.find(b"ann", ENGINE, Purpose::Privacy).is_none());
//! ```
#![tactic(auto)]

mod cache;
mod cached_key;
mod credentials;
mod load;
mod user;
mod user_table;

pub use cache::{KeyCache, KeyId, Purpose};
pub use cached_key::CachedKey;
pub use credentials::Credentials;
pub use load::{UserFault, UserRow, places_of, table_of};
pub use user::{User, UserName};
pub use user_table::UserTable;
