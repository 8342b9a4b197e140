//! Keys and message authentication codes of the user-based security model for SNMPv3 (RFC 3414): from a
//! password to a key, from a key to an engine's own key, and the code of a message, with MD5, SHA-1
//! and SHA-256 (RFC 7860).
//! Nothing here takes memory.
//!
//! ```
//! use usm_keys::{Auth, localise, password_key};
//!
//! let key = password_key(Auth::Md5, b"maplesyrup")?;
//! let localised = localise(&key, &[0, 0, 0, 0, 0, 0, 0, 0, 0, 0, 0, 2]);
//! let wanted = b"\x52\x6f\x5e\xed\x9f\xcc\xe2\x6f\x89\x64\xc2\x93\x07\x87\xd8\x2b";
//! assert_eq!(rt; localised.as_slice(), wanted.as_slice());
//! ```
#![tactic(auto)]

pub use auth::Auth;
pub use derivation::{MIN_PASSWORD, ShortPassword, localise, password_key};
pub use hash::AuthHash;
pub use kept_key::KeptKey;
pub use key::Key;
pub use message_mac::mac;

mod auth;
mod cycle;
mod derivation;
mod hash;
mod hashes;
mod kept_key;
mod key;
mod message_mac;
mod pads;
