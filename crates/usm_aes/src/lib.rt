//! AES-128 (FIPS 197) and its cipher feedback mode as SNMPv3 uses it for privacy (RFC 3826).
//!
//! A key is [`expand`]ed once to its [`Schedule`]. [`cfb_seal`] and [`cfb_open`] work in place on
//! texts of any length, under the [`iv`] of the message. No call takes memory, and none refuses.
//!
//! ```
//! use usm_aes::{cfb_open, cfb_seal, expand, iv};
//!
//! let schedule = expand(&[7; 16]);
//! let mut text = *b"any length will do";
//! cfb_seal(&schedule, iv(3, 100, &[0, 0, 0, 0, 0, 0, 0, 1]), &mut text);
//! assert!(rt; text != *b"any length will do");
//! cfb_open(&schedule, iv(3, 100, &[0, 0, 0, 0, 0, 0, 0, 1]), &mut text);
//! assert_eq!(rt; text, *b"any length will do");
//! ```
#![tactic(auto)]

pub use cipher::encrypt_block;
pub use feedback::{cfb_open, cfb_seal, iv};
pub use key_expansion::{Schedule, expand};

mod cipher;
mod feedback;
mod field;
mod key_expansion;
mod lanes;
pub mod laws;
