//! A receiver of notifications for callers in other languages, with what it reported last and what is to be sent. Calls
//! take plain numbers and octets, and write into the caller's buffers. A value out of range is a fault of the call.
//!
//! ```
//! use listener_handles::{ListenerHandle, ListenerSettings, NotifyingSource};
//! use std::alloc::Global;
//!
//! /// Eve has no passwords.
//! const USERS: &[u8] = b"[[user]]\nname = 'eve'\n";
//!
//! /// coldStart, at noAuthNoPriv, from the engine "far" for user "eve".
//! static TRAP: &[u8] =
//!     b"\x30\x73\x02\x01\x03\x30\x0e\x02\x01\x09\x02\x03\x00\xff\xe3\x04\x01\x00\x02\x01\x03\
//! \x04\x1b\x30\x19\x04\x08\x80\x00\x1f\x88\x04far\x02\x01\x01\x02\x01\x05\x04\x03eve\x04\x00\x04\x00\
//! \x30\x41\x04\x08\x80\x00\x1f\x88\x04far\x04\x00\
//! \xa7\x33\x02\x01\x07\x02\x01\x00\x02\x01\x00\x30\x28\
//! \x30\x0d\x06\x08\x2b\x06\x01\x02\x01\x01\x03\x00\x43\x01\x05\
//! \x30\x17\x06\x0a\x2b\x06\x01\x06\x03\x01\x01\x04\x01\x00\x06\x09\x2b\x06\x01\x06\x03\x01\x01\x05\x01";
//!
//! /// Notifications without authentication are taken from one address.
//! fn listener(alloc: Global) -> Result<ListenerHandle, Fail> {
//!     let sources = [NotifyingSource {
//!         octets: b"192.0.2.1",
//!     }];
//!     let settings = ListenerSettings {
//!         least_level: 0,
//!         boots: 1,
//!         started: 0,
//!         clocks_moment: 0,
//!         most: 4_096,
//!         config: USERS,
//!         engine: b"\x80\x00\x1f\x88\x04own",
//!         clocks: b"snmp-clocks 2\n",
//!         sources: &sources,
//!     };
//!     Ok(ListenerHandle::of(alloc, &settings)?)
//! }
//!
//! /// What becomes of the Trap that comes from another address, then from this one, and then from this one again. And
//! /// how many copies are counted.
//! type Told = (u32, u32, u32, u64);
//!
//! fn told_by(listener: &mut ListenerHandle) -> Result<Told, Fail> {
//!     let other = listener.take(60, b"198.51.100.1", TRAP, 1)?;
//!     let first = listener.take(60, b"192.0.2.1", TRAP, 2)?;
//!     let again = listener.take(60, b"192.0.2.1", TRAP, 3)?;
//!     let copies = listener.count(23)?;
//!     Ok((other.number(), first.number(), again.number(), copies))
//! }
//!
//! fn told(alloc: Global) -> Result<Told, Fail> {
//!     let mut listener = listener(alloc)?;
//!     let told = told_by(&mut listener);
//!     drop(listener);
//!     told
//! }
//!
//! let (other, first, again, copies) = told(rt.alloc())?;
//! assert_eq!(rt; (other, first, again), (21, 1, 23));
//! assert_eq!(rt; copies, 1);
//! ```
#![tactic(auto)]

mod event;
mod handle;
mod laws;
mod rules;
mod settings;

pub use event::ListenerEvent;
pub use handle::ListenerHandle;
pub use laws::a_handle_listens;
pub use settings::{ListenerSettings, NotifyingSource};
