//! A gateway for callers in other languages, with what its configuration says and what came of the last call. Calls
//! take plain numbers and octets, and write into the caller's buffers. A value out of range is a fault of the call.
//!
//! ```
//! use gate_handles::{GateEvent, GateHandle, GateText};
//! use std::alloc::Global;
//!
//! const TEXT: &[u8] = b"\
//! [gate]\nengine = '80001f8804676174652d31'\nboots = '/var/lib/snmpsec-gate/boots'\nlisten = ['192.0.2.1:161']\n\
//! [[device]]\ncontext = 'rack-1-pdu'\naddress = '10.1.0.7:161'\ncommunity = 'read-only'\n";
//!
//! /// Whether the first device has its address.
//! fn has_address(gate: &GateHandle) -> bool {
//!     let mut out = [0; 40];
//!     let mut written = 0;
//!     let told = gate.setting(GateText::Address, 0, &mut out, &mut written);
//!     told.is_ok() && written == 12 && out.starts_with(b"10.1.0.7:161")
//! }
//!
//! /// Whether the device has its address, whether what isn't a message is taken, and what is due then, and its number.
//! type Told = (bool, bool, u32, GateEvent);
//!
//! fn told_by(gate: &mut GateHandle) -> Result<Told, Fail> {
//!     let is_taken = gate.take_client(1000, b"client", b"no message").is_ok();
//!     let event = gate.next(1000, 1, 1)?;
//!     Ok((has_address(gate), is_taken, event.number(), event))
//! }
//!
//! fn told(alloc: Global) -> Result<Told, Fail> {
//!     let mut gate = GateHandle::of(alloc, TEXT, 1, 0)?;
//!     let told = told_by(&mut gate);
//!     drop(gate);
//!     told
//! }
//!
//! let (has_address, is_taken, number, event) = told(rt.alloc())?;
//! assert!(rt; has_address && !is_taken);
//! assert_eq!(rt; (number, event), (0, GateEvent::Nothing));
//! ```
#![tactic(auto)]

mod event;
mod forward;
mod forward_event;
mod forward_notes;
mod gate_notes;
mod gate_parts;
mod handle;
mod last;
mod laws;
mod line;
mod line_words;
mod making;
mod note;
mod setting;
mod told;

pub use event::GateEvent;
pub use forward::ForwardHandle;
pub use forward_event::ForwardEvent;
pub use forward_notes::ForwardInfo;
pub use handle::GateHandle;
pub use laws::a_handle_mediates;
pub use making::{GATHERED, INFORMS_LIMIT, JOINED, NAMES};
pub use note::GateInfo;
pub use setting::GateText;
pub use told::{copied_user, tell_gate_config};
