//! The requests of a manager, many at once: which of them an accepted message answers (RFC 3412, section 7.2), and what
//! is sent to a device whose engine ID, or whose boots and time, may be unknown (RFC 3414, section 4).
//!
//! ```
//! use engine_clock::Clocks;
//! use snmp_manager::Manager;
//! use snmp_requests::{OutstandingRequests, message_id};
//! use usm_core::Users;
//!
//! let users = Users::load(rt.alloc(), &[])?;
//! let manager = Manager::new(rt.alloc(), users, Clocks::new(rt.alloc()));
//! let mut requests = OutstandingRequests::new(rt.alloc());
//! assert!(rt; !requests.is_full());
//! let token = requests.next_token(7).ok_or("a token")?;
//! let (_datagram, pending) = manager.discover(message_id(token))?;
//! requests.add(token, pending, &[], &[])?;
//! assert_eq!(rt; (token, requests.next_token(7)), (7, Some(8)));
//! assert!(rt; requests.give_up(token));
//! assert!(rt; !requests.give_up(token));
//! ```
//!
//! ```
//! use snmp_ber::Level;
//! use snmp_requests::{DeviceRequest, Heard, Known, NextStep, SentMessage};
//!
//! let mut exchange = DeviceRequest::new(Level::AuthPriv, Known::Nothing);
//! assert_eq!(rt; exchange.sent, Some(SentMessage::Discovery));
//! let unknown_engine = Heard::Report {
//!     counter: 4,
//!     authentic: false,
//! };
//! assert_eq!(rt;
//!     exchange.hear(unknown_engine, false),
//!     NextStep::Send(SentMessage::TimeRequest)
//! );
//! let not_in_window = Heard::Report {
//!     counter: 2,
//!     authentic: true,
//! };
//! assert_eq!(rt;
//!     exchange.hear(not_in_window, true),
//!     NextStep::Send(SentMessage::Request)
//! );
//! assert_eq!(rt;
//!     exchange.hear(not_in_window, true),
//!     NextStep::Send(SentMessage::Request)
//! );
//! assert_eq!(rt; exchange.level(SentMessage::Request), Level::AuthPriv);
//! assert_eq!(rt; exchange.hear(not_in_window, true), NextStep::Refused(2));
//! ```
#![tactic(auto)]

mod answered;
mod device_request;
mod laws;
mod outstanding;

pub use answered::AnsweredRequest;
pub use device_request::{DeviceRequest, Heard, Known, NextStep, SentMessage};
pub use laws::{
    a_device_is_asked_again_once, an_answer_is_of_one_request, no_request_is_sent_at_a_lower_level,
    no_unauthenticated_report_ends_a_request,
};
pub use outstanding::{
    MESSAGE_IDS, OutstandingRequest, OutstandingRequests, REQUESTS_LIMIT, message_id,
};
