//! The machine of a gateway between managers, which speak SNMPv3, and devices, which speak SNMPv2c: a command responder
//! whose instrumentation is asked over SNMPv2c (RFC 3413, section 3.2; RFC 1901).
//!
//! ```
//! use snmp_gate::{RememberedSets, ResponseStatus, SetNote, set_digest, set_outcome};
//!
//! let digest = set_digest(b"0\x03\x02\x01\x03");
//! let mut sets = RememberedSets::new(rt.alloc());
//! assert_eq!(rt; sets.note(1000, &digest)?, SetNote::New);
//! assert_eq!(rt; sets.note(2000, &digest)?, SetNote::Repeated(None));
//! let outcome = set_outcome(17, 1, 1);
//! assert_eq!(rt;
//!     outcome,
//!     ResponseStatus {
//!         status: 17,
//!         index: 1
//!     }
//! );
//! sets.tell(&digest, outcome);
//! assert_eq!(rt; sets.note(302_001, &digest)?, SetNote::New);
//! ```
//!
//! ```
//! use snmp_gate::{AccessRefusal, access_refusal};
//! use snmp_msg::PduType;
//! use vacm_core::Access;
//!
//! let set = PduType::SetRequest.tag();
//! let answers = [Access::AccessAllowed, Access::NotInView];
//! assert_eq!(rt; access_refusal(&answers[..1], set), None);
//! assert_eq!(rt;
//!     access_refusal(&answers, set),
//!     Some(AccessRefusal::NoAccess(2))
//! );
//! assert_eq!(rt; access_refusal(&answers, PduType::GetRequest.tag()), None);
//! assert_eq!(rt;
//!     access_refusal(&[Access::NoSuchView], set),
//!     Some(AccessRefusal::AuthorizationError)
//! );
//! ```
//!
//! ```
//! use snmp_gate::DeviceAsks;
//!
//! let mut asks = DeviceAsks::new(rt.alloc(), 2);
//! assert_eq!(rt; asks.ask(7, 0)?, 7);
//! assert_eq!(rt; asks.ask(7, 1)?, 8);
//! assert!(rt; asks.is_full());
//! assert_eq!(rt; asks.end(8), Some(1));
//! assert_eq!(rt; (asks.request(7), asks.end(8)), (Some(0), None));
//! ```
//!
//! ```
//! use snmp_ber::Level;
//! use snmp_gate::write_bulk_ask;
//! use snmp_msg::{Pdu, PduType};
//! use snmp_responder::Viewer;
//! use snmp_walk::{BulkAsk, BulkDialogue, BulkLimits, BulkNext};
//! use snmpsec_config::Config;
//! use std::alloc::Global;
//!
//! const TABLES: &[u8] = b"\
//! [[context]]\nname = ''\n\
//! [[group]]\nmodel = 3\nname = 'ann'\ngroup = 'readers'\n\
//! [[access]]\ngroup = 'readers'\nprefix = ''\nmatch = 'exact'\nmodel = 3\nlevel = 'noAuthNoPriv'\nread = 'all'\n\
//! [[family]]\nview = 'all'\nsubtree = '1.3'\ninclude = true\n";
//!
//! /// sysName, without a value.
//! const ASKED: &[u8] = b"\x30\x0b\x06\x07\x2b\x06\x01\x02\x01\x01\x05\x05\x00";
//!
//! const LIMITS: BulkLimits = BulkLimits {
//!     rounds: 64,
//!     repetitions: 32,
//!     at_once: 100,
//!     gathered: 262_028,
//! };
//!
//! /// What the device is asked, with the community "public" and request-id 99, for two repetitions.
//! const ASK: &[u8] = b"\x30\x25\x02\x01\x01\x04\x06public\
//! \xa5\x18\x02\x01\x63\x02\x01\x00\x02\x01\x02\x30\x0d\
//! \x30\x0b\x06\x07\x2b\x06\x01\x02\x01\x01\x05\x05\x00";
//!
//! /// What the dialogue for a request asks, and the datagram that asks it.
//! fn asked(alloc: Global, viewer: &Viewer<'_>) -> Result<(BulkNext, Vec<u8>), Fail> {
//!     let request = Pdu {
//!         tag: PduType::GetBulkRequest.tag(),
//!         id: 7,
//!         second: 0,
//!         third: 2,
//!         list: ASKED,
//!     };
//!     let mut dialogue = BulkDialogue::new(alloc, &request, &LIMITS)?;
//!     let next = dialogue.go_on(viewer);
//!     let by = BulkAsk::GetBulk(0, 2);
//!     let ask = write_bulk_ask(alloc, b"public", 99, by, &dialogue)?;
//!     Ok((next, ask))
//! }
//!
//! /// The same for ann.
//! fn asked_for_ann(alloc: Global) -> Result<(BulkNext, Vec<u8>), Fail> {
//!     let config = Config::read(alloc, TABLES)?;
//!     let viewer = Viewer {
//!         vacm: &config.access,
//!         model: 3,
//!         name: b"ann",
//!         level: Level::NoAuthNoPriv,
//!         context: b"",
//!     };
//!     let asked = asked(alloc, &viewer);
//!     drop(config);
//!     asked
//! }
//!
//! let (next, ask) = asked_for_ann(rt.alloc())?;
//! assert_eq!(rt; next, BulkNext::Asks(BulkAsk::GetBulk(0, 2)));
//! assert_eq!(rt; ask.as_slice(), ASK);
//! ```
//!
//! ```
//! use snmp_gate::{read_device_answer, write_set_ask};
//! use snmp_msg::read_pdu;
//!
//! /// A SetRequest of a manager: sysName.0 is to be "router".
//! static REQUEST: &[u8] = b"\xa3\x1f\x02\x01\x07\x02\x01\x00\x02\x01\x00\x30\x14\
//! \x30\x12\x06\x08\x2b\x06\x01\x02\x01\x01\x05\x00\x04\x06router";
//!
//! /// What the device is asked, with the community "write" and request-id 99.
//! static ASK: &[u8] = b"\x30\x2b\x02\x01\x01\x04\x05write\
//! \xa3\x1f\x02\x01\x63\x02\x01\x00\x02\x01\x00\x30\x14\
//! \x30\x12\x06\x08\x2b\x06\x01\x02\x01\x01\x05\x00\x04\x06router";
//!
//! /// What it answers: noError.
//! static ANSWER: &[u8] = b"\x30\x2b\x02\x01\x01\x04\x05write\
//! \xa2\x1f\x02\x01\x63\x02\x01\x00\x02\x01\x00\x30\x14\
//! \x30\x12\x06\x08\x2b\x06\x01\x02\x01\x01\x05\x00\x04\x06router";
//!
//! let request = read_pdu(REQUEST, 0, REQUEST.len())?;
//! let ask = write_set_ask(rt.alloc(), b"write", 99, &request)?;
//! assert_eq!(rt; ask.as_slice(), ASK);
//! let answer = read_device_answer(ANSWER).ok_or("an answer")?;
//! assert_eq!(rt; answer.community, b"write".as_slice());
//! assert_eq!(rt; (answer.pdu.id, answer.pdu.second), (99, 0));
//! assert!(rt; read_device_answer(ASK).is_none());
//! ```
//!
//! ```
//! use snmp_gate::{Device, Devices, RepeatedContext};
//! use std::alloc::{AllocError, Global};
//!
//! fn device(alloc: Global, context: &[u8]) -> Result<Device, AllocError> {
//!     Ok(Device {
//!         context: Vec::from_slice(alloc, context)?,
//!         community: Vec::from_slice(alloc, b"public")?,
//!         write_community: None,
//!         max_size: 1472,
//!         repetitions: 32,
//!         names: 100,
//!         at_once: 32,
//!     })
//! }
//!
//! /// Two devices, whose contexts are these.
//! fn two(alloc: Global, first: &[u8], second: &[u8]) -> Result<Vec<Device>, AllocError> {
//!     let mut list = Vec::new(alloc);
//!     list.push(device(alloc, first)?)?;
//!     list.push(device(alloc, second)?)?;
//!     Ok(list)
//! }
//!
//! /// Which of two devices have these contexts.
//! fn found(alloc: Global) -> Result<(Option<usize>, Option<usize>), Fail> {
//!     let list = two(alloc, b"rack-1-pdu", b"rack-2-pdu")?;
//!     let devices = Devices::new(list)?;
//!     let second = devices.find(b"rack-2-pdu");
//!     Ok((second, devices.find(b"rack-3-pdu")))
//! }
//!
//! /// Why no two devices have one context.
//! fn repeated(alloc: Global) -> Result<Option<RepeatedContext>, AllocError> {
//!     let same = two(alloc, b"rack-1-pdu", b"rack-1-pdu")?;
//!     Ok(Devices::new(same).err())
//! }
//!
//! assert_eq!(rt; found(rt.alloc())?, (Some(1), None));
//! let repeated = repeated(rt.alloc())?;
//! assert_eq!(rt; repeated, Some(RepeatedContext { number: 1 }));
//! ```
//!
//! ```
//! use snmp_ber::Level;
//! use snmp_gate::write_read_ask;
//! use snmp_msg::{Pdu, PduType};
//! use snmp_responder::Viewer;
//! use snmp_walk::{Dialogue, Next, ReadOperation};
//! use snmpsec_config::Config;
//! use std::alloc::Global;
//!
//! const TABLES: &[u8] = b"\
//! [[context]]\nname = ''\n\
//! [[group]]\nmodel = 3\nname = 'ann'\ngroup = 'readers'\n\
//! [[access]]\ngroup = 'readers'\nprefix = ''\nmatch = 'exact'\nmodel = 3\nlevel = 'noAuthNoPriv'\nread = 'all'\n\
//! [[family]]\nview = 'all'\nsubtree = '1.3'\ninclude = true\n";
//!
//! /// sysName, without a value.
//! const ASKED: &[u8] = b"\x30\x0b\x06\x07\x2b\x06\x01\x02\x01\x01\x05\x05\x00";
//!
//! /// What the device is asked, with the community "public" and request-id 99.
//! const ASK: &[u8] = b"\x30\x25\x02\x01\x01\x04\x06public\
//! \xa1\x18\x02\x01\x63\x02\x01\x00\x02\x01\x00\x30\x0d\
//! \x30\x0b\x06\x07\x2b\x06\x01\x02\x01\x01\x05\x05\x00";
//!
//! /// What the dialogue for a request asks, and the datagram that asks it.
//! fn asked(alloc: Global, viewer: &Viewer<'_>) -> Result<(Next, Vec<u8>), Fail> {
//!     let request = Pdu {
//!         tag: PduType::GetNextRequest.tag(),
//!         id: 7,
//!         second: 0,
//!         third: 0,
//!         list: ASKED,
//!     };
//!     let operation = ReadOperation::GetNext;
//!     let mut dialogue = Dialogue::new(alloc, viewer, operation, &request, 2)?;
//!     let next = dialogue.go_on(viewer);
//!     let ask = write_read_ask(alloc, b"public", 99, operation, &dialogue)?;
//!     Ok((next, ask))
//! }
//!
//! /// The same for ann.
//! fn asked_for_ann(alloc: Global) -> Result<(Next, Vec<u8>), Fail> {
//!     let config = Config::read(alloc, TABLES)?;
//!     let viewer = Viewer {
//!         vacm: &config.access,
//!         model: 3,
//!         name: b"ann",
//!         level: Level::NoAuthNoPriv,
//!         context: b"",
//!     };
//!     let asked = asked(alloc, &viewer);
//!     drop(config);
//!     asked
//! }
//!
//! let (next, ask) = asked_for_ann(rt.alloc())?;
//! assert_eq!(rt; next, Next::Asks);
//! assert_eq!(rt; ask.as_slice(), ASK);
//! ```
//!
//! ```
//! use snmp_ber::Level;
//! use snmp_gate::{ClientMessage, Joined, WaitingRequests};
//! use snmp_msg::{Pdu, PduType};
//!
//! let pdu = Pdu {
//!     tag: PduType::GetRequest.tag(),
//!     id: 7,
//!     second: 0,
//!     third: 0,
//!     list: b"",
//! };
//! let first = ClientMessage {
//!     client: b"192.0.2.9:50112",
//!     user: b"ann",
//!     level: Level::AuthPriv,
//!     engine: b"\x80\x00\x1f\x88\x04gate",
//!     context: b"rack-1-pdu",
//!     pdu,
//! };
//! let mut second = first;
//! second.pdu.id = 8;
//! assert!(rt; first.asks_again(&second));
//! let mut requests = WaitingRequests::new(rt.alloc(), 1024, 16);
//! assert_eq!(rt; requests.begin(rt.alloc(), "first", 0)?, 0);
//! assert_eq!(rt; requests.join(0, "second")?, Joined::Joined);
//! assert_eq!(rt; (requests.work(0, 1), requests.is_full()), (0, false));
//! assert_eq!(rt; requests.answer(0), "first");
//! assert_eq!(rt; requests.requests().len(), 1);
//! assert_eq!(rt; requests.answer(0), "second");
//! assert_eq!(rt; requests.requests().len(), 0);
//! ```
//!
//! ```
//! use snmp_gate::{Due, Retries, Timer};
//!
//! let retries = Retries {
//!     again: 1000,
//!     tries: 3,
//!     last: 5000,
//! };
//! let mut timer = Timer::new(100);
//! timer.ask(200);
//! assert_eq!(rt; timer.due_at(&retries), 1200);
//! assert_eq!(rt; timer.due(&retries, 1199), Due::Nothing);
//! assert_eq!(rt; timer.due(&retries, 1200), Due::AskAgain);
//! timer.ask(1200);
//! timer.ask(2200);
//! assert_eq!(rt; timer.due(&retries, 3200), Due::GiveUp);
//! assert_eq!(rt; timer.due(&retries.for_set(), 3200), Due::Nothing);
//! ```
#![tactic(auto)]

mod ask;
mod ask_device;
mod asks;
mod begin;
mod bulk_request;
mod client_message;
mod device_answer;
mod devices;
mod first_work;
mod gate;
mod hidden;
mod laws;
mod limits;
mod named_task;
mod next;
mod onward;
mod read_ask;
mod refused_access;
mod reply;
mod report;
mod request_tag;
mod requests;
mod retries;
mod set_answer;
mod set_ask;
mod sets;
mod take_client;
mod take_device;
mod task;
mod timer;
mod viewing;
mod waiting_message;
mod whole_dialogue;
mod work;

pub use asks::{DeviceAsk, DeviceAsks, REQUEST_IDS};
pub use bulk_request::write_bulk_ask;
pub use client_message::ClientMessage;
pub use device_answer::{DeviceAnswer, read_device_answer};
pub use devices::{Device, Devices, RepeatedContext};
pub use gate::{ClientTaken, DeviceTaken, Gate, Sent};
pub use laws::{
    a_client_sees_the_device, a_gateway_keeps_to_its_limits, a_gateway_mediates,
    a_message_without_an_answer_has_its_cause, a_report_has_its_cause, a_request_ends_in_time,
    a_request_is_one_question, a_set_goes_out_once, a_set_is_told_as_its_device_answered,
    an_answer_is_of_one_ask, an_answer_without_authentication_is_short,
    each_message_is_answered_once, messages_end_in_turn, what_never_came_is_in_no_history,
};
pub use limits::GateLimits;
pub use read_ask::{UNSPECIFIED, write_read_ask};
pub use refused_access::{AccessRefusal, access_refusal};
pub use reply::SHORT_ANSWER;
pub use requests::{Joined, WaitingRequest, WaitingRequests};
pub use retries::Retries;
pub use set_answer::{ResponseStatus, set_outcome};
pub use set_ask::{bindings_of, write_set_ask};
pub use sets::{REMEMBERED, RememberedSet, RememberedSets, SETS_LIMIT, SetNote, set_digest};
pub use timer::{Due, Timer, Turn};
pub use waiting_message::WaitingMessage;
pub use work::EndedBy;
