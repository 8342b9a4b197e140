//! One dialogue with a device: what it is asked for the bindings of a request, which of its answers fit, and what the
//! Response holds (RFC 3416, sections 4.2.1 to 4.2.3). Nothing is asked that the message may not see, and no value is
//! shown that the device didn't give.
//!
//! ```
//! use snmp_ber::{Level, Oid};
//! use snmp_responder::Viewer;
//! use snmp_walk::{Column, ReadOperation};
//! use snmpsec_config::Config;
//! use std::alloc::{AllocError, Global};
//!
//! const TABLES: &[u8] = b"\
//! [[context]]\nname = ''\n\
//! [[group]]\nmodel = 3\nname = 'ann'\ngroup = 'readers'\n\
//! [[access]]\ngroup = 'readers'\nprefix = ''\nmatch = 'exact'\nmodel = 3\nlevel = 'noAuthNoPriv'\nread = 'all'\n\
//! [[family]]\nview = 'all'\nsubtree = '1.3.6.1.2.1.2'\ninclude = true\n";
//!
//! /// Whether a walk from the name asks for the place, and a Get of the hidden name for anything.
//! fn asked(alloc: Global, name: &Oid, place: &Oid, hidden: &Oid) -> Result<(bool, bool), Fail> {
//!     let config = Config::read(alloc, TABLES)?;
//!     let viewer = Viewer {
//!         vacm: &config.access,
//!         model: 3,
//!         name: b"ann",
//!         level: Level::NoAuthNoPriv,
//!         context: b"",
//!     };
//!     let is_asked = walk_asks(alloc, &viewer, name, place);
//!     let get = Column::new(alloc, &viewer, ReadOperation::Get, hidden);
//!     drop(config);
//!     Ok((is_asked?, get?.is_open()))
//! }
//!
//! /// Whether a walk from the name asks for the place.
//! fn walk_asks(
//!     alloc: Global,
//!     viewer: &Viewer<'_>,
//!     name: &Oid,
//!     place: &Oid,
//! ) -> Result<bool, AllocError> {
//!     let mut walk = Column::new(alloc, viewer, ReadOperation::GetNext, name)?;
//!     walk.go_on(viewer);
//!     Ok(walk.asked_name() == Some(place))
//! }
//!
//! let name = Oid::from_text("1.3.6.1.2.1").ok_or("arcs")?;
//! let hidden = Oid::from_text("1.3.6.1.2.1.1.5.0").ok_or("arcs")?;
//! let place = Oid::from_text("1.3.6.1.2.1.1.2147483647").ok_or("arcs")?;
//! assert_eq!(rt; asked(rt.alloc(), &name, &place, &hidden)?, (true, false));
//! ```
//!
//! ```
//! use snmp_ber::Level;
//! use snmp_msg::{Pdu, PduType};
//! use snmp_responder::Viewer;
//! use snmp_walk::{BulkAnswered, BulkAsk, BulkDialogue, BulkLimits, BulkNext};
//! use snmpsec_config::Config;
//! use std::alloc::Global;
//!
//! const TABLES: &[u8] = b"\
//! [[context]]\nname = ''\n\
//! [[group]]\nmodel = 3\nname = 'ann'\ngroup = 'readers'\n\
//! [[access]]\ngroup = 'readers'\nprefix = ''\nmatch = 'exact'\nmodel = 3\nlevel = 'noAuthNoPriv'\nread = 'all'\n\
//! [[family]]\nview = 'all'\nsubtree = '1.3'\ninclude = true\n";
//!
//! /// The group system, and its variables sysName.0 and sysLocation.0.
//! const ASKED: &[u8] = b"\x30\x0a\x06\x06\x2b\x06\x01\x02\x01\x01\x05\x00";
//!
//! const TOLD: &[u8] = b"\
//! \x30\x0d\x06\x08\x2b\x06\x01\x02\x01\x01\x05\x00\x04\x01a\
//! \x30\x0d\x06\x08\x2b\x06\x01\x02\x01\x01\x06\x00\x04\x01b";
//!
//! const LIMITS: BulkLimits = BulkLimits {
//!     rounds: 64,
//!     repetitions: 32,
//!     at_once: 100,
//!     gathered: 262_028,
//! };
//!
//! /// What is asked first, what the answer is, what is asked then, and how many bindings there are.
//! type Went = (BulkNext, BulkAnswered, BulkNext, usize);
//!
//! fn went_on(alloc: Global, viewer: &Viewer<'_>, dialogue: &mut BulkDialogue) -> Result<Went, Fail> {
//!     let answer = Pdu {
//!         tag: PduType::Response.tag(),
//!         id: 7,
//!         second: 0,
//!         third: 0,
//!         list: TOLD,
//!     };
//!     let first = dialogue.go_on(viewer);
//!     let answered = dialogue.take(alloc, viewer, &answer)?;
//!     let then = dialogue.go_on(viewer);
//!     Ok((first, answered, then, dialogue.front(alloc)?.len()))
//! }
//!
//! fn went(alloc: Global, viewer: &Viewer<'_>) -> Result<Went, Fail> {
//!     let request = Pdu {
//!         tag: PduType::GetBulkRequest.tag(),
//!         id: 7,
//!         second: 0,
//!         third: 2,
//!         list: ASKED,
//!     };
//!     let mut dialogue = BulkDialogue::new(alloc, &request, &LIMITS)?;
//!     went_on(alloc, viewer, &mut dialogue)
//! }
//!
//! /// The dialogue for ann.
//! fn went_for_ann(alloc: Global) -> Result<Went, Fail> {
//!     let config = Config::read(alloc, TABLES)?;
//!     let viewer = Viewer {
//!         vacm: &config.access,
//!         model: 3,
//!         name: b"ann",
//!         level: Level::NoAuthNoPriv,
//!         context: b"",
//!     };
//!     let went = went(alloc, &viewer);
//!     drop(config);
//!     went
//! }
//!
//! let (first, answered, then, bindings) = went_for_ann(rt.alloc())?;
//! assert_eq!(rt; first, BulkNext::Asks(BulkAsk::GetBulk(0, 2)));
//! assert_eq!(rt; answered, BulkAnswered::Taken);
//! assert_eq!(rt; (then, bindings), (BulkNext::Ends, 2));
//! ```
//!
//! ```
//! use snmp_ber::Level;
//! use snmp_msg::{Pdu, PduType};
//! use snmp_responder::Viewer;
//! use snmp_walk::{Answered, Dialogue, Next, ReadOperation};
//! use snmpsec_config::Config;
//! use std::alloc::Global;
//!
//! const TABLES: &[u8] = b"\
//! [[context]]\nname = ''\n\
//! [[group]]\nmodel = 3\nname = 'ann'\ngroup = 'readers'\n\
//! [[access]]\ngroup = 'readers'\nprefix = ''\nmatch = 'exact'\nmodel = 3\nlevel = 'noAuthNoPriv'\nread = 'all'\n\
//! [[family]]\nview = 'all'\nsubtree = '1.3'\ninclude = true\n";
//!
//! /// sysName, and sysName.0 with the value "router".
//! const ASKED: &[u8] = b"\x30\x0b\x06\x07\x2b\x06\x01\x02\x01\x01\x05\x05\x00";
//!
//! const TOLD: &[u8] = b"\x30\x12\x06\x08\x2b\x06\x01\x02\x01\x01\x05\x00\x04\x06router";
//!
//! /// What is asked first, what the answer is, what is asked then, and which binding is still open.
//! type Went = (Next, Answered, Next, Option<usize>);
//!
//! fn went_on(alloc: Global, viewer: &Viewer<'_>, dialogue: &mut Dialogue) -> Result<Went, Fail> {
//!     let answer = Pdu {
//!         tag: PduType::Response.tag(),
//!         id: 7,
//!         second: 0,
//!         third: 0,
//!         list: TOLD,
//!     };
//!     let first = dialogue.go_on(viewer);
//!     let answered = dialogue.take(alloc, viewer, &answer)?;
//!     let then = dialogue.go_on(viewer);
//!     Ok((first, answered, then, dialogue.first_open()))
//! }
//!
//! fn went(alloc: Global, viewer: &Viewer<'_>) -> Result<Went, Fail> {
//!     let request = Pdu {
//!         tag: PduType::GetNextRequest.tag(),
//!         id: 7,
//!         second: 0,
//!         third: 0,
//!         list: ASKED,
//!     };
//!     let mut dialogue = Dialogue::new(alloc, viewer, ReadOperation::GetNext, &request, 2)?;
//!     went_on(alloc, viewer, &mut dialogue)
//! }
//!
//! /// The dialogue for ann.
//! fn went_for_ann(alloc: Global) -> Result<Went, Fail> {
//!     let config = Config::read(alloc, TABLES)?;
//!     let viewer = Viewer {
//!         vacm: &config.access,
//!         model: 3,
//!         name: b"ann",
//!         level: Level::NoAuthNoPriv,
//!         context: b"",
//!     };
//!     let went = went(alloc, &viewer);
//!     drop(config);
//!     went
//! }
//!
//! let (first, answered, then, open) = went_for_ann(rt.alloc())?;
//! assert_eq!(rt; first, Next::Asks);
//! assert_eq!(rt; answered, Answered::Taken);
//! assert_eq!(rt; (then, open), (Next::Ends, None));
//! ```
#![tactic(auto)]

mod answer;
mod bulk_answer;
mod bulk_ask;
mod bulk_column;
mod bulk_dialogue;
mod bulk_take;
mod column;
mod counting;
mod dialogue;
mod failure;
mod front;
mod given;
mod kept_name;
mod laws;
mod misfit;
mod operation;
mod place;
mod turns;

pub use answer::AnswerFault;
pub use bulk_ask::BulkAsk;
pub use bulk_column::BulkColumn;
pub use bulk_dialogue::{BulkAnswered, BulkDialogue, BulkLimits, BulkNext};
pub use column::{Ask, Column, Progress};
pub use counting::binding_count;
pub use dialogue::{Answered, Dialogue, Next};
pub use failure::{Failure, FailureStatus, NO_SUCH_NAME};
pub use given::GivenVariable;
pub use kept_name::KeptName;
pub use laws::{one_bulk_dialogue, one_dialogue};
pub use misfit::Misfit;
pub use operation::ReadOperation;
