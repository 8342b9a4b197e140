//! Notifications of devices, which speak SNMPv2c, sent on over SNMPv3 to those who may be notified (RFC 3413, section
//! 3.3).
//!
//! ```
//! ghost use Rattle.std.specs.Prelude.{◌≡◌, IfOk};
//!
//! use engine_clock::EngineId;
//! use snmp_agent::Agent;
//! use snmp_ber::Level;
//! use snmp_forward::{
//!     Forwarded, Forwarder, NotNotification, NotifyType, Receiver, Receivers, TrapTaken,
//!     WAITING_LIMIT,
//! };
//! use snmp_gate::{Device, Devices};
//! use snmpsec_config::{Config, ConfigFault};
//! use std::alloc::{AllocError, Global};
//!
//! /// Ann may be notified of all, and Bob of the system group alone: not of snmpTrapOID.0, which each notification
//! /// has.
//! const TABLES: &[u8] = b"\
//! [[context]]\nname = 'rack-1-pdu'\n\
//! [[group]]\nmodel = 3\nname = 'ann'\ngroup = 'operators'\n\
//! [[group]]\nmodel = 3\nname = 'bob'\ngroup = 'visitors'\n\
//! [[access]]\ngroup = 'operators'\nprefix = 'rack-1-pdu'\nmatch = 'exact'\nmodel = 3\n\
//! level = 'noAuthNoPriv'\nnotify = 'all'\n\
//! [[access]]\ngroup = 'visitors'\nprefix = 'rack-1-pdu'\nmatch = 'exact'\nmodel = 3\n\
//! level = 'noAuthNoPriv'\nnotify = 'system'\n\
//! [[family]]\nview = 'all'\nsubtree = '1.3.6'\ninclude = true\n\
//! [[family]]\nview = 'system'\nsubtree = '1.3.6.1.2.1.1'\ninclude = true\n";
//!
//! /// coldStart of a device with the community "public".
//! static TRAP: &[u8] = b"\x30\x40\x02\x01\x01\x04\x06public\
//! \xa7\x33\x02\x01\x07\x02\x01\x00\x02\x01\x00\x30\x28\
//! \x30\x0d\x06\x08\x2b\x06\x01\x02\x01\x01\x03\x00\x43\x01\x05\
//! \x30\x17\x06\x0a\x2b\x06\x01\x06\x03\x01\x01\x04\x01\x00\x06\x09\x2b\x06\x01\x06\x03\x01\x01\x05\x01";
//!
//! /// What Ann is sent: the same in a message of SNMPv3 with msgID 9, from the gateway's engine with boots 1 and
//! /// time 5, for user "ann", in the context "rack-1-pdu".
//! static SENT: &[u8] =
//!     b"\x30\x7f\x02\x01\x03\x30\x0e\x02\x01\x09\x02\x03\x00\xff\xe3\x04\x01\x00\x02\x01\x03\
//! \x04\x1c\x30\x1a\x04\x09\x80\x00\x1f\x88\x04gate\x02\x01\x01\x02\x01\x05\x04\x03ann\x04\x00\x04\x00\
//! \x30\x4c\x04\x09\x80\x00\x1f\x88\x04gate\x04\x0arack-1-pdu\
//! \xa7\x33\x02\x01\x07\x02\x01\x00\x02\x01\x00\x30\x28\
//! \x30\x0d\x06\x08\x2b\x06\x01\x02\x01\x01\x03\x00\x43\x01\x05\
//! \x30\x17\x06\x0a\x2b\x06\x01\x06\x03\x01\x01\x04\x01\x00\x06\x09\x2b\x06\x01\x06\x03\x01\x01\x05\x01";
//!
//! fn device(alloc: Global) -> Result<Device, AllocError> {
//!     let context = Vec::from_slice(alloc, b"rack-1-pdu")?;
//!     let community = Vec::from_slice(alloc, b"public")?;
//!     Ok(Device {
//!         context,
//!         community,
//!         write_community: None,
//!         max_size: 1472,
//!         repetitions: 32,
//!         names: 100,
//!         at_once: 32,
//!     })
//! }
//!
//! fn devices(alloc: Global) -> Result<Devices, AllocError> {
//!     let device = device(alloc)?;
//!     let mut list = Vec::new(alloc);
//!     list.push(device)?;
//!     Devices::new(list).map_err(|_| AllocError)
//! }
//!
//! fn receivers(alloc: Global) -> Result<Receivers, AllocError> {
//!     let mut list = Vec::new(alloc);
//!     for user in [b"bob", b"ann"] {
//!         list.push(Receiver {
//!             user: Vec::from_slice(alloc, user)?,
//!             level: Level::NoAuthNoPriv,
//!             notify_type: NotifyType::Trap,
//!         })?;
//!     }
//!     Receivers::new(list).map_err(|_| AllocError)
//! }
//!
//! /// The gateway's engine, with the tables.
//! fn agent(alloc: Global, engine: EngineId) -> Result<Agent, ConfigFault>
//!     ensures { IfOk result (λ agent. agent.engine ≡ engine) }
//! {
//!     let config = Config::read(alloc, TABLES)?;
//!     Ok(Agent::new(alloc, engine, 1, 0, config.users, config.access))
//! }
//!
//! fn forwarder(alloc: Global) -> Result<Forwarder, AllocError> {
//!     let engine = EngineId::of(b"\x80\x00\x1f\x88\x04gate").ok_or(AllocError)?;
//!     let (devices, receivers) = (devices(alloc)?, receivers(alloc)?);
//!     let own = engine.copy();
//!     let agent = agent(alloc, engine).map_err(|_| AllocError)?;
//!     Ok(Forwarder::new(alloc, agent, own, devices, receivers, WAITING_LIMIT))
//! }
//!
//! fn took(forwarder: &mut Forwarder) -> Result<[TrapTaken; 3], AllocError> {
//!     let nothing = forwarder.take_trap(0, b"no message")?;
//!     let other = forwarder.take_trap(1, TRAP)?;
//!     let waits = forwarder.take_trap(0, TRAP)?;
//!     Ok([nothing, other, waits])
//! }
//!
//! fn is_sent(forwarder: &mut Forwarder) -> Result<bool, AllocError> {
//!     match forwarder.next(5_000, [0; 8], 9)? {
//!         Forwarded::ToReceiver {
//!             receiver,
//!             datagram,
//!             ..
//!         } => Ok(receiver == 1 && datagram.as_slice() == SENT),
//!         _ => Ok(false),
//!     }
//! }
//!
//! /// What becomes of what was taken, whether the Trap is sent on, and what is left.
//! type SentOn = ([TrapTaken; 3], bool, (Option<u64>, usize));
//!
//! fn sent_on_by(forwarder: &mut Forwarder) -> Result<SentOn, AllocError> {
//!     let took = took(forwarder)?;
//!     let is_sent = is_sent(forwarder)?;
//!     Ok((took, is_sent, (forwarder.due(), forwarder.waiting())))
//! }
//!
//! fn sent_on(alloc: Global) -> Result<SentOn, AllocError> {
//!     let mut forwarder = forwarder(alloc)?;
//!     let sent_on = sent_on_by(&mut forwarder);
//!     drop(forwarder);
//!     sent_on
//! }
//!
//! let (took, is_sent, left) = sent_on(rt.alloc())?;
//! let became = [
//!     TrapTaken::NotNotification(NotNotification::Unreadable),
//!     TrapTaken::OtherCommunity,
//!     TrapTaken::Waits(0),
//! ];
//! assert_eq!(rt; took, became);
//! assert!(rt; is_sent);
//! assert_eq!(rt; left, (None, 0));
//! ```
//!
//! ```
//! ghost use Rattle.std.specs.Prelude.{◌≡◌, IfOk};
//!
//! use engine_clock::{Clocks, EngineId};
//! use snmp_agent::Agent;
//! use snmp_ber::Level;
//! use snmp_forward::{
//!     Forwarder, InformLimits, Informs, NotifyType, Originated, Originator, Receiver, ReceiverTaken,
//!     Receivers, TrapTaken, WAITING_LIMIT,
//! };
//! use snmp_gate::{Device, Devices};
//! use snmp_manager::Manager;
//! use snmpsec_config::{Config, ConfigFault};
//! use std::alloc::{AllocError, Global};
//!
//! /// Ann may be notified of all.
//! const TABLES: &[u8] = b"\
//! [[user]]\nname = 'ann'\nauth = 'sha1'\nauth-password = 'correct horse'\npriv-password = 'battery staple'\n\
//! [[context]]\nname = 'rack-1-pdu'\n\
//! [[group]]\nmodel = 3\nname = 'ann'\ngroup = 'operators'\n\
//! [[access]]\ngroup = 'operators'\nprefix = 'rack-1-pdu'\nmatch = 'exact'\nmodel = 3\n\
//! level = 'authPriv'\nnotify = 'all'\n\
//! [[family]]\nview = 'all'\nsubtree = '1.3.6'\ninclude = true\n";
//!
//! /// coldStart of a device with the community "public".
//! static TRAP: &[u8] = b"\x30\x40\x02\x01\x01\x04\x06public\
//! \xa7\x33\x02\x01\x07\x02\x01\x00\x02\x01\x00\x30\x28\
//! \x30\x0d\x06\x08\x2b\x06\x01\x02\x01\x01\x03\x00\x43\x01\x05\
//! \x30\x17\x06\x0a\x2b\x06\x01\x06\x03\x01\x01\x04\x01\x00\x06\x09\x2b\x06\x01\x06\x03\x01\x01\x05\x01";
//!
//! fn devices(alloc: Global) -> Result<Devices, AllocError> {
//!     let mut list = Vec::new(alloc);
//!     list.push(Device {
//!         context: Vec::from_slice(alloc, b"rack-1-pdu")?,
//!         community: Vec::from_slice(alloc, b"public")?,
//!         write_community: None,
//!         max_size: 1472,
//!         repetitions: 32,
//!         names: 100,
//!         at_once: 32,
//!     })?;
//!     Devices::new(list).map_err(|_| AllocError)
//! }
//!
//! /// Ann listens at two places: at receiver 0 for Traps, and at receiver 1 for Informs.
//! fn receivers(alloc: Global) -> Result<Receivers, AllocError> {
//!     let mut list = Vec::new(alloc);
//!     for notify_type in [NotifyType::Trap, NotifyType::Inform] {
//!         list.push(Receiver {
//!             user: Vec::from_slice(alloc, b"ann")?,
//!             level: Level::AuthPriv,
//!             notify_type,
//!         })?;
//!     }
//!     Receivers::new(list).map_err(|_| AllocError)
//! }
//!
//! /// An engine that has Ann and the tables.
//! fn agent(alloc: Global, engine: EngineId) -> Result<Agent, ConfigFault>
//!     ensures { IfOk result (λ agent. agent.engine ≡ engine) }
//! {
//!     let config = Config::read(alloc, TABLES)?;
//!     Ok(Agent::new(alloc, engine, 1, 0, config.users, config.access))
//! }
//!
//! fn forwarder(alloc: Global, engine: EngineId) -> Result<Forwarder, AllocError> {
//!     let (devices, receivers) = (devices(alloc)?, receivers(alloc)?);
//!     let own = engine.copy();
//!     let agent = agent(alloc, engine).map_err(|_| AllocError)?;
//!     Ok(Forwarder::new(alloc, agent, own, devices, receivers, WAITING_LIMIT))
//! }
//!
//! fn informs(alloc: Global, engine: EngineId) -> Result<Informs, ConfigFault> {
//!     let config = Config::read(alloc, TABLES)?;
//!     let manager = Manager::new(alloc, config.users, Clocks::new(alloc));
//!     Ok(Informs::new(alloc, engine, manager, 1_024, InformLimits::default()))
//! }
//!
//! fn originator(alloc: Global) -> Result<Originator, AllocError> {
//!     let engine = EngineId::of(b"\x80\x00\x1f\x88\x04gate").ok_or(AllocError)?;
//!     let informs = informs(alloc, engine.copy()).map_err(|_| AllocError)?;
//!     let forwarder = forwarder(alloc, engine)?;
//!     Ok(Originator::new(forwarder, informs))
//! }
//!
//! /// The engine of receiver 1.
//! fn receiver(alloc: Global) -> Result<Agent, AllocError> {
//!     let engine = EngineId::of(b"\x80\x00\x1f\x88\x04receiver").ok_or(AllocError)?;
//!     agent(alloc, engine).map_err(|_| AllocError)
//! }
//!
//! /// The receiver of a Trap that goes out.
//! fn trap_for(out: Originated) -> Option<usize> {
//!     match out {
//!         Originated::Trap { receiver, .. } => Some(receiver),
//!         _ => None,
//!     }
//! }
//!
//! /// The receiver of an Inform that begins.
//! fn inform_for(out: Originated) -> Option<usize> {
//!     match out {
//!         Originated::InformBegins { receiver, .. } => Some(receiver),
//!         _ => None,
//!     }
//! }
//!
//! /// Sends what is due for the Inform, and takes what its receiver answers: a Report, or the Response.
//! fn exchanged(
//!     originator: &mut Originator,
//!     receiver: &mut Agent,
//!     salt: u8,
//! ) -> Result<ReceiverTaken, AllocError> {
//!     let Originated::InformSent { datagram, .. } = originator.next(5_000, [salt; 8], 7)? else {
//!         return Err(AllocError);
//!     };
//!     let answer = match receiver.take(60, &datagram) {
//!         Ok(taken) => receiver
//!             .respond(60, &taken, 0, 0, &[], [salt; 8])
//!             .map_err(|_| AllocError)?,
//!         Err(refused) => refused.report.ok_or(AllocError)?,
//!     };
//!     originator.take_receiver(5_000, 1, &answer)
//! }
//!
//! /// What becomes of a device's Trap, and the receivers of the Trap and of the Inform that it becomes.
//! type Notified = (TrapTaken, Option<usize>, Option<usize>);
//!
//! fn notified(originator: &mut Originator) -> Result<Notified, AllocError> {
//!     let taken = originator.take_trap(0, TRAP)?;
//!     let trap = trap_for(originator.next(5_000, [1; 8], 7)?);
//!     let begins = inform_for(originator.next(5_000, [2; 8], 8)?);
//!     Ok((taken, trap, begins))
//! }
//!
//! /// What becomes of the receiver's answers: to the discovery, to the question for its time, and to the Inform.
//! type Answered = (ReceiverTaken, ReceiverTaken, ReceiverTaken);
//!
//! fn answered(originator: &mut Originator, receiver: &mut Agent) -> Result<Answered, AllocError> {
//!     let discovered = exchanged(originator, receiver, 3)?;
//!     let timed = exchanged(originator, receiver, 4)?;
//!     let acknowledged = exchanged(originator, receiver, 5)?;
//!     Ok((discovered, timed, acknowledged))
//! }
//!
//! /// What becomes of a Trap and of its Inform, and how many Informs wait in the end.
//! type SentOn = (Notified, Answered, usize);
//!
//! fn sent_on_to(originator: &mut Originator, receiver: &mut Agent) -> Result<SentOn, AllocError> {
//!     let notified = notified(originator)?;
//!     let answered = answered(originator, receiver)?;
//!     Ok((notified, answered, originator.informs()))
//! }
//!
//! fn sent_on_by(alloc: Global, originator: &mut Originator) -> Result<SentOn, AllocError> {
//!     let mut receiver = receiver(alloc)?;
//!     let sent_on = sent_on_to(originator, &mut receiver);
//!     drop(receiver);
//!     sent_on
//! }
//!
//! fn sent_on(alloc: Global) -> Result<SentOn, AllocError> {
//!     let mut originator = originator(alloc)?;
//!     let sent_on = sent_on_by(alloc, &mut originator);
//!     drop(originator);
//!     sent_on
//! }
//!
//! let (notified, answered, left) = sent_on(rt.alloc())?;
//! let heard = ReceiverTaken::Heard(0);
//! assert_eq!(rt; notified, (TrapTaken::Waits(0), Some(0), Some(1)));
//! assert_eq!(rt; answered, (heard, heard, ReceiverTaken::Acknowledged(0)));
//! assert_eq!(rt; left, 0);
//! ```
#![tactic(auto)]

mod asking;
mod exchange;
mod exchange_laws;
mod forwarder;
mod inform;
mod inform_laws;
mod informs;
mod laws;
mod notification;
mod originator;
mod originator_laws;
mod queue;
mod receivers;
mod sealing;
mod send_inform;
mod trap;
mod waiting_inform;

pub use exchange::{InformExchange, InformLimits, InformTurn};
pub use exchange_laws::{an_inform_is_asked_as_a_request, an_inform_is_sent_within_its_tries};
pub use forwarder::{Forwarded, Forwarder, TrapTaken};
pub use inform::Inform;
pub use inform_laws::{
    an_inform_is_acknowledged_by_its_own_response, informs_are_mediated,
    informs_are_sent_to_their_receivers,
};
pub use informs::{InformSent, Informs, ReceiverTaken};
pub use laws::{
    each_receiver_has_its_turn, no_notification_vanishes, notifications_are_mediated,
    one_notification,
};
pub use notification::{DeviceNotification, NotNotification, read_device_notification};
pub use originator::{Originated, Originator};
pub use originator_laws::notifications_are_originated;
pub use queue::WAITING_LIMIT;
pub use receivers::{LongUserName, NotifyType, Receiver, Receivers, USER_NAME_LIMIT};
