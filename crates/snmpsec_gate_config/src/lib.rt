//! The configuration of a gateway: the gateway, the devices behind it, who may see what on which device, and who is
//! sent notifications of them.
//!
//! ```
//! use snmpsec_gate_config::GateConfig;
//! use std::alloc::Global;
//!
//! const TEXT: &[u8] = b"\
//! [gate]\nengine = '80001f8804676174652d31'\nboots = '/var/lib/snmpsec-gate/boots'\nlisten = ['192.0.2.1:161']\n\
//! [[device]]\ncontext = 'rack-1-pdu'\naddress = '10.1.0.7:161'\ncommunity = 'read-only'\n";
//!
//! /// How many requests may wait, the port of the first device, and whether it has a community for Sets.
//! fn said(config: &GateConfig) -> Result<(usize, u16, bool), Fail> {
//!     let device = config.devices.first().ok_or("a device")?;
//!     let can_set = device.write_community.is_some();
//!     Ok((config.gate.limits.waiting, device.address.port(), can_set))
//! }
//!
//! fn read(alloc: Global) -> Result<(usize, u16, bool), Fail> {
//!     let config = GateConfig::read(alloc, TEXT)?;
//!     said(&config)
//! }
//!
//! /// Why a configuration is refused.
//! fn why(alloc: Global, text: &[u8]) -> Result<String, Fail> {
//!     let fault = GateConfig::read(alloc, text).err().ok_or("a fault")?;
//!     Ok(fault.why(alloc)?)
//! }
//!
//! assert_eq!(rt; read(rt.alloc())?, (1024, 161, false));
//! let why = why(rt.alloc(), b"[gate]\n")?;
//! let wanted = "gate: engine: missing, an engine ID of 5 to 32 octets in hex";
//! assert_eq!(rt; why.as_str(), wanted);
//! ```
#![tactic(auto)]

mod config;
mod device;
mod fault;
mod gate;
mod laws;
mod limit;
mod listed;
mod near;
mod oddity;
mod receiver;
mod settings;
mod table;
mod values;
mod view;

pub use config::{GateConfig, GateRows};
pub use fault::{GateFault, GateKeyFault};
pub use laws::one_gateway;
pub use limit::Limit;
pub use oddity::DeviceOddity;
pub use receiver::ReceiverFault;
pub use settings::{
    DeviceLimits, DeviceSettings, GateSettings, GatewayLimits, ReceiverKind, ReceiverSettings,
};
pub use table::{GateKey, GateTable, LimitKey};
pub use view::views_without_family;
