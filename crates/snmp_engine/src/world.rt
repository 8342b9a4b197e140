//! Managers that share saved marks through files.

pub use snmp_manager::{Event, World, WorldFault, WorldStopped};
