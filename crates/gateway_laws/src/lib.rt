//! What a client sees through a gateway of a device that answers as RFC 3416 says: that device, restricted to the view.
//!
//! The library has laws alone, which are proved from the public contracts of `snmp_walk` and `snmp_responder`.
#![tactic(auto)]

mod laws;

pub use laws::{
    a_bulk_answer_in_turn, a_device_in_a_view, a_front_has_a_repetition, a_front_of_a_view,
    devices_that_look_alike,
};
