//! The laws of managers, agents and worlds. Each function does nothing: its contract is the law.

pub use snmp_agent::{
    agents_decide_alike, notification_is_accepted, report_is_short, response_is_accepted,
};
pub use snmp_incoming::{bad_scoped_is_sealed, one_answer, one_text, replay_bound};
pub use snmp_manager::{
    equal_knowledge_equal_marks, equal_pairs_known_equal_pairs, every_mark_has_an_origin,
    no_pair_goes_back, pieces_are_joined, same_authentic_same_latest, same_authentic_same_pairs,
    steps_leave_the_greatest, taken_holds_the_latest, takes_are_joined,
};
pub use snmp_outgoing::{request_is_accepted, sealed_is_accepted, spoken_is_accepted};
