//! What a caller can conclude from public contracts.
//!
//! Each function here calls the engine as a program does, and its own contract is the conclusion. Its proof knows
//! of the calls only what their contracts say, and of the definitions only what the public laws say. So a contract
//! that gets too weak to be of use is refused here.
#![tactic(auto)]

mod agent_handles;
mod agents;
mod forwarder_handles;
mod gateway_handles;
mod gateways;
mod instances;
mod keys;
mod manager_handles;
mod managers;
mod notifications;
mod replays;
mod requests;
mod responses;
mod sealing;
mod worlds;

pub use agent_handles::{
    Beginning, HandleReply, answer_by_handle, begin_and_allow, hand_refused, take_and_allow,
};
pub use agents::same_answer;
pub use forwarder_handles::{ForwardCome, forward_configured, forward_handle, forward_handle_once};
pub use gateway_handles::{
    GateCome, HandleOut, send_by_handle, serve_configured, serve_handle, serve_handle_once,
};
pub use gateways::{Come, Out, send, serve, serve_one};
pub use instances::{no_gateway_begins_by_itself, no_notification_is_made_up};
pub use keys::two_keys_one_code;
pub use manager_handles::{
    ask_both, begin_and_take, begin_both, hand_all, hand_one, hand_to_both, hand_wrong_digest,
};
pub use managers::{take_all_the_same, take_one, take_wrong_digest};
pub use notifications::{Coming, Notice, forward, forward_one, notify};
pub use replays::accept_twice;
pub use requests::ask;
pub use responses::answer;
pub use sealing::seal_and_open;
pub use worlds::run_replicas;
