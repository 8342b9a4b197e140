//! Laws of the table. Each function does nothing: its contract is the law.

ghost use Rattle.std.specs.Prelude.{◌≡◌, ◌≢◌, ◌≤◌, ◌+◌, ◌-◌, List, ℕ, Result, Ok, Err, true};
ghost use Rattle.snmp_ber.specs.declared.level.Level.TheVariants.{NoAuthNoPriv};
ghost use Rattle.usm_users.specs.User.{User};
ghost use Rattle.usm_core.specs.Verified.{Verified, Verifies};
ghost use Rattle.snmp_incoming.specs.Outcome.{Given, Taker, as_agent, side_at, IsTextOf, Outcome};
ghost use Rattle.snmp_message.specs.declared.refusal.Refusal.TheVariants.{BadScoped};
ghost use Rattle.snmp_message.specs.declared.refusal.Refusal.{Refusal};

use snmp_msg::{one_content, one_cut, one_message, one_pdu, plain_from_data};

/// A message has one text at most.
pub fn one_text()
    ensures { (users : List User) (w : List ℕ) (v : Verified) (a b : List ℕ) → IsTextOf users w v a
        → IsTextOf users w v b → a ≡ b }
{}

/// The table gives each datagram one answer at most.
pub fn one_answer()
    ensures { (taker : Taker) (users : List User) (now : ℕ)
        (w : List ℕ) (a b : Result Given Refusal)
        → Outcome taker users now w a → Outcome taker users now w b → a ≡ b }
{
    usm_core::one_answer();
    one_content();
    one_pdu();
}

/// Where the answer is BadScoped the message is sealed: what isn't was found to be a ScopedPDU before its digest was
/// looked at.
pub fn bad_scoped_is_sealed()
    ensures { (taker : Taker) (users : List User) (now : ℕ) (w : List ℕ)
        → Outcome taker users now w (Err BadScoped)
        → (v : Verified) × Verifies (side_at taker) users w (Ok v)
        × (v.parts.header.privacy ≡ true) }
{
    usm_core::verified_was_read();
    plain_from_data();
}

/// A datagram with auth that agents of one engine accept, whenever and however often, is accepted at one
/// value of boots alone, and at times of the engine that differ by at most 300 seconds. `started` is the
/// moment at which an agent's time was 0.
pub fn replay_bound()
    ensures { (engine : List ℕ) (boots started now other_boots other_started later : ℕ)
        (users others : List User)
        (w : List ℕ) (given again : Given)
        → Outcome (as_agent engine boots started) users now w (Ok given)
        → Outcome (as_agent engine other_boots other_started) others later w (Ok again)
        → given.level ≢ NoAuthNoPriv
        → (boots ≡ other_boots) × (now - started ≤ (later - other_started) + 300)
        × (later - other_started ≤ (now - started) + 300) }
{
    one_message();
    one_cut();
    usm_core::verified_was_read();
}
