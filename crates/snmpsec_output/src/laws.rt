//! What the definitions of opened messages come to. Each function does nothing: its contract is the law.

ghost use Rattle.std.specs.Prelude.{◌≡◌, List, ℕ, Result};
ghost use Rattle.usm_users.specs.User.{User};
ghost use Rattle.snmpsec_output.specs.Opening.{Opens};
ghost use Rattle.snmp_message.specs.declared.refusal.Refusal.{Refusal};

use snmp_msg::{one_content, one_pdu};

/// A datagram that is opened by the keys of users has one answer at most: its lines, or one refusal.
pub fn one_opening()
    ensures { (users : List User) (w : List ℕ) (a b : Result (List ℕ) Refusal)
        → Opens users w a → Opens users w b → a ≡ b }
{
    usm_core::one_answer();
    one_content();
    one_pdu();
}
