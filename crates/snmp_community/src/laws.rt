//! Laws of messages with a community, for callers that reason about whole datagrams. Each function does
//! nothing: its contract is the law.

ghost use Rattle.std.specs.Prelude.{◌≡◌, ◌≤◌, ℕ, List, length};
ghost use Rattle.snmp_message.specs.declared.message.TheConstants.{LARGEST};
ghost use Rattle.snmp_message.specs.Layout.{Outer};
ghost use Rattle.snmp_message.specs.Scoped.{IsOneElement};
ghost use Rattle.snmp_community.specs.declared.version.Version.{Version};
ghost use Rattle.snmp_community.specs.Layout.{Parts, IsMessage, OtherVersion};
ghost use Rattle.snmp_community.specs.Faults.{FaultsAt};
ghost use Rattle.snmp_community.specs.Spelling.{community_text, written};

/// A datagram is at most one message, and then it has no other version. An SNMPv3Message has another one.
pub fn one_community_message()
    ensures one { (w : List ℕ) (m n : Parts) → IsMessage w m → IsMessage w n → m ≡ n }
    ensures version { (w : List ℕ) (m : Parts) → IsMessage w m → OtherVersion w → ⊥ }
    ensures other { (w : List ℕ) (m : Rattle.snmp_message.specs.Layout.Parts) → Outer w m
        → OtherVersion w }
{}

/// A datagram has one fault at most. A message has none, and neither has a datagram of another version.
pub fn one_community_fault()
    ensures one { (w : List ℕ) (a b : ℕ) → FaultsAt w a → FaultsAt w b → a ≡ b }
    ensures message { (w : List ℕ) (at : ℕ) (m : Parts) → FaultsAt w at → IsMessage w m → ⊥ }
    ensures version { (w : List ℕ) (at : ℕ) → FaultsAt w at → OtherVersion w → ⊥ }
{}

/// What is written is read again: each message has the layout that it is written in, and what is read of it is
/// what was written.
pub fn community_written_again()
    ensures spelled { (version : Version) (community pdu : List ℕ) → IsOneElement pdu
        → length (community_text version community pdu) ≤ LARGEST
        → IsMessage (community_text version community pdu) (written version community pdu) }
    ensures same { (version : Version) (community pdu : List ℕ) (m : Parts) → IsOneElement pdu
        → length (community_text version community pdu) ≤ LARGEST
        → IsMessage (community_text version community pdu) m → m ≡ written version community pdu }
{}
