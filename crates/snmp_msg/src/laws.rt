//! Laws of PDUs and of whole messages, for callers that reason about datagrams. Each function does nothing:
//! its contract is the law.

ghost use Rattle.std.specs.Prelude.{◌≡◌, ◌≤◌, ℕ, List, length};
ghost use Rattle.snmp_message.specs.declared.message.TheConstants.{LARGEST};
ghost use Rattle.snmp_msg.specs.Variables.{Variable, AreBindings, AllFit, variables_text};
ghost use Rattle.snmp_msg.specs.Pdu.{PduParts, PduText, PduFits, pdu_text};
ghost use Rattle.snmp_msg.specs.Canonical.{Whole, Says, IsCanonical};

/// A text is one PDU at most, and octets are one list of bindings at most.
pub fn one_pdu()
    ensures pdu { (z : List ℕ) (p q : PduParts) → PduText z p → PduText z q → p ≡ q }
    ensures list { (octets : List ℕ) (vs ws : List Variable) → AreBindings vs octets
        → AreBindings ws octets → vs ≡ ws }
{}

/// A message says one thing in all its layers.
pub fn one_whole()
    ensures { (w : List ℕ) (m n : Whole) → Says w m → Says w n → m ≡ n }
{}

/// A PDU that is written is read again, and so is a list of bindings: each that fits has the layout that it
/// is written in.
pub fn pdu_written_again()
    ensures pdu { (p : PduParts) → PduFits p → length (pdu_text p) ≤ LARGEST
        → PduText (pdu_text p) p }
    ensures list { (vs : List Variable) → AllFit vs → length (variables_text vs) ≤ LARGEST
        → AreBindings vs (variables_text vs) }
{}

/// A message has one canonical spelling, which is its own: spelling it again changes nothing.
pub fn canonical_again()
    ensures one { (w a b : List ℕ) → IsCanonical w a → IsCanonical w b → a ≡ b }
    ensures again { (w c : List ℕ) → IsCanonical w c → length c ≤ LARGEST → IsCanonical c c }
    ensures fixed { (w c d : List ℕ) → IsCanonical w c → length c ≤ LARGEST
        → IsCanonical c d → d ≡ c }
{}
