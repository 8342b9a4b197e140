//! Laws of the layouts, for callers that reason about whole datagrams. Each function does nothing: its
//! contract is the law.

ghost use Rattle.std.specs.Prelude.{◌≡◌, ◌+◌, ◌-◌, ◌≤◌, ◌⊎◌, ℕ, List, ◌++◌, take, drop, length, slice_range};
ghost use Rattle.snmp_ber.specs.Spelling.{head_size};
ghost use Rattle.snmp_message.specs.declared.message.TheConstants.{LARGEST};
ghost use Rattle.snmp_message.specs.declared.header.Header.{Header};
ghost use Rattle.snmp_message.specs.Layout.{Parts, Outer, WrongVersion};
ghost use Rattle.snmp_message.specs.Security.{Fields, FieldsFit, SecText, IsCut, security_text, placed, with_auth};
ghost use Rattle.snmp_message.specs.Scoped.{Contexts, HasScoped, HasSealed, ScopedText, ScopedFront, IsOneElement};
ghost use Rattle.snmp_message.specs.Scoped.{contexts_text, scoped_text, contexts_placed};
ghost use Rattle.snmp_message.specs.Spelling.{HeaderFits, message_text, written};

/// A datagram is at most one message, and then it has no other version.
pub fn one_message()
    ensures one { (w : List ℕ) (m n : Parts) → Outer w m → Outer w n → m ≡ n }
    ensures version { (w : List ℕ) (m : Parts) → Outer w m → WrongVersion w → ⊥ }
{}

/// Security parameters say one thing, and a datagram is cut round msgAuthenticationParameters in one way.
pub fn one_cut()
    ensures one { (at : ℕ) (x : List ℕ) (s t : Fields) → SecText at x s → SecText at x t → s ≡ t }
    ensures cut { (w : List ℕ) (m : Parts) (s : Fields) → Outer w m
        → SecText m.security_at m.security s
        → (front : List ℕ) × (back : List ℕ) × IsCut w m s front back }
    ensures places { (w : List ℕ) (m : Parts) (s : Fields) (front back : List ℕ)
        → IsCut w m s front back
        → (front ≡ take s.auth_at w) × (slice_range w s.auth_at (s.auth_at + length s.auth)
        ≡ s.auth)
        × (back ≡ drop (s.auth_at + length s.auth) w) }
{}

/// msgData is sealed or one ScopedPDU, and octets begin with one ScopedPDU at most.
pub fn one_content()
    ensures kind { (w : List ℕ) (m : Parts) (s : Contexts) → HasSealed m → HasScoped w m s → ⊥ }
    ensures scoped { (w : List ℕ) (m : Parts) (s t : Contexts)
        → HasScoped w m s → HasScoped w m t → s ≡ t }
    ensures front { (z : List ℕ) (s t : Contexts) → ScopedFront z s → ScopedFront z t → s ≡ t }
{}

/// What is written is read again: each value that fits has the layout that it is written in.
pub fn written_again()
    ensures message { (h : Header) (security : List ℕ) (tag : ℕ) (content : List ℕ) → HeaderFits h
        → (tag ≡ 48) ⊎ (tag ≡ 4)
        → length (message_text h security tag content) ≤ LARGEST
        → Outer (message_text h security tag content) (written h security tag content) }
    ensures security { (at : ℕ) (s : Fields) → FieldsFit s → length (security_text s) ≤ LARGEST
        → SecText at (security_text s) (placed at s) }
    ensures scoped { (engine name pdu : List ℕ) → IsOneElement pdu
        → length (scoped_text engine name pdu) ≤ LARGEST
        → ScopedText 0 (scoped_text engine name pdu)
        (contexts_placed (head_size (length (contexts_text engine name pdu))) engine name pdu) }
{}

/// Where the field of msgAuthenticationParameters of a message that was written is filled with as many
/// octets, what comes out is that message written with these octets.
pub fn field_filled()
    ensures filled { (h : Header) (s t : Fields) (tag : ℕ)
        (content auth front back : List ℕ) (m : Parts)
        → HeaderFits h → FieldsFit s → (tag ≡ 48) ⊎ (tag ≡ 4)
        → length (message_text h (security_text s) tag content) ≤ LARGEST
        → length auth ≡ length s.auth
        → IsCut (message_text h (security_text s) tag content) m t front back
        → (t.auth ≡ s.auth) × (message_text h (security_text (with_auth auth s)) tag content
        ≡ front ++ (auth ++ back)) }
    ensures size { (h : Header) (s : Fields) (tag : ℕ) (content auth : List ℕ)
        → length auth ≡ length s.auth
        → length (message_text h (security_text (with_auth auth s)) tag content)
        ≡ length (message_text h (security_text s) tag content) }
{}

/// How long a message is that was written: at least 6 octets longer than the content of its msgData, and at
/// most 110 longer than that and the fields of its security parameters whose lengths aren't bounded by a
/// number.
pub fn message_size()
    ensures least { (h : Header) (security : List ℕ) (tag : ℕ) (content : List ℕ)
        → 6 + length content ≤ length (message_text h security tag content) }
    ensures most { (h : Header) (s : Fields) (tag : ℕ) (content : List ℕ)
        → HeaderFits h → FieldsFit s
        → length (message_text h (security_text s) tag content)
        ≤ 110 + length s.engine + length s.user + length s.auth + length s.salt + length content }
{}

/// A message is at least as long as its security parameters, and as its content.
pub fn longer_whole()
    ensures { (h : Header) (security : List ℕ) (tag : ℕ) (content : List ℕ)
        → (length security ≤ length (message_text h security tag content))
        × (length content ≤ length (message_text h security tag content)) }
{}

/// The datagram from msgData on is its element: where priv is clear a ScopedPDU, with the same contexts.
pub fn plain_from_data()
    ensures within { (w : List ℕ) (m : Parts) → Outer w m → m.data_at ≤ length w }
    ensures scoped { (w : List ℕ) (m : Parts) (s : Contexts) → Outer w m → HasScoped w m s
        → ScopedText 0 (drop m.data_at w) (record s { pdu_at = s.pdu_at - m.data_at }) }
{}

/// The octets from the first to the last are all of them, so that a slice can be read over its whole length.
pub fn whole_slice()
    ensures { (octets : List ℕ) → slice_range octets 0 (length octets) ≡ octets }
{}
