//! Laws of texts of hex. Each function does nothing: its contract is the law.

ghost use Rattle.std.specs.Prelude.{◌≡◌, List, ℕ};
ghost use Rattle.capture_dumps.specs.Text.{IsFaultAt, IsHexText};

/// A text writes one list of octets at most, and is refused at one place at most.
pub fn one_reading()
    ensures octets { (text a b : List ℕ) → IsHexText text a → IsHexText text b → a ≡ b }
    ensures place { (text : List ℕ) (k l m n : ℕ) → IsFaultAt text k m
        → IsFaultAt text l n → (k ≡ l) × (m ≡ n) }
{}

/// No text that writes octets is refused.
pub fn read_or_refused()
    ensures { (text octets : List ℕ) (line column : ℕ) → IsHexText text octets
        → IsFaultAt text line column → ⊥ }
{}
