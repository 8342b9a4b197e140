//! Laws of dumps. Each function does nothing: its contract is the law.

ghost use Rattle.std.specs.Prelude.{◌≡◌, List, ℕ};
ghost use Rattle.capture_dumps.specs.Dumps.{HasDumps, IsUnread};
ghost use Rattle.capture_dumps.specs.declared.dumps.DumpFault.{DumpFault as Fault};
ghost use Rattle.capture_dumps.specs.declared.dumps.DumpFault.TheVariants.{OutOfMemory};

/// A text has one list of dumps at most.
pub fn one_list()
    ensures { (text : List ℕ) (a b : List (List ℕ)) → HasDumps text a → HasDumps text b → a ≡ b }
{}

/// A text with dumps is refused only if memory runs out: no text is both read and refused.
pub fn read_or_refused()
    ensures { (text : List ℕ) (dumps : List (List ℕ)) (fault : Fault)
        → HasDumps text dumps → IsUnread text fault
        → fault ≡ OutOfMemory }
{}
