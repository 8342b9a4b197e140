//! Laws of what is printed. Each function does nothing: its contract is the law.

ghost use Rattle.std.specs.Prelude.{◌≡◌, ◌++◌, ℕ, List, []};
ghost use Rattle.diagnose_text.specs.Datagrams.{Seen};
ghost use Rattle.diagnose_text.specs.Printing.{IsAccount, Writes};
ghost use Rattle.diagnose_text.specs.declared.diagnoser.Diagnoser.{Diagnoser};

/// What is printed by one call after another is what is printed of all their datagrams, in their order.
pub fn calls_print_as_one()
    ensures { (seen more : List Seen) (first second third : Diagnoser) (before between after : List ℕ)
        → Writes seen first before second between → Writes more second between third after
        → Writes (seen ++ more) first before third after }
{}

/// What is printed of an exchange was read of its own datagrams. Whatever datagrams were taken from the beginning on,
/// each exchange, printed or held, has its first datagram and its answer among them, and holds what was read of these.
/// The answer has the msgID of the request and went the other way. Each datagram is in exactly one exchange.
pub fn each_exchange_is_of_its_own_datagrams()
    ensures { (seen : List Seen) (begin end : Diagnoser) (text : List ℕ)
        → begin.follower.exchanges.list.items ≡ [] → Writes seen begin [] end text
        → IsAccount begin.report.options seen end.follower.exchanges.list.items text }
{}
