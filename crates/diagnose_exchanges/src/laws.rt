//! Laws of exchanges. Each function does nothing: its contract is the law.

ghost use Rattle.std.specs.Prelude.{◌≡◌, ◌+◌, ◌++◌, ℕ, All, List, [], map};
ghost use Rattle.diagnose_exchanges.specs.Exchanges.{HasRun, IsMadeBy, Step, begun_by, counted, counted_by, taken_by};
ghost use Rattle.diagnose_exchanges.specs.Exchanges.{times, times_in};
ghost use Rattle.diagnose_exchanges.specs.declared.exchange.Exchange.{Exchange};

/// Each datagram is in exactly one exchange, and exchanges are finished in the order of their first datagrams. Whatever
/// steps there were, a number stands among the exchanges that were taken out and those that are held as often as it was
/// taken, and their first datagrams are those with which exchanges began, in this order.
pub fn each_datagram_is_in_one_exchange<K: Drop, Q: Drop, A: Drop>()
    ensures { (gone : ℕ) (steps : List (Step K Q A)) (finished held : List (Exchange K Q A))
        → HasRun gone [] steps finished held
        → ((n : ℕ) → times_in n finished + times_in n held ≡ times n (taken_by steps))
        × (map (λ e. e.number) (finished ++ held) ≡ begun_by steps) }
{}

/// A request is counted once, however often it was sent. Whatever steps there were, as many exchanges count, of those
/// that were taken out and those that are held, as began with a request that was sent for the first time.
pub fn each_request_is_counted_once<K: Drop, Q: Drop, A: Drop>()
    ensures { (gone : ℕ) (steps : List (Step K Q A)) (finished held : List (Exchange K Q A))
        → HasRun gone [] steps finished held → counted finished + counted held ≡ counted_by steps }
{}

/// What an exchange holds of its datagrams is what was given with them. Whatever steps there were, each exchange, taken
/// out or held, began by one of them, with its number and with what it holds of its first datagram. If it is answered,
/// one of them answered what it asked, by the number and with the answer that it holds.
pub fn each_exchange_holds_what_its_datagrams_gave<K: Drop, Q: Drop, A: Drop>()
    ensures { (gone : ℕ) (steps : List (Step K Q A)) (finished held : List (Exchange K Q A))
        → HasRun gone [] steps finished held → All (IsMadeBy steps) (finished ++ held) }
{}
