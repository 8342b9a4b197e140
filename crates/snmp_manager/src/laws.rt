//! Laws of what managers come to hold. Each function does nothing: its contract is the law.

ghost use Rattle.std.specs.Prelude.{◌≡◌, ◌<◌, ◌++◌, ◌∷◌, [], ℕ, List, length, Option, Some, Result};
ghost use Rattle.std.specs.Global.{Vec};
ghost use Rattle.engine_clock.specs.Pairs.{BootsAndTime};
ghost use Rattle.usm_users.specs.User.{User};
ghost use Rattle.snmp_manager.specs.Views.{Held, BeginAlike, HoldSamePairs};
ghost use Rattle.snmp_incoming.specs.Outcome.{Given};
ghost use Rattle.engine_clock.specs.Marks.{mark_at, pair_at};
ghost use Rattle.engine_clock.specs.Merging.{IsMergeOf};
ghost use Rattle.snmp_manager.specs.declared.outcome.Outcome.{Outcome as Answered};
ghost use Rattle.snmp_manager.specs.Known.{IsLatest, IsLatestMark, HaveSameAuthentic, octets_of};
ghost use Rattle.snmp_manager.specs.Pieces.{Piece, ArePiecesOf, SavesText, SaveEach};
ghost use Rattle.snmp_manager.specs.Takes.{Takes};
ghost use Rattle.snmp_manager.specs.Runs.{TakesOne, Runs, HasTaken, moments_of};
ghost use Rattle.snmp_message.specs.declared.refusal.Refusal.{Refusal};

/// Lists with the same authentic datagrams, in any order, with any repeats and anything else between, have
/// the same latest pair of each engine.
pub fn same_authentic_same_latest()
    ensures { (users : List User) (begin : Option BootsAndTime)
        (xs ys : List (List ℕ)) (engine : List ℕ)
        (p q : Option BootsAndTime)
        → HaveSameAuthentic users xs ys → IsLatest users begin xs engine p
        → IsLatest users begin ys engine q → p ≡ q }
{}

/// Two managers that begin with the same users and the same pairs, and take lists with the same authentic
/// datagrams, in any order, at any moments, with any repeats and any other octets between, hold the same pair
/// of each engine. A datagram is taken by `take`, `take_one` or `run` wherever memory doesn't run
/// out.
pub fn same_authentic_same_pairs()
    ensures { (a b a_after b_after : Held) (xs ys : List (ℕ × List ℕ)) → BeginAlike a b
        → HaveSameAuthentic a.users (octets_of xs) (octets_of ys)
        → HasTaken a xs a_after → HasTaken b ys b_after → HoldSamePairs a_after b_after }
{}

/// The contracts of the calls that take, as one relation on the datagrams taken: one call of `take` or `take_one`,
/// and what was taken before and after it. So the laws are of all that a manager took.
pub fn takes_are_joined()
    ensures take { (a b : Held) (now : ℕ) (w : List ℕ) (answer : Result Given Refusal)
        → Takes a now w (Some answer) b
        → HasTaken a ((now, w) ∷ []) b }
    ensures take_one { (a b : Held) (now : ℕ) (w : List ℕ) (outcome : Answered)
        → TakesOne a now w outcome b
        → HasTaken a ((now, w) ∷ []) b }
    ensures run { (a b : Held) (ts : List (ℕ × Vec ℕ)) (outcomes : List Answered)
        → Runs a ts outcomes b
        → HasTaken a (moments_of ts) b }
    ensures joined { (a b c : Held) (xs ys : List (ℕ × List ℕ)) → HasTaken a xs b → HasTaken b ys c
        → HasTaken a (xs ++ ys) c }
{}

/// After datagrams were taken each engine's pair is the greatest that was authenticated in them, or was held
/// before; the users stay. So its mark is that pair with the earliest moment at which it came, or was seen
/// before.
pub fn taken_holds_the_latest()
    ensures latest { (a b : Held) (ts : List (ℕ × List ℕ)) (engine : List ℕ) → HasTaken a ts b
        → IsLatest a.users (pair_at a.clocks engine)
        (octets_of ts) engine (pair_at b.clocks engine) }
    ensures marks { (a b : Held) (ts : List (ℕ × List ℕ)) (engine : List ℕ) → HasTaken a ts b
        → IsLatestMark a.users (mark_at a.clocks engine) ts engine (mark_at b.clocks engine) }
    ensures users { (a b : Held) (ts : List (ℕ × List ℕ)) → HasTaken a ts b → b.users ≡ a.users }
{}

/// What was taken may be taken in pieces. Managers that all begin alike take a piece each, and save their
/// texts: the merged text of these, octet for octet, is what one manager saves that began so and took all of
/// it. The pieces may be cut anywhere between datagrams, come in any order, overlap and come again; there is
/// at least one. The merged text is that of `merge-clocks`, and `now` the moment of texts without moments.
pub fn pieces_are_joined()
    ensures { (now : ℕ) (begin : Held) (taken : Piece) (pieces : List Piece) (saved merged : List ℕ)
        (texts : List (List ℕ))
        → ArePiecesOf taken pieces → 0 < length pieces → SavesText begin taken saved
        → SaveEach begin pieces texts
        → IsMergeOf now texts merged → merged ≡ saved }
{}
