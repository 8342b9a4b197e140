//! Laws of worlds: what managers that share saved marks come to hold. Each function does nothing: its
//! contract is the law.

ghost use Rattle.std.specs.Prelude.{◌≡◌, ◌++◌, ◌∷◌, [], ℕ, List, Some, slice_get};
ghost use Rattle.engine_clock.specs.Pairs.{BootsAndTime, IsBelow};
ghost use Rattle.engine_clock.specs.Marks.{SeenPair, pair_at};
ghost use Rattle.usm_users.specs.User.{User};
ghost use Rattle.snmp_manager.specs.Views.{Held};
ghost use Rattle.snmp_manager.specs.State.{WorldState};
ghost use Rattle.snmp_manager.specs.Knowledge.{HasGreatest, HasOrigin, HaveUsers, IsNeverRestarted, SameKnowledge};
ghost use Rattle.snmp_manager.specs.Knowledge.{SamePairsKnown, Steps, StepsAll, at_first, knows_after_all};
ghost use Rattle.snmp_manager.specs.declared.event.Event.{Event};

/// Managers of equal knowledge hold equal marks, so that they save equal octets.
pub fn equal_knowledge_equal_marks()
    ensures { (users : List User) (events : List Event)
        (begin world : WorldState) (i j : ℕ) (a b : Held)
        → HasGreatest (knows_after_all users events (at_first begin)) world
        → slice_get world.managers i ≡ Some a → slice_get world.managers j ≡ Some b
        → SameKnowledge ((knows_after_all users events (at_first begin)).managers i)
        ((knows_after_all users events (at_first begin)).managers j)
        → a.clocks ≡ b.clocks }
{}

/// Managers whose knowledge has the same pairs hold equal pairs, whatever the moments at which these were seen.
pub fn equal_pairs_known_equal_pairs()
    ensures { (users : List User) (events : List Event)
        (begin world : WorldState) (i j : ℕ) (a b : Held)
        (engine : List ℕ)
        → HasGreatest (knows_after_all users events (at_first begin)) world
        → slice_get world.managers i ≡ Some a → slice_get world.managers j ≡ Some b
        → SamePairsKnown ((knows_after_all users events (at_first begin)).managers i)
        ((knows_after_all users events (at_first begin)).managers j)
        → pair_at a.clocks engine ≡ pair_at b.clocks engine }
{}

/// Managers of two worlds, whatever happened in each, hold equal marks where their knowledge is equal, and equal
/// pairs where it has the same pairs.
pub fn equal_knowledge_in_two_worlds()
    ensures marks { (users others : List User) (events other_events : List Event)
        (first world second other : WorldState) (i j : ℕ) (a b : Held)
        → HasGreatest (knows_after_all users events (at_first first)) world
        → HasGreatest (knows_after_all others other_events (at_first second)) other
        → slice_get world.managers i ≡ Some a → slice_get other.managers j ≡ Some b
        → SameKnowledge ((knows_after_all users events (at_first first)).managers i)
        ((knows_after_all others other_events (at_first second)).managers j)
        → a.clocks ≡ b.clocks }
    ensures pairs { (users others : List User) (events other_events : List Event)
        (first world second other : WorldState) (i j : ℕ) (a b : Held) (engine : List ℕ)
        → HasGreatest (knows_after_all users events (at_first first)) world
        → HasGreatest (knows_after_all others other_events (at_first second)) other
        → slice_get world.managers i ≡ Some a → slice_get other.managers j ≡ Some b
        → SamePairsKnown ((knows_after_all users events (at_first first)).managers i)
        ((knows_after_all others other_events (at_first second)).managers j)
        → pair_at a.clocks engine ≡ pair_at b.clocks engine }
{}

/// No mark is known that no manager authenticated and no manager or file began with.
pub fn every_mark_has_an_origin()
    ensures { (users : List User) (events : List Event) (begin : WorldState)
        (i : ℕ) (engine : List ℕ) (mark : SeenPair)
        → (knows_after_all users events (at_first begin)).managers i engine mark
        → HasOrigin users events begin engine mark }
{}

/// Over events without a restart of a manager no pair of it goes back.
pub fn no_pair_goes_back()
    ensures { (users : List User) (events : List Event)
        (begin world : WorldState) (i : ℕ) (a b : Held)
        (engine : List ℕ) (p : BootsAndTime)
        → HasGreatest (knows_after_all users events (at_first begin))
        world → IsNeverRestarted i events
        → slice_get begin.managers i ≡ Some a → slice_get world.managers i ≡ Some b
        → pair_at a.clocks engine ≡ Some p
        → (q : BootsAndTime) × (pair_at b.clocks engine ≡ Some q) × ¬ (IsBelow q p) }
{}

/// Whatever calls of `step` and `run` did them: after events that happened one after another each manager and
/// each file has the greatest of what is known there, and the managers have the users that they had. Events
/// after events are events.
pub fn steps_leave_the_greatest()
    ensures greatest { (users : List User) (events : List Event) (begin world : WorldState)
        → HaveUsers users begin → StepsAll begin events world
        → HasGreatest (knows_after_all users events (at_first begin)) world }
    ensures users { (users : List User) (events : List Event) (begin world : WorldState)
        → HaveUsers users begin → StepsAll begin events world → HaveUsers users world }
    ensures one { (begin world : WorldState) (event : Event) → Steps begin event world
        → StepsAll begin (event ∷ []) world }
    ensures joined { (a b c : WorldState) (xs ys : List Event) → StepsAll a xs b → StepsAll b ys c
        → StepsAll a (xs ++ ys) c }
{}
