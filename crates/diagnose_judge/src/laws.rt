//! Laws of what is judged. Each function does nothing: its contract is the law.

ghost use Rattle.std.specs.Prelude.{◌≡◌, List, ℕ};
ghost use Rattle.snmp_manager.specs.Views.{Held};
ghost use Rattle.diagnose_judge.specs.Judging.{Judgement};
ghost use Rattle.diagnose_judge.specs.Runs.{HasJudged, own_of, judgements_of_own};

use engine_clock::laws::the_same_marks_are_one_map;
use snmp_msg::{one_content, one_pdu};

/// Only what authoritative engines sent teaches anything. Two lists with the same messages of these engines, whatever
/// else is in front of them, between them and behind them, leave the same clocks, and these messages are judged alike.
pub fn requests_change_nothing()
    ensures { (begin one other : Held) (xs ys : List (ℕ × List ℕ)) (js ks : List Judgement)
        → HasJudged begin xs js one → HasJudged begin ys ks other → own_of xs js ≡ own_of ys ks
        → (one ≡ other) × (judgements_of_own js ≡ judgements_of_own ks) }
{
    usm_core::one_answer();
    one_content();
    one_pdu();
    the_same_marks_are_one_map();
}
