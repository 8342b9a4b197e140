//! Laws of whole dialogues.

ghost use Rattle.std.specs.Prelude.{◌≡◌, ◌+◌, List, All};
ghost use Rattle.snmp_msg.specs.Variables.{Variable};
ghost use Rattle.snmp_responder.specs.Code.{seen_by};
ghost use Rattle.snmp_responder.specs.declared.viewer.Viewer.{Viewer};
ghost use Rattle.snmp_walk.specs.Dialogue.{AllStand, requests};
ghost use Rattle.snmp_walk.specs.BulkDialogue.{BulkAllStand, bulk_requests};
ghost use Rattle.snmp_walk.specs.ObjectIds.{AllNamed, BulkAllNamed};
ghost use Rattle.snmp_walk.specs.BulkRun.{BulkAsksWell, BulkStep, IsBulkRun, bulk_asks_in};
ghost use Rattle.snmp_walk.specs.declared.bulk_dialogue.BulkDialogue.{BulkDialogue};
ghost use Rattle.snmp_walk.specs.Run.{AsksWell, IsRun, Step, asks_in};
ghost use Rattle.snmp_walk.specs.declared.dialogue.Dialogue.{Dialogue};

/// Whatever a device answers, and however often: it is asked only for names that the message may see, or in a walk from
/// places from which no such name is passed over (`inwards`). What is known of the columns at the beginning is known of
/// them over all that it told (`stand`). They are for the same bindings of the request (`requests`). The device is
/// asked as often as there are rounds at most (`rounds`). Each name that it is asked can be spelled (`named`).
pub fn one_dialogue()
    ensures stand { (viewer : Viewer) (told : List Variable) (steps : List Step) (first last : Dialogue)
        → AllStand (seen_by viewer) told first
        → IsRun (seen_by viewer) told first steps last → AllStand (seen_by viewer) told last }
    ensures inwards { (viewer : Viewer) (told : List Variable) (steps : List Step) (first last : Dialogue)
        → AllStand (seen_by viewer) told first
        → IsRun (seen_by viewer) told first steps last
        → All (AsksWell (seen_by viewer) told) last.columns.items }
    ensures requests { (viewer : Viewer) (told : List Variable) (steps : List Step) (first last : Dialogue)
        → IsRun (seen_by viewer) told first steps last → requests last ≡ requests first }
    ensures rounds { (viewer : Viewer) (told : List Variable) (steps : List Step) (first last : Dialogue)
        → IsRun (seen_by viewer) told first steps last → asks_in steps + last.rounds ≡ first.rounds }
    ensures named { (viewer : Viewer) (told : List Variable) (steps : List Step) (first last : Dialogue)
        → AllNamed first
        → IsRun (seen_by viewer) told first steps last → AllNamed last }
{}

/// The same of a GetBulkRequest. The device is asked only for places from which no name is passed over that the message
/// may see (`inwards`). What is known of the columns at the beginning is known of them over all that it told (`stand`).
/// They are for the same bindings, and want as many variables of each (`requests`). The device is asked as often as
/// there are rounds at most (`rounds`). Each name that it is asked can be spelled (`named`).
pub fn one_bulk_dialogue()
    ensures stand { (viewer : Viewer) (told : List Variable) (steps : List BulkStep) (first last : BulkDialogue)
        → BulkAllStand (seen_by viewer) told first
        → IsBulkRun (seen_by viewer) told first steps last → BulkAllStand (seen_by viewer) told last }
    ensures inwards { (viewer : Viewer) (told : List Variable) (steps : List BulkStep) (first last : BulkDialogue)
        → BulkAllStand (seen_by viewer) told first
        → IsBulkRun (seen_by viewer) told first steps last
        → All (BulkAsksWell (seen_by viewer) told) last.columns.items }
    ensures requests { (viewer : Viewer) (told : List Variable) (steps : List BulkStep) (first last : BulkDialogue)
        → IsBulkRun (seen_by viewer) told first steps last → bulk_requests last ≡ bulk_requests first }
    ensures rounds { (viewer : Viewer) (told : List Variable) (steps : List BulkStep) (first last : BulkDialogue)
        → IsBulkRun (seen_by viewer) told first steps last
        → bulk_asks_in steps + last.rounds ≡ first.rounds }
    ensures named { (viewer : Viewer) (told : List Variable) (steps : List BulkStep) (first last : BulkDialogue)
        → BulkAllNamed first
        → IsBulkRun (seen_by viewer) told first steps last → BulkAllNamed last }
{}
