//! Laws of devices that are seen through a view.

ghost use Rattle.std.specs.Prelude.{◌≡◌, ◌≢◌, ◌<◌, ◌≤◌, ◌++◌, ℕ, [], All, AllPairs, List, length, map, slice_index_or};
ghost use Rattle.std.specs.List.{AllZip};
ghost use Rattle.snmp_msg.specs.Variables.{Variable, variable_of};
ghost use Rattle.snmp_msg.specs.declared.binding.Binding.{Binding};
ghost use Rattle.snmp_msg.specs.declared.pdu.Pdu.{Pdu};
ghost use Rattle.vacm_core.specs.Allowed.{Requester};
ghost use Rattle.vacm_core.specs.Tables.{Tables};
ghost use Rattle.vacm_core.specs.declared.access.ViewType.TheVariants.{Read};
ghost use Rattle.vacm_next.specs.Next.{Sees};
ghost use Rattle.snmp_responder.specs.Bulk.{IsBulk};
ghost use Rattle.snmp_responder.specs.Code.{seen_by};
ghost use Rattle.snmp_responder.specs.Distinct.{HasDistinctNames};
ghost use Rattle.snmp_responder.specs.Instrumentation.{IsGot, Known};
ghost use Rattle.snmp_responder.specs.Next.{AreNextAnswers};
ghost use Rattle.snmp_responder.specs.declared.viewer.Viewer.{Viewer};
ghost use Rattle.snmp_walk.specs.Answer.{IsAnswered, IsNoError};
ghost use Rattle.snmp_walk.specs.BulkColumn.{IsNew};
ghost use Rattle.snmp_walk.specs.BulkDialogue.{HasGathered, HasRepetition, IsEnough, bulk_requests, bulk_requests_of};
ghost use Rattle.snmp_walk.specs.BulkRun.{BulkStep};
ghost use Rattle.snmp_walk.specs.Dialogue.{AllBegin, IsShown, asks_of, requests, requests_of};
ghost use Rattle.snmp_walk.specs.Front.{IsFront};
ghost use Rattle.snmp_walk.specs.Run.{Step};
ghost use Rattle.snmp_walk.specs.declared.bulk_column.BulkColumn.{BulkColumn};
ghost use Rattle.snmp_walk.specs.declared.bulk_dialogue.BulkDialogue.{BulkDialogue};
ghost use Rattle.snmp_walk.specs.declared.dialogue.Answered.{Answered};
ghost use Rattle.snmp_walk.specs.declared.dialogue.Answered.TheVariants.{Taken};
ghost use Rattle.snmp_walk.specs.declared.dialogue.Dialogue.{Dialogue};
ghost use Rattle.snmp_walk.specs.declared.operation.ReadOperation.TheVariants.{Get, GetNext};
ghost use Rattle.gateway_laws.specs.Alike.{IsAlike, LookAlike};
ghost use Rattle.snmp_walk.specs.Turns.{repeated};
ghost use Rattle.gateway_laws.specs.Bulk.{IsFrontOfBulk, IsTrueBulkRun, IsTrueInTurn};
ghost use Rattle.gateway_laws.specs.Device.{AllSeen, IsDevice, IsTrueAnswer};
ghost use Rattle.gateway_laws.specs.Dialogues.{AreGot, IsTrueRun};

/// A device that answers each time as RFC 3416 says (sections 4.2.1 and 4.2.2) is seen as it is, but for what the view
/// hides: the Response to a GetRequest has for each name, and that to a GetNextRequest has behind each name, exactly
/// what the device restricted to the view has (`get`, `next`). No answer of the device is taken for a wrong one
/// (`taken`).
pub fn a_device_in_a_view()
    ensures get { (viewer : Viewer) (device : Known) (told asked : List Variable) (steps : List Step)
        (first last : Dialogue) (response : List Binding)
        → IsDevice device → AllBegin (seen_by viewer) first → requests first ≡ requests_of Get asked
        → IsTrueRun device (seen_by viewer) told first steps last → AllZip IsShown last.columns.items response
        → AreGot device (seen_by viewer) (map (λ v. v.name) asked) (map variable_of response) }
    ensures next { (viewer : Viewer) (device : Known) (told asked : List Variable) (steps : List Step)
        (first last : Dialogue) (response : List Binding)
        → IsDevice device → AllBegin (seen_by viewer) first → requests first ≡ requests_of GetNext asked
        → IsTrueRun device (seen_by viewer) told first steps last → AllZip IsShown last.columns.items response
        → AreNextAnswers device (seen_by viewer) (map (λ v. v.name) asked) (map variable_of response) }
    ensures taken { (viewer : Viewer) (device : Known) (old new : Dialogue) (answer : Pdu) (becomes : Answered)
        → IsDevice device → IsTrueAnswer device (asks_of old.columns.items) answer → IsNoError answer
        → IsAnswered (seen_by viewer) answer old new becomes → becomes ≡ Taken }
{}

/// The same of a GetBulkRequest (RFC 3416, section 4.2.3): what the Response holds is a front of what the device
/// restricted to the view has, if each answer of the device has what it has next, column by column, and no answer says
/// noSuchName. Any answer may be shorter than what was asked for, or have another error.
pub fn a_front_of_a_view()
    ensures { (viewer : Viewer) (device : Known) (told asked : List Variable) (steps : List BulkStep)
        (first last : BulkDialogue) (response : List Variable)
        → IsDevice device → All IsNew first.columns.items
        → bulk_requests first ≡ bulk_requests_of first.non_repeaters first.max_repetitions asked
        → IsTrueBulkRun device (seen_by viewer) told first steps last
        → IsFront last.non_repeaters last.max_repetitions last.columns.items response
        → IsFrontOfBulk device (seen_by viewer) (map (λ v. v.name) asked) first.non_repeaters first.max_repetitions
        response }
{}

/// How long that front is: of such a device a dialogue that asks for one repetition at least, and ends with enough, has
/// the first binding of each name, unless the device gave more octets than are kept (`enough`). Then the front has at
/// least one whole repetition, and the non-repeaters before it (`repetition`).
pub fn a_front_has_a_repetition()
    ensures enough { (viewer : Viewer) (device : Known) (told asked : List Variable) (steps : List BulkStep)
        (first last : BulkDialogue) → IsDevice device → All IsNew first.columns.items
        → bulk_requests first ≡ bulk_requests_of first.non_repeaters first.max_repetitions asked
        → 0 < first.max_repetitions → IsTrueBulkRun device (seen_by viewer) told first steps last
        → IsEnough last → ¬ HasGathered last.gathered last.columns.items → HasRepetition last.columns.items }
    ensures repetition { (non_repeaters most : ℕ) (columns : List BulkColumn) (response : List Variable)
        → 0 < most → HasRepetition columns → IsFront non_repeaters most columns response
        → length columns ≤ length response }
{}

/// An answer to a GetBulkRequest that is a front of what RFC 3416 says (section 4.2.3) has for each column what the
/// device has next, after the name that was asked for it, and then after the name that it gave before. `single` are the
/// columns of the non-repeaters, and `again` those of the repeaters, each with its name.
pub fn a_bulk_answer_in_turn()
    ensures { (device : Known) (names : List (List ℕ)) (single again : List ℕ) (most : ℕ)
        (whole vs rest : List Variable) → All (λ column. column < length names) (single ++ again)
        → AllPairs (λ a b. a ≢ b) (single ++ again)
        → IsBulk device AllSeen (map (λ column. slice_index_or names column []) (single ++ again)) (length single) most
        whole → whole ≡ vs ++ rest → IsTrueInTurn device names (single ++ repeated most again) vs }
{}

/// Two devices that have the same variables of those that a message may see can't be told apart by it. Their next
/// variables are the same (`next`). What a GetRequest has is the same, but for which of noSuchObject and noSuchInstance
/// says that there is no variable (`get`).
pub fn devices_that_look_alike()
    ensures get { (one other : Known) → HasDistinctNames other → (t : Tables) (requester : Requester)
        → LookAlike (Sees t requester Read) one other → (name : List ℕ) (v w : Variable)
        → IsGot one (Sees t requester Read) name v
        → IsGot other (Sees t requester Read) name w → IsAlike name v w }
    ensures next { (one other : Known) → HasDistinctNames other → (t : Tables) (requester : Requester)
        → LookAlike (Sees t requester Read) one other → (names : List (List ℕ)) (vs ws : List Variable)
        → AreNextAnswers one (Sees t requester Read) names vs
        → AreNextAnswers other (Sees t requester Read) names ws → vs ≡ ws }
{}
