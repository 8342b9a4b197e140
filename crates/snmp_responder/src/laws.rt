//! Laws of answers.

ghost use Rattle.std.specs.Prelude.{◌≡◌, ℕ, List};
ghost use Rattle.vacm_core.specs.Allowed.{Requester};
ghost use Rattle.vacm_core.specs.Tables.{Tables};
ghost use Rattle.vacm_core.specs.declared.access.ViewType.TheVariants.{Read};
ghost use Rattle.vacm_next.specs.Next.{Sees};
ghost use Rattle.snmp_msg.specs.Variables.{Variable};
ghost use Rattle.snmp_responder.specs.Distinct.{HasDistinctNames};
ghost use Rattle.snmp_responder.specs.Instrumentation.{IsGot, Known};
ghost use Rattle.snmp_responder.specs.Next.{AreNextAnswers};
ghost use Rattle.snmp_responder.specs.Bulk.{IsBulk};

/// If no two variables of a device have one name, each request has one answer (RFC 3416, sections 4.2.1 to 4.2.3).
pub fn one_answer()
    ensures get { (device : Known) → HasDistinctNames device → (t : Tables) (requester : Requester)
        → (name : List ℕ) (v w : Variable)
        → IsGot device (Sees t requester Read) name v
        → IsGot device (Sees t requester Read) name w → v ≡ w }
    ensures next { (device : Known) → HasDistinctNames device → (t : Tables) (requester : Requester)
        → (names : List (List ℕ)) (vs ws : List Variable)
        → AreNextAnswers device (Sees t requester Read) names vs
        → AreNextAnswers device (Sees t requester Read) names ws → vs ≡ ws }
    ensures bulk { (device : Known) → HasDistinctNames device → (t : Tables) (requester : Requester)
        → (names : List (List ℕ)) (non_repeaters most : ℕ) (vs ws : List Variable)
        → IsBulk device (Sees t requester Read) names non_repeaters most vs
        → IsBulk device (Sees t requester Read) names non_repeaters most ws → vs ≡ ws }
{}
