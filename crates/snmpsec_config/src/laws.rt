//! Laws over the definitions.

ghost use Rattle.std.specs.Prelude.{◌≡◌, ℕ, List, map};
ghost use Rattle.usm_users.specs.declared.load.UserRow.{UserRow};
ghost use Rattle.vacm_core.specs.Tables.{Tables};
ghost use Rattle.snmpsec_config.specs.Rows.{user_values};
ghost use Rattle.snmpsec_config.specs.Refusals.{Says, SaysSound, RefusesText};
ghost use Rattle.snmpsec_config.specs.declared.fault.ConfigFault.{ConfigFault};

/// A text stands for one list of rows, and one whose rows load is refused by no cause.
pub fn one_configuration()
    ensures users { (text : List ℕ) (users others : List UserRow) (rows more : Tables)
        → Says text users rows
        → Says text others more → map user_values users ≡ map user_values others }
    ensures rows { (text : List ℕ) (users others : List UserRow) (rows more : Tables)
        → Says text users rows
        → Says text others more → rows ≡ more }
    ensures unrefused { (text : List ℕ) (users : List UserRow) (rows : Tables) (fault : ConfigFault)
        → SaysSound text users rows → ¬ RefusesText text fault }
{}
