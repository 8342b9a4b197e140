//! Laws over the definitions.

ghost use Rattle.std.specs.Prelude.{◌≡◌, ℕ, List, map};
ghost use Rattle.usm_users.specs.declared.load.UserRow.{UserRow};
ghost use Rattle.vacm_core.specs.Tables.{Tables};
ghost use Rattle.snmpsec_config.specs.Rows.{user_values};
ghost use Rattle.snmpsec_gate_config.specs.Rows.{HaveOwnContexts, gate_values, device_values};
ghost use Rattle.snmpsec_gate_config.specs.Refusals.{Says, SaysSound, RefusesText};
ghost use Rattle.snmpsec_gate_config.specs.declared.settings.GateSettings.{GateSettings as Gate};
ghost use Rattle.snmpsec_gate_config.specs.declared.settings.DeviceSettings.{DeviceSettings as Device};
ghost use Rattle.snmpsec_gate_config.specs.declared.settings.ReceiverSettings.{ReceiverSettings as Receiver};
ghost use Rattle.snmpsec_gate_config.specs.declared.fault.GateFault.{GateFault};

/// A text says one thing of a gateway, of its devices and receivers, and of users and access; one whose rows load gives
/// each device a context of its own, and is refused by no cause.
pub fn one_gateway()
    ensures gate { (text : List ℕ) (gate other : Gate) (devices others : List Device)
        (receivers those : List Receiver) (users these : List UserRow) (rows more : Tables)
        → Says text gate devices receivers users rows → Says text other others those these more
        → gate_values gate ≡ gate_values other }
    ensures devices { (text : List ℕ) (gate other : Gate) (devices others : List Device)
        (receivers those : List Receiver) (users these : List UserRow) (rows more : Tables)
        → Says text gate devices receivers users rows → Says text other others those these more
        → map device_values devices ≡ map device_values others }
    ensures receivers { (text : List ℕ) (gate other : Gate) (devices others : List Device)
        (receivers those : List Receiver) (users these : List UserRow) (rows more : Tables)
        → Says text gate devices receivers users rows → Says text other others those these more
        → receivers ≡ those }
    ensures users { (text : List ℕ) (gate other : Gate) (devices others : List Device)
        (receivers those : List Receiver) (users these : List UserRow) (rows more : Tables)
        → Says text gate devices receivers users rows → Says text other others those these more
        → map user_values users ≡ map user_values these }
    ensures rows { (text : List ℕ) (gate other : Gate) (devices others : List Device)
        (receivers those : List Receiver) (users these : List UserRow) (rows more : Tables)
        → Says text gate devices receivers users rows → Says text other others those these more
        → rows ≡ more }
    ensures own_contexts { (text : List ℕ) (gate : Gate) (devices : List Device) (receivers : List Receiver)
        (users : List UserRow) (rows : Tables) → SaysSound text gate devices receivers users rows
        → HaveOwnContexts devices }
    ensures unrefused { (text : List ℕ) (gate : Gate) (devices : List Device) (receivers : List Receiver)
        (users : List UserRow) (rows : Tables) (fault : GateFault)
        → SaysSound text gate devices receivers users rows → ¬ RefusesText text fault }
{}
