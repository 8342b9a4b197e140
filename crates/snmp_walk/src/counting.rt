//! How many bindings a PDU has.

ghost use Rattle.std.specs.Prelude.{◌≡◌, ◌-◌, ◌^◌, length, min};
ghost use Rattle.snmp_msg.specs.Variables.{variables_of};

use snmp_msg::Pdu;

/// Returns how many bindings the PDU has, at most 18446744073709551615.
pub fn binding_count(pdu: &Pdu<'_>) -> usize
    ensures { result ≡ min (length (variables_of pdu.now.list.now)) (2 ^ 64 - 1) }
{
    let mut count: usize = 0;
    for _binding in pdu.variable_bindings() {
        count = count.saturating_add(1);
    }
    count
}
