//! Which listed key is meant by one that isn't listed.

ghost use Rattle.std.specs.Prelude.{Contains, IfSome};
ghost use Rattle.snmpsec_gate_config.specs.Keys.{listed};

use crate::table::{GateKey, GateTable};
use snmpsec_config::likeness;

/// The key of the table that is most like this name, if one has an octet in common with it.
pub(crate) fn nearest(table: GateTable, name: &str) -> Option<GateKey>
    ensures { IfSome result (Contains (listed table)) }
{
    let mut near = None;
    let mut most = 0;
    for key in table.keys() {
        let like = likeness(key.name().as_bytes(), name.as_bytes());
        if like > most {
            near = Some(*key);
            most = like;
        }
    }
    near
}
