//! Which listed key is meant by one that isn't listed.

ghost use Rattle.std.specs.Prelude.{◌≤◌, length, Contains, IfSome};
ghost use Rattle.snmpsec_config.specs.Keys.{listed};

use crate::table::{ConfigKey, ConfigTable};

/// Returns how many octets two names have in common at the front and at the back, none counted twice.
pub fn likeness(first: &[u8], second: &[u8]) -> usize
    ensures { (result ≤ length first.now) × (result ≤ length second.now) }
{
    let front = first
        .iter()
        .zip(second.iter())
        .take_while(|(x, y)| x == y)
        .count();
    let back = first
        .iter()
        .rev()
        .zip(second.iter().rev())
        .take_while(|(x, y)| x == y)
        .count();
    front
        .saturating_add(back)
        .min(first.len())
        .min(second.len())
}

/// The key of the table that is most like this name, if one has an octet in common with it.
pub(crate) fn nearest(table: ConfigTable, name: &str) -> Option<ConfigKey>
    ensures { IfSome result (Contains (listed table)) }
{
    let mut near = None;
    let mut most = 0;
    for key in table.keys() {
        let like = likeness(key.name().as_bytes(), name.as_bytes());
        if like > most {
            near = Some(*key);
            most = like;
        }
    }
    near
}
