//! Which notifications a listener takes, and from whom.

ghost use Rattle.std.specs.Prelude.{◌↔◌, IsTrue};
ghost use Rattle.snmp_listener.specs.Wanted.{IsNamed};

use snmp_ber::Level;

/// Which notifications a listener takes, and from whom.
#[derive(Drop)]
pub struct ListenerRules {
    /// The least level. A notification below it isn't reported. None: for each user the highest level for which the
    /// user has the keys.
    pub least_level: Option<Level>,
    /// The addresses from which notifications at noAuthNoPriv are taken: any octets that the caller gives each address.
    pub sources: Vec<Vec<u8>>,
    /// The names of the users whose notifications have to be in their notify view.
    pub viewed: Vec<Vec<u8>>,
    /// How many notifications are remembered at once. A Trap that has authentication is remembered until its sender's
    /// time, as it is held here, is over 150 seconds later than it was then, and any other notification for 301
    /// seconds. Each new one is compared with all of them.
    pub most: usize,
}

/// Returns true if these octets are among the names.
pub(crate) fn is_named(names: &[Vec<u8>], octets: &[u8]) -> bool
    ensures { IsTrue result ↔ IsNamed names.now octets.now }
{
    for name in names {
        if name.as_slice() == octets {
            return true;
        }
    }
    false
}
