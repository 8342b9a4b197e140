//! Who asks.

ghost use Rattle.std.specs.Prelude.{◌↔◌, IsTrue};
ghost use Rattle.snmp_responder.specs.Code.{seen_by};

use snmp_ber::{Level, Oid};
use vacm_core::laws::order_is_free;
use vacm_core::{Access, Vacm, ViewType};

/// The sender of a message that reads, and the tables that say what it may see (RFC 3415, section 3).
#[derive(Clone, Copy)]
pub struct Viewer<'a> {
    pub vacm: &'a Vacm,
    /// The number of the security model.
    pub model: u32,
    /// The security name.
    pub name: &'a [u8],
    pub level: Level,
    /// The name of the context.
    pub context: &'a [u8],
}

impl Viewer<'_> {
    /// Returns true if the message may see the variable of this name: if isAccessAllowed answers accessAllowed in the
    /// read view. It takes no memory.
    #[tactic(auto, unfolding(crate::specs::Code::seen_by))]
    pub fn sees(&self, variable: &Oid) -> bool
        ensures { IsTrue result ↔ seen_by self.now variable.now }
    {
        order_is_free();
        let answer = self.vacm.is_access_allowed(
            self.model,
            self.name,
            self.level,
            ViewType::Read,
            self.context,
            variable,
        );
        matches!(answer, Access::AccessAllowed)
    }
}
