//! Object identifiers in the octets that spell them.

ghost use Rattle.std.specs.Prelude.{◌≡◌, ◌≤◌, ℕ, List, length, Some, true, is_some, MatchOption};
ghost use Rattle.snmp_ber.specs.Oid.{IsIdentifier, IsObjectId, AreArcs, identifier_in, identifier};

use crate::identifier::{is_oid, read_arcs};
use crate::oid::Oid;
use arrayvec::ArrayVec;
use std::marker::Model;

/// An object identifier, in the octets elsewhere that are the content of its OBJECT IDENTIFIER (X.690,
/// section 8.19). It is of 16 octets, where an `Oid` is of 520, and its arcs are read where they are asked
/// for.
#[derive(Drop)]
pub struct ObjectName<'a> {
    content: &'a [u8],
}

impl<'a> Model for ObjectName<'a> {
    ghost use Rattle.std.specs.Prelude.{List, ℕ};
    ghost use Rattle.snmp_ber.specs.ObjectName.{arcs_in};
    ghost use Rattle.snmp_ber.specs.Oid.{IsIdentifier};

    ghost Value = { List ℕ };

    ghost view = { λ name. arcs_in name.content.now };

    ghost invariant = { λ name. IsIdentifier (arcs_in name.content.now) name.content.now };
}

impl<'a> ObjectName<'a> {
    /// The identifier with this content, or None where it isn't an identifier's: `read_oid` tells which are.
    pub fn of(content: &'a [u8]) -> Option<ObjectName<'a>>
        ensures identifier { MatchOption result
            ((arcs : List ℕ) → IsIdentifier arcs content.now → ⊥)
            (λ name. IsIdentifier name content.now) }
        ensures exact { result ≡ identifier_in content.now }
    {
        if !is_oid(content) {
            return None;
        }
        Some(ObjectName { content })
    }

    /// The identifier with this content, which is one's.
    pub fn of_content(content: &'a [u8]) -> ObjectName<'a>
        requires { is_some (identifier_in content.now) ≡ true }
        ensures identifier { IsIdentifier result content.now }
        ensures exact { Some result ≡ identifier_in content.now }
    {
        ObjectName { content }
    }

    /// The content of its OBJECT IDENTIFIER.
    pub fn content(&self) -> &'a [u8]
        ensures spelled { result.now ≡ identifier self.now }
        ensures identifier { IsIdentifier self.now result.now }
        ensures arcs { AreArcs self.now }
        ensures object_id { IsObjectId self.now }
        ensures most { length result.now ≤ 635 }
    {
        self.content
    }

    /// The identifier itself.
    pub fn oid(&self) -> Oid
        ensures { result ≡ self.now }
    {
        let mut arcs = ArrayVec::new();
        let Some(()) = read_arcs(&mut arcs, self.content) else {
            unreachable!();
        };
        Oid::from_arcs(arcs)
    }
}
