//! Dialogues that are over.

ghost use Rattle.snmp_walk.specs.Dialogue.{IsWhole};

use snmp_walk::Dialogue;

/// A dialogue in which all is there for the Response.
#[derive(Drop)]
pub struct WholeDialogue {
    pub dialogue: Dialogue,
    pub ghost whole: { IsWhole dialogue },
}
