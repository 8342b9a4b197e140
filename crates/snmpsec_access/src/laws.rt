//! Laws over the definitions.

ghost use Rattle.std.specs.Prelude.{◌≡◌, List, ℕ, Contains};
ghost use Rattle.vacm_core.specs.Tables.{Tables};
ghost use Rattle.vacm_core.specs.Allowed.{Allowed};
ghost use Rattle.vacm_core.specs.declared.access.ViewType.{ViewType};
ghost use Rattle.vacm_core.specs.declared.access.Access.TheVariants.{AccessAllowed};
ghost use Rattle.snmpsec_access.specs.Askers.{Asker, askers};
ghost use Rattle.snmpsec_access.specs.NameText.{IsOnePiece, name_read, name_text};

/// Whoever sees a variable is among those that are asked for: a name that no group row has, and a context
/// that isn't there, see none.
pub fn no_other_sees()
    ensures { (t : Tables) (views : List ViewType) (a : Asker)
        (variable : List ℕ) → Contains views a.view
        → Allowed t a.message a.view variable AccessAllowed → Contains (askers t views) a }
{}

/// Each name is read back of its text, so two names never have one text. A text has the octets 21 to 7E alone, and
/// between quotes blanks too. So nothing of a name reaches a terminal as a control character, or makes a line.
pub fn name_is_read_back(name: &[u8])
    ensures read_back { name_read (name_text name.now) ≡ name.now }
    ensures one_piece { IsOnePiece (name_text name.now) }
{
    let _first = name.first();
}
