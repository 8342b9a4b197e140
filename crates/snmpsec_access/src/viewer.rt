//! What a name may see, for each view, at each level and in each context.

ghost use Rattle.std.specs.Prelude.{◌≡◌, ◌∷◌, [], map, OnOk, IfOk};
ghost use Rattle.std.specs.List.{list_any};
ghost use Rattle.vacm_core.specs.Tables.{tables_of, HaveSameRows};
ghost use Rattle.vacm_core.specs.Distinct.{HasOneRowEach};
ghost use Rattle.snmpsec_access.specs.Seen.{AreSeen, includes, of_level, viewer};
ghost use Rattle.snmpsec_access.specs.Rising.{SeesOn, asker_of, decided_of, decision_of};

use crate::deciding::{Deciding, deciding_of};
use snmp_ber::Level;
use std::alloc::{AllocError, Global};
use vacm_core::{Asking, Rows, Vacm, ViewType};

/// What a name may see for a view, at a level and in a context.
#[derive(Drop)]
pub struct Seen<'a> {
    pub level: Level,
    pub view: ViewType,
    pub context: &'a [u8],
    pub deciding: Deciding<'a>,
}

/// A security name under a security model, and over what it is asked: the tables, and the rows that they are made of.
#[derive(Clone, Copy)]
pub(crate) struct Viewer<'a> {
    pub(crate) access: &'a Vacm,
    pub(crate) rows: &'a Rows,
    pub(crate) model: u32,
    pub(crate) name: &'a [u8],
}

/// A row of one of them includes what fits it.
pub fn any_includes(seen: &[Seen<'_>]) -> bool
    ensures { result ≡ list_any (λ s. includes (decision_of s.deciding)) seen.now }
{
    seen.iter().any(|seen| seen.deciding.includes())
}

/// Appends what is seen in a context.
fn put_asked<'a>(
    alloc: Global,
    out: &mut Vec<Seen<'a>>,
    who: &Viewer<'a>,
    asking: &Asking<'a>,
) -> Result<(), AllocError>
    requires one_each { HasOneRowEach (tables_of who.now.rows.now) }
    requires same_rows { HaveSameRows (tables_of who.now.rows.now) who.now.access.now }
    ensures { OnOk result (SeesOn (tables_of who.now.rows.now)
        (asker_of asking.now ∷ [])
        (map (decided_of asking.now.model asking.now.name.now) out.old.items)
        (map (decided_of asking.now.model asking.now.name.now) out.new.items)) }
{
    let deciding = deciding_of(alloc, who.access, who.rows, asking)?;
    out.push(Seen {
        level: asking.level,
        view: asking.view,
        context: asking.context,
        deciding,
    })?;
    Ok(())
}

/// Appends what is seen in the contexts.
fn put_view<'a>(
    alloc: Global,
    out: &mut Vec<Seen<'a>>,
    who: &Viewer<'a>,
    level: Level,
    view: ViewType,
) -> Result<(), AllocError>
    requires one_each { HasOneRowEach (tables_of who.now.rows.now) }
    requires same_rows { HaveSameRows (tables_of who.now.rows.now) who.now.access.now }
    ensures { OnOk result
        (SeesOn (tables_of who.now.rows.now)
        (map (viewer who.now.model who.now.name.now level view) who.now.rows.now.contexts.items)
        (map (decided_of who.now.model who.now.name.now) out.old.items)
        (map (decided_of who.now.model who.now.name.now) out.new.items)) }
{
    for context in &who.rows.contexts {
        let asking = Asking {
            model: who.model,
            name: who.name,
            level,
            context: context.name.as_slice(),
            view,
            variable: &[],
        };
        put_asked(alloc, out, who, &asking)?;
    }
    Ok(())
}

/// Appends what is seen for the views.
fn put_level<'a>(
    alloc: Global,
    out: &mut Vec<Seen<'a>>,
    who: &Viewer<'a>,
    level: Level,
) -> Result<(), AllocError>
    requires one_each { HasOneRowEach (tables_of who.now.rows.now) }
    requires same_rows { HaveSameRows (tables_of who.now.rows.now) who.now.access.now }
    ensures { OnOk result
        (SeesOn (tables_of who.now.rows.now)
        (of_level who.now.rows.now.contexts.items who.now.model who.now.name.now level)
        (map (decided_of who.now.model who.now.name.now) out.old.items)
        (map (decided_of who.now.model who.now.name.now) out.new.items)) }
{
    put_view(alloc, out, who, level, ViewType::Read)?;
    put_view(alloc, out, who, level, ViewType::Write)?;
    put_view(alloc, out, who, level, ViewType::Notify)
}

/// What the security name may see under the model over tables that are made of the rows, by the level, then
/// the view, then the context row.
///
/// Of each it is said which answer each variable gets, or which rows decide. They are the rows of the view from the
/// least up, by the number of arcs and then by the arcs, without those that change no answer; of a view with a
/// wildcard they are all. The error is out of memory.
///
/// For c contexts 9c questions are asked. Each goes over the family rows once. It sorts those of its view, and
/// for each of them looks up at most as many beginnings of its subtree as that has arcs.
pub fn sees<'a>(
    alloc: Global,
    access: &'a Vacm,
    rows: &'a Rows,
    model: u32,
    name: &'a [u8],
) -> Result<Vec<Seen<'a>>, AllocError>
    requires one_each { HasOneRowEach (tables_of rows.now) }
    requires same_rows { HaveSameRows (tables_of rows.now) access.now }
    ensures { IfOk result (λ seen. AreSeen (tables_of rows.now) model name.now
        (map (decided_of model name.now) seen.items)) }
{
    let viewer = Viewer {
        access,
        rows,
        model,
        name,
    };
    let mut out = Vec::new(alloc);
    put_level(alloc, &mut out, &viewer, Level::NoAuthNoPriv)?;
    put_level(alloc, &mut out, &viewer, Level::AuthNoPriv)?;
    put_level(alloc, &mut out, &viewer, Level::AuthPriv)?;
    Ok(out)
}
