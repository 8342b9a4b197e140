//! The tables that answer (RFC 3415, section 3).
ghost use Rattle.std.specs.Prelude.{◌≡◌, ◌≢◌, ◌↔◌, ◌++◌, ◌^◌, ◌<◌, [], ℕ, List, length};
ghost use Rattle.std.specs.Prelude.{IsTrue, IfOk, IfErr, OnOk, MatchResult};
ghost use Rattle.std.specs.List.Sorted.{IsPermutation};
ghost use Rattle.vacm_core.specs.Tables.{tables_of, HaveSameRows};
ghost use Rattle.vacm_core.specs.Faults.{AreSound, IsTold};
ghost use Rattle.vacm_core.specs.Distinct.{HasOneRowEach};
ghost use Rattle.vacm_core.specs.declared.access.ViewType.{ViewType as Asked};
ghost use Rattle.vacm_core.specs.declared.access.Access.{Access as Answer};
ghost use Rattle.vacm_core.specs.Allowed as spec;
ghost use Rattle.vacm_core.specs.declared.access.Access.TheVariants.{NotInView, AccessAllowed};
ghost use Rattle.vacm_core.specs.Allowed.{Allowed, ByView, HasContext};
ghost use Rattle.vacm_core.specs.View.{AreExact, AreRowsOf};
ghost use Rattle.vacm_core.specs.Steps.{DecidesContext, TellsContext, requester_of};

use crate::ask::{Deciding, context_row, decide_over};
use crate::explain::context_step;
use crate::fault::find_fault;
use crate::named_row::NamedRow;
use crate::rows::{AccessRow, ContextRow, FamilyRow, GroupRow};
use crate::steps::{Asking, Explained};
use crate::table::OrderedTable;
use crate::view_rows::ViewRows;
use crate::wildcard::WildcardRow;
use crate::{Access, Name, Rows, VacmFault, ViewType};
use snmp_ber::{Level, Oid};
use std::alloc::{AllocError, Global};
use std::marker::Model;

/// As many family rows as there may be: fewer than the arcs of one place, so that one is left that no row has.
const MOST_FAMILIES: usize = u32::MAX as usize;

/// The four tables, each without two rows of one index.
///
/// The rows of each stand by a name: contexts by their own, groups by the security name, access rows by the
/// group and family rows by the view. The rows of one name stand from the best down, so that the first that
/// fits decides. Family rows whose masks compare each arc stand apart: they are found by the beginnings of a
/// variable. Family rows with a wildcard are grouped by length and mask, and each group is sorted by the arcs that
/// its mask compares. A question searches each group of its view at most once, from the longest down. So its time
/// grows with the number of different pairs of length and mask in the view, and with the logarithm of its rows.
#[derive(Drop)]
pub struct Vacm {
    contexts: OrderedTable<ContextRow>,
    groups: OrderedTable<GroupRow>,
    access: OrderedTable<AccessRow>,
    exact: OrderedTable<FamilyRow>,
    others: OrderedTable<WildcardRow>,
}

impl Model for Vacm {
    ghost use Rattle.std.specs.Prelude.{◌++◌};
    ghost use Rattle.vacm_core.specs.Tables.{Tables};

    ghost Value = { Tables };

    ghost view = { λ v. record {
      contexts = v.contexts;
      groups = v.groups;
      access = v.access;
      families = v.exact ++ v.others;
    } };

    ghost use Rattle.vacm_core.specs.Distinct.{HasOneRowEach};
    ghost use Rattle.vacm_core.specs.View.{AreExact, AreRowsOf};
    ghost use Rattle.std.specs.Prelude.{◌^◌, ◌<◌, length};

    ghost invariant = { λ v. HasOneRowEach
        (record { contexts = v.contexts; groups = v.groups; access = v.access; families = v.exact ++ v.others })
        × AreExact v.exact × (length (v.exact ++ v.others) < 2 ^ 32) };
}

impl Vacm {
    /// Makes the tables of these rows.
    ///
    /// A fault is reported for the first row at fault, exactly there: see `VacmFault`. Out of memory leaves
    /// nothing behind, and may be reported instead of a fault. It is also reported for 2^32 family rows or more.
    /// For n rows it takes O(n log n) comparisons, whatever the rows and their order.
    pub fn load(alloc: Global, rows: &Rows) -> Result<Vacm, VacmFault>
        ensures sound { OnOk result (AreSound (tables_of rows.now)) }
        ensures same_rows { IfOk result (λ vacm. HaveSameRows (tables_of rows.now) vacm) }

        // So each question has the answer that it has over the rows.
        ensures decides { IfOk result
            (λ vacm. (requester : spec.Requester) (view : Asked)
            (variable : List ℕ) (answer : Answer)
            → Allowed vacm requester view variable answer
            → Allowed (tables_of rows.now) requester view variable answer) }
        ensures told { IfErr result (IsTold (tables_of rows.now)) }
    {
        match find_fault(alloc, rows) {
            Ok(None) => {}
            Ok(Some(fault)) => return Err(fault),
            Err(_) => return Err(VacmFault::OutOfMemory),
        }
        if rows.families.len() > MOST_FAMILIES {
            return Err(VacmFault::OutOfMemory);
        }
        match Vacm::made_of(alloc, rows) {
            Ok(vacm) => Ok(vacm),
            Err(_) => Err(VacmFault::OutOfMemory),
        }
    }

    /// The tables of rows without a fault.
    fn made_of(alloc: Global, rows: &Rows) -> Result<Vacm, AllocError>
        requires sound { AreSound (tables_of rows.now) }
        requires few { length rows.now.families.items < 2 ^ 32 }
        ensures { IfOk result (λ vacm. HaveSameRows (tables_of rows.now) vacm) }
    {
        let contexts = OrderedTable::of(alloc, &rows.contexts)?;
        let groups = OrderedTable::of(alloc, &rows.groups)?;
        let access = OrderedTable::of(alloc, &rows.access)?;
        let (exact, others) = families_of(alloc, &rows.families)?;
        Ok(Vacm {
            contexts,
            groups,
            access,
            exact,
            others,
        })
    }

    /// Whether a message may see the variable (isAccessAllowed). It takes no memory.
    ///
    /// The message has this security model, security name and level, and asks in the context of this name. Of
    /// the access rows that match it the best decides which view it has: a specific model is before any, then
    /// the longer prefix, then the higher level. Of the view's subtrees that have the variable the longest
    /// decides, and of equally long ones the greatest.
    pub fn is_access_allowed(
        &self,
        model: u32,
        name: &[u8],
        level: Level,
        view: ViewType,
        context: &[u8],
        variable: &Oid,
    ) -> Access
        ensures answer { let requester : spec.Requester = record {
          model = model;
          name = name.now;
          level = level;
          context = context.now;
        } in
            Allowed self.now requester view variable.now result }
        ensures one_row_each { HasOneRowEach self.now }
    {
        let asking = Asking {
            model,
            name,
            level,
            context,
            view,
            variable: variable.as_slice(),
        };
        self.decide(&asking).answer
    }

    /// Returns the name of the view that such messages have, whatever the variable. It takes no memory.
    ///
    /// The name isn't empty; family rows may have it or not. The error is the answer to each question of such
    /// messages, if no row names a view: `NoSuchContext`, `NoGroupName`, `NoAccessEntry` or `NoSuchView` (RFC
    /// 3415, section 3.2). `asking.variable` isn't looked at.
    pub fn view_of(&self, asking: &Asking<'_>) -> Result<&Name, Access>
        ensures view { MatchResult result
            (λ name. (name.now ≢ [])
            × ByView self.now (requester_of asking.now) asking.now.view (λ view. view ≡ name.now))
            (λ answer. (answer ≢ NotInView) × (answer ≢ AccessAllowed) × ((variable : List ℕ)
            → Allowed self.now (requester_of asking.now) asking.now.view variable answer)) }
        ensures one_row_each { HasOneRowEach self.now }
    {
        let decided = self.decide(asking);
        let Some(_context) = decided.context else {
            return Err(Access::NoSuchContext);
        };
        let Some(_group) = decided.group else {
            return Err(Access::NoGroupName);
        };
        let Some(row) = decided.access else {
            return Err(Access::NoAccessEntry);
        };
        let name = row.view(asking.view);
        if name.as_slice().is_empty() {
            return Err(Access::NoSuchView);
        }
        Ok(name)
    }

    /// Returns the family rows of the view of this name: none if no row has it. It takes no memory.
    pub fn rows_of_view(&self, view: &[u8]) -> ViewRows<'_>
        ensures { AreRowsOf self.now.families view.now result }
    {
        ViewRows::of(self.exact.rows_of(view), self.others.rows_of(view))
    }

    /// What decides on the question: its answer, and the rows that decide, by their positions. It takes no memory.
    ///
    /// The answer is that of `is_access_allowed`. The rows are those that the tables were made of, and each
    /// of their tables is gone over once at most.
    pub fn explain(&self, rows: &Rows, asking: &Asking<'_>) -> Explained
        requires { HaveSameRows (tables_of rows.now) self.now }
        ensures answer { Allowed self.now
            (requester_of asking.now) asking.now.view asking.now.variable.now result.answer }
        ensures steps { TellsContext (tables_of rows.now)
            (requester_of asking.now) asking.now.view asking.now.variable.now result.context }
    {
        let decided = self.decide(asking);
        Explained {
            answer: decided.answer,
            context: context_step(rows, asking, &decided),
        }
    }

    /// The answer to the question, and the rows that decide.
    fn decide(&self, asking: &Asking<'_>) -> Deciding<'_>
        ensures answer { Allowed self.now
            (requester_of asking.now) asking.now.view asking.now.variable.now result.answer }
        ensures rows { DecidesContext self.now
            (requester_of asking.now) asking.now.view asking.now.variable.now result }
        ensures one_row_each { HasOneRowEach self.now }
    {
        decide_over(
            &self.contexts,
            &self.groups,
            &self.access,
            &self.exact,
            &self.others,
            asking,
        )
    }

    /// Whether there is a context of this name (vacmContextTable, RFC 3415, section 4). It takes no memory.
    pub fn has_context(&self, name: &[u8]) -> bool
        ensures { IsTrue result ↔ HasContext self.now.contexts name.now }
    {
        context_row(&self.contexts, name).is_some()
    }
}

/// Copies of the rows: those whose masks compare each arc, and the others.
fn families_of(
    alloc: Global,
    rows: &[FamilyRow],
) -> Result<(OrderedTable<FamilyRow>, OrderedTable<WildcardRow>), AllocError>
    ensures same { IfOk result (λ made. IsPermutation rows.now (made.0 ++ made.1)) }
    ensures exact { IfOk result (λ made. AreExact made.0) }
{
    let (exact, others) = split(alloc, rows)?;
    let exact = OrderedTable::made_of(alloc, exact)?;
    let others = OrderedTable::made_of(alloc, others)?;
    Ok((exact, others))
}

/// Copies of the rows: those whose masks compare each arc, and the others.
fn split(
    alloc: Global,
    rows: &[FamilyRow],
) -> Result<(Vec<FamilyRow>, Vec<WildcardRow>), AllocError>
    ensures same { IfOk result (λ made. IsPermutation rows.now (made.0.items ++ made.1.items)) }
    ensures exact { IfOk result (λ made. AreExact made.0.items) }
{
    let mut exact = Vec::new(alloc);
    let mut others = Vec::new(alloc);
    for row in rows {
        if row.is_exact() {
            exact.push(row.copy())?;
        } else {
            others.push(WildcardRow::of(row.copy()))?;
        }
    }
    Ok((exact, others))
}
