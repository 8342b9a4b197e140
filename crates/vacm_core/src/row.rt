//! The rows of the four tables: what makes them bad, their indexes, and where they stand.
ghost use Rattle.std.specs.Prelude.{◌≡◌, Bool, true};
ghost use Rattle.std.specs.Ordering.{is_eq};
ghost use Rattle.snmp_ber.specs.Level.{level_number};
ghost use Rattle.vacm_core.specs.Faults.{is_bad_context, is_bad_group, is_bad_access, is_bad_family, is_same_context};
ghost use Rattle.vacm_core.specs.Faults.{is_same_group, is_same_access, is_same_family};
ghost use Rattle.vacm_core.specs.Allowed.{access_order, family_order};
ghost use Rattle.vacm_core.specs.Place.{context_name, group_name, access_name, family_name, context_rank, group_rank};
ghost use Rattle.vacm_core.specs.Laws.{equal_total, access_order-total, family_order-total, same_context, same_group};
ghost use Rattle.vacm_core.specs.Laws.{same_access, same_family, context_itself, group_itself, access_itself};
ghost use Rattle.vacm_core.specs.Laws.{family_itself};
ghost use Rattle.std.proofs.lemmas.Cmp.{nat_cmp_total, on_total};
ghost use Rattle.vacm_core.specs.declared.rows.GroupRow.{GroupRow as Group};

use crate::name::Name;
use crate::named_row::NamedRow;
use crate::rows::{AccessRow, ContextRow, FamilyRow, GroupRow};
use snmp_ber::{MAX_INTEGER32, Oid};
use std::cmp::Ordering;

/// A row of one of the four tables: what makes it bad, and its index.
pub(crate) trait TableRow: Drop {
    /// What no two rows of a table have in common.
    type Index: Ord + Drop;

    ghost is_bad_row: { Self → Bool };

    ghost is_same: { Self → Self → Bool };

    ghost index_of: { Self → Self.Index };

    fn is_bad(&self) -> bool
        ensures { result ≡ is_bad_row self.now };

    fn index(&self) -> Self::Index
        ensures { result ≡ index_of self.now };

    /// The rows have one index.
    fn has_index_of(&self, other: &Self) -> bool
        ensures { result ≡ is_same self.now other.now };

    ghost same_index: { (row other : Self)
        → is_same row other ≡ is_eq (Self.Index.cmp (index_of other) (index_of row)) };

    ghost same_itself: { (row : Self) → is_same row row ≡ true };
}

impl TableRow for ContextRow {
    type Index = Name;

    ghost is_bad_row = { is_bad_context };

    ghost is_same = { is_same_context };

    ghost index_of = { λ row. row.name };

    ghost same_index = { same_context };

    ghost same_itself = { context_itself };

    fn is_bad(&self) -> bool {
        false
    }

    fn index(&self) -> Name {
        self.name.copy()
    }

    fn has_index_of(&self, other: &ContextRow) -> bool {
        self.name == other.name
    }
}

impl NamedRow for ContextRow {
    ghost name_of = { context_name };

    ghost rank = { context_rank };

    ghost rank_total = { equal_total };

    fn name(&self) -> &Name {
        &self.name
    }

    fn ranking(&self, _other: &ContextRow) -> Ordering {
        Ordering::Equal
    }

    fn copy(&self) -> Self {
        ContextRow {
            name: self.name.copy(),
        }
    }
}

impl TableRow for GroupRow {
    type Index = (u32, Name);

    ghost is_bad_row = { is_bad_group };

    ghost is_same = { is_same_group };

    ghost index_of = { λ row. (row.model, row.name) };

    ghost same_index = { same_group };

    ghost same_itself = { group_itself };

    fn is_bad(&self) -> bool {
        self.model == 0
            || self.model > MAX_INTEGER32
            || self.name.as_slice().is_empty()
            || self.group.as_slice().is_empty()
    }

    fn index(&self) -> (u32, Name) {
        (self.model, self.name.copy())
    }

    fn has_index_of(&self, other: &GroupRow) -> bool {
        self.model == other.model && self.name == other.name
    }
}

impl NamedRow for GroupRow {
    ghost name_of = { group_name };

    ghost rank = { group_rank };

    ghost rank_total = { on_total (λ (row : Group). row.model) nat_cmp_total };

    fn name(&self) -> &Name {
        &self.name
    }

    fn ranking(&self, other: &GroupRow) -> Ordering {
        self.model.cmp(&other.model)
    }

    fn copy(&self) -> Self {
        GroupRow {
            model: self.model,
            name: self.name.copy(),
            group: self.group.copy(),
        }
    }
}

impl TableRow for AccessRow {
    type Index = (Name, (Name, (u32, u8)));

    ghost is_bad_row = { is_bad_access };

    ghost is_same = { is_same_access };

    ghost index_of = { λ row. (row.group, (row.prefix, (row.model, level_number row.level))) };

    ghost same_index = { same_access };

    ghost same_itself = { access_itself };

    fn is_bad(&self) -> bool {
        self.group.as_slice().is_empty() || self.model > MAX_INTEGER32
    }

    fn index(&self) -> (Name, (Name, (u32, u8))) {
        let numbers = (self.model, self.level.number());
        (self.group.copy(), (self.prefix.copy(), numbers))
    }

    fn has_index_of(&self, other: &AccessRow) -> bool {
        self.group == other.group
            && self.prefix == other.prefix
            && self.model == other.model
            && self.level.number() == other.level.number()
    }
}

impl NamedRow for AccessRow {
    ghost name_of = { access_name };

    ghost rank = { access_order };

    ghost rank_total = { access_order-total };

    fn name(&self) -> &Name {
        &self.group
    }

    fn ranking(&self, other: &AccessRow) -> Ordering {
        let (first, second) = (self.prefix.as_slice().len(), other.prefix.as_slice().len());
        self.specificity()
            .cmp(&other.specificity())
            .then(first.cmp(&second))
            .then(self.level.number().cmp(&other.level.number()))
    }

    fn copy(&self) -> Self {
        AccessRow {
            group: self.group.copy(),
            prefix: self.prefix.copy(),
            model: self.model,
            level: self.level,
            matching: self.matching,
            read: self.read.copy(),
            write: self.write.copy(),
            notify: self.notify.copy(),
        }
    }
}

impl TableRow for FamilyRow {
    type Index = (Name, Oid);

    ghost is_bad_row = { is_bad_family };

    ghost is_same = { is_same_family };

    ghost index_of = { λ row. (row.view, row.subtree) };

    ghost same_index = { same_family };

    ghost same_itself = { family_itself };

    fn is_bad(&self) -> bool {
        self.view.as_slice().is_empty()
    }

    fn index(&self) -> (Name, Oid) {
        (self.view.copy(), self.subtree_copy())
    }

    fn has_index_of(&self, other: &FamilyRow) -> bool {
        self.view == other.view && self.subtree.as_slice() == other.subtree.as_slice()
    }
}

impl NamedRow for FamilyRow {
    ghost name_of = { family_name };

    ghost rank = { family_order };

    ghost rank_total = { family_order-total };

    fn name(&self) -> &Name {
        &self.view
    }

    fn ranking(&self, other: &FamilyRow) -> Ordering {
        self.order(other)
    }

    fn copy(&self) -> Self {
        FamilyRow {
            view: self.view.copy(),
            subtree: self.subtree_copy(),
            mask: self.mask.copy(),
            include: self.include,
        }
    }
}
