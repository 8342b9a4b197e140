//! The rows of the four tables (RFC 3415, section 4).
ghost use Rattle.std.specs.Prelude.{◌≡◌, ◌↔◌, if◌then◌else◌, IsTrue};
ghost use Rattle.vacm_core.specs.Allowed.{FitsContext, FitsMessage, family_order, specificity, view_name};
ghost use Rattle.vacm_core.specs.Place.{arcs_order};
ghost use Rattle.vacm_core.specs.View.{IsExact};
ghost use Rattle.vacm_core.specs.declared.access.Access.TheVariants.{AccessAllowed, NotInView};

use crate::{Access, Mask, Name, ViewType};
use snmp_ber::{Level, Oid};
use std::cmp::Ordering;

/// A context that there is (vacmContextTable). Its index is the name.
#[derive(Drop)]
pub struct ContextRow {
    pub name: Name,
}

/// The group of a security name under a security model (vacmSecurityToGroupTable). Its index is the model and the name.
#[derive(Drop)]
pub struct GroupRow {
    /// From 1 to 2,147,483,647. The user-based security model is 3.
    pub model: u32,
    /// Not empty.
    pub name: Name,
    /// Not empty.
    pub group: Name,
}

/// How a row's prefix is compared with the context name (vacmAccessContextMatch).
#[derive(Clone, Copy, Debug, PartialEq, Eq)]
pub enum Matching {
    /// They are equal.
    Exact,
    /// The prefix begins the context name.
    Prefix,
}

/// The views of a group (vacmAccessTable). Its index is the group, the prefix, the model and the level.
#[derive(Drop)]
pub struct AccessRow {
    /// Not empty.
    pub group: Name,
    pub prefix: Name,
    /// At most 2,147,483,647; 0 is any model.
    pub model: u32,
    /// The least level that a message needs.
    pub level: Level,
    pub matching: Matching,
    /// The names of the views; an empty name isn't a view.
    pub read: Name,
    pub write: Name,
    pub notify: Name,
}

/// A subtree that a view includes or excludes (vacmViewTreeFamilyTable). Its index is the view and the subtree.
#[derive(Drop)]
pub struct FamilyRow {
    /// Not empty.
    pub view: Name,
    pub subtree: Oid,
    pub mask: Mask,
    /// Whether the subtree is in the view.
    pub include: bool,
}

/// The rows of the four tables, from which `Vacm::load` makes the tables.
#[derive(Drop)]
pub struct Rows {
    pub contexts: Vec<ContextRow>,
    pub groups: Vec<GroupRow>,
    pub access: Vec<AccessRow>,
    pub families: Vec<FamilyRow>,
}

impl AccessRow {
    /// 1 where the row is for one security model, and 0 where it is for any.
    pub(crate) fn specificity(&self) -> u8
        ensures { result ≡ specificity self.now }
    {
        if self.model == 0 { 0 } else { 1 }
    }

    /// The prefix is the context's name, or begins it where that is enough.
    fn fits_context(&self, context: &[u8]) -> bool
        ensures { IsTrue result ↔ FitsContext self.now context.now }
    {
        match self.matching {
            Matching::Exact => self.prefix.as_slice() == context,
            Matching::Prefix => context.starts_with(self.prefix.as_slice()),
        }
    }

    /// The row matches a message of its group with this security model and level, in the context of this name
    /// (RFC 3415, section 3.2).
    pub fn fits_message(&self, model: u32, level: Level, context: &[u8]) -> bool
        ensures { IsTrue result ↔ FitsMessage self.now.group model level context.now self.now }
    {
        (self.model == model || self.model == 0)
            && self.level.number() <= level.number()
            && self.fits_context(context)
    }

    /// The name of the view that is asked for.
    pub(crate) fn view(&self, view: ViewType) -> &Name
        ensures { result.now ≡ view_name view self.now }
    {
        match view {
            ViewType::Read => &self.read,
            ViewType::Write => &self.write,
            ViewType::Notify => &self.notify,
        }
    }
}

/// Compares two identifiers by the number of arcs, then by the arcs.
pub fn arcs_order(first: &[u32], second: &[u32]) -> Ordering
    ensures { result ≡ arcs_order first.now second.now }
{
    first.len().cmp(&second.len()).then(first.cmp(second))
}

impl FamilyRow {
    /// The order in which rows of one view decide (vacmViewTreeFamilyTable): by the number of arcs, then by the arcs.
    pub fn order(&self, other: &FamilyRow) -> Ordering
        ensures { result ≡ family_order self.now other.now }
    {
        arcs_order(self.subtree.as_slice(), other.subtree.as_slice())
    }

    /// The same subtree. It takes no memory.
    pub(crate) fn subtree_copy(&self) -> Oid
        ensures { result ≡ self.now.subtree }
    {
        let Ok(subtree) = self.subtree.clone() else {
            unreachable!();
        };
        subtree
    }

    /// The mask compares each arc of the subtree: there is no wildcard.
    pub fn is_exact(&self) -> bool
        ensures { IsTrue result ↔ IsExact self.now }
    {
        for k in 0..self.subtree.as_slice().len() {
            if !self.mask.compares(k) {
                return false;
            }
        }
        true
    }

    /// What the row says of a variable on which it decides.
    pub(crate) fn answer(&self) -> Access
        ensures { result ≡ (if self.now.include then AccessAllowed else NotInView) }
    {
        if self.include {
            Access::AccessAllowed
        } else {
            Access::NotInView
        }
    }
}
