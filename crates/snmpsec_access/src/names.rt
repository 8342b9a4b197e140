//! Names of rows, as sets in which they are found.

ghost use Rattle.std.specs.Prelude.{◌≡◌, ◌||◌, false, ℕ, List, IfOk, OnOk};
ghost use Rattle.std.specs.Str.{bytes_eq};
ghost use Rattle.snmpsec_access.specs.Known.{has, AreThose};
ghost use Rattle.snmpsec_access.specs.Names.{is_user, is_grouped, is_group, has_access, has_family, is_named};

use snmp_message::USER_BASED;
use std::alloc::{AllocError, Global};
use std::collections::HashSet;
use usm_users::UserRow;
use vacm_core::{AccessRow, FamilyRow, GroupRow};

/// Names, each once.
#[derive(Drop)]
pub(crate) struct Names<'a> {
    octets: HashSet<&'a [u8]>,
}

impl<'a> Names<'a> {
    /// No name.
    fn new(alloc: Global) -> Names<'a>
        ensures { (name : List ℕ) → has result name ≡ false }
    {
        Names {
            octets: HashSet::new(alloc),
        }
    }

    /// Adds a name.
    fn insert(&mut self, name: &'a [u8]) -> Result<(), AllocError>
        ensures { OnOk result
            ((other : List ℕ) → has self.new other
            ≡ (has self.old other || bytes_eq other name.now)) }
    {
        self.octets.insert(name)?;
        Ok(())
    }

    /// Whether the name is among them.
    pub(crate) fn has(&self, name: &[u8]) -> bool
        ensures { result ≡ has self.now name.now }
    {
        self.octets.contains(name)
    }

    /// The names of users.
    pub(crate) fn of_users(alloc: Global, users: &'a [UserRow]) -> Result<Names<'a>, AllocError>
        ensures { IfOk result (λ names. AreThose names (is_user users.now)) }
    {
        let mut names = Names::new(alloc);
        for row in users {
            names.insert(row.name.as_slice())?;
        }
        Ok(names)
    }

    /// The names that group rows of the user-based model have.
    pub(crate) fn of_members(alloc: Global, groups: &'a [GroupRow]) -> Result<Names<'a>, AllocError>
        ensures { IfOk result (λ names. AreThose names (is_grouped groups.now)) }
    {
        let mut names = Names::new(alloc);
        for row in groups {
            if row.model == USER_BASED {
                names.insert(row.name.as_slice())?;
            }
        }
        Ok(names)
    }

    /// The groups that group rows have.
    pub(crate) fn of_groups(alloc: Global, groups: &'a [GroupRow]) -> Result<Names<'a>, AllocError>
        ensures { IfOk result (λ names. AreThose names (is_group groups.now)) }
    {
        let mut names = Names::new(alloc);
        for row in groups {
            names.insert(row.group.as_slice())?;
        }
        Ok(names)
    }

    /// The groups that access rows have.
    pub(crate) fn with_access(
        alloc: Global,
        access: &'a [AccessRow],
    ) -> Result<Names<'a>, AllocError>
        ensures { IfOk result (λ names. AreThose names (has_access access.now)) }
    {
        let mut names = Names::new(alloc);
        for row in access {
            names.insert(row.group.as_slice())?;
        }
        Ok(names)
    }

    /// The views that family rows have.
    pub(crate) fn with_family(
        alloc: Global,
        families: &'a [FamilyRow],
    ) -> Result<Names<'a>, AllocError>
        ensures { IfOk result (λ names. AreThose names (has_family families.now)) }
    {
        let mut names = Names::new(alloc);
        for row in families {
            names.insert(row.view.as_slice())?;
        }
        Ok(names)
    }

    /// The views that access rows name.
    pub(crate) fn of_access(alloc: Global, access: &'a [AccessRow]) -> Result<Names<'a>, AllocError>
        ensures { IfOk result (λ names. AreThose names (is_named access.now)) }
    {
        let mut names = Names::new(alloc);
        for row in access {
            names.insert(row.read.as_slice())?;
            names.insert(row.write.as_slice())?;
            names.insert(row.notify.as_slice())?;
        }
        Ok(names)
    }
}
