//! A hint: what is odd of which row.

use snmpsec_config::ConfigTable;
use vacm_core::ViewType;

/// What isn't a fault in a row of a configuration and is probably a mistake.
#[derive(Clone, Copy)]
pub enum Oddity {
    /// A user whom no group row of the user-based security model names.
    UserWithoutGroup,
    /// A group row whose group no access row has.
    GroupWithoutAccess,
    /// A group row of the user-based security model whose name isn't a user's.
    NameWithoutUser,
    /// An access row whose group no group row has.
    GroupWithoutName,
    /// An access row that names this view, and no family row has it.
    ViewWithoutFamily(ViewType),
    /// An access row with a write view at the level noAuthNoPriv.
    WriteWithoutAuth,
    /// A family row whose view no access row names.
    ViewWithoutAccess,
}

impl Oddity {
    /// The table of the row.
    pub(crate) fn table(self) -> ConfigTable {
        match self {
            Oddity::UserWithoutGroup => ConfigTable::User,
            Oddity::GroupWithoutAccess | Oddity::NameWithoutUser => ConfigTable::Group,
            Oddity::GroupWithoutName | Oddity::ViewWithoutFamily(_) | Oddity::WriteWithoutAuth => {
                ConfigTable::Access
            }
            Oddity::ViewWithoutAccess => ConfigTable::Family,
        }
    }

    /// What is odd, in words, after which the name comes.
    pub(crate) fn words(self) -> &'static str {
        match self {
            Oddity::UserWithoutGroup => "no group row of model 3 has the name ",
            Oddity::GroupWithoutAccess => "no access row has the group ",
            Oddity::NameWithoutUser => "no user has the name ",
            Oddity::GroupWithoutName => "no group row has the group ",
            Oddity::ViewWithoutFamily(ViewType::Read) => "no family row has the read view ",
            Oddity::ViewWithoutFamily(ViewType::Write) => "no family row has the write view ",
            Oddity::ViewWithoutFamily(ViewType::Notify) => "no family row has the notify view ",
            Oddity::WriteWithoutAuth => "a message without authentication writes to the view ",
            Oddity::ViewWithoutAccess => "no access row names the view ",
        }
    }
}

/// A hint: what is odd, of the row at which position of its table, from 0, and the name that it is about.
#[derive(Clone, Copy)]
pub struct Hint<'a> {
    pub what: Oddity,
    pub position: usize,
    pub name: &'a [u8],
}
