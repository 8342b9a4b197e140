//! Views and answers as words of a line.

ghost use Rattle.std.specs.Prelude.{◌≡◌};
ghost use Rattle.snmpsec_access.specs.Words as spec;

use vacm_core::{Access, ViewType};

/// The word for a view.
pub fn view_word(view: ViewType) -> &'static str
    ensures { result.now ≡ spec.view_word view }
{
    match view {
        ViewType::Read => "read",
        ViewType::Write => "write",
        ViewType::Notify => "notify",
    }
}

/// The name of an answer (RFC 3415, section 3).
pub fn access_word(access: Access) -> &'static str
    ensures { result.now ≡ spec.access_word access }
{
    match access {
        Access::AccessAllowed => "accessAllowed",
        Access::NotInView => "notInView",
        Access::NoSuchView => "noSuchView",
        Access::NoAccessEntry => "noAccessEntry",
        Access::NoGroupName => "noGroupName",
        Access::NoSuchContext => "noSuchContext",
    }
}
