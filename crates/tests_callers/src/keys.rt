//! A datagram that is authentic for two keys.

ghost use Rattle.std.specs.Prelude.{◌≡◌, ℕ, List, Some};
ghost use Rattle.snmp_message.specs.Layout.{Parts};
ghost use Rattle.snmp_message.specs.Security.{Fields};
ghost use Rattle.usm_keys.specs.AuthKey.{AuthKey};
ghost use Rattle.usm_users.specs.User.{User};
ghost use Rattle.usm_users.specs.Users.{user_named};
ghost use Rattle.usm_core.specs.Authentic.{AuthenticMessage};
ghost use Rattle.tests_callers.specs.Codes.{HaveOneCode};

use snmp_message::{one_cut, one_message};

/// A datagram that is authentic under the keys of two users, be they of one table of users or of two, has the same
/// message authentication code under both keys. So under the key of another user it isn't authentic, unless the two
/// codes happen to be equal; how likely that is, is the hash's affair. The function does nothing: its contract is the
/// law.
pub fn two_keys_one_code()
    ensures { (users others : List User) (w : List ℕ) (p q : Parts)
        (f g : Fields) (u v : User) (key other : AuthKey)
        → AuthenticMessage users w p f → user_named users f.user ≡ Some u → u.auth ≡ Some key
        → AuthenticMessage others w q g → user_named others g.user ≡ Some v → v.auth ≡ Some other
        → HaveOneCode key other w }
{
    one_message();
    one_cut();
}
