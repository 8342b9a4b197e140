//! A datagram in the pieces that its message authentication code is computed from.

ghost use Rattle.std.specs.Prelude.{◌≡◌, ◌+◌, ◌≤◌, ◌++◌, length, slice_range, take, drop};

use crate::security::{Cut, Security};

/// The datagram, cut round the content of msgAuthenticationParameters. The fields are `read_security`'s of
/// this datagram, whose field lies within it. Nothing is copied.
pub fn cut<'a>(datagram: &'a [u8], security: &Security<'_>) -> Cut<'a>
    requires { security.now.auth_at + length security.now.auth.now ≤ length datagram.now }
    ensures joined { datagram.now ≡ result.front.now ++ (result.field.now ++ result.back.now) }
    ensures front { result.front.now ≡ take security.now.auth_at datagram.now }
    ensures field { result.field.now
        ≡ slice_range datagram.now security.now.auth_at
        (security.now.auth_at + length security.now.auth.now) }
    ensures back { result.back.now
        ≡ drop (security.now.auth_at + length security.now.auth.now) datagram.now }
    ensures place { length result.front.now ≡ security.now.auth_at }
    ensures size { length result.field.now ≡ length security.now.auth.now }
{
    let (front, after) = datagram.split_at(security.auth_at);
    let (field, back) = after.split_at(security.auth.len());
    Cut { front, field, back }
}
