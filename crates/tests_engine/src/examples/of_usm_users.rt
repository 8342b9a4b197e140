//! `usm_users`: a name finds its user, who has a key for authentication.
use snmp_ber::Level;
use std::test::Fail;
use usm_keys::Auth;
use usm_users::{UserRow, table_of};

#[test]
fn a_name_finds_its_user(rt: HostRuntime) -> Result<(), Fail> {
    let mut rows = Vec::new(rt.alloc());
    rows.push(UserRow {
        name: b"ann".to_vec(rt.alloc())?,
        auth: Some((Auth::Sha256, b"maplesyrup".to_vec(rt.alloc())?)),
        privacy: None,
    })?;
    let table = table_of(rt.alloc(), &rows)?;
    let user = table.user_named(b"ann").ok_or("a user")?;
    assert!(rt; user.supports(Level::AuthNoPriv));
    assert!(rt; !user.supports(Level::AuthPriv));
    Ok(())
}
