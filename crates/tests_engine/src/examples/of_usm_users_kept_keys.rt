//! `usm_users`: a key is found under its user, its engine and its purpose alone.
use std::test::Fail;
use usm_keys::{Auth, localise, password_key};
use usm_users::{CachedKey, KeyCache, Purpose};

const ENGINE: &[u8] = b"\x80\x00\x1f\x88\x04k";

#[test]
fn a_key_is_found_for_its_purpose(rt: HostRuntime) -> Result<(), Fail> {
    let key = localise(&password_key(Auth::Sha1, b"maplesyrup")?, ENGINE);
    let mut cache = KeyCache::new(rt.alloc())?;
    let made = Some(CachedKey::for_authentication(key));
    cache.note_use(b"ann", ENGINE, Purpose::Authentication, made);
    assert!(rt;
        cache
            .find(b"ann", ENGINE, Purpose::Authentication)
            .is_some()
    );
    assert!(rt; cache.find(b"ann", ENGINE, Purpose::Privacy).is_none());
    Ok(())
}
