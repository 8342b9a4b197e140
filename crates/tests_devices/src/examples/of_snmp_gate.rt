//! `snmp_gate`: a Set goes out once, and a copy of it has the outcome of the first.
use snmp_gate::{RememberedSets, ResponseStatus, SetNote, set_digest, set_outcome};
use std::test::Fail;

#[test]
fn a_set_goes_out_once(rt: HostRuntime) -> Result<(), Fail> {
    let digest = set_digest(b"0\x03\x02\x01\x03");
    let mut sets = RememberedSets::new(rt.alloc());
    assert_eq!(rt; sets.note(1000, &digest)?, SetNote::New);
    assert_eq!(rt; sets.note(2000, &digest)?, SetNote::Repeated(None));
    let outcome = set_outcome(17, 1, 1);
    assert_eq!(rt;
        outcome,
        ResponseStatus {
            status: 17,
            index: 1
        }
    );
    sets.tell(&digest, outcome);
    assert_eq!(rt; sets.note(302_001, &digest)?, SetNote::New);
    Ok(())
}
