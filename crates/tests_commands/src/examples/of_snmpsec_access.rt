//! `snmpsec_access`: the words of a view and of an answer, and a name as a word.
use snmpsec_access::{access_word, name_text, view_word};
use std::test::Fail;
use vacm_core::{Access, ViewType};

#[test]
fn a_name_with_a_blank_is_quoted(rt: HostRuntime) -> Result<(), Fail> {
    assert_eq!(rt; view_word(ViewType::Read), "read");
    assert_eq!(rt; access_word(Access::NotInView), "notInView");
    let word = name_text(rt.alloc(), b"tom tom")?;
    assert_eq!(rt; word.as_str(), "\"tom tom\"");
    Ok(())
}
