//! `snmpsec_output`: what `snmpsec show` prints of a word that isn't a message.
use snmpsec_output::show_text;
use std::test::Fail;

#[test]
fn a_refusal_is_a_line_with_status_1(rt: HostRuntime) -> Result<(), Fail> {
    let output = show_text(rt.alloc(), "3005")?;
    assert_eq!(rt;
        output.out.as_slice(),
        b"refused 1 NotMessage at 0\n".as_slice()
    );
    assert_eq!(rt; output.status, 1);
    Ok(())
}
