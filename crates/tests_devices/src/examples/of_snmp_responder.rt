//! `snmp_responder`: who asks, and of which names a message may see the variables.
use snmp_ber::{Level, Oid};
use snmp_responder::{Viewer, no_such_object};
use snmpsec_config::{Config, ConfigFault};
use std::alloc::Global;
use std::test::Fail;

const TABLES: &[u8] = b"\
[[context]]\nname = ''\n\
[[group]]\nmodel = 3\nname = 'ann'\ngroup = 'readers'\n\
[[access]]\ngroup = 'readers'\nprefix = ''\nmatch = 'exact'\nmodel = 3\nlevel = 'noAuthNoPriv'\nread = 'all'\n\
[[family]]\nview = 'all'\nsubtree = '1.3'\ninclude = true\n";

/// Whether ann may see the variable of this name.
fn is_seen(alloc: Global, name: &Oid) -> Result<bool, ConfigFault> {
    let config = Config::read(alloc, TABLES)?;
    let viewer = Viewer {
        vacm: &config.access,
        model: 3,
        name: b"ann",
        level: Level::NoAuthNoPriv,
        context: b"",
    };
    let seen = viewer.sees(name);
    drop(config);
    Ok(seen)
}

#[test]
fn a_viewer_sees_what_its_view_includes(rt: HostRuntime) -> Result<(), Fail> {
    let name = Oid::from_text("1.3.6.1.2.1.1.5.0").ok_or("arcs")?;
    let hidden = Oid::from_text("2.1").ok_or("arcs")?;
    assert!(rt; is_seen(rt.alloc(), &name)?);
    assert!(rt; !is_seen(rt.alloc(), &hidden)?);
    assert_eq!(rt; no_such_object(&hidden).tag, 0x80);
    Ok(())
}
