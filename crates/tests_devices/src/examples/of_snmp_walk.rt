//! `snmp_walk`: a device is asked for the place before the next name that a message may see.
use snmp_ber::{Level, Oid};
use snmp_responder::Viewer;
use snmp_walk::{Column, ReadOperation};
use snmpsec_config::Config;
use std::alloc::{AllocError, Global};
use std::test::Fail;

const TABLES: &[u8] = b"\
[[context]]\nname = ''\n\
[[group]]\nmodel = 3\nname = 'ann'\ngroup = 'readers'\n\
[[access]]\ngroup = 'readers'\nprefix = ''\nmatch = 'exact'\nmodel = 3\nlevel = 'noAuthNoPriv'\nread = 'all'\n\
[[family]]\nview = 'all'\nsubtree = '1.3.6.1.2.1.2'\ninclude = true\n";

/// Whether a walk from the name asks for the place, and a Get of the hidden name for anything.
fn asked(alloc: Global, name: &Oid, place: &Oid, hidden: &Oid) -> Result<(bool, bool), Fail> {
    let config = Config::read(alloc, TABLES)?;
    let viewer = Viewer {
        vacm: &config.access,
        model: 3,
        name: b"ann",
        level: Level::NoAuthNoPriv,
        context: b"",
    };
    let is_asked = walk_asks(alloc, &viewer, name, place);
    let get = Column::new(alloc, &viewer, ReadOperation::Get, hidden);
    drop(config);
    Ok((is_asked?, get?.is_open()))
}

/// Whether a walk from the name asks for the place.
fn walk_asks(
    alloc: Global,
    viewer: &Viewer<'_>,
    name: &Oid,
    place: &Oid,
) -> Result<bool, AllocError> {
    let mut walk = Column::new(alloc, viewer, ReadOperation::GetNext, name)?;
    walk.go_on(viewer);
    Ok(walk.asked_name() == Some(place))
}

#[test]
fn a_walk_asks_for_what_may_be_seen(rt: HostRuntime) -> Result<(), Fail> {
    let name = Oid::from_text("1.3.6.1.2.1").ok_or("arcs")?;
    let hidden = Oid::from_text("1.3.6.1.2.1.1.5.0").ok_or("arcs")?;
    let place = Oid::from_text("1.3.6.1.2.1.1.2147483647").ok_or("arcs")?;
    assert_eq!(rt; asked(rt.alloc(), &name, &place, &hidden)?, (true, false));
    Ok(())
}
