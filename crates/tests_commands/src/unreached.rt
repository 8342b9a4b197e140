//! What no command of the program reaches: other limits, texts of several lines, and answers that no command prints.

use capture_dumps::dump_line;
use capture_files::{Lines, packets_log};
use snmpsec_output::merge_text;
use std::alloc::Global;
use std::test::Fail;

#[test]
fn no_files_are_merged(rt: HostRuntime) -> Result<(), Fail> {
    let output = merge_text(rt.alloc(), 7, &[])?;
    assert!(rt; output.status == 0 && output.out.as_slice() == b"snmp-clocks 2\n".as_slice());
    Ok(())
}

/// The words for what was passed over of some packets, of which no line tells.
fn passed_over(alloc: Global, packets: &[Vec<u8>]) -> Result<String, Fail> {
    let told = packets_log(alloc, &[161, 162], 7, packets, &mut Lines)?;
    if !told.log.is_empty() || !told.notes.is_empty() {
        return Err("lines".into());
    }
    Ok(told.passed.words(alloc)?)
}

#[test]
fn a_packet_without_an_octet_is_not_ip(rt: HostRuntime) -> Result<(), Fail> {
    assert!(rt; passed_over(rt.alloc(), &[])?.is_empty());
    let mut packets = Vec::new(rt.alloc());
    packets.push(Vec::new(rt.alloc()))?;
    assert!(rt; passed_over(rt.alloc(), &packets)?.as_str() == "not IP 1");
    Ok(())
}

#[test]
fn the_line_of_a_dump_is_counted(rt: HostRuntime) {
    let third = b"Frame 1:\r\n\r\n0000  30 03\r\n";
    assert!(rt; dump_line(b"0000000 30 03 02 01 03\n0000005\n") == Some(1));
    assert!(rt; dump_line(third) == Some(3));
    assert!(rt; dump_line(b"0010  30\n0000\t30\n0000 30\n") == Some(2));
}
