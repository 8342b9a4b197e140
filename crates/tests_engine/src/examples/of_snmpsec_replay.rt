//! `snmpsec_replay`: a log is taken line by line.
use engine_clock::Clocks;
use snmp_manager::Manager;
use snmpsec_replay::replay_log;
use std::io::BufReader;
use std::test::Fail;
use usm_core::Users;

#[test]
fn each_line_has_its_answer(rt: HostRuntime) -> Result<(), Fail> {
    let users = Users::load(rt.alloc(), &[])?;
    let manager = Manager::new(rt.alloc(), users, Clocks::new(rt.alloc()));
    let mut log = BufReader::new(rt.alloc(), b"1700000000 3005\n".as_slice())?;
    let mut answers: Vec<u8> = Vec::new(rt.alloc());
    replay_log(rt.alloc(), manager, &mut log, &mut answers)?;
    let wanted = b"1 1700000000 refused 1 NotMessage\nsnmp-clocks 2\n";
    assert_eq!(rt; answers.as_slice(), wanted.as_slice());
    Ok(())
}
