//! `snmpsec diagnose`: what became of each request in a capture. It is a program of its own, which `snmpsec` starts.
#![tactic(auto)]

use diagnose::Diagnose;
use snmpsec_commands::run::run;
use std::process::ExitCode;

mod arguments;
mod diagnose;
mod refused_file;

fn main(rt: HostRuntime) -> ExitCode {
    ExitCode::from(run(&Diagnose, &rt, &mut rt.stdout(), &mut rt.stderr()))
}
