//! Compares with rows of data what is answered of the libraries by no export for C and by no command:
//! `tests_rows FILE..`.
//!
//! Most rows of data are asked of the library and the program by `lib/tests/rows`. Its `rows.h` has the form of a row.
//! The program prints each row that is answered in another way, and how many rows of each file passed. Its status is 1
//! if a row failed, and 2 if a file can't be read or a row can't be understood.
#![tactic(auto)]

mod asker;
mod ber;
mod octets;
mod row;
mod rows;
mod shown;
mod subjects;
mod walk;

use crate::rows::{Count, check_named};
use anyhow::{Error, ensure};
use std::env;
use std::process::ExitCode;
use std::rt::{Env, Files};

/// Checks the rows of a file by the subject of its name, which is what is after the last slash.
fn check<R: Files + Print + AllocGlobal>(rt: &R, file: &str) -> Result<Count, Error> {
    let name = match file.rsplit_once('/') {
        Some((_, name)) => name,
        None => file,
    };
    check_named(rt, file, name)
}

/// Checks the files that the arguments name. Gives whether each row passed.
fn check_files<R: Files + Env + Print + AllocGlobal>(rt: &R) -> Result<bool, Error> {
    let words: Vec<String> = env::args(rt)?.collect(rt.alloc())?;
    ensure!(words.len() > 1, "usage: tests_rows FILE..");
    let mut count = Count::new();
    for file in words.iter().skip(1) {
        count.add(check(rt, file)?);
    }
    println!(rt; "{} passed, {} failed", count.passed, count.failed)?;
    Ok(count.failed == 0)
}

fn main(rt: HostRuntime) -> ExitCode {
    match check_files(&rt) {
        Ok(true) => ExitCode::SUCCESS,
        Ok(false) => ExitCode::from(1),
        Err(fault) => {
            let _ = eprintln!(rt; "{fault:#}");
            ExitCode::from(2)
        }
    }
}
