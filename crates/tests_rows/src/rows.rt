//! Files of rows, and how many rows of each pass.

use crate::ber::Elements;
use crate::row::{Fault, Row, words_of};
use crate::subjects::Subject;
use crate::walk::Walks;
use anyhow::{Context, Error, bail};
use std::alloc::Global;
use std::fs;
use std::rt::Files;

/// How many rows passed, and how many failed.
#[derive(Clone, Copy)]
pub struct Count {
    pub passed: u64,
    pub failed: u64,
}

impl Count {
    /// No row.
    pub fn new() -> Count {
        Count {
            passed: 0,
            failed: 0,
        }
    }

    /// Counts those of another file too.
    pub fn add(&mut self, other: Count) {
        self.passed = self.passed.saturating_add(other.passed);
        self.failed = self.failed.saturating_add(other.failed);
    }

    /// Counts an answer. One to a row without an expected answer counts only if it differs.
    fn note(&mut self, is_same: bool, is_silent: bool) {
        if !is_same {
            self.failed = self.failed.saturating_add(1);
        } else if !is_silent {
            self.passed = self.passed.saturating_add(1);
        }
    }
}

/// What a file of rows has set up.
#[derive(Drop)]
struct State<S: Subject> {
    subject: S,
    kept: Vec<u8>,
}

/// A line: its kind, its inputs and the answer that is expected.
#[derive(Clone, Copy)]
struct Line<'a> {
    kind: &'a str,
    inputs: &'a str,
    wanted: &'a str,
}

/// The parts of a line.
fn parts_of(line: &str) -> Line<'_> {
    let (row, wanted) = line.split_once(" -> ").unwrap_or((line, ""));
    let (kind, inputs) = row.split_once(' ').unwrap_or((row, ""));
    Line {
        kind,
        inputs,
        wanted,
    }
}

impl<S: Subject> State<S> {
    /// What is answered to a line. `octets OCTETS` keeps them for words with `@`.
    fn answer(&mut self, alloc: Global, line: &Line<'_>) -> Result<String, Fault> {
        let words = words_of(alloc, line.inputs, &self.kept)?;
        let mut row = Row::new(alloc, line.kind, &words);
        if row.kind == "octets" {
            self.kept = row.octets().to_vec(alloc)?;
        } else {
            self.subject.answer(&mut row);
        }
        row.end()
    }
}

/// The answer, or why there is none.
fn told<T>(answer: Result<T, Fault>) -> Result<T, Error> {
    match answer {
        Ok(answer) => Ok(answer),
        Err(Fault::OutOfMemory) => bail!("out of memory"),
        Err(Fault::Unread(why)) => bail!("{why}"),
    }
}

/// Checks a line, and prints it if it is answered in another way.
fn check_line<R: Print + AllocGlobal, S: Subject>(
    rt: &R,
    state: &mut State<S>,
    place: (&str, usize),
    line: &Line<'_>,
    count: &mut Count,
) -> Result<(), Error> {
    let found = told(state.answer(rt.alloc(), line))?;
    let is_same = found.as_str() == line.wanted;
    if !is_same {
        println!(rt;
            "{}:{}: wanted {}, found {found}",
            place.0, place.1, line.wanted
        )?;
    }
    count.note(is_same, line.wanted.is_empty());
    Ok(())
}

/// Checks the rows of a text.
fn check_text<R: Print + AllocGlobal, S: Subject>(
    rt: &R,
    file: &str,
    text: &str,
) -> Result<Count, Error> {
    let mut count = Count::new();
    let mut state = State {
        subject: told(S::begin(rt.alloc()))?,
        kept: Vec::new(rt.alloc()),
    };
    let mut number = 0usize;
    for line in text.lines() {
        number = number.saturating_add(1);
        if !line.is_empty() && !line.starts_with('#') {
            let place = (file, number);
            check_line(rt, &mut state, place, &parts_of(line), &mut count).context(format_args!(
                "{file}:{number}"
            ))?;
        }
    }
    Ok(count)
}

/// Checks the rows of a file, and prints how many passed.
pub fn check_file<R: Files + Print + AllocGlobal, S: Subject>(
    rt: &R,
    file: &str,
) -> Result<Count, Error> {
    let text = fs::read_to_string(rt, file).context(format_args!("{file}"))?;
    let count = check_text::<R, S>(rt, file, text.as_str())?;
    println!(rt; "{file} {} passed, {} failed", count.passed, count.failed)?;
    Ok(count)
}

/// Checks the rows of a file by the subject of this name.
pub fn check_named<R: Files + Print + AllocGlobal>(
    rt: &R,
    file: &str,
    name: &str,
) -> Result<Count, Error> {
    match name {
        "ber.rows" => check_file::<R, Elements>(rt, file),
        "walk.rows" => check_file::<R, Walks>(rt, file),
        _ => bail!("{file}: no subject has this name"),
    }
}
