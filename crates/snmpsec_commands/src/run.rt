//! From the command line to what is written.

ghost use Rattle.std.specs.Prelude.{◌≡◌, ◌++◌, [], Ok, IfErr, IfOk};
ghost use Rattle.snmpsec_commands.specs.Complaints.{IsComplaint};
ghost use Rattle.snmpsec_commands.specs.Run.{Finishes, why_line};

use crate::complaint::Complaint;
use crate::piped::Piped;
use clap::ArgMatches;
use clap::error::ErrorKind;
use snmpsec_cli::{Command, Invocation, arguments, asked_by, parse};
use snmpsec_io::write_whole;
use snmpsec_output::Output;
use std::alloc::{AllocError, Global};
use std::io::{Input, IsTerminal, Write};
use std::rt::{Env, Files};

const OUT_OF_MEMORY: &[u8] = b"snmpsec: out of memory\n";

const CANNOT_WRITE: &[u8] = b"snmpsec: cannot write\n";

/// The commands of a program.
pub trait Program {
    /// What the command that was given prints. That of a file of datagrams is written as it goes, but for a fault. The
    /// complaint of a command that the program hasn't names the program that has it.
    fn command<R: Files + Input + AllocGlobal, O: Write, E: Write>(
        &self,
        rt: &R,
        asked: &Invocation<'_, '_>,
        out: &mut O,
        err: &mut E,
    ) -> Result<Output, Complaint>;
}

/// Runs a program over its arguments, and answers its status.
pub fn run<P: Program, R: Files + Env + Input + AllocGlobal, O: Write, E: Write + IsTerminal>(
    program: &P,
    rt: &R,
    out: &mut O,
    err: &mut E,
) -> u8 {
    let mut out = Piped::new(out);
    let answered = answer(program, rt, &mut out, err);
    finish(answered, &mut out, err)
}

/// Writes what a command prints, or that memory ran out, and returns the status. Where nobody reads standard output
/// any more, nothing is said of it.
fn finish<O: Write, E: Write>(
    answered: Result<Output, AllocError>,
    out: &mut Piped<O>,
    err: &mut E,
) -> u8
    ensures ok { IfOk answered (λ output. Finishes (O.contents out.old.writer) (O.contents out.new.writer)
        (E.contents err.old) (E.contents err.new) output result) }
    ensures err { IfErr answered (λ _. result ≡ 2) }
{
    if out.is_closed() {
        return 2;
    }
    match answered {
        Ok(output) => print(&output, out, err),
        Err(_) => {
            let _ = write_whole(err, OUT_OF_MEMORY);
            2
        }
    }
}

/// Writes what a command prints. A write that fails gives status 2.
fn print<O: Write, E: Write>(output: &Output, out: &mut Piped<O>, err: &mut E) -> u8
    ensures { Finishes (O.contents out.old.writer) (O.contents out.new.writer)
        (E.contents err.old) (E.contents err.new) output.now result }
{
    if write_whole(out, &output.out).is_err() {
        if !out.is_closed() {
            let _ = write_whole(err, CANNOT_WRITE);
        }
        return 2;
    }
    if write_whole(err, &output.err).is_err() {
        return 2;
    }
    output.status
}

/// What the program prints, beside what a command wrote as it went. At a terminal it says what is
/// wrong without asking.
fn answer<P: Program, R: Files + Env + Input + AllocGlobal, O: Write, E: Write + IsTerminal>(
    program: &P,
    rt: &R,
    out: &mut O,
    err: &mut E,
) -> Result<Output, AllocError> {
    match arguments(rt) {
        Ok(words) => {
            let output = answer_words(program, rt, words.as_slice(), out, err);
            drop(words);
            output
        }
        Err(fault) => usage(rt.alloc(), fault),
    }
}

/// What is printed for the words of a command line, the program's name first.
fn answer_words<P: Program, R: Files + Input + AllocGlobal, O: Write, E: Write + IsTerminal>(
    program: &P,
    rt: &R,
    words: &[String],
    out: &mut O,
    err: &mut E,
) -> Result<Output, AllocError> {
    match parse(rt.alloc(), words) {
        Ok(matches) => {
            let output = answer_matches(program, rt, &matches, out, err);
            drop(matches);
            output
        }
        Err(fault) => usage(rt.alloc(), fault),
    }
}

/// What is printed for what the parser made of them.
fn answer_matches<P: Program, R: Files + Input + AllocGlobal, O: Write, E: Write + IsTerminal>(
    program: &P,
    rt: &R,
    matches: &ArgMatches<'_>,
    out: &mut O,
    err: &mut E,
) -> Result<Output, AllocError> {
    match asked_by(rt.alloc(), matches) {
        Ok(asked) => {
            let why = asked.why || err.is_terminal();
            answer_asked(program, rt, &Invocation { why, ..asked }, out, err)
        }
        Err(fault) => usage(rt.alloc(), fault),
    }
}

/// What the command that was given prints, and what explains a refusal.
fn answer_asked<P: Program, R: Files + Input + AllocGlobal, O: Write, E: Write>(
    program: &P,
    rt: &R,
    asked: &Invocation<'_, '_>,
    out: &mut O,
    err: &mut E,
) -> Result<Output, AllocError> {
    let answered = program.command(rt, asked, out, err);
    let output = output_of(rt.alloc(), answered)?;
    if asked.why || says_why(asked) {
        return explain(rt.alloc(), output);
    }
    Ok(output)
}

/// What is printed for the answer of a command: its output, or its complaint on standard error with status 2.
fn output_of(alloc: Global, answered: Result<Output, Complaint>) -> Result<Output, AllocError>
    ensures ok { IfOk answered (λ output. result ≡ Ok output) }
    ensures err { IfErr answered (λ complaint. IfOk result (IsComplaint complaint)) }
{
    match answered {
        Ok(output) => Ok(output),
        Err(complaint) => complaint.output(alloc),
    }
}

/// Whether the command says what is wrong without being asked, as those do that are as new as that line.
fn says_why(asked: &Invocation<'_, '_>) -> bool {
    match asked.command {
        Command::Show | Command::Open => asked.words.get_str("HEX").is_none(),
        Command::Replay => asked.words.get_str("FILE").is_some(),
        Command::WhoSees
        | Command::Sees
        | Command::Datagrams
        | Command::Diagnose
        | Command::ImportSnmpd
        | Command::CheckClocks
        | Command::CheckLog => true,
        _ => false,
    }
}

/// This output with its explanation, if it has one, as the last line of standard error.
fn explain(alloc: Global, mut output: Output) -> Result<Output, AllocError>
    ensures out { IfOk result (λ told. told.out.items ≡ output.out.items) }
    ensures err { IfOk result (λ told. told.err.items ≡ output.err.items ++ why_line output.why) }
    ensures status { IfOk result (λ told. told.status ≡ output.status) }
{
    if let Some(why) = &output.why {
        let line = format!(in alloc; "snmpsec: {why}\n")?;
        output.err.extend_from_slice(line.as_bytes())?;
    }
    Ok(output)
}

/// The parser's text, on standard error whatever was asked, with status 2.
pub fn usage(alloc: Global, fault: clap::Error) -> Result<Output, AllocError>
    ensures out { IfOk result (λ output. output.out.items ≡ []) }
    ensures status { IfOk result (λ output. output.status ≡ 2) }
{
    let output = usage_of(alloc, &fault);
    drop(fault);
    output
}

/// The parser's text, with status 2. The caller keeps the fault.
fn usage_of(alloc: Global, fault: &clap::Error) -> Result<Output, AllocError>
    ensures out { IfOk result (λ output. output.out.items ≡ []) }
    ensures status { IfOk result (λ output. output.status ≡ 2) }
{
    if fault.kind() == ErrorKind::OutOfMemory {
        return Err(AllocError);
    }
    let text = fault.to_string(alloc)?;
    Ok(Output {
        out: Vec::new(alloc),
        err: text.into_bytes(),
        status: 2,
        why: None,
    })
}
