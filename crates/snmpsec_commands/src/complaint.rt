//! Why a command stops, and what explains it.

ghost use Rattle.std.specs.Prelude.{◌≡◌, ◌++◌, None, IfOk, codes};
ghost use Rattle.snmpsec_commands.specs.Complaints.{IsComplaint, Tells, TellsLine};

use snmpsec_io::ReadFault;
use snmpsec_output::{Output, argument_words};
use std::alloc::{AllocError, AllocFailed, Global};
use thiserror::Error;

/// Why a command stops before its end. It has what explains it from where it was found.
#[derive(Debug, Drop, Error)]
pub enum Complaint {
    /// A line for standard error, and what is wrong and what is wanted, for `--why`; both without the beginning
    /// `snmpsec: ` and a line feed.
    #[error("{line}")]
    Told { line: String, why: Option<String> },
    /// A growth of memory was refused.
    #[error("out of memory")]
    OutOfMemory,
}

impl From<AllocError> for Complaint {
    fn from(_fault: AllocError) -> Complaint {
        Complaint::OutOfMemory
    }
}

impl<T: Drop> From<AllocFailed<T>> for Complaint {
    fn from(_fault: AllocFailed<T>) -> Complaint {
        Complaint::OutOfMemory
    }
}

impl Complaint {
    /// A line that nothing explains.
    pub fn line(alloc: Global, line: &str) -> Complaint
        ensures { Tells line.now None result }
    {
        match String::from_str(alloc, line) {
            Ok(line) => Complaint::Told { line, why: None },
            Err(_) => Complaint::OutOfMemory,
        }
    }

    /// The file of this name can't be read.
    pub fn unread(alloc: Global, name: &str, fault: ReadFault) -> Complaint
        ensures memory { fault ≡ ReadFault.OutOfMemory → result ≡ Complaint.OutOfMemory }
        ensures line { TellsLine (codes "cannot read " ++ name.now) result }
    {
        if fault == ReadFault::OutOfMemory {
            return Complaint::OutOfMemory;
        }
        match unread_lines(alloc, name, fault) {
            Ok(complaint) => complaint,
            Err(_) => Complaint::OutOfMemory,
        }
    }

    /// The word isn't an argument of this name, for this reason, and this is wanted.
    pub fn word(alloc: Global, name: &str, word: &str, why: &str, wanted: &str) -> Complaint
        ensures { TellsLine (codes "bad word " ++ name.now) result }
    {
        match word_lines(alloc, name, word, why, wanted) {
            Ok(complaint) => complaint,
            Err(_) => Complaint::OutOfMemory,
        }
    }

    /// What is printed: the line on standard error, with status 2.
    pub fn output(self, alloc: Global) -> Result<Output, AllocError>
        ensures { IfOk result (IsComplaint self) }
    {
        match self {
            Complaint::Told { line, why } => Output::complaint(alloc, &line, why),
            Complaint::OutOfMemory => Err(AllocError),
        }
    }
}

/// The lines for a file that can't be read.
fn unread_lines(alloc: Global, name: &str, fault: ReadFault) -> Result<Complaint, AllocError>
    ensures { IfOk result (TellsLine (codes "cannot read " ++ name.now)) }
{
    let line = format!(in alloc; "cannot read {name}")?;
    let why = format!(in alloc; "{name}: {fault}")?;
    Ok(Complaint::Told {
        line,
        why: Some(why),
    })
}

/// The lines for an argument that is out of its form.
fn word_lines(
    alloc: Global,
    name: &str,
    word: &str,
    why: &str,
    wanted: &str,
) -> Result<Complaint, AllocError>
    ensures { IfOk result (TellsLine (codes "bad word " ++ name.now)) }
{
    let line = format!(in alloc; "bad word {name}")?;
    let why = argument_words(alloc, name, word, why, wanted)?;
    Ok(Complaint::Told {
        line,
        why: Some(why),
    })
}
