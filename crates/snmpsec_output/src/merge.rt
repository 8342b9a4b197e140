//! `snmpsec merge-clocks`: the join of saved clocks.

ghost use Rattle.std.specs.Prelude.{map, IfOk, string_bytes};
ghost use Rattle.snmpsec_output.specs.Merge.{TellsFault, MergeAnswers};
ghost use Rattle.snmpsec_output.specs.Questions.{Printed};

use crate::clocks::clocks_words;
use crate::output::Output;
use engine_clock::laws::absorbing_each_text_merges;
use engine_clock::{ClockFault, Clocks};
use std::alloc::{AllocError, Global};

/// What `snmpsec merge-clocks` prints for files, each with its name: the saved text of the join of their
/// clocks, whatever their order and repeats, with status 0. A file that isn't a saved text is reported by its
/// name and the number of its first faulty line, the first such file alone, with status 1. The marks of a
/// file of version 1 were seen at `moment`, in seconds.
pub fn merge_text(
    alloc: Global,
    moment: u64,
    files: &[(String, Vec<u8>)],
) -> Result<Output, AllocError>
    ensures { IfOk result
        (λ output. let printed : Printed = record {
          out = output.out.items;
          err = output.err.items;
          status = output.status;
        } in
        MergeAnswers moment (map (λ file. (string_bytes file.0, file.1.items)) files.now) printed) }
{
    absorbing_each_text_merges();
    let mut joined = Clocks::new(alloc);
    for file in files {
        let clocks = match Clocks::read_saved(alloc, &file.1, moment) {
            Ok(clocks) => clocks,
            Err(fault) => return refused_clocks(alloc, &file.0, fault, &file.1),
        };
        joined.absorb(&clocks)?;
    }
    Ok(Output::out(alloc, joined.save()?, 0))
}

/// The line for a file that isn't the saved text that it should be, on standard output, with what is wrong with its
/// faulty line, and status 1.
pub fn refused_clocks(
    alloc: Global,
    name: &str,
    fault: ClockFault,
    octets: &[u8],
) -> Result<Output, AllocError>
    ensures { IfOk result
        (λ output. let printed : Printed = record {
          out = output.out.items;
          err = output.err.items;
          status = output.status;
        } in
        TellsFault name.now fault printed) }
{
    match fault {
        ClockFault::Line(line) => {
            let why = clocks_words(alloc, octets, line)?;
            let text = format!(in alloc; "refused clocks {name} line {line}\n")?;
            Ok(Output::refuse(alloc, text, Some(why)))
        }
        ClockFault::OutOfMemory => Err(AllocError),
    }
}
