//! `snmpsec merge-clocks`: the join of files of saved clocks.

use crate::arguments::moment_argument;
use crate::complaint::Complaint;
use crate::files::octets_of;
use clap::ArgMatches;
use snmpsec_cli::words_of;
use snmpsec_output::{Output, merge_text};
use std::io::Input;
use std::rt::Files;

/// Looks at the moment before it opens a file, and then merges the files.
pub(crate) fn merge_clocks<R: Files + Input + AllocGlobal>(
    rt: &R,
    words: &ArgMatches<'_>,
) -> Result<Output, Complaint> {
    let moment = moment_argument(rt.alloc(), words.get_str("MOMENT"))?;
    let files = files_of(rt, words_of(words, "FILE"))?;
    Ok(merge_text(rt.alloc(), moment, &files)?)
}

/// The names and the octets of the files, read whole in the order of their names.
fn files_of<R: Files + Input + AllocGlobal>(
    rt: &R,
    names: &[&str],
) -> Result<Vec<(String, Vec<u8>)>, Complaint> {
    let mut files: Vec<(String, Vec<u8>)> = Vec::new(rt.alloc());
    for name in names {
        let octets = octets_of(rt, name)?;
        files.push((name.to_string(rt.alloc())?, octets))?;
    }
    Ok(files)
}
