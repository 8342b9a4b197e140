//! The words that a command was given, as the parser has them.

ghost use Rattle.std.specs.Prelude.{◌≡◌, map};
ghost use Rattle.snmpsec_cli.specs.Words.{all_given, word};

use crate::forms::{Kind, Word};
use clap::ArgMatches;

/// The word of this name, or no text where it isn't there.
pub fn word_of<'a>(words: &ArgMatches<'a>, name: &str) -> &'a str
    ensures { result.now ≡ word words.now name.now }
{
    match words.get_str(name) {
        Some(word) => word,
        None => "",
    }
}

/// The words of this name, as many as were given.
pub fn words_of<'m>(words: &'m ArgMatches<'_>, name: &str) -> &'m [&'m str]
    ensures { map (λ w. w.now) result.now ≡ all_given words.now name.now }
{
    words.get_strs(name).unwrap_or(&[])
}

/// The name of standard input as a file.
const STANDARD_INPUT: &str = "-";

/// The names of the words that are files to be read.
const FILES: [&str; 4] = ["CONFIG", "CLOCKS", "LOG", "FILE"];

/// Whether `-` stands for more than one of the files to be read. Standard input can be read once.
pub(crate) fn reads_input_twice(words: &ArgMatches<'_>) -> bool {
    let mut is_read = false;
    for name in FILES {
        for word in words_of(words, name) {
            if *word == STANDARD_INPUT {
                if is_read {
                    return true;
                }
                is_read = true;
            }
        }
    }
    false
}

/// Whether the word must be given, and isn't there.
fn is_missing(words: &ArgMatches<'_>, kind: Kind, name: &str) -> bool {
    match kind {
        Kind::Given => words.get_str(name).is_none(),
        Kind::Datagram => words.get_str(name).is_none() && words.get_str("FILE").is_none(),
        _ => false,
    }
}

/// The first of a command's words that must be given, and isn't there. The parser refuses a command line without it.
pub(crate) fn missing(words: &ArgMatches<'_>, wanted: &[Word]) -> Option<&'static str> {
    for (kind, name, _, _) in wanted {
        if is_missing(words, *kind, name) {
            return Some(name);
        }
    }
    None
}
