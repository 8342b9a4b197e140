//! Why an argument of the command line is refused, and what is wanted.

ghost use Rattle.std.specs.Prelude.{◌≡◌, ◌++◌, [], IfOk, codes};
ghost use Rattle.snmpsec_output.specs.Questions.{argument_name};

use crate::choices::nearest;
use crate::output::Output;
use crate::variables::variable_fault;
use snmp_ber::Level;
use snmpsec_access::view_word;
use snmpsec_config::level_word;
use snmpsec_io::{Quoted, digits_fault};
use std::alloc::{AllocError, Global};
use vacm_core::ViewType;

/// An argument whose word has a form.
#[derive(Clone, Copy)]
pub(crate) enum Argument {
    Model,
    Level,
    View,
    Oid,
}

impl Argument {
    /// Its name on the command line.
    fn name(self) -> &'static str
        ensures { result.now ≡ argument_name self }
    {
        match self {
            Argument::Model => "MODEL",
            Argument::Level => "LEVEL",
            Argument::View => "VIEW",
            Argument::Oid => "OID",
        }
    }

    /// What is wrong with a word that isn't such an argument, and what is wanted.
    fn why(self, alloc: Global, word: &str) -> Result<String, AllocError> {
        match self {
            Argument::Model => argument_words(
                alloc,
                "MODEL",
                word,
                "it isn't a number from 1 to 2147483647",
                "3 is the user-based model",
            ),
            Argument::Level => level_words(alloc, word),
            Argument::View => view_words(alloc, word),
            Argument::Oid => variable_words(alloc, word),
        }
    }
}

/// What is wrong with the argument of this name, and what is wanted.
pub fn argument_words(
    alloc: Global,
    name: &str,
    word: &str,
    why: &str,
    wanted: &str,
) -> Result<String, AllocError> {
    let shown = Quoted(word).to_string(alloc)?;
    format!(in alloc; "{name} {shown}: {why}; {wanted}")
}

/// The complaint of a word that is out of its form.
pub(crate) fn bad_word(alloc: Global, argument: Argument, word: &str) -> Result<Output, AllocError>
    ensures out { IfOk result (λ output. output.out.items ≡ []) }
    ensures err { IfOk result
        (λ output. output.err.items
        ≡ codes "snmpsec: " ++ ((codes "bad word " ++ argument_name argument) ++ codes "\n")) }
    ensures status { IfOk result (λ output. output.status ≡ 2) }
{
    let why = argument.why(alloc, word)?;
    let name = argument.name();
    let text = format!(in alloc; "bad word {name}")?;
    Output::complaint(alloc, &text, Some(why))
}

/// The complaint of a word that isn't one or more pairs of hex digits.
pub(crate) fn bad_digits(alloc: Global, digits: &str) -> Result<Output, AllocError>
    ensures out { IfOk result (λ output. output.out.items ≡ []) }
    ensures err { IfOk result
        (λ output. output.err.items ≡ codes "snmpsec: " ++ (codes "bad word HEX" ++ codes "\n")) }
    ensures status { IfOk result (λ output. output.status ≡ 2) }
{
    let why = digits_words(alloc, digits)?;
    Output::complaint(alloc, "bad word HEX", Some(why))
}

/// What is wrong with the digits of a datagram.
fn digits_words(alloc: Global, digits: &str) -> Result<String, AllocError> {
    let why = match digits_fault(digits) {
        Some(fault) => format!(in alloc; "{fault}")?,
        None => String::new(alloc),
    };
    let wanted = "pairs of hex digits are wanted, as 3038; --from FILE takes other forms";
    argument_words(alloc, "HEX", digits, &why, wanted)
}

/// What is wrong with an object identifier.
fn variable_words(alloc: Global, word: &str) -> Result<String, AllocError> {
    let why = match variable_fault(word) {
        Some(fault) => format!(in alloc; "{fault}")?,
        None => String::new(alloc),
    };
    let wanted = "write numbers with dots between, as 1.3.6.1.2.1.1.5.0";
    argument_words(alloc, "OID", word, &why, wanted)
}

/// What is wrong with a word that is none of three, which are of this kind.
fn choice_words(
    alloc: Global,
    name: &str,
    kind: &str,
    choices: [&str; 3],
    word: &str,
) -> Result<String, AllocError> {
    let why = match nearest(&choices, word) {
        Some(near) => format!(in alloc; "unknown {kind}, the nearest is {near}")?,
        None => format!(in alloc; "unknown {kind}")?,
    };
    let [first, second, third] = choices;
    let wanted = format!(in alloc; "use {first}, {second} or {third}")?;
    argument_words(alloc, name, word, &why, &wanted)
}

/// What is wrong with a security level.
fn level_words(alloc: Global, word: &str) -> Result<String, AllocError> {
    let levels = [
        level_word(Level::NoAuthNoPriv),
        level_word(Level::AuthNoPriv),
        level_word(Level::AuthPriv),
    ];
    choice_words(alloc, "LEVEL", "level", levels, word)
}

/// What is wrong with a view.
fn view_words(alloc: Global, word: &str) -> Result<String, AllocError> {
    let views = [
        view_word(ViewType::Read),
        view_word(ViewType::Write),
        view_word(ViewType::Notify),
    ];
    choice_words(alloc, "VIEW", "view", views, word)
}
