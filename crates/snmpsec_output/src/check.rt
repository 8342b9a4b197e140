//! `snmpsec check-access`: whether a configuration lets a message see a variable.

ghost use Rattle.std.specs.Prelude.{◌≡◌, ◌++◌, [], IfOk, IfErr, codes, map};
ghost use Rattle.std.specs.Str.{IsUtf8};
ghost use Rattle.toml.specs.Parse.{parse_document};
ghost use Rattle.vacm_core.specs.Allowed.{Requester, Allowed};
ghost use Rattle.snmpsec_output.specs.Questions.{Asked, Asks, IsContextWord, IsFirstWrong};
ghost use Rattle.snmpsec_output.specs.Questions.{ChecksAccess, Printed};
ghost use Rattle.snmpsec_access.specs.Words.{access_word};
ghost use Rattle.snmpsec_output.specs.Words.{access_status};

use crate::arguments::{Argument, bad_word};
use crate::output::Output;
use crate::words::{model_of, status_of, view_of};
use snmp_ber::{Level, Oid};
use snmpsec_access::access_word;
use snmpsec_config::{AccessConfig, level_of};
use std::alloc::{AllocError, Global};
use vacm_core::{Access, Vacm, ViewType};

/// A question: who asks, for which view, and for which variable.
#[derive(Drop)]
pub(crate) struct Question<'a> {
    pub(crate) model: u32,
    pub(crate) name: &'a str,
    pub(crate) level: Level,
    pub(crate) view: ViewType,
    pub(crate) context: &'a str,
    pub(crate) variable: Oid,
}

/// What `snmpsec check-access` prints for a configuration and the words MODEL, NAME, LEVEL, VIEW, CONTEXT and
/// OID: the name of the answer, with status 0 for accessAllowed and 1 for another.
///
/// The first argument out of its form is reported on standard error, with status 2. Then a configuration that isn't
/// read is reported by one line, with status 1. The word `@` for CONTEXT is the empty name.
pub fn check_text(alloc: Global, config: &[u8], words: &[&str; 6]) -> Result<Output, AllocError>
    ensures checks { IfOk result
        (λ output. let printed : Printed = record {
          out = output.out.items;
          err = output.err.items;
          status = output.status;
        } in
        ChecksAccess config.now (map (λ word. word.now) words.now) printed) }

    // A configuration is called no TOML only if it isn't TOML.
    ensures toml { IfOk result
        (λ output. output.out.items ≡ codes "refused config toml\n" → IsUtf8 config.now
        → parse_document config.now ≡ None) }
{
    let question = match question_of(words) {
        Ok(question) => question,
        Err(argument) => return bad_word(alloc, argument, word_of(argument, words)),
    };
    match AccessConfig::read(alloc, config) {
        Ok(config) => answer_output(alloc, answer_of(&config.access, &question)),
        Err(fault) if fault.is_memory() => Err(AllocError),
        Err(fault) => Output::refusal(alloc, &fault),
    }
}

/// Reads the words of a question. The error is the first argument whose word is out of its form.
pub(crate) fn question_of<'a>(words: &[&'a str; 6]) -> Result<Question<'a>, Argument>
    ensures asks { IfOk result
        (λ q. let message : Requester = record {
          model = q.model;
          name = q.name.now;
          level = q.level;
          context = q.context.now;
        } in
        let asked : Asked = record { message = message; view = q.view; arcs = q.variable } in
        Asks (map (λ word. word.now) words.now) asked) }
    ensures wrong { IfErr result (IsFirstWrong (map (λ word. word.now) words.now)) }
{
    let [model, name, level, view, context, variable] = *words;
    let Some(model) = model_of(model) else {
        return Err(Argument::Model);
    };
    let Some(level) = level_of(level) else {
        return Err(Argument::Level);
    };
    let Some(view) = view_of(view) else {
        return Err(Argument::View);
    };
    let Some(variable) = Oid::from_text(variable) else {
        return Err(Argument::Oid);
    };
    Ok(Question {
        model,
        name,
        level,
        view,
        context: context_of(context),
        variable,
    })
}

/// The name of a context. The word `@` is the empty one.
fn context_of(word: &str) -> &str
    ensures { IsContextWord word.now result.now }
{
    if word == "@" { "" } else { word }
}

/// The word of an argument.
pub(crate) fn word_of<'a>(argument: Argument, words: &[&'a str; 6]) -> &'a str {
    match argument {
        Argument::Model => words[0],
        Argument::Level => words[2],
        Argument::View => words[3],
        Argument::Oid => words[5],
    }
}

/// The answer of these tables.
pub(crate) fn answer_of(access: &Vacm, question: &Question<'_>) -> Access
    ensures { let q = question.entry.now in
        let message : Requester = record {
          model = q.model;
          name = q.name.now;
          level = q.level;
          context = q.context.now;
        } in
        Allowed access.now message q.view q.variable result }
{
    access.is_access_allowed(
        question.model,
        question.name.as_bytes(),
        question.level,
        question.view,
        question.context.as_bytes(),
        &question.variable,
    )
}

/// The line for an answer, on standard output.
fn answer_output(alloc: Global, answer: Access) -> Result<Output, AllocError>
    ensures out { IfOk result (λ output. output.out.items ≡ access_word answer ++ codes "\n") }
    ensures err { IfOk result (λ output. output.err.items ≡ []) }
    ensures status { IfOk result (λ output. output.status ≡ access_status answer) }
{
    let name = access_word(answer);
    let line = format!(in alloc; "{name}\n")?;
    Ok(Output::out(alloc, line.into_bytes(), status_of(answer)))
}
