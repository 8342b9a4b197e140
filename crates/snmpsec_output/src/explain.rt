//! `snmpsec explain-access`: what `check-access` answers, and which rows decided.

ghost use Rattle.std.specs.Prelude.{◌≡◌, ◌++◌, [], ℕ, List, IfOk, codes, map};
ghost use Rattle.vacm_core.specs.Tables.{tables_of, HaveSameRows};
ghost use Rattle.vacm_core.specs.Allowed.{Allowed};
ghost use Rattle.snmpsec_output.specs.Questions.{ExplainsAccess, Printed, asked_of};
ghost use Rattle.snmpsec_access.specs.Words.{access_word};
ghost use Rattle.snmpsec_output.specs.Words.{access_status};

use crate::arguments::bad_word;
use crate::check::{Question, question_of, word_of};
use crate::output::Output;
use crate::steps::steps_text;
use crate::words::status_of;
use snmpsec_access::access_word;
use snmpsec_config::AccessConfig;
use std::alloc::{AllocError, Global};
use vacm_core::{Asking, Explained, Rows, Vacm};

/// What `snmpsec explain-access` prints for a configuration and the words of `check_text`: its answer, with
/// the same status, and then a line for each row that decided, as far as it came.
///
/// Positions are those of the configuration's tables, and count from 0. What isn't asked or isn't read is reported
/// as by `check_text`. No key is made of a password.
pub fn explain_text(alloc: Global, config: &[u8], words: &[&str; 6]) -> Result<Output, AllocError>
    ensures { IfOk result
        (λ output. let printed : Printed = record {
          out = output.out.items;
          err = output.err.items;
          status = output.status;
        } in
        ExplainsAccess config.now (map (λ word. word.now) words.now) printed) }
{
    let question = match question_of(words) {
        Ok(question) => question,
        Err(argument) => return bad_word(alloc, argument, word_of(argument, words)),
    };
    match AccessConfig::read(alloc, config) {
        Ok(config) => {
            let explained = decide(&config.access, &config.rows.access, &question);
            answer_and_rows(alloc, &explained)
        }
        Err(fault) if fault.is_memory() => Err(AllocError),
        Err(fault) => Output::refusal(alloc, &fault),
    }
}

/// What decides on the question over these tables, which are made of the rows.
fn decide(access: &Vacm, rows: &Rows, question: &Question<'_>) -> Explained
    requires { HaveSameRows (tables_of rows.now) access.now }
    ensures { let asked = asked_of question.now in Allowed
        access.now asked.message asked.view asked.arcs
        result.answer }
{
    let asking = Asking {
        model: question.model,
        name: question.name.as_bytes(),
        level: question.level,
        context: question.context.as_bytes(),
        view: question.view,
        variable: question.variable.as_slice(),
    };
    access.explain(rows, &asking)
}

/// The line for an answer, and those of the rows that decided.
fn answer_and_rows(alloc: Global, explained: &Explained) -> Result<Output, AllocError>
    ensures out { IfOk result
        (λ output. (decided : List ℕ) × (output.out.items
        ≡ (access_word explained.now.answer ++ codes "\n") ++ decided)) }
    ensures err { IfOk result (λ output. output.err.items ≡ []) }
    ensures status { IfOk result (λ output. output.status ≡ access_status explained.now.answer) }
{
    let name = access_word(explained.answer);
    let steps = steps_text(alloc, &explained.context)?;
    let text = format!(in alloc; "{name}\n{steps}")?;
    Ok(Output::out(alloc, text.into_bytes(), status_of(explained.answer)))
}
