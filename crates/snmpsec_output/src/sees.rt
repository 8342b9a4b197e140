//! `snmpsec sees`: what a name may see.

ghost use Rattle.std.specs.Prelude.{◌≡◌, [], List, if◌then◌else◌, IfOk};
ghost use Rattle.vacm_core.specs.Tables.{tables_of, HaveSameRows};
ghost use Rattle.vacm_core.specs.Distinct.{HasOneRowEach};
ghost use Rattle.std.specs.List.{list_any};
ghost use Rattle.snmpsec_access.specs.Rising.{decision_of};
ghost use Rattle.snmpsec_access.specs.Seen.{AreSeen, Decided, any_includes, includes};
ghost use Rattle.snmpsec_output.specs.Questions.{Printed};
ghost use Rattle.snmpsec_output.specs.Sees.{PrintsSeen};

use crate::arguments::{Argument, bad_word};
use crate::check_config::refusal_and_why;
use crate::output::Output;
use crate::seen_lines::seen_text;
use crate::words::model_of;
use snmpsec_access::{Seen, any_includes, sees};
use snmpsec_config::AccessConfig;
use std::alloc::{AllocError, Global};

/// What `snmpsec sees` prints for a configuration and the words MODEL and NAME: for each level, view and
/// context a line `LEVEL VIEW CONTEXT ANSWER`, where each variable gets that answer, or lines `LEVEL VIEW CONTEXT +
/// SUBTREE` and `LEVEL VIEW CONTEXT - SUBTREE`, an arc that may be any as `*`, of which the last that fits a variable
/// says whether it may be seen (`snmpsec_access::sees`). The status is 0 where a line has `+`, and else 1.
///
/// A MODEL out of its form is reported on standard error, with status 2; then a configuration that is refused,
/// with what is wrong on standard error, and status 1. No key is made of a password.
pub fn sees_text(
    alloc: Global,
    config: &[u8],
    model: &str,
    name: &str,
) -> Result<Output, AllocError>
    ensures { IfOk result
        (λ output. let printed : Printed = record {
          out = output.out.items;
          err = output.err.items;
          status = output.status;
        } in
        PrintsSeen config.now model.now name.now printed) }
{
    let Some(number) = model_of(model) else {
        return bad_word(alloc, Argument::Model, model);
    };
    match AccessConfig::read(alloc, config) {
        Ok(config) => list_seen(alloc, &config, number, name.as_bytes()),
        Err(fault) if fault.is_memory() => Err(AllocError),
        Err(fault) => refusal_and_why(alloc, &fault),
    }
}

/// The lines of what the name sees, and the status that says whether one includes something.
fn list_seen(
    alloc: Global,
    config: &AccessConfig,
    model: u32,
    name: &[u8],
) -> Result<Output, AllocError>
    requires one_each { HasOneRowEach (tables_of config.now.rows.access) }
    requires same_rows { HaveSameRows (tables_of config.now.rows.access) config.now.access }
    ensures seen { IfOk result
        (λ output. (decisions : List Decided)
        × AreSeen (tables_of config.now.rows.access) model name.now decisions
        × (output.status ≡ (if any_includes decisions then 0 else 1))) }
    ensures err { IfOk result (λ output. output.err.items ≡ []) }
{
    let seen = sees(alloc, &config.access, &config.rows.access, model, name)?;
    let text = seen_text(alloc, &seen)?;
    Ok(Output::out(alloc, text.into_bytes(), seen_status(&seen)))
}

/// 0 where a row of what is seen includes something.
fn seen_status(seen: &[Seen<'_>]) -> u8
    ensures { result ≡ (if list_any (λ s. includes (decision_of s.deciding)) seen.now then 0 else 1) }
{
    if any_includes(seen) { 0 } else { 1 }
}
