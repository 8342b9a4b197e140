//! `snmpsec who-sees`: who may see a variable, or some name at or below it.

ghost use Rattle.std.specs.Prelude.{◌≡◌, [], List, map, IfOk, IfErr};
ghost use Rattle.std.specs.Option.{option_map};
ghost use Rattle.vacm_core.specs.Tables.{tables_of, HaveSameRows};
ghost use Rattle.snmpsec_access.specs.Askers.{Asker};
ghost use Rattle.snmpsec_access.specs.WhoSees.{AnswerFor, AreSeeing, asker_of};
ghost use Rattle.snmpsec_output.specs.Questions.{Printed};
ghost use Rattle.snmpsec_output.specs.WhoSees.{PrintsWho, WhoWords, AsksWho, IsFirstWrong, seeing_status, views_of};

use crate::arguments::{Argument, bad_word};
use crate::check_config::refusal_and_why;
use crate::output::Output;
use crate::words::view_of;
use snmp_ber::Oid;
use snmpsec_access::{
    AllowedAsker, Extent, WhoSeesQuery, context_text, name_text, view_word, who_sees,
};
use snmpsec_config::{AccessConfig, level_word};
use std::alloc::{AllocError, Global};
use vacm_core::ViewType;

/// What `snmpsec who-sees` prints for a configuration and the words OID and VIEW: a line `MODEL NAME LEVEL
/// VIEW CONTEXT` for each question of the variable that `check-access` answers by accessAllowed, with status
/// 0, or with status 1 where there is none.
///
/// With `Extent::Below` there is a line for each of which some name at or below the variable is answered so: the
/// variable, or a longer name that begins with its arcs. Without VIEW each view is asked for. With `only_users` there
/// are the lines of names alone that are users' and support the level.
///
/// The first argument out of its form is reported on standard error, with status 2; then a configuration that is
/// refused, with what is wrong on standard error, and status 1. No key is made of a password.
pub fn who_text(
    alloc: Global,
    config: &[u8],
    variable: &str,
    view: Option<&str>,
    only_users: bool,
    extent: Extent,
) -> Result<Output, AllocError>
    ensures { IfOk result
        (λ output. let printed : Printed = record {
          out = output.out.items;
          err = output.err.items;
          status = output.status;
        } in
        let words : WhoWords = record {
          variable = variable.now;
          view = option_map (λ word. word.now) view.entry;
        } in
        PrintsWho config.now words only_users extent printed) }
{
    let asked = match asked_of(variable, view) {
        Ok(asked) => asked,
        Err(Argument::View) => return bad_word(alloc, Argument::View, view.unwrap_or("")),
        Err(argument) => return bad_word(alloc, argument, variable),
    };
    match AccessConfig::read(alloc, config) {
        Ok(config) => list_askers(alloc, &config, &asked, only_users, extent),
        Err(fault) if fault.is_memory() => Err(AllocError),
        Err(fault) => refusal_and_why(alloc, &fault),
    }
}

/// A variable, and the view of which it is asked, or all.
#[derive(Drop)]
struct Asked {
    variable: Oid,
    view: Option<ViewType>,
}

/// Reads the words. The error is the first argument whose word is out of its form.
fn asked_of(variable: &str, view: Option<&str>) -> Result<Asked, Argument>
    ensures asks { let words : WhoWords = record {
      variable = variable.now;
      view = option_map (λ word. word.now) view.entry;
    } in
        IfOk result (λ asked. AsksWho words asked.variable asked.view) }
    ensures wrong { let words : WhoWords = record {
      variable = variable.now;
      view = option_map (λ word. word.now) view.entry;
    } in
        IfErr result (IsFirstWrong words) }
{
    let Some(variable) = Oid::from_text(variable) else {
        return Err(Argument::Oid);
    };
    let Some(word) = view else {
        return Ok(Asked {
            variable,
            view: None,
        });
    };
    match view_of(word) {
        Some(view) => Ok(Asked {
            variable,
            view: Some(view),
        }),
        None => Err(Argument::View),
    }
}

/// Appends the line of who asks.
fn put_asker(alloc: Global, out: &mut String, asker: &AllowedAsker<'_>) -> Result<(), AllocError> {
    let (model, level, view) = (asker.model, level_word(asker.level), view_word(asker.view));
    let name = name_text(alloc, asker.name)?;
    let context = context_text(alloc, asker.context)?;
    write!(out, "{model} {name} {level} {view} {context}\n")
}

/// The lines of those who ask.
fn lines_of(alloc: Global, askers: &[AllowedAsker<'_>]) -> Result<String, AllocError> {
    let mut text = String::new(alloc);
    for asker in askers {
        put_asker(alloc, &mut text, asker)?;
    }
    Ok(text)
}

/// Who sees what is asked for.
fn askers_of<'a>(
    alloc: Global,
    config: &'a AccessConfig,
    asked: &'a Asked,
    only_users: bool,
    extent: Extent,
) -> Result<Vec<AllowedAsker<'a>>, AllocError>
    requires answers { AnswerFor config.now.access (tables_of config.now.rows.access) }
    requires same_rows { HaveSameRows (tables_of config.now.rows.access) config.now.access }
    ensures { IfOk result
        (λ seeing. AreSeeing (tables_of config.now.rows.access)
        (views_of asked.now.view) only_users config.now.rows.users.items extent
        asked.now.variable (map asker_of seeing.items)) }
{
    let wanted = WhoSeesQuery {
        access: &config.access,
        rows: &config.rows.access,
        users: config.rows.users.as_slice(),
        only_users,
        extent,
        variable: &asked.variable,
    };
    match asked.view {
        Some(view) => who_sees(alloc, &wanted, &[view]),
        None => who_sees(
            alloc,
            &wanted,
            &[ViewType::Read, ViewType::Write, ViewType::Notify],
        ),
    }
}

/// The lines, and the status that says whether there is one.
fn list_askers(
    alloc: Global,
    config: &AccessConfig,
    asked: &Asked,
    only_users: bool,
    extent: Extent,
) -> Result<Output, AllocError>
    requires answers { AnswerFor config.now.access (tables_of config.now.rows.access) }
    requires same_rows { HaveSameRows (tables_of config.now.rows.access) config.now.access }
    ensures listed { IfOk result
        (λ output. (seeing : List Asker) × AreSeeing (tables_of config.now.rows.access)
        (views_of asked.now.view) only_users config.now.rows.users.items extent
        asked.now.variable seeing
        × (seeing ≡ [] → output.out.items ≡ []) × (output.status ≡ seeing_status seeing)) }
    ensures err { IfOk result (λ output. output.err.items ≡ []) }
{
    let askers = askers_of(alloc, config, asked, only_users, extent)?;
    if askers.is_empty() {
        return Ok(Output::out(alloc, Vec::new(alloc), 1));
    }
    let text = lines_of(alloc, &askers)?;
    Ok(Output::out(alloc, text.into_bytes(), 0))
}
