//! `snmpsec check-config`: whether a configuration is read, how many rows it has, and what is wrong where it isn't.

ghost use Rattle.std.specs.Prelude.{◌≡◌, ◌≢◌, ◌++◌, [], ℕ, List, IfOk, codes};
ghost use Rattle.vacm_core.specs.Tables.{tables_of};
ghost use Rattle.snmpsec_config.specs.Refusals.{refusal_line};
ghost use Rattle.snmpsec_output.specs.Questions.{Printed};
ghost use Rattle.snmpsec_output.specs.CheckConfig.{ChecksConfig, ChecksHinted};
ghost use Rattle.snmpsec_access.specs.Hints.{hints_of};

use crate::output::Output;
use snmpsec_access::hint_text;
use snmpsec_config::{AccessConfig, ConfigFault, ConfigRows};
use std::alloc::{AllocError, Global};

/// What `snmpsec check-config` prints: a line for each table with the number of its rows, and status 0.
///
/// A configuration that is refused is reported by its one line on standard output, with status 1, and on standard
/// error by what is wrong and what is wanted. No key is made of a password.
pub fn check_config_text(alloc: Global, config: &[u8]) -> Result<Output, AllocError>
    ensures { IfOk result
        (λ output. let printed : Printed = record {
          out = output.out.items;
          err = output.err.items;
          status = output.status;
        } in
        ChecksConfig config.now printed) }
{
    match AccessConfig::read(alloc, config) {
        Ok(config) => counts(alloc, &config.rows),
        Err(fault) if fault.is_memory() => Err(AllocError),
        Err(fault) => refusal_and_why(alloc, &fault),
    }
}

/// What `snmpsec check-config` prints where hints are wanted: the same, and beside the numbers of rows a line
/// on standard error for each hint, as `snmpsec_access::hints` finds them (`snmpsec_access::hint_text`).
pub fn check_config_hinted(alloc: Global, config: &[u8]) -> Result<Output, AllocError>
    ensures { IfOk result
        (λ output. let printed : Printed = record {
          out = output.out.items;
          err = output.err.items;
          status = output.status;
        } in
        ChecksHinted config.now printed) }
{
    match AccessConfig::read(alloc, config) {
        Ok(read) => counts_and_hints(alloc, config, &read.rows),
        Err(fault) if fault.is_memory() => Err(AllocError),
        Err(fault) => refusal_and_why(alloc, &fault),
    }
}

/// The lines of the numbers of rows, and beside them the hints.
fn counts_and_hints(alloc: Global, text: &[u8], rows: &ConfigRows) -> Result<Output, AllocError>
    ensures some { IfOk result (λ output. output.out.items ≢ []) }
    ensures err { IfOk result (λ output.
        hints_of rows.now.users.items (tables_of rows.now.access) ≡ [] → output.err.items ≡ []) }
    ensures status { IfOk result (λ output. output.status ≡ 0) }
{
    let mut output = counts(alloc, rows)?;
    output.err = hint_text(alloc, text, rows)?;
    Ok(output)
}

/// The lines of the numbers of rows.
fn counts(alloc: Global, rows: &ConfigRows) -> Result<Output, AllocError>
    ensures some { IfOk result (λ output. output.out.items ≢ []) }
    ensures err { IfOk result (λ output. output.err.items ≡ []) }
    ensures status { IfOk result (λ output. output.status ≡ 0) }
{
    let (users, contexts) = (rows.users.len(), rows.access.contexts.len());
    let (groups, access, families) = (
        rows.access.groups.len(),
        rows.access.access.len(),
        rows.access.families.len(),
    );
    let text = format!(in alloc;
        "user {users}\ncontext {contexts}\ngroup {groups}\naccess {access}\nfamily {families}\n"
    )?;
    Ok(Output::out(alloc, text.into_bytes(), 0))
}

/// The line of a refusal, and what is wrong beside it, on standard error, with status 1.
pub fn refusal_and_why(alloc: Global, fault: &ConfigFault) -> Result<Output, AllocError>
    ensures out { IfOk result (λ output. output.out.items ≡ refusal_line fault.now ++ codes "\n") }
    ensures err { IfOk result
        (λ output. (why : List ℕ) × (output.err.items ≡ codes "snmpsec: " ++ (why ++ codes "\n"))) }
    ensures status { IfOk result (λ output. output.status ≡ 1) }
{
    let why = fault.why(alloc)?;
    let out = format!(in alloc; "{fault}\n")?;
    let err = format!(in alloc; "snmpsec: {why}\n")?;
    Ok(Output {
        out: out.into_bytes(),
        err: err.into_bytes(),
        status: 1,
        why: None,
    })
}
