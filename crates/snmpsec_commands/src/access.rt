//! Commands that read a configuration whole, before they look at another word.

use crate::complaint::Complaint;
use crate::files::octets_of;
use clap::ArgMatches;
use snmpsec_access::Extent;
use snmpsec_cli::{AccessWords, word_of};
use snmpsec_output::{
    Output, check_config_hinted, check_config_text, check_text, explain_text, group_why, model_of,
    open_named, sees_text, who_text,
};
use std::alloc::{AllocError, Global};
use std::io::Input;
use std::rt::Files;

/// The words of a question, in the order in which they are given.
fn question_of<'a>(words: &AccessWords<'a>) -> [&'a str; 6] {
    [
        words.model,
        words.name,
        words.level,
        words.view,
        words.context,
        words.variable,
    ]
}

/// The answer to a question, with what decides if that is wanted, and with the nearest name where the name is in no
/// group, if what explains an answer is asked for.
pub(crate) fn answer_on_access<R: Files + Input + AllocGlobal>(
    rt: &R,
    words: &AccessWords<'_>,
    is_explained: bool,
    why: bool,
) -> Result<Output, Complaint> {
    let config = octets_of(rt, words.config)?;
    let output = answer_by(rt.alloc(), &config, words, is_explained, why);
    drop(config);
    Ok(output?)
}

/// The answer to a question by a configuration.
fn answer_by(
    alloc: Global,
    config: &[u8],
    words: &AccessWords<'_>,
    is_explained: bool,
    why: bool,
) -> Result<Output, AllocError> {
    let question = question_of(words);
    let mut output = if is_explained {
        explain_text(alloc, config, &question)?
    } else {
        check_text(alloc, config, &question)?
    };
    if why && output.out.starts_with(b"noGroupName\n") {
        let model = model_of(words.model).unwrap_or(0);
        output.why = group_why(alloc, config, model, words.name)?;
    }
    Ok(output)
}

/// Who sees the variable, or some name at or below it.
pub(crate) fn who_sees<R: Files + Input + AllocGlobal>(
    rt: &R,
    words: &ArgMatches<'_>,
) -> Result<Output, Complaint> {
    let variable = word_of(words, "OID");
    let (view, only_users) = (words.get_str("VIEW"), words.get_flag("users"));
    let extent = if words.get_flag("below") {
        Extent::Below
    } else {
        Extent::Variable
    };
    let config = octets_of(rt, word_of(words, "CONFIG"))?;
    let output = who_text(rt.alloc(), &config, variable, view, only_users, extent);
    drop(config);
    Ok(output?)
}

/// What the name sees.
pub(crate) fn list_seen<R: Files + Input + AllocGlobal>(
    rt: &R,
    words: &AccessWords<'_>,
) -> Result<Output, Complaint> {
    let config = octets_of(rt, words.config)?;
    Ok(sees_text(rt.alloc(), &config, words.model, words.name)?)
}

/// What a message says, opened by the users of the configuration, with names if they are asked for.
pub(crate) fn open_message<R: Files + Input + AllocGlobal>(
    rt: &R,
    names: bool,
    name: &str,
    digits: &str,
) -> Result<Output, Complaint> {
    let config = octets_of(rt, name)?;
    Ok(open_named(rt.alloc(), names, &config, digits)?)
}

/// How many rows the configuration has or what is wrong with it, with what is probably a mistake if that is wanted. Of
/// one that is refused and looks like a file of net-snmp it is said what to do with it.
pub(crate) fn check_config<R: Files + Input + AllocGlobal>(
    rt: &R,
    name: &str,
    is_hinted: bool,
) -> Result<Output, Complaint> {
    let config = octets_of(rt, name)?;
    let output = check_octets(rt.alloc(), name, &config, is_hinted);
    drop(config);
    Ok(output?)
}

/// How many rows a configuration has or what is wrong with it, as `check_config` says.
fn check_octets(
    alloc: Global,
    name: &str,
    config: &[u8],
    is_hinted: bool,
) -> Result<Output, AllocError> {
    let mut output = if is_hinted {
        check_config_hinted(alloc, config)?
    } else {
        check_config_text(alloc, config)?
    };
    if output.status == 1 && looks_like_snmpd(config) {
        let line = format!(in alloc;
            "snmpsec: {name} looks like an snmpd.conf; import-snmpd makes a configuration of one\n"
        )?;
        output.err.extend_from_slice(line.as_bytes())?;
    }
    Ok(output)
}

/// Words with which lines of snmpd.conf begin that set who may see what (snmpd.conf(5)).
static DIRECTIVES: [&str; 12] = [
    "rouser",
    "rwuser",
    "rocommunity",
    "rwcommunity",
    "rocommunity6",
    "rwcommunity6",
    "createUser",
    "com2sec",
    "com2sec6",
    "view",
    "access",
    "group",
];

/// Whether a line of the text is one of snmpd.conf: it begins with such a word and a blank.
fn looks_like_snmpd(text: &[u8]) -> bool {
    let Ok(text) = std::str::from_utf8(text) else {
        return false;
    };
    for line in text.lines() {
        let mut words = line.split_whitespace();
        if let (Some(first), Some(second)) = (words.next(), words.next()) {
            if DIRECTIVES.contains(&first) && !second.starts_with('=') {
                return true;
            }
        }
    }
    false
}
