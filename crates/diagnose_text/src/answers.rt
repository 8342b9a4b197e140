//! The text of the answer of an exchange.

use crate::facts::{Answer, First, Says};
use crate::heads::{put_more, put_span};
use crate::names::status_name;
use crate::values::{Value, put_value};
use crate::view_lines::put_views;
use snmp_msg::Refusal;
use snmpsec_causes::cause;
use std::alloc::{AllocError, Global};

/// Adds what the answer of an exchange with this first datagram says.
pub(crate) fn put_answer(
    alloc: Global,
    out: &mut String,
    first: &First,
    answer: &Answer,
) -> Result<(), AllocError> {
    put_says(out, first, answer)?;
    put_views(alloc, out, first.asks_for_one(), &answer.views)?;
    if answer.in_window {
        return Ok(());
    }
    out.push_str("    the answer isn't in the time window of what is known of its engine\n")
}

/// Adds what an answer says, and how long after the first datagram it came.
fn put_says(out: &mut String, first: &First, answer: &Answer) -> Result<(), AllocError> {
    match &answer.says {
        Says::Report(counter, value) => put_report(out, first, answer, "", counter, *value),
        says => {
            out.push_str("    answered after ")?;
            put_span(out, answer.at.since(first.at))?;
            put_answered(out, first.refusal, says)
        }
    }
}

/// Adds what an answer says that isn't a Report.
fn put_answered(out: &mut String, refusal: Option<Refusal>, says: &Says) -> Result<(), AllocError> {
    match says {
        Says::Engine(engine) => write!(out, ": engine {engine}\n"),
        Says::Values(values, more) => {
            put_values(out, values)?;
            put_more(out, *more)?;
            out.push_str("\n")?;
            put_difference(out, refusal)
        }
        Says::Error(status, at) => {
            let name = status_name(*status);
            write!(out, ": error {name} at {at}\n")?;
            put_difference(out, refusal)
        }
        Says::Unread(refusal) => {
            out.push_str("; the answer isn't read\n")?;
            put_cause(out, *refusal)
        }
        Says::Report(..) => Ok(()),
    }
}

/// Adds variables with their values.
fn put_values(out: &mut String, values: &[(String, Value)]) -> Result<(), AllocError> {
    let mut before = ": ";
    for (name, value) in values {
        write!(out, "{before}{name} = ")?;
        put_value(out, value)?;
        before = ", ";
    }
    if values.is_empty() {
        return out.push_str(before);
    }
    Ok(())
}

/// Adds that the agent accepts what this configuration refuses, if it refuses it.
fn put_difference(out: &mut String, refusal: Option<Refusal>) -> Result<(), AllocError> {
    if refusal.is_some() {
        out.push_str("    the agent accepts it, and this configuration refuses it\n")?;
    }
    put_refusal(out, refusal)
}

/// Adds what a Report without authentication says of a request to which no true answer came.
pub(crate) fn put_claim(
    out: &mut String,
    first: &First,
    answer: &Answer,
) -> Result<(), AllocError> {
    match &answer.says {
        Says::Report(counter, value) => {
            put_report(
                out,
                first,
                answer,
                ", without authentication",
                counter,
                *value,
            )
        }
        _ => put_says(out, first, answer),
    }
}

/// Adds the counter that a Report has, with this note, and what this configuration says of the request. It refuses no
/// discovery.
fn put_report(
    out: &mut String,
    first: &First,
    answer: &Answer,
    note: &str,
    counter: &str,
    value: Option<u32>,
) -> Result<(), AllocError> {
    out.push_str("    refused by the agent after ")?;
    put_span(out, answer.at.since(first.at))?;
    write!(out, "{note}: {counter}")?;
    if let Some(value) = value {
        write!(out, " is {value}")?;
    }
    out.push_str("\n")?;
    if first.refusal.is_none() && !first.is_discovery() {
        out.push_str("    by this configuration it is accepted\n")?;
    }
    put_refusal(out, first.refusal)
}

/// Adds the line of a refusal by this configuration, if there is one.
pub(crate) fn put_refusal(out: &mut String, refusal: Option<Refusal>) -> Result<(), AllocError> {
    match refusal {
        Some(refusal) => put_cause(out, refusal),
        None => Ok(()),
    }
}

/// Adds the line of a refusal: its name and what it mostly comes from.
fn put_cause(out: &mut String, refusal: Refusal) -> Result<(), AllocError> {
    let (name, cause) = (refusal.name(), cause(refusal));
    write!(out, "    {name}: {cause}\n")
}
