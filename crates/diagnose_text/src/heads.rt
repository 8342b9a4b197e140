//! The line of a datagram: when it was captured, from whom to whom it went, and what it is.

use crate::facts::{First, PduNames, What};
use crate::names::{level_name, pdu_name};
use snmpsec_access::name_text;
use std::alloc::{AllocError, Global};

/// When a datagram was captured.
#[derive(Clone, Copy, Drop)]
pub(crate) struct Stamp {
    /// In seconds.
    pub(crate) seconds: u64,
    /// In microseconds after that.
    pub(crate) micros: u32,
}

impl Stamp {
    /// How many microseconds it is after another one, or none.
    pub(crate) fn since(self, other: Stamp) -> u64 {
        self.in_micros().saturating_sub(other.in_micros())
    }

    /// The moment in microseconds, as far as 64 bits hold it.
    fn in_micros(self) -> u64 {
        self.seconds
            .saturating_mul(1_000_000)
            .saturating_add(u64::from(self.micros))
    }
}

/// Adds the time of day of a stamp, in UTC, with its microseconds.
pub(crate) fn put_time(out: &mut String, at: Stamp) -> Result<(), AllocError> {
    put_clock(out, at.seconds)?;
    let micros = at.micros;
    write!(out, ".{micros:06}")
}

/// Adds the time of day, in UTC, at this second since 1970.
pub(crate) fn put_clock(out: &mut String, seconds: u64) -> Result<(), AllocError> {
    let second = seconds % 86_400;
    let (hours, minutes, seconds) = (second / 3_600, second / 60 % 60, second % 60);
    write!(out, "{hours:02}:{minutes:02}:{seconds:02}")
}

/// Adds a span in milliseconds with one digit below.
pub(crate) fn put_span(out: &mut String, micros: u64) -> Result<(), AllocError> {
    let (whole, tenth) = (micros / 1_000, micros / 100 % 10);
    write!(out, "{whole}.{tenth} ms")
}

/// Adds the line of the first datagram of an exchange.
pub(crate) fn put_head(
    alloc: Global,
    out: &mut String,
    number: u64,
    first: &First,
) -> Result<(), AllocError> {
    write!(out, "{number}  ")?;
    put_time(out, first.at)?;
    out.push_str("  ")?;
    if let Some(route) = first.route {
        let (from, to) = (route.from, route.to);
        write!(out, "{from} > {to}  ")?;
    }
    put_sender(alloc, out, first)?;
    if let Some(context) = &first.context {
        let name = name_text(alloc, context)?;
        write!(out, "context {name}  ")?;
    }
    put_what(out, &first.what)?;
    out.push_str("\n")
}

/// Adds a user name and a level, with two blanks behind them, if it is known who sends. The empty name isn't printed.
fn put_sender(alloc: Global, out: &mut String, first: &First) -> Result<(), AllocError> {
    let Some(sender) = &first.sender else {
        return Ok(());
    };
    let user = sender.user.as_slice();
    if !user.is_empty() {
        let name = name_text(alloc, user)?;
        write!(out, "{name} ")?;
    }
    out.push_str(match sender.level {
        Some(level) => level_name(level),
        None => "privacy without authentication",
    })?;
    out.push_str("  ")
}

/// Adds what a datagram is.
fn put_what(out: &mut String, what: &What) -> Result<(), AllocError> {
    match what {
        What::Discovery => out.push_str("discovery"),
        What::Pdu(pdu) => put_pdu(out, pdu),
        What::Sealed { is_guess: true } => out.push_str("sealed (its direction is a guess)"),
        What::Sealed { is_guess: false } => out.push_str("sealed"),
        What::Unreadable => out.push_str("not read"),
    }
}

/// Adds a PDU: its name and the names of its variables.
fn put_pdu(out: &mut String, pdu: &PduNames) -> Result<(), AllocError> {
    out.push_str(pdu_name(pdu.kind))?;
    for name in &pdu.names {
        write!(out, " {name}")?;
    }
    put_more(out, pdu.more)
}

/// Adds how many more there are, if there are any.
pub(crate) fn put_more(out: &mut String, more: usize) -> Result<(), AllocError> {
    if more == 0 {
        return Ok(());
    }
    write!(out, " and {more} more")
}
