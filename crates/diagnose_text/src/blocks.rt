//! The text of an exchange: the line of its first datagram, and what became of it below.

use crate::answers::{put_answer, put_claim, put_refusal};
use crate::facts::{Answer, First, Remark};
use crate::heads::put_head;
use diagnose_exchanges::{EXCHANGES_LIMIT, Ending, Exchange};
use snmp_msg::Refusal;
use std::alloc::{AllocError, Global};

/// The text of an exchange.
pub(crate) fn block_text<K: Drop>(
    alloc: Global,
    exchange: &Exchange<K, First, Answer>,
) -> Result<String, AllocError> {
    let mut text = String::new(alloc);
    put_head(alloc, &mut text, exchange.number, &exchange.first)?;
    put_repeats(&mut text, &exchange.first)?;
    text.push_str(remark_line(exchange.first.remark))?;
    put_ending(alloc, &mut text, exchange)?;
    Ok(text)
}

/// Adds which datagram it repeats, if it is a copy or a retransmission.
fn put_repeats(out: &mut String, first: &First) -> Result<(), AllocError> {
    if let Some(number) = first.copy_of {
        let note = match first.refusal {
            Some(Refusal::NotInWindow) => ", a replay that the time window refuses",
            _ => "",
        };
        write!(out, "    copy of {number}{note}\n")?;
    }
    match first.again {
        Some(sent) => {
            let number = sent.number;
            write!(out, "    retransmission of {number}\n")
        }
        None => Ok(()),
    }
}

/// The line of a remark.
fn remark_line(remark: Remark) -> &'static str {
    match remark {
        Remark::Nothing => "",
        Remark::WindowNotJudged => {
            "    window not judged: nothing is known of the engine's clock yet\n"
        }
        Remark::NoRequest => "    its request isn't in the capture, or has its answer\n",
        Remark::EnginesLimit => "    not opened: over 65536 engines\n",
        Remark::OtherUser => "    not taken as the answer: its user isn't the request's\n",
        Remark::OtherLevel => "    not taken as the answer: its level isn't the request's\n",
        Remark::OtherRequestId => {
            "    not taken as the answer: its request-id isn't the request's\n"
        }
        Remark::NotTaken => "    not taken as the answer, since it is refused\n",
    }
}

/// Adds what became of the exchange.
fn put_ending<K: Drop>(
    alloc: Global,
    out: &mut String,
    exchange: &Exchange<K, First, Answer>,
) -> Result<(), AllocError> {
    let first = &exchange.first;
    match (&exchange.ending, &exchange.claim) {
        (Ending::Waits(_) | Ending::Alone, _) => put_alone(out, first),
        (Ending::Answered { answer, .. }, claim) => {
            if let Some(claim) = claim {
                let by = claim.by;
                write!(
                    out,
                    "    datagram {by} refused it before, without authentication\n"
                )?;
            }
            put_answer(alloc, out, first, answer)
        }
        (Ending::SentAgain(number), _) => {
            write!(out, "    sent again and answered as {number}\n")
        }
        (_, Some(claim)) => put_claim(out, first, &claim.answer),
        (ending, None) => {
            put_no_answer(out, ending)?;
            put_refusal(out, first.refusal)
        }
    }
}

/// Adds why this configuration refuses what isn't answered. That isn't repeated for a copy.
fn put_alone(out: &mut String, first: &First) -> Result<(), AllocError> {
    if first.copy_of.is_some() {
        return Ok(());
    }
    put_refusal(out, first.refusal)
}

/// Adds that there is no answer, or that too many exchanges wait.
fn put_no_answer<K: Drop>(out: &mut String, ending: &Ending<K, Answer>) -> Result<(), AllocError> {
    match ending {
        Ending::NotFollowed => write!(
            out,
            "    not followed further: over {EXCHANGES_LIMIT} exchanges wait\n"
        ),
        _ => out.push_str("    no answer in the capture\n"),
    }
}
