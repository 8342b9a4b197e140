//! The JSON object of an exchange: the facts of its text under fixed names. What isn't known is null.

use crate::facts::{Answer, First, PduNames, Remark, Says, What};
use crate::heads::put_time;
use crate::names::{level_name, pdu_name, status_name};
use crate::values::variable_object;
use crate::view_lines::view_object;
use diagnose_exchanges::{Claim, Ending, Exchange};
use serde_json::{Value as Json, json, put};
use snmp_ber::Level;
use snmp_msg::Refusal;
use snmpsec_access::name_text;
use snmpsec_causes::cause;
use std::alloc::{AllocError, Global};
use std::net::SocketAddr;

/// The line of an exchange.
pub(crate) fn object_line<K: Drop>(
    alloc: Global,
    exchange: &Exchange<K, First, Answer>,
) -> Result<String, AllocError> {
    let request = first_object(alloc, exchange.number, &exchange.first)?;
    let ending = ending_object(alloc, exchange)?;
    let counts = exchange.counts;
    let object = json!(in alloc; {"request": request, "ending": ending, "counts": counts})?;
    line_of(alloc, &object)
}

/// The line of an object.
pub(crate) fn line_of(alloc: Global, object: &Json) -> Result<String, AllocError> {
    let text = object.to_string(alloc)?;
    format!(in alloc; "{text}\n")
}

/// The object of a first datagram. It has the context if that isn't the empty one.
fn first_object(alloc: Global, number: u64, first: &First) -> Result<Json, AllocError> {
    let mut object = captured_object(alloc, number, first)?;
    put_sender(alloc, &mut object, first)?;
    put_judgement(alloc, &mut object, first)?;
    if let Some(context) = &first.context {
        let name = name_text(alloc, context)?;
        put_member(alloc, &mut object, "context", Json::from(name))?;
    }
    Ok(object)
}

/// The object of a datagram by how it was captured.
fn captured_object(alloc: Global, number: u64, first: &First) -> Result<Json, AllocError> {
    let mut time = String::new(alloc);
    put_time(&mut time, first.at)?;
    json!(in alloc; {
        "datagram": number,
        "seconds": first.at.seconds,
        "microseconds": first.at.micros,
        "time": time,
        "from": end_or_null(alloc, first.route.map(|route| route.from))?,
        "to": end_or_null(alloc, first.route.map(|route| route.to))?
    })
}

/// Puts who sends it, and what it is.
fn put_sender(alloc: Global, object: &mut Json, first: &First) -> Result<(), AllocError> {
    let user = name_text(alloc, first.user())?;
    put_member(alloc, object, "user", Json::from(user))?;
    let level = Json::try_from_str(alloc, level_word(first))?;
    put_member(alloc, object, "level", level)?;
    let engine = match &first.engine {
        Some(engine) => Json::from(format!(in alloc; "{engine}")?),
        None => Json::Null,
    };
    put_member(alloc, object, "engine", engine)?;
    let what = what_object(alloc, &first.what)?;
    put_member(alloc, object, "what", what)
}

/// Puts which datagram it repeats, and what is said of it.
fn put_judgement(alloc: Global, object: &mut Json, first: &First) -> Result<(), AllocError> {
    put_member(alloc, object, "copy_of", Json::from(first.copy_of))?;
    let again = first.again.map(|again| again.number);
    put_member(alloc, object, "retransmission_of", Json::from(again))?;
    let remark = Json::try_from_str(alloc, remark_word(first.remark))?;
    put_member(alloc, object, "remark", remark)?;
    let refused = refusal_or_null(alloc, first.refusal)?;
    put_member(alloc, object, "refused", refused)
}

/// Puts a further member into an object.
fn put_member(alloc: Global, object: &mut Json, name: &str, value: Json) -> Result<(), AllocError> {
    match object.as_object_mut() {
        Some(members) => put(members, alloc, name, value),
        None => Ok(()),
    }
}

/// An address with its port, or null.
pub(crate) fn end_or_null(alloc: Global, endpoint: Option<SocketAddr>) -> Result<Json, AllocError> {
    match endpoint {
        Some(endpoint) => Ok(Json::from(format!(in alloc; "{endpoint}")?)),
        None => Ok(Json::Null),
    }
}

/// The word of a level.
fn level_word(first: &First) -> &'static str {
    match &first.sender {
        Some(sender) => match sender.level {
            Some(level) => level_name(level),
            None => "invalid",
        },
        None => level_name(Level::NoAuthNoPriv),
    }
}

/// What the datagram is.
fn what_object(alloc: Global, what: &What) -> Result<Json, AllocError> {
    match what {
        What::Discovery => json!(in alloc; {"kind": "discovery"}),
        What::Pdu(pdu) => pdu_object(alloc, pdu),
        What::Sealed { is_guess } => json!(in alloc; {"kind": "sealed", "guess": *is_guess}),
        What::Unreadable => json!(in alloc; {"kind": "unreadable"}),
    }
}

/// A PDU.
fn pdu_object(alloc: Global, pdu: &PduNames) -> Result<Json, AllocError> {
    let mut names = Vec::new(alloc);
    for name in &pdu.names {
        names.push(Json::try_from_str(alloc, name)?)?;
    }
    let names = Json::from(names);
    json!(in alloc; {"kind": pdu_name(pdu.kind), "names": names, "more_names": pdu.more})
}

/// The word of a remark.
fn remark_word(remark: Remark) -> &'static str {
    match remark {
        Remark::Nothing => "",
        Remark::WindowNotJudged => "window not judged",
        Remark::NoRequest => "no request waits for it",
        Remark::EnginesLimit => "over 65536 engines",
        Remark::OtherUser => "not the answer: another user",
        Remark::OtherLevel => "not the answer: another level",
        Remark::OtherRequestId => "not the answer: another request-id",
        Remark::NotTaken => "not the answer: refused",
    }
}

/// A refusal by this configuration, or null.
fn refusal_or_null(alloc: Global, refusal: Option<Refusal>) -> Result<Json, AllocError> {
    match refusal {
        Some(refusal) => refusal_object(alloc, refusal),
        None => Ok(Json::Null),
    }
}

/// A refusal by this configuration, with what it mostly comes from.
fn refusal_object(alloc: Global, refusal: Refusal) -> Result<Json, AllocError> {
    json!(in alloc; {"number": refusal.number(), "name": refusal.name(), "cause": cause(refusal)})
}

/// What became of the exchange.
fn ending_object<K: Drop>(
    alloc: Global,
    exchange: &Exchange<K, First, Answer>,
) -> Result<Json, AllocError> {
    let first = &exchange.first;
    match (&exchange.ending, &exchange.claim) {
        (Ending::Waits(_) | Ending::Alone, _) => json!(in alloc; {"kind": "alone"}),
        (Ending::Answered { by, answer }, None) => answer_object(alloc, first, *by, answer),
        (Ending::Answered { by, answer }, Some(claim)) => {
            let mut object = answer_object(alloc, first, *by, answer)?;
            put_member(
                alloc,
                &mut object,
                "before",
                claim_object(alloc, first, claim)?,
            )?;
            Ok(object)
        }
        (Ending::SentAgain(number), _) => {
            json!(in alloc; {"kind": "sent again", "answered_as": *number})
        }
        (_, Some(claim)) => claim_object(alloc, first, claim),
        (Ending::NoAnswer, None) => json!(in alloc; {"kind": "no answer"}),
        (Ending::NotFollowed, None) => json!(in alloc; {"kind": "not followed further"}),
    }
}

/// What a Report without authentication says.
fn claim_object(alloc: Global, first: &First, claim: &Claim<Answer>) -> Result<Json, AllocError> {
    let mut object = answer_object(alloc, first, claim.by, &claim.answer)?;
    put_member(alloc, &mut object, "authentic", Json::from(false))?;
    Ok(object)
}

/// What the answer of an exchange says.
fn answer_object(
    alloc: Global,
    first: &First,
    by: u64,
    answer: &Answer,
) -> Result<Json, AllocError> {
    let mut views = Vec::new(alloc);
    for viewed in &answer.views {
        views.push(view_object(alloc, viewed)?)?;
    }
    json!(in alloc; {
        "kind": "answered",
        "datagram": by,
        "after_microseconds": answer.at.since(first.at),
        "in_window": answer.in_window,
        "says": says_object(alloc, &answer.says)?,
        "views": Json::from(views)
    })
}

/// What an answer says.
fn says_object(alloc: Global, says: &Says) -> Result<Json, AllocError> {
    match says {
        Says::Engine(engine) => {
            let engine = format!(in alloc; "{engine}")?;
            json!(in alloc; {"kind": "engine", "engine": engine})
        }
        Says::Values(values, more) => {
            let mut list = Vec::new(alloc);
            for variable in values {
                list.push(variable_object(alloc, variable)?)?;
            }
            let list = Json::from(list);
            json!(in alloc; {"kind": "values", "values": list, "more_values": *more})
        }
        Says::Error(status, at) => {
            let name = status_name(*status);
            json!(in alloc; {"kind": "error", "name": name, "status": *status, "index": *at})
        }
        Says::Report(counter, value) => json!(in alloc; {
            "kind": "report", "counter": Json::try_from_str(alloc, counter)?, "value": Json::from(*value)
        }),
        Says::Unread(refusal) => {
            let refusal = refusal_object(alloc, *refusal)?;
            json!(in alloc; {"kind": "not read", "refused": refusal})
        }
    }
}
