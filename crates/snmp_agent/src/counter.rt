//! The counters of an engine besides usmStats.

ghost use Rattle.std.specs.Prelude.{◌≡◌};
ghost use Rattle.snmp_agent.specs.Counts.{drop_counter_of, one_more};

use snmp_msg::Refusal;
use snmp_outgoing::Counter;

/// The counter of a refusal that is never reported.
pub(crate) fn drop_counter_of(why: Refusal) -> Option<Counter>
    ensures { result ≡ drop_counter_of why }
{
    match why {
        Refusal::BadVersion => Some(Counter::InBadVersions),
        Refusal::NotMessage
        | Refusal::NotSecurity
        | Refusal::NotScoped
        | Refusal::BadScoped
        | Refusal::BadPdu => Some(Counter::InAsnParseErrs),
        Refusal::UnknownModel => Some(Counter::UnknownSecurityModels),
        Refusal::InvalidFlags => Some(Counter::InvalidMsgs),
        _ => None,
    }
}

/// The counters with one more in this one.
pub(crate) fn one_more(counts: [u32; 8], counter: Option<Counter>) -> [u32; 8]
    ensures { result ≡ one_more counts counter }
{
    let mut counts = counts;
    if let Some(counter) = counter {
        let at = counter.place();
        counts[at] = counts[at].wrapping_add(1);
    }
    counts
}
